// A desk in memory whose calls do what they say.
ghost use Rattle.std.specs.Prelude.{◌≡◌, None, [], true, length, take, option_map, IfOk, IsOk, OnOk, OnErr};
ghost use Rattle.std.specs.Io.{ReadsAtMost};
ghost use Rattle.std.specs.Io.KnownBytes.{ReadConsumes};
ghost use Rattle.mv_desk.specs.Calls.{HasReadCause, HasWriteCause, Opens, ReadsOnly, TakesSome, WritesTo};
ghost use Rattle.mv_desk.specs.View.{HasReport, IsSame, KeepsTelling, OpensFiles};

use super::shelf::Shelf;
use crate::{Desk, Failed, Slot};
use std::alloc::Global;

/// Files in memory that tell everything. Opening and reading never fail: a name that isn't held opens as an empty file.
///
/// Creating and writing may fail where memory runs out.
#[derive(Drop)]
pub struct HonestDesk {
    shelf: Shelf,
    opened: u64,
    write_faults: u64,
}

#[tactic(auto, unfolding(crate::specs::HonestDesk::view_of))]
impl HonestDesk {
    ghost use Rattle.mv_desk.specs.HonestDesk.{held_of, out_of, rest_of};

    /// No file is held, and nothing is open but the report.
    pub fn new(alloc: Global) -> Self
        ensures report { HasReport (⟦<HonestDesk as Desk>⟧.seen result) }
        ensures files { (name : _) → held_of result name ≡ None }
        ensures unread { (slot : _) → rest_of result slot ≡ [] }
        ensures unwritten { (slot : _) → out_of result slot ≡ [] }
    {
        HonestDesk {
            shelf: Shelf::new(alloc, Vec::new(alloc)),
            opened: 0,
            write_faults: 0,
        }
    }

    /// The bytes under a name, where it is held.
    pub fn bytes(&self, name: &str) -> Option<&[u8]>
        ensures { option_map (λ bytes. bytes.now) result ≡ held_of self.now name.now }
    {
        self.shelf.bytes(name)
    }

    /// What is still to be read from a slot.
    pub fn rest(&self, slot: Slot) -> &[u8]
        ensures { result.now ≡ rest_of self.now slot }
    {
        self.shelf.rest(slot)
    }

    /// What was written to a slot since it was created.
    pub fn out(&self, slot: Slot) -> &[u8]
        ensures { result.now ≡ out_of self.now slot }
    {
        self.shelf.out(slot)
    }
}

#[tactic(auto, unfolding(crate::specs::HonestDesk::view_of))]
impl Desk for HonestDesk {
    ghost use Rattle.mv_desk.specs.HonestDesk.{rest_of, view_of};

    ghost seen = { λ d. view_of d };

    fn open_file(&mut self, slot: Slot, name: &str) -> Result<(), Failed>
        ensures opens { OnOk result (Opens slot name.now (view_of self.old) (view_of self.new)) }
        ensures failed { OnErr result (IsSame (view_of self.old) (view_of self.new)) }
        ensures cause { HasReadCause (view_of self.old) (view_of self.new) result }
        ensures tells { KeepsTelling (view_of self.old) (view_of self.new) }
        ensures counted { OpensFiles 1 (view_of self.old) (view_of self.new) }
        ensures always { IsOk result }
    {
        self.opened = self.opened.saturating_add(1);
        self.shelf.open_or_empty(slot, name);
        Ok(())
    }

    fn read(&mut self, slot: Slot, into: &mut [u8]) -> Result<usize, Failed>
        requires { (view_of self.old).reads slot ≡ true }
        ensures bound { ReadsAtMost result into.new }
        ensures bytes { ReadConsumes ((view_of self.old).left slot) ((view_of self.new).left slot) result into.new }
        ensures only { ReadsOnly slot (view_of self.old) (view_of self.new) }
        ensures failed { OnErr result (IsSame (view_of self.old) (view_of self.new)) }
        ensures cause { HasReadCause (view_of self.old) (view_of self.new) result }
        ensures tells { KeepsTelling (view_of self.old) (view_of self.new) }
        ensures always { IsOk result }
    {
        Ok(self.shelf.read(slot, usize::MAX, into))
    }

    fn create_file(&mut self, slot: Slot, name: &str) -> Result<(), Failed> {
        if let Ok(()) = self.shelf.create(slot, name) {
            return Ok(());
        }
        self.write_faults = self.write_faults.saturating_add(1);
        Err(Failed)
    }

    fn write(&mut self, slot: Slot, piece: &[u8]) -> Result<usize, Failed>
        requires { (view_of self.old).writes slot ≡ true }
        ensures bound { IfOk result (λ taken. TakesSome taken (length piece.now)) }
        ensures writes { IfOk result (λ taken.
            WritesTo slot (take taken piece.now) (view_of self.old) (view_of self.new)) }
        ensures failed { OnErr result (IsSame (view_of self.old) (view_of self.new)) }
        ensures cause { HasWriteCause (view_of self.old) (view_of self.new) result }
        ensures tells { KeepsTelling (view_of self.old) (view_of self.new) }
        ensures whole { IfOk result (λ taken. taken ≡ length piece.now) }
    {
        if let Ok(()) = self.shelf.write(slot, piece) {
            return Ok(piece.len());
        }
        self.write_faults = self.write_faults.saturating_add(1);
        Err(Failed)
    }
}
