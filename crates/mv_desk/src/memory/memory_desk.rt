// A desk in memory whose calls fail as a script says.
ghost use Rattle.std.specs.Prelude.{◌≡◌, ◌||◌, if◌then◌else◌, [], true, length, take, is_err, is_none, is_ok, option_map, IfOk, IsErr, IsTrue, OnOk, OnErr};
ghost use Rattle.std.specs.Io.{ReadsAtMost};
ghost use Rattle.std.specs.Io.KnownBytes.{ReadConsumes};
ghost use Rattle.mv_desk.specs.Calls.{Creates, HasReadCause, HasWriteCause, Opens, ReadsOnly, TakesSome, WritesTo};
ghost use Rattle.mv_desk.specs.Script.{after_call, after_read, after_write, is_next_failing, read_len, write_len};
ghost use Rattle.mv_desk.specs.View.{HasReport, IsSame, KeepsTelling, OpensFiles};

use super::script::Script;
use super::shelf::Shelf;
use crate::counts::Counts;
use crate::{Desk, Failed, Slot};
use std::alloc::Global;

/// Files in memory that tell everything. The desk cuts its reads and its writes into pieces, and fails at the calls of
/// a list.
///
/// A name that isn't held fails to open. Creating and writing may also fail where memory runs out.
#[derive(Drop)]
pub struct MemoryDesk {
    shelf: Shelf,
    script: Script,
    counts: Counts,
}

#[tactic(auto, unfolding(crate::specs::MemoryDesk::memory_view_of))]
impl MemoryDesk {
    ghost use Rattle.mv_desk.specs.MemoryDesk.{held_in_memory, memory_view_of, out_in_memory, rest_in_memory, script_of};
    ghost use Rattle.mv_desk.specs.Files.{files_from, held_at};

    /// Nothing is open but the report. Of several files of one name the first counts.
    ///
    /// The i-th read gives at most the i-th length in bytes (0 counts as 1), after the last one whatever fits. A write
    /// takes its whole piece.
    /// The calls that `fails` numbers fail: all four calls count together, from 1.
    pub fn new(
        alloc: Global,
        files: Vec<(String, Vec<u8>)>,
        reads: Vec<usize>,
        fails: Vec<u64>,
    ) -> Self
        ensures report { HasReport (⟦<MemoryDesk as Desk>⟧.seen result) }
        ensures files { (name : _) → held_in_memory result name ≡ held_at (files_from files.items) name }
        ensures unread { (slot : _) → rest_in_memory result slot ≡ [] }
        ensures unwritten { (slot : _) → out_in_memory result slot ≡ [] }
        ensures plan { script_of result ≡ record { reads = reads.items; writes = []; fails = fails.items; calls = 0 } }
    {
        MemoryDesk {
            shelf: Shelf::new(alloc, files),
            script: Script::new(alloc, reads, fails),
            counts: Counts::new(),
        }
    }

    /// From now on the i-th write takes at most the i-th length in bytes (0 counts as 1), later ones take all.
    pub fn cut_writes(&mut self, lengths: Vec<usize>)
        ensures same { memory_view_of self.new ≡ memory_view_of self.old }
        ensures files { (name : _) → held_in_memory self.new name ≡ held_in_memory self.old name }
        ensures unread { (slot : _) → rest_in_memory self.new slot ≡ rest_in_memory self.old slot }
        ensures written { (slot : _) → out_in_memory self.new slot ≡ out_in_memory self.old slot }
        ensures plan { script_of self.new ≡ record (script_of self.old) { writes = lengths.items } }
    {
        self.script.cut_writes(lengths);
    }

    /// The bytes under a name, where it is held.
    pub fn bytes(&self, name: &str) -> Option<&[u8]>
        ensures { option_map (λ bytes. bytes.now) result ≡ held_in_memory self.now name.now }
    {
        self.shelf.bytes(name)
    }

    /// What is still to be read from a slot.
    pub fn rest(&self, slot: Slot) -> &[u8]
        ensures { result.now ≡ rest_in_memory self.now slot }
    {
        self.shelf.rest(slot)
    }

    /// What was written to a slot since it was created.
    pub fn out(&self, slot: Slot) -> &[u8]
        ensures { result.now ≡ out_in_memory self.now slot }
    {
        self.shelf.out(slot)
    }
}

#[tactic(auto, unfolding(crate::specs::MemoryDesk::memory_view_of))]
impl Desk for MemoryDesk {
    ghost use Rattle.mv_desk.specs.MemoryDesk.{held_in_memory, memory_view_of, rest_in_memory, script_of};

    ghost seen = { λ d. memory_view_of d };

    fn open_file(&mut self, slot: Slot, name: &str) -> Result<(), Failed>
        ensures opens { OnOk result (Opens slot name.now (memory_view_of self.old) (memory_view_of self.new)) }
        ensures failed { OnErr result (IsSame (memory_view_of self.old) (memory_view_of self.new)) }
        ensures cause { HasReadCause (memory_view_of self.old) (memory_view_of self.new) result }
        ensures tells { KeepsTelling (memory_view_of self.old) (memory_view_of self.new) }
        ensures counted { OpensFiles 1 (memory_view_of self.old) (memory_view_of self.new) }
        // It fails by its list, and at a name that isn't held.
        ensures refused { is_err result ≡ (is_next_failing (script_of self.old) || is_none (held_in_memory self.old name.now)) }
        ensures plan { script_of self.new ≡ after_call (script_of self.old) }
    {
        self.counts.count_opened();
        if !self.script.fails_now() && self.shelf.open(slot, name) {
            return Ok(());
        }
        self.counts.count_read_fault();
        Err(Failed)
    }

    fn read(&mut self, slot: Slot, into: &mut [u8]) -> Result<usize, Failed>
        requires { (memory_view_of self.old).reads slot ≡ true }
        ensures bound { ReadsAtMost result into.new }
        ensures bytes { ReadConsumes ((memory_view_of self.old).left slot) ((memory_view_of self.new).left slot) result into.new }
        ensures only { ReadsOnly slot (memory_view_of self.old) (memory_view_of self.new) }
        ensures failed { OnErr result (IsSame (memory_view_of self.old) (memory_view_of self.new)) }
        ensures cause { HasReadCause (memory_view_of self.old) (memory_view_of self.new) result }
        ensures tells { KeepsTelling (memory_view_of self.old) (memory_view_of self.new) }
        // It fails by its list alone, and is cut by the lengths of reads alone.
        ensures refused { is_err result ≡ is_next_failing (script_of self.old) }
        ensures piece { IfOk result (λ count.
            count ≡ read_len (script_of self.old) (length into.old) (length (rest_in_memory self.old slot))) }
        ensures plan { script_of self.new ≡
            (if is_ok result then after_read (script_of self.old) else after_call (script_of self.old)) }
    {
        if self.script.fails_now() {
            self.counts.count_read_fault();
            return Err(Failed);
        }
        let most = self.script.take_read();
        Ok(self.shelf.read(slot, most, into))
    }

    fn create_file(&mut self, slot: Slot, name: &str) -> Result<(), Failed>
        ensures creates { OnOk result (Creates slot name.now (memory_view_of self.old) (memory_view_of self.new)) }
        ensures failed { OnErr result (IsSame (memory_view_of self.old) (memory_view_of self.new)) }
        ensures cause { HasWriteCause (memory_view_of self.old) (memory_view_of self.new) result }
        ensures tells { KeepsTelling (memory_view_of self.old) (memory_view_of self.new) }
        ensures refused { IsTrue (is_next_failing (script_of self.old)) → IsErr result }
        ensures plan { script_of self.new ≡ after_call (script_of self.old) }
    {
        if !self.script.fails_now()
            && let Ok(()) = self.shelf.create(slot, name)
        {
            return Ok(());
        }
        self.counts.count_write_fault();
        Err(Failed)
    }

    fn write(&mut self, slot: Slot, piece: &[u8]) -> Result<usize, Failed>
        requires { (memory_view_of self.old).writes slot ≡ true }
        ensures bound { IfOk result (λ taken. TakesSome taken (length piece.now)) }
        ensures writes { IfOk result (λ taken.
            WritesTo slot (take taken piece.now) (memory_view_of self.old) (memory_view_of self.new)) }
        ensures failed { OnErr result (IsSame (memory_view_of self.old) (memory_view_of self.new)) }
        ensures cause { HasWriteCause (memory_view_of self.old) (memory_view_of self.new) result }
        ensures tells { KeepsTelling (memory_view_of self.old) (memory_view_of self.new) }
        ensures refused { IsTrue (is_next_failing (script_of self.old)) → IsErr result }
        ensures piece { IfOk result (λ taken. taken ≡ write_len (script_of self.old) (length piece.now)) }
        ensures plan { script_of self.new ≡
            (if is_ok result then after_write (script_of self.old) else after_call (script_of self.old)) }
    {
        if !self.script.fails_now() {
            let taken = self.script.next_write().min(piece.len());
            if let Ok(()) = self.shelf.write(slot, &piece[..taken]) {
                self.script.pass_write();
                return Ok(taken);
            }
        }
        self.counts.count_write_fault();
        Err(Failed)
    }
}
