// Files in memory, with the slots in which they are open.
ghost use Rattle.std.specs.Prelude.{◌≡◌, ◌<◌, ◌≤◌, ◌++◌, ℕ, [], true, false, length, take, min, is_some, option_map, OnOk, OnErr};
ghost use Rattle.mv_desk.specs.Calls.{Creates, Opens, ReadsOnly, WritesTo};
ghost use Rattle.mv_desk.specs.Files.{files_from, held_at};
ghost use Rattle.mv_desk.specs.declared.counts.Counts.{Counts};
ghost use Rattle.mv_desk.specs.Memory.{is_read, is_written, out_in, place_at, rest_in, tells};

use super::bytes::Bytes;
use super::files::Files;
use super::place::Place;
use super::places::Places;
use super::transfer::{append, give};
use crate::Slot;
use std::alloc::{AllocError, Global};
use std::marker::Model;

/// Files in memory, and the place of each slot in them. A place stands at the first file of its name.
#[derive(Drop)]
pub struct Shelf {
    alloc: Global,
    files: Files,
    places: Places,
}

impl Model for Shelf {
    ghost use Rattle.mv_desk.specs.Memory.{AllFit, Shelved};

    ghost Value = { Shelved };

    ghost view = { λ s. (s.files, s.places) };

    ghost invariant = { λ s. AllFit s.files s.places };
}

impl Shelf {
    ghost use Rattle.mv_desk.specs.Memory.{fresh_places};

    /// Nothing is open but the report.
    pub fn new(alloc: Global, files: Vec<(String, Vec<u8>)>) -> Shelf
        ensures files { result.0 ≡ files_from files.items }
        ensures places { result.1 ≡ fresh_places }
    {
        Shelf {
            alloc,
            files: Files::new(files),
            places: Places::new(alloc),
        }
    }

    /// Opens a file for reading, where it is held.
    pub fn open(&mut self, slot: Slot, name: &str) -> bool
        ensures held { result ≡ is_some (held_at self.old.0 name.now) }
        ensures opens { result ≡ true → (counts counts' : Counts) →
            Opens slot name.now (tells self.old counts) (tells self.new counts') }
        ensures none { result ≡ false → self.new ≡ self.old }
    {
        let Some(file) = self.files.position_of(name) else {
            return false;
        };
        self.places.put(slot, Place::Reading { file, at: 0 });
        true
    }

    /// Opens a file for reading, and an empty one where it isn't held.
    pub fn open_or_empty(&mut self, slot: Slot, name: &str)
        ensures { (counts counts' : Counts) → Opens slot name.now (tells self.old counts) (tells self.new counts') }
    {
        if !self.open(slot, name) {
            self.places.put(slot, Place::Absent);
        }
    }

    pub fn read(&mut self, slot: Slot, most: usize, into: &mut [u8]) -> usize
        requires reads { is_read (place_at self.old.1 slot) ≡ true }
        requires most { 0 < most }
        ensures count { result ≡ min most (min (length into.old) (length (rest_in self.old slot))) }
        ensures within { result ≤ length into.new }
        ensures bytes { rest_in self.old slot ≡ take result into.new ++ rest_in self.new slot }
        ensures end { result ≡ 0 → 0 < length into.new → rest_in self.new slot ≡ [] }
        ensures only { (counts : Counts) → ReadsOnly slot (tells self.old counts) (tells self.new counts) }
    {
        let Place::Reading { file, at } = self.places.take(slot) else {
            self.places.put(slot, Place::Absent);
            return 0;
        };
        let bytes = self.files.bytes(file);
        let start = at.min(bytes.len());
        let count = give(bytes, start, most, into);
        self.places.put(
            slot,
            Place::Reading {
                file,
                at: start + count,
            },
        );
        count
    }

    pub fn create(&mut self, slot: Slot, name: &str) -> Result<(), AllocError>
        ensures creates { OnOk result ((counts : Counts) →
            Creates slot name.now (tells self.old counts) (tells self.new counts)) }
        ensures err { OnErr result (self.new ≡ self.old) }
    {
        let written = Bytes::new(self.alloc);
        if let Some(file) = self.files.position_of(name) {
            self.files.clear(file);
            self.places.put(slot, Place::Writing { file, written });
            return Ok(());
        }
        let file = self.files.add(self.alloc, name)?;
        self.places.put(slot, Place::Writing { file, written });
        Ok(())
    }

    pub fn write(&mut self, slot: Slot, piece: &[u8]) -> Result<(), AllocError>
        requires { is_written (place_at self.old.1 slot) ≡ true }
        ensures writes { OnOk result ((counts : Counts) →
            WritesTo slot piece.now (tells self.old counts) (tells self.new counts)) }
        ensures err { OnErr result (self.new ≡ self.old) }
    {
        let mut place = self.places.take(slot);
        let done = append(&mut self.files, &mut place, piece);
        self.places.put(slot, place);
        done
    }

    /// The bytes under a name.
    pub fn bytes(&self, name: &str) -> Option<&[u8]>
        ensures { option_map (λ bytes. bytes.now) result ≡ held_at self.now.0 name.now }
    {
        let file = self.files.position_of(name)?;
        Some(self.files.bytes(file))
    }

    /// What is still to be read from a slot.
    pub fn rest(&self, slot: Slot) -> &[u8]
        ensures { result.now ≡ rest_in self.now slot }
    {
        let Place::Reading { file, at } = self.places.at(slot) else {
            return &[];
        };
        let bytes = self.files.bytes(*file);
        &bytes[(*at).min(bytes.len())..]
    }

    /// What was written to a slot.
    pub fn out(&self, slot: Slot) -> &[u8]
        ensures { result.now ≡ out_in self.now slot }
    {
        match self.places.at(slot) {
            Place::Printing { written } | Place::Writing { written, .. } => written.as_slice(),
            _ => &[],
        }
    }
}
