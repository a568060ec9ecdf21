// The numbers of places.
ghost use Rattle.std.specs.Prelude.{◌≡◌, ◌<◌, ◌≤◌, ◌++◌, ◌∷◌, [], length, slice_index, OnOk, vec_capacity, vec_len};
ghost use Rattle.drup_checker.specs.PlaceNumbers.{HasRoom, numbers_of};

use graph_core::Memory;
use std::alloc::Global;

/// A number for each place. That of the first places is 0, and takes no memory.
#[derive(Drop)]
pub(crate) struct PlaceNumbers {
    /// how many of the first places have 0
    zeros: usize,
    /// those of the places after these
    numbers: Vec<u64>,
}

impl PlaceNumbers {
    /// No places.
    pub(crate) fn new(alloc: Global) -> PlaceNumbers
        ensures { numbers_of result ≡ [] }
    {
        PlaceNumbers {
            zeros: 0,
            numbers: Vec::new(alloc),
        }
    }

    /// The number of a place.
    pub(crate) fn get(&self, place: usize) -> u64
        requires { place < length (numbers_of self.now) }
        ensures { result ≡ slice_index (numbers_of self.now) place }
    {
        if place < self.zeros {
            return 0;
        }
        self.numbers[place - self.zeros]
    }

    /// Takes the room for one place more.
    pub(crate) fn reserve(&mut self) -> Result<(), Memory>
        ensures numbers { numbers_of self.new ≡ numbers_of self.old }
        ensures room { OnOk result (HasRoom self.new) }
    {
        self.numbers.try_reserve(1)?;
        Ok(())
    }

    /// One place more, with its number.
    pub(crate) fn push(&mut self, number: u64)
        requires few { length (numbers_of self.old) ≤ 2147483648 }
        requires room { HasRoom self.old }
        ensures { numbers_of self.new ≡ numbers_of self.old ++ number ∷ [] }
    {
        if self.numbers.is_empty() {
            if number == 0 {
                self.zeros += 1;
                return;
            }
        }
        let _ = self.numbers.push(number);
    }
}
