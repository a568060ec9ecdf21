// What each analysis of a conflict uses again.
ghost use Rattle.std.specs.Prelude.{◌≡◌, length, IfOk};
ghost use Rattle.cdcl_solver.specs.Marks.{none_marked};

use crate::marks::Marks;
use graph_core::Memory;
use std::alloc::Global;
use std::mem;

/// Tables by variable, whatever is in them: so that no conflict costs as much as there are variables.
#[derive(Debug, Drop)]
pub(crate) struct Room {
    pub marks: Marks,
    pub places: Vec<usize>,
}

impl Room {
    /// No tables yet.
    pub(crate) fn new(alloc: Global) -> Room {
        Room {
            marks: Marks::new(alloc),
            places: Vec::new(alloc),
        }
    }

    /// Takes the marks of so many numbers, none of which is marked.
    pub(crate) fn take_marks(&mut self, alloc: Global, size: usize) -> Result<Marks, Memory>
        ensures { IfOk result (λ marks. marks ≡ none_marked size) }
    {
        mem::replace(&mut self.marks, Marks::new(alloc)).cleared(alloc, size)
    }

    /// Takes a table of so many places, whatever it says of them.
    pub(crate) fn take_places(&mut self, alloc: Global, size: usize) -> Result<Vec<usize>, Memory>
        ensures { IfOk result (λ places. length places.items ≡ size) }
    {
        let places = mem::replace(&mut self.places, Vec::new(alloc));
        if places.len() == size {
            return Ok(places);
        }
        Ok(Vec::from_elem(alloc, 0, size)?)
    }
}
