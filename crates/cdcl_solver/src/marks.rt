// Marks by number that are cleared all at once.
ghost use Rattle.std.specs.Prelude.{◌≡◌, ◌<◌, [], false, length, true, slice_index_or, slice_set, IfOk};
ghost use Rattle.cdcl_solver.specs.Marks.{none_marked};

use graph_core::Memory;
use std::alloc::Global;
use std::marker::Model;

/// Which of the numbers from 0 on are marked: those that bear the stamp of now. With the next stamp none is.
#[derive(Debug, Drop)]
pub(crate) struct Marks {
    stamps: Vec<u32>,
    stamp: u32,
}

impl Model for Marks {
    ghost use Rattle.std.specs.Prelude.{Bool, List, ◌<◌, ◌≤◌, ◌^◌};
    ghost use Rattle.std.specs.List.{All};
    ghost use Rattle.cdcl_solver.specs.Marks.{marked};

    ghost Value = { List Bool };

    ghost view = { λ m. marked m.stamp m.stamps.items };

    ghost invariant = { λ m. (m.stamp < 2 ^ 32) × All (λ stamp. stamp ≤ m.stamp) m.stamps.items };
}

impl Marks {
    /// No numbers.
    pub(crate) fn new(alloc: Global) -> Marks
        ensures { result ≡ [] }
    {
        Marks {
            stamps: Vec::new(alloc),
            stamp: 0,
        }
    }

    /// So many numbers, none of which is marked.
    pub(crate) fn cleared(self, alloc: Global, size: usize) -> Result<Marks, Memory>
        ensures { IfOk result (λ marks. marks ≡ none_marked size) }
    {
        if self.stamps.len() != size {
            return Marks::unmarked(alloc, size);
        }
        if self.stamp >= u32::MAX {
            return Marks::unmarked(alloc, size);
        }
        Ok(Marks {
            stamps: self.stamps,
            stamp: self.stamp + 1,
        })
    }

    fn unmarked(alloc: Global, size: usize) -> Result<Marks, Memory>
        ensures { IfOk result (λ marks. marks ≡ none_marked size) }
    {
        let stamps = Vec::from_elem(alloc, 0, size)?;
        Ok(Marks { stamps, stamp: 1 })
    }

    pub(crate) fn has(&self, number: usize) -> bool
        requires { number < length self.now }
        ensures { result ≡ slice_index_or self.now number false }
    {
        self.stamps[number] == self.stamp
    }

    pub(crate) fn set(&mut self, number: usize)
        requires { number < length self.old }
        ensures { self.new ≡ slice_set self.old number true }
    {
        self.stamps[number] = self.stamp;
    }
}
