// The lengths of the calls to come.
ghost use Rattle.std.specs.Prelude.{◌≡◌};

use std::marker::Model;

/// How much each of the next calls moves at most.
#[derive(Drop)]
pub struct Cuts {
    lengths: Vec<usize>,
    /// calls that took a length so far
    passed: usize,
}

impl Model for Cuts {
    ghost use Rattle.std.specs.Prelude.{ℕ, List, drop};

    ghost Value = { List ℕ };

    ghost view = { λ c. drop c.passed c.lengths.items };
}

impl Cuts {
    ghost use Rattle.mv_desk.specs.Script.{later, next};

    pub fn new(lengths: Vec<usize>) -> Cuts
        ensures { result ≡ lengths.items }
    {
        Cuts { lengths, passed: 0 }
    }

    /// What the next call moves at most.
    pub fn next(&self) -> usize
        ensures { result ≡ next self.now }
    {
        match self.lengths.get(self.passed) {
            Some(&length) => length.max(1),
            None => usize::MAX,
        }
    }

    /// A call took its length.
    pub fn pass(&mut self)
        ensures { self.new ≡ later self.old }
    {
        if let Some(_) = self.lengths.get(self.passed) {
            self.passed += 1;
        }
    }
}
