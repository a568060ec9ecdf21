// Names of clauses, and moments to which a propagator goes back.
ghost use Rattle.std.specs.Prelude.{◌≡◌};

use std::marker::Model;

/// A clause of a propagator.
#[derive(Clone, Copy, Debug)]
pub struct Ref {
    pub(crate) place: u32,
}

impl Model for Ref {
    ghost use Rattle.std.specs.Prelude.{ℕ};

    ghost Value = { ℕ };

    ghost view = { λ r. r.place };

    ghost inverse = { λ n. record { place = n } };
}

impl Ref {
    /// Its place among all that were added.
    pub fn place(&self) -> u32
        ensures { result ≡ self.now }
    {
        self.place
    }
}

/// How many literals stood at a moment.
#[derive(Clone, Copy, Debug)]
pub struct Mark {
    pub(crate) count: u32,
}

impl Model for Mark {
    ghost use Rattle.std.specs.Prelude.{ℕ};

    ghost Value = { ℕ };

    ghost view = { λ m. m.count };

    ghost inverse = { λ n. record { count = n } };
}
