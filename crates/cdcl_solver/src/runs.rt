// Where the runs of deletions of a log are.
ghost use Rattle.std.specs.Prelude.{◌≡◌, ◌<◌, ◌^◌, IsTrue};
ghost use Rattle.clause_core.specs.Clause.{Clause as Literals};
ghost use Rattle.clause_core.specs.Log.{IsSpacedLine, first_spacing, spacing_after};
ghost use Rattle.clause_core.specs.declared.line.Line.{Line};

use std::marker::Model;

/// The number of the next run of deletions, the clauses added since the last one, and whether one is going on.
#[derive(Debug, Drop)]
pub(crate) struct Runs {
    run: u64,
    count: u64,
    within: bool,
}

impl Model for Runs {
    ghost use Rattle.clause_core.specs.Log.{Spacing};

    ghost Value = { Spacing };

    ghost view = { λ r. record { run = r.run; count = r.count; within = r.within } };
}

impl Runs {
    /// Those of a log without lines.
    pub(crate) fn new() -> Runs
        ensures { result ≡ first_spacing }
    {
        Runs {
            run: 1,
            count: 0,
            within: false,
        }
    }

    /// A clause is added.
    pub(crate) fn add(&mut self)
        requires { self.old.count < 2 ^ 63 }
        ensures { (c : Literals) → self.new ≡ spacing_after self.old (Line.Add c) }
    {
        self.count += 1;
        self.within = false;
    }

    /// A clause is deleted.
    pub(crate) fn delete(&mut self)
        requires { self.old.run < 2 ^ 63 }
        ensures { (c : Literals) → self.new ≡ spacing_after self.old (Line.Delete c) }
    {
        if !self.within {
            self.run += 1;
            self.count = 0;
            self.within = true;
        }
    }

    /// Whether a clause may be deleted now.
    pub(crate) fn allow(&self) -> bool
        ensures { IsTrue result → (c : Literals) → IsSpacedLine self.now (Line.Delete c) }
    {
        self.within || self.run <= self.count / 300
    }
}
