// A clause as it is kept. Nearly all have two literals or three, and then it takes no other memory.
ghost use Rattle.std.specs.Prelude.{◌≡◌, IfOk, IfSome, MatchOption, None, Some};
ghost use Rattle.clause_core.specs.Clause.{IsClause};

use clause_core::Clause;
use graph_core::Memory;
use std::alloc::Global;
use std::marker::Model;

/// A clause that is kept, or none any more.
#[derive(Drop)]
pub(crate) struct Kept {
    form: Form,
}

#[derive(Drop)]
enum Form {
    Gone,
    Two([i32; 2]),
    Three([i32; 3]),
    Other(Box<Clause>),
}

impl Model for Kept {
    ghost use Rattle.std.specs.Prelude.{List, ℤ};
    ghost use Rattle.std.specs.declared.option.Option.{Option};
    ghost use Rattle.unit_prop.specs.Kept.{IsKept, kept_in};

    ghost Value = { Option (List ℤ) };

    ghost view = { λ k. kept_in k.form };

    ghost invariant = { λ k. IsKept k.form };
}

impl Kept {
    /// The clause, once more.
    pub(crate) fn of(alloc: Global, clause: &Clause) -> Result<Kept, Memory>
        ensures { IfOk result (λ k. k ≡ Some clause.now) }
    {
        let form = match clause.lits() {
            [a, b] => Form::Two([*a, *b]),
            [a, b, c] => Form::Three([*a, *b, *c]),
            _ => Form::Other(Box::new(alloc, clause.copy(alloc)?)?),
        };
        Ok(Kept { form })
    }

    /// No clause any more.
    pub(crate) fn gone() -> Kept
        ensures { result ≡ None }
    {
        Kept { form: Form::Gone }
    }

    /// Its literals, each once, rising; None where there is no clause any more.
    pub(crate) fn lits(&self) -> Option<&[i32]>
        ensures value { MatchOption result (self.now ≡ None) (λ lits. self.now ≡ Some lits.now) }
        ensures clause { IfSome result (λ lits. IsClause lits.now) }
    {
        match &self.form {
            Form::Gone => None,
            Form::Two(lits) => Some(lits),
            Form::Three(lits) => Some(lits),
            Form::Other(clause) => Some(clause.lits()),
        }
    }
}
