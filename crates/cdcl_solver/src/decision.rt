// Decisions: open literals, and what follows from one.
ghost use Rattle.std.specs.Prelude.{◌≡◌, ◌<◌, ◌≤◌, ◌^◌, ◌⊎◌, neg_ℤ, pos};
ghost use Rattle.std.specs.List.{All};
ghost use Rattle.unit_prop.specs.Trail.{HasValue, IsOpen, signed_variable};
ghost use Rattle.unit_prop.specs.Standing.{Standing, IsSound, IsPropagated};
ghost use Rattle.cdcl_solver.specs.Search.{GainsStanding, IsChoice, IsChoiceOf, DecidesOnce};

use crate::literal::{negation, positive};
use unit_prop::{Propagator, Ref};

/// Whether a variable is true or false, or open.
pub(crate) fn value_of(propagator: &Propagator, var: u32) -> Option<bool>
    requires some { 0 < var }
    requires within { var ≤ propagator.now.trail.greatest }
    requires signed { propagator.now.trail.greatest < 2 ^ 31 }
    ensures { HasValue propagator.now.trail.literals (pos var) result }
{
    propagator.value(positive(var))
}

/// The literal of an open variable that gives it a value; None where it has one.
pub(crate) fn open_literal(propagator: &Propagator, var: u32, value: bool) -> Option<i32>
    requires some { 0 < var }
    requires within { var ≤ propagator.now.trail.greatest }
    requires signed { propagator.now.trail.greatest < 2 ^ 31 }
    ensures { IsChoiceOf propagator.now var result }
{
    match value_of(propagator, var) {
        Some(_) => None,
        None => Some(literal_of(var, value)),
    }
}

/// A literal of one of these variables that is open; None where each has a value.
pub(crate) fn first_open(propagator: &Propagator, vars: &[u32]) -> Option<i32>
    requires within { All (λ v. (0 < v) × (v ≤ propagator.now.trail.greatest)) vars.now }
    requires signed { propagator.now.trail.greatest < 2 ^ 31 }
    ensures { IsChoice vars.now propagator.now result }
{
    for &var in vars {
        if let Some(lit) = open_literal(propagator, var, false) {
            return Some(lit);
        }
    }
    None
}

/// Assumes an open literal, and propagates.
pub(crate) fn decide(propagator: &mut Propagator, lit: i32) -> Option<Ref>
    requires sound { IsSound propagator.old }
    requires settled { IsPropagated propagator.old }
    requires signed { propagator.old.trail.greatest < 2 ^ 31 }
    requires choice { (0 < signed_variable lit) × (signed_variable lit ≤ propagator.old.trail.greatest)
        × IsOpen propagator.old.trail.literals lit }
    ensures { DecidesOnce propagator.old propagator.new result }
{
    let _ = propagator.assume(lit);
    propagator.propagate()
}

// The literal that gives a variable a value.
fn literal_of(var: u32, value: bool) -> i32
    requires { var < 2 ^ 31 }
    ensures { (result ≡ pos var) ⊎ (result ≡ neg_ℤ (pos var)) }
{
    let lit = positive(var);
    if value { lit } else { negation(lit) }
}
