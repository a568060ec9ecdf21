// Tight chains, from the reasons of what stands.
ghost use Rattle.std.specs.Prelude.{◌≡◌, ◌↔◌, ◌<◌, ◌≤◌, map, length, neg_ℤ, slice_index_or, pos, IfOk, IfSome, IsNone, IsSome, OnErr, Some};
ghost use Rattle.std.specs.List.{All, Contains};
ghost use Rattle.clause_core.specs.Clause.{Clause as Literals, IsClauseInRange, IsSubset};
ghost use Rattle.clause_core.specs.UnitPropagation.{IsRup, IsTautology};
ghost use Rattle.drup_checker.specs.Opposing.{StandsMore};
ghost use Rattle.drup_checker.specs.Tightness.{AreTightAt, IsOpposedBefore, Marks};
ghost use Rattle.unit_prop.specs.Standing.{HasNoAssumption, IsSound, assumed_of, at, clause_at, live_of};
ghost use Rattle.unit_prop.specs.Trail.{signed_variable};

use crate::rup::oppose_all;
use crate::tautology::is_tautology;
use clause_core::Clause;
use graph_core::Memory;
use std::alloc::Global;
use unit_prop::{Propagator, Ref};

/// The places of the clauses of a tight chain for the clause, or None where it doesn't follow. Nothing stays assumed,
/// and memory is wanted only where it follows.
pub(crate) fn tight_chain(
    alloc: Global,
    max: u32,
    propagator: &mut Propagator,
    clause: &Clause,
) -> Result<Option<Vec<u32>>, Memory>
    requires free { HasNoAssumption propagator.old }
    requires max { propagator.old.trail.greatest ≡ max }
    requires in_range { IsClauseInRange max clause.now }
    ensures some { IfOk result (λ places. IfSome places (λ p. AreTightAt propagator.old.clauses clause.now p.items)) }
    ensures none { IfOk result (λ places. IsNone places ↔ ¬ (IsRup (live_of propagator.old.clauses) clause.now)) }
    ensures err { OnErr result (IsRup (live_of propagator.old.clauses) clause.now) }
    ensures kept { propagator.new ≡ propagator.old }
{
    let mark = propagator.mark();
    let places = find_chain(alloc, max, propagator, clause);
    propagator.back_to(mark);
    places
}

// The chain that refutes the negation of each literal.
fn find_chain(
    alloc: Global,
    max: u32,
    propagator: &mut Propagator,
    clause: &Clause,
) -> Result<Option<Vec<u32>>, Memory>
    requires free { HasNoAssumption propagator.old }
    requires max { propagator.old.trail.greatest ≡ max }
    requires in_range { IsClauseInRange max clause.now }
    ensures some { IfOk result (λ places. IfSome places (λ p. AreTightAt propagator.old.clauses clause.now p.items)) }
    ensures none { IfOk result (λ places. IsNone places ↔ ¬ (IsRup (live_of propagator.old.clauses) clause.now)) }
    ensures err { OnErr result (IsRup (live_of propagator.old.clauses) clause.now) }
    ensures begins { StandsMore propagator.old propagator.new }
{
    if let Some(lit) = oppose_all(propagator, clause) {
        return Ok(Some(chain_to(alloc, max, propagator, clause, lit)?));
    }
    // what stands is sound
    let _mark = propagator.mark();
    match propagator.propagate() {
        None => Ok(None),
        Some(conflict) => {
            let from = propagator.trail().len();
            Ok(Some(explain(alloc, max, propagator, clause, conflict, from)?))
        }
    }
}

// A literal of the clause stands: by a chain, or since its negation is one of the clause too.
fn chain_to(
    alloc: Global,
    max: u32,
    propagator: &Propagator,
    clause: &Clause,
    lit: i32,
) -> Result<Vec<u32>, Memory>
    requires sound { IsSound propagator.now }
    requires max { propagator.now.trail.greatest ≡ max }
    requires assumed { IsSubset (assumed_of propagator.now) (map neg_ℤ clause.now) }
    requires in_range { IsClauseInRange max clause.now }
    requires has { Contains clause.now lit }
    requires stands { Contains propagator.now.trail.literals lit }
    ensures { IfOk result (λ places. AreTightAt propagator.now.clauses clause.now places.items) }
{
    if is_tautology(clause) {
        return Ok(Vec::new(alloc));
    }
    let Some(reason) = propagator.reason(variable_of(lit)) else {
        // its negation was assumed, and is a literal of the clause
        unreachable!()
    };
    let from = place_of(propagator.trail(), lit);
    explain(alloc, max, propagator, clause, reason, from)
}

// The first place of a literal.
fn place_of(trail: &[i32], lit: i32) -> usize
    requires { Contains trail.now lit }
    ensures bound { result < length trail.now }
    ensures here { at trail.now result ≡ lit }
{
    for place in 0..trail.len() {
        if trail[place] == lit {
            return place;
        }
    }
    unreachable!()
}

// The tight chain that ends with a clause whose literals are opposed by the first literals that stand.
fn explain(
    alloc: Global,
    max: u32,
    propagator: &Propagator,
    clause: &Clause,
    last: Ref,
    from: usize,
) -> Result<Vec<u32>, Memory>
    requires sound { IsSound propagator.now }
    requires max { propagator.now.trail.greatest ≡ max }
    requires assumed { IsSubset (assumed_of propagator.now) (map neg_ℤ clause.now) }
    requires in_range { IsClauseInRange max clause.now }
    requires from { from ≤ length propagator.now.trail.literals }
    requires live { IsSome (clause_at propagator.now.clauses last) }
    requires opposed { (c : Literals) → clause_at propagator.now.clauses last ≡ Some c →
        IsOpposedBefore propagator.now from (map neg_ℤ clause.now) c }
    requires proper { ¬ (IsTautology clause.now) }
    ensures { IfOk result (λ places. AreTightAt propagator.now.clauses clause.now places.items) }
{
    let mut seen = Vec::from_elem(alloc, false, max as usize + 1)?;
    mark(&mut seen, propagator.clause(last));
    let mut places = Vec::new(alloc);
    places.push(last.place())?;
    let trail = propagator.trail();
    let mut place = from;
    'walk: while 0 < place {
        place -= 1;
        let var = variable_of(trail[place]);
        if seen[var as usize] {
            if let Some(reason) = propagator.reason(var) {
                mark(&mut seen, propagator.clause(reason));
                places.push(reason.place())?;
            }
        }
    }
    places.reverse();
    Ok(places)
}

// Marks the variables of a clause.
fn mark(seen: &mut [bool], lits: &[i32])
    requires { All (λ l. signed_variable l < length seen.old) lits.now }
    ensures { Marks lits.now seen.old seen.new }
{
    for &lit in lits {
        seen[variable_of(lit) as usize] = true;
    }
}

// The variable of a literal.
fn variable_of(lit: i32) -> u32
    ensures { result ≡ signed_variable lit }
{
    lit.unsigned_abs()
}
