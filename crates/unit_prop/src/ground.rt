// Clauses of fewer than two literals, which stand at once.
ghost use Rattle.std.specs.Prelude.{◌≡◌, ◌+◌, ◌*◌, ◌<◌, ◌≤◌, ◌++◌, ◌∷◌, [], length, pos, OnOk, OnErr, None, Some, IsSome, vec_len, vec_capacity};
ghost use Rattle.clause_core.specs.Clause.{Clause as Literals};
ghost use Rattle.unit_prop.specs.Standing.{clause_at};
ghost use Rattle.unit_prop.specs.Visits.{AreClauses, IsVisitedUpTo};
ghost use Rattle.unit_prop.specs.Ground.{AreShorts, IsGround, Forgets};

use crate::kept::Kept;
use crate::trail::Trail;
use crate::watches::Watches;
use graph_core::Memory;

// The most clauses that there can be.
const MOST: usize = 2147483646;

/// Takes the room for one more clause.
pub(crate) fn make_room(
    clauses: &mut Vec<Kept>,
    shorts: &mut Vec<u32>,
    watches: &mut Watches,
) -> Result<(), Memory>
    ensures clauses { clauses.new.items ≡ clauses.old.items }
    ensures shorts { shorts.new.items ≡ shorts.old.items }
    ensures room { OnOk result ((vec_len clauses.new < vec_capacity clauses.new) ×
        (vec_len shorts.new < vec_capacity shorts.new)) }
    ensures few { OnOk result (length clauses.old.items < 2147483646) }
    ensures watches { OnOk result (watches.new ≡
        record watches.old { places = watches.old.places ++ pos 0 ∷ pos 0 ∷ [] }) }
    ensures err { OnErr result (watches.new ≡ watches.old) }
{
    if clauses.len() >= MOST {
        return Err(Memory);
    }
    clauses.try_reserve(1)?;
    shorts.try_reserve(1)?;
    watches.grow()
}

/// A clause of fewer than two literals counts at once: its literal stands, or it is false.
pub(crate) fn stand(clauses: &[Kept], trail: &mut Trail, refuted: &mut Option<u32>, place: u32)
    requires kept { IsVisitedUpTo clauses.now trail.old 0 }
    requires clauses { AreClauses trail.old.max clauses.now }
    requires few { length clauses.now < 4294967295 }
    requires ground { IsGround clauses.now place trail.old.lits trail.old.reasons refuted.old }
    requires live { (c : Literals) × (clause_at clauses.now place ≡ Some c) × (length c < 2) }
    ensures max { trail.new.max ≡ trail.old.max }
    ensures kept { IsVisitedUpTo clauses.now trail.new 0 }
    ensures ground { IsGround clauses.now (place + 1) trail.new.lits trail.new.reasons refuted.new }
{
    let Some(lits) = clauses[place as usize].lits() else {
        return;
    };
    if lits.is_empty() {
        *refuted = Some(place);
        return;
    }
    let lit = lits[0];
    match trail.value(lit) {
        Some(true) => {}
        Some(false) => *refuted = Some(place),
        None => trail.push(lit, place, 0),
    }
}

/// The clauses of fewer than two literals count, one after the other.
pub(crate) fn stand_all(
    clauses: &[Kept],
    shorts: &[u32],
    trail: &mut Trail,
    refuted: &mut Option<u32>,
)
    requires kept { IsVisitedUpTo clauses.now trail.old 0 }
    requires clauses { AreClauses trail.old.max clauses.now }
    requires few { length clauses.now < 4294967295 }
    requires shorts { AreShorts clauses.now shorts.now }
    requires nothing { (trail.old.lits ≡ []) × (refuted.old ≡ None) }
    ensures max { trail.new.max ≡ trail.old.max }
    ensures kept { IsVisitedUpTo clauses.now trail.new 0 }
    ensures ground { IsGround clauses.now (length clauses.now) trail.new.lits trail.new.reasons refuted.new }
{
    for &place in shorts {
        stand(clauses, trail, refuted, place);
    }
}

/// How many literals a live clause has.
pub(crate) fn len_of(clauses: &[Kept], place: u32) -> usize
    requires { IsSome (clause_at clauses.now place) }
    ensures { (c : Literals) → clause_at clauses.now place ≡ Some c → result ≡ length c }
{
    match clauses[place as usize].lits() {
        Some(lits) => lits.len(),
        None => 0,
    }
}

/// Takes a reference out of a list.
pub(crate) fn forget(shorts: &mut Vec<u32>, place: u32)
    ensures { Forgets shorts.old.items place shorts.new.items }
{
    let mut at = 0;
    while at < shorts.len() {
        if shorts[at] == place {
            shorts.remove(at);
            return;
        }
        at += 1;
    }
}
