// Gates beside the reference: over a merge's addends, such as the graph has and the reference doesn't need.
use crate::gates::Gates;
use crate::known::Known;
use graph_core::{Lit, Memory};

/// Makes those gates over two or three literals that are known. They are stepping stones for whoever shows the graph's
/// gates equal to these.
pub(crate) fn make_stones(
    gates: &mut Gates<'_>,
    known: &Known,
    addends: &[Lit],
) -> Result<(), Memory> {
    for (place, x) in addends.iter().enumerate() {
        for (other, y) in addends.iter().enumerate().take(place) {
            if x.var() > 0 && y.var() > 0 {
                let third = third_of(addends, place, other);
                make_ands(gates, known, *x, *y, third)?;
                make_xor(gates, known, *x, *y, third)?;
            }
        }
    }
    Ok(())
}

// The one that stands at neither of two places.
fn third_of(addends: &[Lit], place: usize, other: usize) -> Option<Lit> {
    for (third, lit) in addends.iter().enumerate() {
        if third != place && third != other && lit.var() > 0 {
            return Some(*lit);
        }
    }
    None
}

// The known conjunctions of two literals, and of theirs or its negation and the third, in all signs.
fn make_ands(
    gates: &mut Gates<'_>,
    known: &Known,
    x: Lit,
    y: Lit,
    third: Option<Lit>,
) -> Result<(), Memory> {
    for (x, y) in [(x, y), (x.not(), y), (x, y.not()), (x.not(), y.not())] {
        if known.has_and(&gates.row(x), &gates.row(y)) {
            gates.and(x, y)?;
        }
        if let Some(z) = third {
            make_third(gates, known, (x, y), z)?;
            make_third(gates, known, (x, y), z.not())?;
        }
    }
    Ok(())
}

// The conjunctions of a third literal with that of two and with its negation, if they are known.
fn make_third(
    gates: &mut Gates<'_>,
    known: &Known,
    pair: (Lit, Lit),
    z: Lit,
) -> Result<(), Memory> {
    let both = gates.row(pair.0).and(&gates.row(pair.1));
    for negated in [false, true] {
        if known.has_and(&both.not_if(negated), &gates.row(z)) {
            let both = gates.and(pair.0, pair.1)?;
            gates.and(if negated { both.not() } else { both }, z)?;
        }
    }
    Ok(())
}

// The exclusive or of two literals, if it is known, and its known conjunctions with the third, in all signs.
fn make_xor(
    gates: &mut Gates<'_>,
    known: &Known,
    x: Lit,
    y: Lit,
    third: Option<Lit>,
) -> Result<(), Memory> {
    let row = gates.row(x).xor(&gates.row(y));
    if known.has(row.key()) {
        gates.xor(x, y)?;
    }
    let Some(z) = third else {
        return Ok(());
    };
    for (negated, z) in [(false, z), (true, z), (false, z.not()), (true, z.not())] {
        if known.has_and(&row.not_if(negated), &gates.row(z)) {
            let xor = gates.xor(x, y)?;
            gates.and(if negated { xor.not() } else { xor }, z)?;
        }
    }
    Ok(())
}
