// Monomials without two variables of which one follows from the other.
use crate::facts::Facts;
use graph_core::{Lit, Memory};
use std::alloc::Global;

/// A fact that took a variable from a monomial, or the whole of it.
#[derive(Debug, Drop)]
pub(crate) struct Use {
    pub(crate) from: u32,
    /// what follows from it: a variable that goes, or the negation of one that the monomial has
    pub(crate) lit: Lit,
    /// what the monomial has beside both, rising
    pub(crate) beside: Vec<u32>,
}

/// A monomial on the way to its normal form.
#[derive(Debug, Drop)]
pub(crate) struct Normal {
    alloc: Global,
    /// what is normal so far
    pub(crate) variables: Vec<u32>,
    /// whether the monomial is 0 on every evaluation
    pub(crate) vanishes: bool,
    /// the facts that were used, in their order
    pub(crate) uses: Vec<Use>,
}

impl Normal {
    /// Some variables, which are normal, times others. Of a gate that is taken next, pairs that cancel by themselves
    /// stay.
    pub(crate) fn of(
        alloc: Global,
        facts: &mut Facts<'_>,
        rest: &[u32],
        more: &[u32],
        taken: Option<u32>,
    ) -> Result<Normal, Memory> {
        let mut normal = Normal {
            alloc,
            variables: Vec::new(alloc),
            vanishes: false,
            uses: Vec::new(alloc),
        };
        normal.variables.extend_from_slice(rest)?;
        for (place, v) in more.iter().enumerate() {
            if !normal.vanishes && !normal.variables.contains(v) {
                normal.enter(facts, *v, &more[place + 1..], taken)?;
            }
        }
        Ok(normal)
    }

    // One variable more, held against each that is there.
    fn enter(
        &mut self,
        facts: &mut Facts<'_>,
        v: u32,
        later: &[u32],
        taken: Option<u32>,
    ) -> Result<(), Memory> {
        let mut place = 0;
        for _ in 0..self.variables.len() {
            let Some(u) = self.variables.get(place).copied() else {
                break;
            };
            match relation(facts, u, v, taken)? {
                None => place = place.saturating_add(1),
                Some((from, lit)) => {
                    let beside = self.beside(later, u, v)?;
                    self.uses.push(Use { from, lit, beside })?;
                    if lit.negated() {
                        self.vanishes = true;
                        return Ok(());
                    }
                    if lit.var() == v {
                        return Ok(());
                    }
                    if place < self.variables.len() {
                        self.variables.remove(place);
                    }
                }
            }
        }
        self.variables.push(v)?;
        Ok(())
    }

    // The variables that are there and those to come, without two of them.
    fn beside(&self, later: &[u32], u: u32, v: u32) -> Result<Vec<u32>, Memory> {
        let mut beside = Vec::new(self.alloc);
        for w in self.variables.iter() {
            if *w != u {
                beside.push(*w)?;
            }
        }
        for w in later {
            if *w != u && *w != v && !beside.contains(w) {
                beside.push(*w)?;
            }
        }
        beside.sort_unstable();
        Ok(beside)
    }
}

/// Whether two of the variables are related, at least one of which is new.
pub(crate) fn are_related(
    facts: &mut Facts<'_>,
    rest: &[u32],
    more: &[u32],
) -> Result<bool, Memory> {
    for (place, v) in more.iter().enumerate() {
        for u in rest {
            if *u != *v && relation(facts, *u, *v, None)?.is_some() {
                return Ok(true);
            }
        }
        for u in &more[..place] {
            if *u != *v && relation(facts, *u, *v, None)?.is_some() {
                return Ok(true);
            }
        }
    }
    Ok(false)
}

// What one of two variables says of the other: that it is false, or else that it is true. Of equal ones the higher
// goes.
fn relation(
    facts: &mut Facts<'_>,
    u: u32,
    v: u32,
    taken: Option<u32>,
) -> Result<Option<(u32, Lit)>, Memory> {
    if cancels(facts, u, v, taken) || cancels(facts, v, u, taken) {
        return Ok(None);
    }
    let Some(of_u) = facts.about(v, u)? else {
        return Ok(match facts.about(u, v)? {
            Some(of_v) => Some((u, of_v.lit)),
            None => None,
        });
    };
    let Some(of_v) = facts.about(u, v)? else {
        return Ok(Some((v, of_u.lit)));
    };
    let is_higher = (facts.level(u), u) > (facts.level(v), v);
    if of_u.lit.negated() || (is_higher && !of_v.lit.negated()) {
        Ok(Some((v, of_u.lit)))
    } else {
        Ok(Some((u, of_v.lit)))
    }
}

// Whether a pair cancels by itself: the gate of one of them is taken next, and the other one isn't above it.
fn cancels(facts: &Facts<'_>, u: u32, v: u32, taken: Option<u32>) -> bool {
    taken == Some(u) && facts.level(u) >= facts.level(v)
}
