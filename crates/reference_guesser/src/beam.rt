// A search for the merges of a column by what is known of each.
use crate::evidence::{Evidence, Found};
use crate::fallback::{Extent, lowest, next_of_array};
use crate::merge::{Merge, Step};
use crate::pool::Pool;
use crate::style::{Shape, Style};
use crate::words::Word;
use graph_core::Memory;
use std::alloc::Global;
use std::mem;

// So many states are kept for each number of members, and fewer where there are many members.
const WIDTH: usize = 24;

const NARROW: usize = 16;

const MANY: usize = 24;

// So many merges with evidence are tried from a state.
const TRIED: usize = 12;

// With so few members all full adders are tried, and with so few all half adders.
const FEW: usize = 5;

const FEWER: usize = 3;

// The members that are left after some merges.
#[derive(Drop)]
struct State {
    points: i32,
    /// the last one is the sum of the last merge, if there was one
    members: Vec<u32>,
    /// the state before the last merge, and that
    before: Option<(usize, Merge)>,
    evidence: Evidence,
}

// A merge from a state, and the points with it.
#[derive(Clone, Copy, Debug)]
struct Candidate {
    points: i32,
    from: usize,
    merge: Merge,
}

/// A search over a column.
#[derive(Drop)]
pub(crate) struct Beam<'a> {
    alloc: Global,
    pub(crate) pool: Pool<'a>,
    extent: Extent,
    style: Style,
    states: Vec<State>,
    /// by how many members are left
    rounds: Vec<Vec<Candidate>>,
    /// how many full adders may yet be judged
    pub(crate) left: u64,
}

impl<'a> Beam<'a> {
    pub(crate) fn new(
        alloc: Global,
        pool: Pool<'a>,
        extent: Extent,
        style: Style,
        left: u64,
    ) -> Beam<'a> {
        Beam {
            alloc,
            pool,
            extent,
            style,
            states: Vec::new(alloc),
            rounds: Vec::new(alloc),
            left,
        }
    }

    /// The merges with most points from some members to one.
    pub(crate) fn best_path(&mut self, members: Vec<u32>) -> Result<Vec<Step>, Memory> {
        let count = members.len();
        for _round in 0..count {
            self.rounds.push(Vec::new(self.alloc))?;
        }
        self.enter(State {
            points: 0,
            members,
            before: None,
            evidence: Evidence::new(self.alloc),
        })?;
        for round in 1..count {
            self.take_round(count - round)?;
        }
        self.path_to_best()
    }

    // The best states with so many members, each once.
    fn take_round(&mut self, count: usize) -> Result<(), Memory> {
        let Some(round) = self.rounds.get_mut(count) else {
            return Ok(());
        };
        let mut candidates = mem::replace(round, Vec::new(self.alloc));
        candidates.sort_by_key(|candidate| 0i32.wrapping_sub(candidate.points))?;
        let most = if count > MANY { NARROW } else { WIDTH };
        let mut kept: Vec<Vec<u32>> = Vec::new(self.alloc);
        for candidate in candidates {
            if kept.len() < most {
                self.take(&mut kept, candidate)?;
            }
        }
        Ok(())
    }

    // The state after a merge, unless one has its members.
    fn take(&mut self, kept: &mut Vec<Vec<u32>>, candidate: Candidate) -> Result<(), Memory> {
        let sum = self.pool.sum(&candidate.merge)?;
        let Some(state) = self.states.get(candidate.from) else {
            return Ok(());
        };
        let members = merged(self.alloc, &state.members, &candidate.merge, sum)?;
        let evidence = state.evidence.after(self.alloc, &candidate.merge)?;
        if !put_new(self.alloc, kept, &members)? {
            return Ok(());
        }
        self.enter(State {
            points: candidate.points,
            members,
            before: Some((candidate.from, candidate.merge)),
            evidence,
        })
    }

    // A state with what its members tell, and the merges to be tried from it.
    fn enter(&mut self, state: State) -> Result<(), Memory> {
        let mut state = state;
        if !self.style.is_blind {
            self.judge(&mut state)?;
        }
        let from = self.states.len();
        for found in self.choices(&state)? {
            self.push_candidate(&state, from, found)?;
        }
        self.states.push(state)?;
        Ok(())
    }

    // What a state's members tell: all but the last sum were judged before.
    fn judge(&mut self, state: &mut State) -> Result<(), Memory> {
        let count = state.members.len();
        let first = match state.before {
            Some(_) => count.saturating_sub(1),
            None => 0,
        };
        for place in first..count {
            state
                .evidence
                .judge(&self.pool, &state.members, place, &mut self.left)?;
        }
        Ok(())
    }

    // One merge more that is to be tried.
    fn push_candidate(&mut self, state: &State, from: usize, found: Found) -> Result<(), Memory> {
        let left = state.members.len().saturating_sub(found.merge.fewer());
        if let Some(round) = self.rounds.get_mut(left) {
            round.push(Candidate {
                points: state.points.wrapping_add(found.points),
                from,
                merge: found.merge,
            })?;
        }
        Ok(())
    }

    // The merges to be tried from a state.
    fn choices(&self, state: &State) -> Result<Vec<Found>, Memory> {
        let members = state.members.as_slice();
        let mut choices = self.seen_choices(state)?;
        if members.len() > FEWER || self.style.is_blind {
            self.push_fallbacks(state, &mut choices)?;
        }
        if let (true, [x, y, ..]) = (choices.is_empty(), members) {
            let merge = Merge::half(*x, *y);
            self.push_choice(&mut choices, Some(merge))?;
        }
        Ok(choices)
    }

    // The best of those with evidence, and of all where there are few.
    fn seen_choices(&self, state: &State) -> Result<Vec<Found>, Memory> {
        let members = state.members.as_slice();
        if members.len() > FEW || self.style.is_blind {
            return state.evidence.best(self.alloc, &self.pool, TRIED);
        }
        let mut all = Evidence::new(self.alloc);
        all.push_all(&self.pool, members, members.len() <= FEWER)?;
        all.best(self.alloc, &self.pool, TRIED)
    }

    // Merges without evidence.
    fn push_fallbacks(&self, state: &State, choices: &mut Vec<Found>) -> Result<(), Memory> {
        let members = state.members.as_slice();
        let shape = self.style.shape;
        if shape != Shape::Level {
            let sum = match state.before {
                Some(_) => members.last().copied(),
                None => None,
            };
            let merge = next_of_array(self.alloc, members, sum, &self.extent, shape)?;
            self.push_choice(choices, merge)?;
        }
        if !self.style.is_blind || choices.is_empty() {
            let merge = lowest(self.alloc, &self.pool, members)?;
            self.push_choice(choices, merge)?;
        }
        Ok(())
    }

    fn push_choice(&self, choices: &mut Vec<Found>, merge: Option<Merge>) -> Result<(), Memory> {
        if let Some(merge) = merge {
            let points = self.pool.points(&merge);
            choices.push(Found { points, merge })?;
        }
        Ok(())
    }

    // The merges that led to the best state with one member.
    fn path_to_best(&self) -> Result<Vec<Step>, Memory> {
        let mut path = Vec::new(self.alloc);
        let Some(mut state) = self.best() else {
            return Ok(path);
        };
        for _step in 0..self.states.len() {
            let (Some((from, merge)), Some(sum)) = (state.before, state.members.last()) else {
                break;
            };
            path.push(Step {
                merge,
                sum: *sum,
                word: Word::first(),
            })?;
            let Some(before) = self.states.get(from) else {
                break;
            };
            state = before;
        }
        path.reverse();
        Ok(path)
    }

    fn best(&self) -> Option<&State> {
        let mut best: Option<&State> = None;
        for state in self.states.iter() {
            let is_better = match best {
                Some(other) => other.points <= state.points,
                None => true,
            };
            if state.members.len() == 1 && is_better {
                best = Some(state);
            }
        }
        best
    }
}

// The members that a merge leaves, and its sum.
fn merged(alloc: Global, members: &[u32], merge: &Merge, sum: u32) -> Result<Vec<u32>, Memory> {
    let mut left = Vec::with_capacity(alloc, members.len())?;
    for member in members {
        if !merge.takes(*member) {
            left.push(*member)?;
        }
    }
    left.push(sum)?;
    Ok(left)
}

// Puts members into a list, unless they are there in some order.
fn put_new(alloc: Global, kept: &mut Vec<Vec<u32>>, members: &[u32]) -> Result<bool, Memory> {
    let mut sorted = Vec::new(alloc);
    sorted.extend_from_slice(members)?;
    sorted.sort_unstable();
    if kept
        .iter()
        .any(|other| other.as_slice() == sorted.as_slice())
    {
        return Ok(false);
    }
    kept.push(sorted)?;
    Ok(true)
}
