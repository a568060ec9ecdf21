// cdcl_solver: small formulas, and what is found of them.
use crate::clause_lists::{clause_of, listed};
use cdcl_solver::{Log, Solved, solve};
use graph_core::Memory;
use std::alloc::Global;
use std::test::Fail;

// Three pigeons in two holes: pigeon p sits in hole h where variable 2p + h is true, from p = 0 and h = 1 on.
const PIGEONS: [&[i32]; 9] = [
    &[1, 2],
    &[3, 4],
    &[5, 6],
    &[-1, -3],
    &[-1, -5],
    &[-3, -5],
    &[-2, -4],
    &[-2, -6],
    &[-4, -6],
];

// Variables 3 and 4 are each the exclusive or of variables 1 and 2.
const TWO_XORS: [&[i32]; 8] = [
    &[-3, 1, 2],
    &[-3, -1, -2],
    &[3, -1, 2],
    &[3, 1, -2],
    &[-4, 1, 2],
    &[-4, -1, -2],
    &[4, -1, 2],
    &[4, 1, -2],
];

const IMPLIED: [&[i32]; 3] = [&[1, 2], &[-1, 3], &[-2, -3]];

// The greatest variable.
const GREATEST: u32 = 6;

// What is found of clauses and assumptions within so many conflicts.
fn found(
    alloc: Global,
    clauses: &[&[i32]],
    assumptions: &[i32],
    conflicts: u64,
) -> Result<&'static str, Memory> {
    let list = listed(alloc, GREATEST, clauses)?;
    let assumed = clause_of(alloc, GREATEST, assumptions)?;
    let mut log = Log::new(alloc);
    let solved = solve(alloc, GREATEST, &list, assumed.lits(), conflicts, &mut log)?;
    Ok(match solved {
        Solved::Refuted => "refuted",
        Solved::Spent => "spent",
        Solved::Model(_) => "model",
    })
}

// Clauses, assumptions, the conflicts that are allowed, and what is found.
const FORMULAS: [(&str, &[&[i32]], &[i32], u64, &str); 6] = [
    ("three pigeons don't fit", &PIGEONS, &[], 100, "refuted"),
    (
        "without a lemma that isn't known",
        &PIGEONS,
        &[],
        0,
        "spent",
    ),
    (
        "two exclusive ors don't differ",
        &TWO_XORS,
        &[3, -4],
        100,
        "refuted",
    ),
    (
        "opposed assumptions need no lemma",
        &TWO_XORS,
        &[2, -2],
        0,
        "refuted",
    ),
    (
        "they agree where one is true",
        &TWO_XORS,
        &[3],
        100,
        "model",
    ),
    ("a formula that can be met", &IMPLIED, &[1], 100, "model"),
];

#[test]
fn small_formulas_are_decided(rt: HostRuntime) -> Result<(), Fail> {
    for &(shows, clauses, assumptions, conflicts, due) in &FORMULAS {
        let answer = found(rt.alloc(), clauses, assumptions, conflicts)?;
        assert!(rt; answer == due, "{shows}");
    }
    Ok(())
}
