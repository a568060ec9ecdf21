//! Tests of the crates below the program: what no contract and no test of the program says. There is no other code: so
//! each of those crates is proved for itself alone, without its tests.
#![tactic(auto)]

#[cfg(test)]
mod aiger;
#[cfg(test)]
mod clause_lists;
#[cfg(test)]
mod desks;
#[cfg(test)]
mod judging;
#[cfg(test)]
mod lines;
#[cfg(test)]
mod making;
#[cfg(test)]
mod polynomials;
#[cfg(test)]
mod references;
#[cfg(test)]
mod refutations;
#[cfg(test)]
mod searching;
#[cfg(test)]
mod stages;
#[cfg(test)]
mod texts;
