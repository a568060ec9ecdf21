//! Drafts of the lines of a reduction in which no monomial keeps two variables of which one follows from the other.
//!
//! `draft_plan` takes the steps of a plan: columns are added, and each gate's variable is replaced by the product of
//! its operands. A monomial with two variables that exclude each other is left out, and of one in which a variable
//! implies another that one goes. Each fact that is used so is a line of its own, before the line that uses it. What
//! comes out are drafts, of which the last one is to differ from the specification by a polynomial over inputs alone.
//!
//! *Follows*: found from a variable by unit propagation through the gates. *Fact*: a literal that follows from a
//! variable, whose line is that variable times the literal's negation. *Loose*: a monomial that may have two such
//! variables; a whole adder's cancel by themselves, so they may stay until a gate is taken that ends that. *Wide
//! product*: a gate that is the AND of many tops of exclusive ors, as propagates of an adder with prefixes are. Its
//! variable stays in monomials, in place of those of the tops, until one of these is taken.
//!
//! All of this is a heuristic: whoever makes lines of drafts sees what they state, so no contract says more here than
//! that each call returns.
#![tactic(auto)]

mod batch;
mod drafting;
mod facts;
mod frontier;
mod lemmas;
mod monomials;
mod normal;
mod polynomials;
mod products;
mod shapes;
mod waiting;
mod walk;

pub use drafting::draft_plan;
