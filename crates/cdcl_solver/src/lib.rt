//! A solver by conflict-driven clause learning whose log is lawful.
//!
//! `solve` refutes assumptions, finds a model, or spends its budget of lemmas. *Refuted* comes only where propagation
//! over the clauses and the log refutes the assumptions; a model meets all clauses and assumptions; *spent* comes only
//! where exactly as many lemmas were logged as were allowed, and propagation doesn't refute them. Whatever the answer,
//! out of memory among them, the lines before stay, at most that many lemmas come, each over the variables, and each
//! line that was logged is lawful. A `Solver` keeps its clauses and the order of decisions from goal to goal, and shows
//! clauses of two literals as lemmas of their own: only such as follow by propagation over the clauses and the log
//! (`shown`). `forget` deletes lemmas from the solver and its log, by lawful lines; each clause comes and goes in the
//! one as in the other (`alike`), and a search only adds (`adds`). Which lemmas go, which variable is decided next, and
//! where a search goes on, is a heuristic; so are the values that `suggest` has tried first. Variables of no clause are
//! never decided, and a model has them false. The function `solve`, without a `Solver`, is public for other
//! programs; no command uses it.
//!
//! *Lemma*: it follows from the live clauses by unit propagation, is no tautology, and has no live clause within it;
//! *lawful* lines: `specs/Log.antt` of `clause_core`. What the lines of a log leave live, and how a log goes on:
//! `specs/Logs.antt`. *Alike*, *adds*: `specs/Deletions.antt`. *Answer*: `specs/Solving.antt`. *Live*, *stands*: those
//! of `unit_prop`.
#![tactic(auto)]

mod analysis;
mod conflict;
mod decision;
mod descent;
mod lemmas;
mod levels;
mod literal;
mod log;
mod marks;
mod model;
mod order;
mod room;
mod runs;
mod search;
mod solved;
mod solver;
mod solving;

pub use log::Log;
pub use solved::Solved;
pub use solver::Solver;
pub use solving::solve;
