// A solver that is kept between goals.
ghost use Rattle.std.specs.Prelude.{◌≡◌, ◌≢◌, ◌↔◌, ◌<◌, ◌≤◌, ◌^◌, [], ◌∷◌, ◌++◌, IfOk, IfSome, IsFalse, IsSome, IsTrue, List, OnOk, OnErr};
ghost use Rattle.std.specs.List.{All, Contains};
ghost use Rattle.clause_core.specs.Clause.{Clause as Literals, IsClauseInRange};
ghost use Rattle.clause_core.specs.UnitPropagation.{IsRup};
ghost use Rattle.unit_prop.specs.Trail.{signed_variable as variable_of};
ghost use Rattle.cdcl_solver.specs.Deletions.{ChangeAlike, OnlyAdds, StaysOrDeletes};
ghost use Rattle.cdcl_solver.specs.Loading.{SameLive};
ghost use Rattle.cdcl_solver.specs.Logs.{LogView, Continues};
ghost use Rattle.cdcl_solver.specs.Shows.{HasNoneWithin, IsShownByLog, KeepsOrLearns};
ghost use Rattle.cdcl_solver.specs.Solvers.{SolverView, IsSolverEnd, IsTurn, with_clause};
ghost use Rattle.cdcl_solver.specs.Solving.{IsAnswer};

use crate::lemmas::{Learnt, Lemmas};
use crate::levels::Levels;
use crate::literal::{negation, variable};
use crate::log::Log;
use crate::order::Order;
use crate::room::Room;
use crate::search::{Found, derive_each_other, explore, is_settled};
use crate::solved::Solved;
use clause_core::Clause;
use graph_core::Memory;
use std::alloc::Global;
use std::marker::Model;
use unit_prop::Propagator;

// How a turn of a search ends.
#[derive(Debug, Drop)]
enum Turn {
    // One lemma more.
    Learnt,
    Ends(Solved),
    // There is a model, or too many decisions.
    GivenUp,
}

/// Live clauses, and the order in which their variables are decided, kept from goal to goal.
#[derive(Drop)]
pub struct Solver {
    alloc: Global,
    /// The greatest variable.
    max: u32,
    propagator: Propagator,
    levels: Levels,
    order: Order,
    /// What each analysis of a conflict uses again.
    room: Room,
    /// What was learnt here and may be deleted.
    lemmas: Lemmas,
    /// The variables that were preferred last.
    near: Vec<u32>,
}

impl Model for Solver {
    ghost use Rattle.unit_prop.specs.Standing.{live_of};
    ghost use Rattle.cdcl_solver.specs.Solvers.{SolverView, IsReady};

    ghost Value = { SolverView };

    ghost view = { λ s. record { max = s.max; live = live_of s.propagator.clauses } };

    ghost invariant = { λ s. IsReady s.max s.propagator s.order s.levels.base s.levels.marks.items };
}

impl Solver {
    /// No clauses, over the variables from 1 to `max`.
    pub fn new(alloc: Global, max: u32) -> Result<Solver, Memory>
        requires { max < 2 ^ 31 }
        ensures { IfOk result (λ s. s ≡ record { max = max; live = [] }) }
    {
        let propagator = Propagator::new(alloc, max)?;
        let levels = Levels::new(alloc, &propagator);
        let order = Order::new(alloc, max)?;
        Ok(Solver {
            alloc,
            max,
            propagator,
            levels,
            order,
            room: Room::new(alloc),
            lemmas: Lemmas::new(alloc),
            near: Vec::new(alloc),
        })
    }

    /// One more clause.
    pub fn add(&mut self, clause: &Clause) -> Result<(), Memory>
        requires { IsClauseInRange self.old.max clause.now }
        ensures ok { OnOk result (self.new ≡ with_clause self.old clause.now) }
        ensures err { OnErr result (self.new ≡ self.old) }
    {
        self.lemmas.begin();
        self.order.enter(clause.lits())?;
        self.levels.add_anew(&mut self.propagator, clause)?;
        Ok(())
    }

    /// Deletes lemmas that were learnt here from the log and from the clauses, if there are many and a deletion may
    /// come. Which ones, is a heuristic.
    pub fn forget(&mut self, log: &mut Log) -> Result<(), Memory>
        requires { All (IsClauseInRange self.old.max) log.old.left }
        ensures max { self.new.max ≡ self.old.max }
        ensures log { (given : List Literals) → Continues self.old.max given 0 log.old log.new }
        ensures in_range { All (IsClauseInRange self.old.max) log.new.left }
        ensures alike { ChangeAlike self.old.live log.old self.new.live log.new }
    {
        if !log.may_delete() {
            return Ok(());
        }
        let useless = self.lemmas.take_useless(self.alloc)?;
        for lemma in &useless {
            self.delete(*lemma, log)?;
        }
        Ok(())
    }

    // Deletes a lemma from the log and from the clauses, if both have it.
    fn delete(&mut self, lemma: Learnt, log: &mut Log) -> Result<(), Memory>
        ensures max { self.new.max ≡ self.old.max }
        ensures deletes { StaysOrDeletes self.old.live log.old self.new.live log.new }
    {
        if let Some(lits) = self.propagator.get(lemma.clause.place()) {
            let own = Clause::new(self.alloc, lits)?;
            // both rise, so the lists are the same
            let _lits = own.lits();
            if log.delete(lemma.line, own)? {
                self.levels.remove(&mut self.propagator, lemma.clause);
            }
        }
        Ok(())
    }

    /// Decides these variables before the others, the last one first; and `show` tries propagation over these alone
    /// first. No answer depends on it.
    pub fn prefer(&mut self, vars: &[u32])
        ensures { self.new ≡ self.old }
    {
        self.order.prefer(vars);
        keep_all(&mut self.near, vars);
    }

    /// Decides the variables of these literals before the others, the last one first, and tries these values first. No
    /// answer depends on it.
    pub fn suggest(&mut self, lits: &[i32])
        ensures { self.new ≡ self.old }
    {
        self.order.suggest(lits);
    }

    /// Refutes the assumptions over the live clauses, finds a model of all of them, or logs `conflicts` lemmas.
    ///
    /// What the log left has to be live here. After an `Err` the log may have lemmas more, each lawful, and nothing is
    /// known of the solver.
    pub fn solve(
        &mut self,
        assumptions: &[i32],
        conflicts: u64,
        log: &mut Log,
    ) -> Result<Solved, Memory>
        requires known { (c : Literals) → Contains log.old.left c → Contains self.old.live c }
        requires log { All (IsClauseInRange self.old.max) log.old.left }
        requires assumptions { IsClauseInRange self.old.max assumptions.now }
        ensures max { self.new.max ≡ self.old.max }
        ensures log { Continues self.old.max self.old.live conflicts log.old log.new }
        ensures in_range { All (IsClauseInRange self.old.max) log.new.left }
        ensures live { OnOk result (SameLive self.new.live (log.new.left ++ self.old.live)) }
        ensures alike { OnOk result (ChangeAlike self.old.live log.old self.new.live log.new) }
        ensures adds { OnlyAdds log.old log.new }
        ensures answer { IfOk result (IsAnswer self.old.max self.old.live assumptions.now conflicts log.old log.new) }
    {
        match self.search(assumptions, conflicts, false, log)? {
            Some(solved) => Ok(solved),
            None => unreachable!(),
        }
    }

    // The same; or None where a few decisions between two lemmas are enough, if there is a model or more are needed.
    fn search(
        &mut self,
        assumptions: &[i32],
        conflicts: u64,
        few: bool,
        log: &mut Log,
    ) -> Result<Option<Solved>, Memory>
        requires known { (c : Literals) → Contains log.old.left c → Contains self.old.live c }
        requires log { All (IsClauseInRange self.old.max) log.old.left }
        requires assumptions { IsClauseInRange self.old.max assumptions.now }
        ensures max { self.new.max ≡ self.old.max }
        ensures log { Continues self.old.max self.old.live conflicts log.old log.new }
        ensures in_range { All (IsClauseInRange self.old.max) log.new.left }
        ensures live { OnOk result (SameLive self.new.live (log.new.left ++ self.old.live)) }
        ensures alike { OnOk result (ChangeAlike self.old.live log.old self.new.live log.new) }
        ensures adds { OnlyAdds log.old log.new }
        ensures answer { IfOk result (λ found. IfSome found
            (IsAnswer self.old.max self.old.live assumptions.now conflicts log.old log.new)) }
        ensures some { IsFalse few → IfOk result IsSome }
    {
        for turn in 0..conflicts {
            let anew = self.lemmas.is_new(turn, few);
            match self.turn(assumptions, anew, few, log)? {
                Turn::Learnt => {}
                Turn::Ends(solved) => return Ok(Some(solved)),
                Turn::GivenUp => return Ok(None),
            }
        }
        Ok(Some(self.close(assumptions)))
    }

    /// Shows a clause of two literals within so many lemmas, of which it is the last one, and a few decisions before
    /// each; whether it follows now by propagation. It is logged and live but where propagation derives each literal
    /// from the other's negation already. False of literals that aren't of two variables.
    ///
    /// What the log left has to be live here. After an `Err` the log may have lemmas more, each lawful, and nothing is
    /// known of the solver.
    pub fn show(
        &mut self,
        one: i32,
        other: i32,
        conflicts: u64,
        log: &mut Log,
    ) -> Result<bool, Memory>
        requires known { (c : Literals) → Contains log.old.left c → Contains self.old.live c }
        requires log { All (IsClauseInRange self.old.max) log.old.left }
        ensures max { self.new.max ≡ self.old.max }
        ensures log { Continues self.old.max self.old.live conflicts log.old log.new }
        ensures in_range { All (IsClauseInRange self.old.max) log.new.left }
        ensures live { OnOk result (SameLive self.new.live (log.new.left ++ self.old.live)) }
        ensures alike { OnOk result (ChangeAlike self.old.live log.old self.new.live log.new) }
        ensures adds { OnlyAdds log.old log.new }
        ensures shown { IfOk result (IsShownByLog self.old.live (one ∷ other ∷ []) log.new) }
    {
        if conflicts == 0 {
            return Ok(false);
        }
        if !are_apart(self.max, one, other) {
            return Ok(false);
        }
        if self.follows_near(one, other)? {
            self.keep(one, other, log)?;
            return Ok(true);
        }
        let negated = [negation(one), negation(other)];
        match self.search(&negated, conflicts - 1, true, log)? {
            Some(Solved::Refuted) => self.keep(one, other, log)?,
            _ => return Ok(false),
        }
        Ok(true)
    }

    // Whether a clause of two literals follows from a few clauses near them, of the variables that were preferred last.
    fn follows_near(&self, one: i32, other: i32) -> Result<bool, Memory>
        requires { IsClauseInRange self.now.max (one ∷ other ∷ []) }
        ensures { IfOk result (λ near. IsTrue near → IsRup self.now.live (one ∷ other ∷ [])) }
    {
        let mut lits = Vec::new(self.alloc);
        lits.push(negation(one))?;
        lits.push(negation(other))?;
        self.propagator.is_refuted_near(&self.near, &mut lits)
    }

    // Logs and adds a clause of two literals that follows, but where propagation derives each from the other's
    // negation.
    fn keep(&mut self, one: i32, other: i32, log: &mut Log) -> Result<(), Memory>
        requires range { IsClauseInRange self.old.max (one ∷ other ∷ []) }
        requires apart { variable_of one ≢ variable_of other }
        requires follows { IsRup self.old.live (one ∷ other ∷ []) }
        ensures max { self.new.max ≡ self.old.max }
        ensures kept { OnOk result (KeepsOrLearns self.old log.old self.new log.new) }
        ensures err { OnErr result (log.new ≡ log.old) }
    {
        if self.derives(one, other) {
            return Ok(());
        }
        let clause = Clause::new(self.alloc, &[one, other])?;
        self.add(&clause)?;
        log.push(clause)?;
        Ok(())
    }

    // Whether propagation derives each of two literals from the other's negation.
    fn derives(&mut self, one: i32, other: i32) -> bool
        requires { IsClauseInRange self.old.max (one ∷ other ∷ []) }
        ensures same { self.new ≡ self.old }
        ensures none { IsFalse result → HasNoneWithin self.old.live (one ∷ other ∷ []) }
    {
        self.levels.restart(&mut self.propagator);
        derive_each_other(self.max, &mut self.propagator, one, other)
    }

    // An answer, or one lemma more; or neither, where a few decisions are enough.
    fn turn(
        &mut self,
        assumptions: &[i32],
        anew: bool,
        few: bool,
        log: &mut Log,
    ) -> Result<Turn, Memory>
        requires { IsClauseInRange self.old.max assumptions.now }
        ensures max { self.new.max ≡ self.old.max }
        ensures turn { IfOk result (IsTurn self.old log.old self.new log.new assumptions.now few) }
        ensures err { OnErr result (log.new ≡ log.old) }
    {
        let found = explore(
            self.alloc,
            self.max,
            &mut self.propagator,
            &mut self.order,
            &mut self.levels,
            &mut self.room,
            assumptions,
            anew,
            few,
        )?;
        match found {
            Found::Answer(solved) => Ok(Turn::Ends(solved)),
            Found::GivenUp => Ok(Turn::GivenUp),
            Found::Lemma(lemma) => {
                self.order.enter(lemma.lits())?;
                let clause = self.levels.add(&mut self.propagator, &lemma)?;
                self.lemmas
                    .push(clause, log.lines().len(), lemma.lits().len(), few)?;
                log.push(lemma)?;
                Ok(Turn::Learnt)
            }
        }
    }

    // Whether the assumptions are refuted by propagation.
    fn close(&mut self, assumptions: &[i32]) -> Solved
        requires { IsClauseInRange self.old.max assumptions.now }
        ensures same { self.new ≡ self.old }
        ensures end { IsSolverEnd self.old assumptions.now result }
    {
        self.levels.restart(&mut self.propagator);
        if is_settled(self.max, &mut self.propagator, assumptions) {
            return Solved::Spent;
        }
        Solved::Refuted
    }
}

// Keeps numbers in place of others, as many as there is room for.
fn keep_all(kept: &mut Vec<u32>, numbers: &[u32]) {
    kept.clear();
    for number in numbers {
        let _ = kept.push(*number);
    }
}

// Whether two literals are of two variables up to the greatest one.
fn are_apart(max: u32, one: i32, other: i32) -> bool
    ensures { IsTrue result → IsClauseInRange max (one ∷ other ∷ []) × (variable_of one ≢ variable_of other) }
{
    let first = variable(one);
    let second = variable(other);
    is_variable(max, first) && is_variable(max, second) && first != second
}

fn is_variable(max: u32, number: u32) -> bool
    ensures { IsTrue result ↔ (0 < number) × (number ≤ max) }
{
    0 < number && number <= max
}
