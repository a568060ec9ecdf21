// Which variable is decided next, and how.
ghost use Rattle.std.specs.Prelude.{◌≡◌, ◌<◌, ◌≤◌, ◌^◌, [], ℤ, IfOk, OnOk};
ghost use Rattle.std.specs.List.{Contains};
ghost use Rattle.unit_prop.specs.Standing.{Standing};
ghost use Rattle.unit_prop.specs.Trail.{IsLiteralUpTo};
ghost use Rattle.cdcl_solver.specs.Orders.{OrderView, GrowsOrder, HasVariablesOf};
ghost use Rattle.cdcl_solver.specs.Search.{IsChoice};

use crate::decision::{first_open, open_literal};
use crate::literal::variable;
use graph_core::Memory;
use std::alloc::Global;
use std::marker::Model;
use unit_prop::Propagator;

/// The variables that clauses have, in the order in which they are decided, and the value that each had last.
///
/// A variable that took part in a conflict moves to the front. The order is a ring of links through 0; that it has
/// every variable is not relied on. A variable of no clause is never decided, so that a great number costs nothing.
#[derive(Debug, Drop)]
pub(crate) struct Order {
    greatest: u32,
    next: Vec<u32>,
    prev: Vec<u32>,
    phases: Vec<bool>,
    /// By variable, whether it is in the order.
    marks: Vec<bool>,
    /// Those that are.
    vars: Vec<u32>,
    /// Those of them that have no links yet.
    fresh: Vec<u32>,
}

impl Model for Order {
    ghost use Rattle.cdcl_solver.specs.Orders.{OrderView, AreLinks};

    ghost Value = { OrderView };

    ghost view = { λ o. record { greatest = o.greatest; vars = o.vars.items } };

    ghost invariant = { λ o. AreLinks o.greatest o.next.items o.prev.items o.phases.items o.marks.items o.vars.items };
}

impl Order {
    /// No variables, of those up to the greatest one.
    pub(crate) fn new(alloc: Global, max: u32) -> Result<Order, Memory>
        requires { max < 2 ^ 31 }
        ensures { IfOk result (λ order. order ≡ record { greatest = max; vars = [] }) }
    {
        let size = max as usize + 1;
        Ok(Order {
            greatest: max,
            next: Vec::from_elem(alloc, 0, size)?,
            prev: Vec::from_elem(alloc, 0, size)?,
            phases: Vec::from_elem(alloc, false, size)?,
            marks: Vec::from_elem(alloc, false, size)?,
            vars: Vec::new(alloc),
            fresh: Vec::new(alloc),
        })
    }

    /// Enters the variables of a clause. A new one is false at first.
    pub(crate) fn enter(&mut self, lits: &[i32]) -> Result<(), Memory>
        requires { (l : ℤ) → Contains lits.now l → IsLiteralUpTo self.old.greatest l }
        ensures grows { GrowsOrder self.old self.new }
        ensures entered { OnOk result (HasVariablesOf self.new.vars lits.now) }
    {
        for &lit in lits {
            self.enter_variable(variable(lit))?;
        }
        Ok(())
    }

    fn enter_variable(&mut self, var: u32) -> Result<(), Memory>
        requires some { 0 < var }
        requires within { var ≤ self.old.greatest }
        ensures grows { GrowsOrder self.old self.new }
        ensures entered { OnOk result (Contains self.new.vars var) }
    {
        if self.marks[var as usize] {
            return Ok(());
        }
        self.fresh.push(var)?;
        self.vars.push(var)?;
        self.marks[var as usize] = true;
        Ok(())
    }

    /// Puts the variables that were entered to the front, the greatest one foremost.
    pub(crate) fn link(&mut self)
        ensures { self.new ≡ self.old }
    {
        self.fresh.sort_unstable();
        for place in 0..self.fresh.len() {
            self.link_at(place);
        }
        self.fresh.clear();
    }

    fn link_at(&mut self, place: usize)
        ensures { self.new ≡ self.old }
    {
        if let Some(var) = self.fresh.get(place).copied() {
            if var <= self.greatest {
                self.push_front(var);
            }
        }
    }

    /// Moves a variable to the front, if it is in the order.
    pub(crate) fn bump(&mut self, var: u32)
        requires { var ≤ self.old.greatest }
        ensures { self.new ≡ self.old }
    {
        if self.marks[var as usize] {
            let before = self.prev[var as usize];
            let after = self.next[var as usize];
            self.next[before as usize] = after;
            self.prev[after as usize] = before;
            self.push_front(var);
        }
    }

    /// Moves some variables to the front, the last one foremost. Numbers that aren't in the order are passed over.
    pub(crate) fn prefer(&mut self, vars: &[u32])
        ensures { self.new ≡ self.old }
    {
        self.link();
        for &var in vars {
            if var <= self.greatest {
                self.bump(var);
            }
        }
    }

    fn push_front(&mut self, var: u32)
        requires { var ≤ self.old.greatest }
        ensures { self.new ≡ self.old }
    {
        let head = self.next[0];
        self.next[var as usize] = head;
        self.prev[head as usize] = var;
        self.next[0] = var;
        self.prev[var as usize] = 0;
    }

    /// Keeps the values that stand.
    pub(crate) fn save(&mut self, trail: &[i32])
        ensures { self.new ≡ self.old }
    {
        keep_values(&mut self.phases, trail);
    }

    /// Moves the variables of some literals to the front, the last one foremost, and keeps the values that these give
    /// them.
    pub(crate) fn suggest(&mut self, lits: &[i32])
        ensures { self.new ≡ self.old }
    {
        self.link();
        self.save(lits);
        for &lit in lits {
            let var = variable(lit);
            if var <= self.greatest {
                self.bump(var);
            }
        }
    }

    /// The first open variable from the cursor on, with the value that it had last; None where each has a value.
    pub(crate) fn choose(&self, propagator: &Propagator, cursor: &mut u32) -> Option<i32>
        requires max { propagator.now.trail.greatest ≡ self.now.greatest }
        requires signed { self.now.greatest < 2 ^ 31 }
        requires cursor { cursor.old ≤ self.now.greatest }
        ensures choice { IsChoice self.now.vars propagator.now result }
        ensures cursor { cursor.new ≤ self.now.greatest }
    {
        for _step in 0..self.greatest {
            let var = *cursor;
            if var == 0 {
                break;
            }
            if let Some(lit) = open_literal(propagator, var, self.phases[var as usize]) {
                return Some(lit);
            }
            *cursor = self.next[var as usize];
        }
        first_open(propagator, &self.vars)
    }

    pub(crate) fn first(&self) -> u32
        ensures { result ≤ self.now.greatest }
    {
        self.next[0]
    }
}

// By variable the value that a literal gives it.
fn keep_values(values: &mut [bool], lits: &[i32]) {
    for &lit in lits {
        let var = variable(lit) as usize;
        if var < values.len() {
            values[var] = lit > 0;
        }
    }
}
