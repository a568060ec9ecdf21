// Steps of a slice plan, with what still reads each variable.
ghost use Rattle.std.specs.Prelude.{◌≡◌, ◌↔◌, ◌<◌, ◌≤◌, ◌+◌, ◌^◌, ◌++◌, ◌∷◌, ℕ, [], None, Ok, IfOk};
ghost use Rattle.std.specs.Prelude.{IfSome, IsTrue, List, OnOk, length, map, slice_index_or};
ghost use Rattle.std.specs.List.{All, Contains};
ghost use Rattle.graph_core.specs.Graph.Literals.{variable_of};
ghost use Rattle.frontier_core.specs.declared.step.Step.TheVariants as steps;
ghost use Rattle.frontier_core.specs.Plan.{AreSteps, CanEliminate, IsPlan, nothing, taken};
ghost use Rattle.frontier_core.specs.Sets.{has};
ghost use Rattle.slice_planner.specs.GroupPlans.{AreAtGroups, AreGroups};
ghost use Rattle.slice_planner.specs.Groups.{GoesByGroups};
ghost use Rattle.slice_planner.specs.SlicePlan.{columns_added, count_down, swept};
ghost use Rattle.slice_planner.specs.Arranged.{lists_in, variables};
ghost use Rattle.slice_planner.specs.Taking.{IsReadyGate, LowersByOne, Raises, StaysAtGroups};
ghost use Rattle.slice_planner.specs.Taking.{is_one, read_by_gates, still_read, took};

use crate::arrangement::Arrangement;
use frontier_core::Step;
use graph_core::{Gate, Lit, Memory};
use ripple_graft::Extended;
use std::alloc::Global;
use std::marker::Model;

/// Steps from nothing, each of which can follow those before it.
///
/// Columns are added from the last down, and a gate is eliminated only where nothing reads it any more.
#[derive(Debug, Drop)]
pub(crate) struct Taking<'a> {
    extended: &'a Extended<'a>,
    steps: Vec<Step>,
    /// the columns from this one on were added
    below: usize,
    /// by variable: whether its gate was eliminated
    gone: Vec<bool>,
    /// by variable: of how many operands of gates that aren't eliminated, and outputs of columns that aren't added
    readers: Vec<u64>,
}

impl<'a> Model for Taking<'a> {
    ghost use Rattle.slice_planner.specs.Taking.{IsTaking, Took, took};

    ghost Value = { Took };

    ghost view = { λ t. took t.extended.now t.steps.items t.below };

    ghost invariant = { λ t. IsTaking (took t.extended.now t.steps.items t.below) t.gone.items t.readers.items };
}

impl<'a> Taking<'a> {
    /// No step yet.
    pub(crate) fn new(alloc: Global, extended: &'a Extended<'a>) -> Result<Taking<'a>, Memory>
        ensures { IfOk result (λ t. t ≡ took extended.now [] (length extended.now.graph.outputs)) }
    {
        let room = extended.max() as usize + 1;
        let gone = vec![in alloc; false; room]?;
        let readers = readers_of(alloc, extended)?;
        Ok(Taking {
            extended,
            steps: Vec::new(alloc),
            below: extended.graph().outputs() as usize,
            gone,
            readers,
        })
    }

    /// Adds the next column down and tells its number, if one is left.
    pub(crate) fn add_column(&mut self) -> Result<Option<usize>, Memory>
        ensures extended { self.new.extended ≡ self.old.extended }
        ensures lower { IfOk result (λ r. IfSome r (λ k. self.old.below ≡ k + 1)) }
        ensures below { IfOk result (λ r. IfSome r (λ k. self.new.below ≡ k)) }
        ensures none { result ≡ Ok None → self.new.below ≡ 0 }
        ensures groups { OnOk result (StaysAtGroups self.old self.new) }
    {
        if self.below == 0 {
            return Ok(None);
        }
        let column = self.below - 1;
        self.push_column(column)?;
        Ok(Some(column))
    }

    /// Eliminates those of the groups at these places that can go, one after the other.
    pub(crate) fn try_due(
        &mut self,
        arrangement: &Arrangement,
        places: &[usize],
    ) -> Result<(), Memory>
        requires { All (Contains self.old.extended.gates) arrangement.now.gates }
        ensures extended { self.new.extended ≡ self.old.extended }
        ensures below { self.new.below ≡ self.old.below }
        ensures groups { OnOk result ((gs : List (List ℕ)) → lists_in arrangement.now ≡ gs →
            AreGroups self.old.extended gs → AreAtGroups self.old.extended gs self.old.steps →
            AreAtGroups self.old.extended gs self.new.steps) }
    {
        for place in places {
            self.try_place(arrangement, *place)?;
        }
        Ok(())
    }

    /// Eliminates the groups that are left, and then whatever gates are.
    pub(crate) fn finish(self, arrangement: &Arrangement) -> Result<Vec<Step>, Memory>
        requires below { self.below ≡ 0 }
        requires gates { All (Contains self.extended.gates) arrangement.now.gates }
        ensures plan { IfOk result (λ steps. IsPlan self.entry.extended steps.items) }
        ensures columns { IfOk result (λ steps.
            columns_added steps.items ≡ count_down (length self.entry.extended.graph.outputs)) }
        ensures groups { IfOk result (λ steps. (gs : List (List ℕ)) → lists_in arrangement.now ≡ gs →
            AreGroups self.entry.extended gs → AreAtGroups self.entry.extended gs self.entry.steps →
            GoesByGroups gs steps.items) }
    {
        let mut taking = self;
        let _gates = taking.extended.gates();
        taking.try_all(arrangement)?;
        while let Some(gate) = taking.first_ready() {
            taking.eliminate(gate)?;
        }
        Ok(taking.steps)
    }

    // Adds the column below those that were added.
    fn push_column(&mut self, column: usize) -> Result<(), Memory>
        requires next { self.old.below ≡ column + 1 }
        ensures extended { self.new.extended ≡ self.old.extended }
        ensures below { OnOk result (self.new.below ≡ column) }
        ensures groups { OnOk result (StaysAtGroups self.old self.new) }
    {
        let _gates = self.extended.gates();
        let _outputs = self.extended.graph().outputs();
        let output = self.extended.new_output(column as u32);
        self.steps.push(Step::Add(column as u32))?;
        self.below = column;
        one_less(&mut self.readers, output.var());
        Ok(())
    }

    // Eliminates the group at a place, if there is one and it can go.
    fn try_place(&mut self, arrangement: &Arrangement, place: usize) -> Result<(), Memory>
        requires { All (Contains self.old.extended.gates) arrangement.now.gates }
        ensures extended { self.new.extended ≡ self.old.extended }
        ensures below { self.new.below ≡ self.old.below }
        ensures groups { OnOk result ((gs : List (List ℕ)) → lists_in arrangement.now ≡ gs →
            AreGroups self.old.extended gs → AreAtGroups self.old.extended gs self.old.steps →
            AreAtGroups self.old.extended gs self.new.steps) }
    {
        if place < arrangement.len() {
            self.try_group(arrangement.group(place))
        } else {
            Ok(())
        }
    }

    // Eliminates all groups that can go, each after those before it.
    fn try_all(&mut self, arrangement: &Arrangement) -> Result<(), Memory>
        requires { All (Contains self.old.extended.gates) arrangement.now.gates }
        ensures extended { self.new.extended ≡ self.old.extended }
        ensures below { self.new.below ≡ self.old.below }
        ensures steps { OnOk result (self.new.steps ≡
            self.old.steps ++ swept self.old.extended (taken nothing self.old.steps) (lists_in arrangement.now)) }
    {
        for place in 0..arrangement.len() {
            self.try_group(arrangement.group(place))?;
        }
        Ok(())
    }

    // Eliminates the gates of a group, if all can go.
    fn try_group(&mut self, group: &[Gate]) -> Result<(), Memory>
        requires { All (Contains self.old.extended.gates) group.now }
        ensures extended { self.new.extended ≡ self.old.extended }
        ensures below { self.new.below ≡ self.old.below }
        ensures steps { OnOk result (self.new.steps ≡
            self.old.steps ++ swept self.old.extended (taken nothing self.old.steps) (variables group.now ∷ [])) }
    {
        if self.can_all_go(group) {
            self.eliminate_all(group)
        } else {
            Ok(())
        }
    }

    // Whether the gates of a group can go, one after the other.
    fn can_all_go(&self, group: &[Gate]) -> bool
        requires { All (Contains self.now.extended.gates) group.now }
        ensures { IsTrue result ↔ AreSteps self.now.extended (taken nothing self.now.steps)
            (map steps.Eliminate (variables group.now)) }
    {
        for (place, gate) in group.iter().enumerate() {
            if !self.can_go_behind(&group[..place], *gate) {
                return false;
            }
        }
        true
    }

    // Whether a gate can go after others, which can.
    fn can_go_behind(&self, front: &[Gate], gate: Gate) -> bool
        requires gate { Contains self.now.extended.gates gate }
        requires gates { All (Contains self.now.extended.gates) front.now }
        requires front { AreSteps self.now.extended (taken nothing self.now.steps)
            (map steps.Eliminate (variables front.now)) }
        ensures { IsTrue result ↔ CanEliminate self.now.extended
            (taken (taken nothing self.now.steps) (map steps.Eliminate (variables front.now))) gate.v }
    {
        let _gates = self.extended.gates();
        !self.is_gone_behind(front, gate)
            && u128::from(self.readers[gate.v as usize]) == reads_of(front, gate.v)
    }

    // Whether a gate was eliminated, or is one of others.
    fn is_gone_behind(&self, front: &[Gate], gate: Gate) -> bool
        requires { Contains self.now.extended.gates gate }
        ensures { result ≡ has (taken (taken nothing self.now.steps)
            (map steps.Eliminate (variables front.now))).eliminated gate.v }
    {
        let _gates = self.extended.gates();
        are_of(front, gate.v) || self.gone[gate.v as usize]
    }

    // Eliminates the gates of a group, which can go one after the other.
    fn eliminate_all(&mut self, group: &[Gate]) -> Result<(), Memory>
        requires gates { All (Contains self.old.extended.gates) group.now }
        requires steps { AreSteps self.old.extended (taken nothing self.old.steps)
            (map steps.Eliminate (variables group.now)) }
        ensures extended { self.new.extended ≡ self.old.extended }
        ensures below { self.new.below ≡ self.old.below }
        ensures steps { OnOk result (self.new.steps ≡ self.old.steps ++ map steps.Eliminate (variables group.now)) }
    {
        for gate in group {
            self.eliminate_next(*gate)?;
        }
        Ok(())
    }

    // Eliminates a gate whose readers were eliminated, and the columns whose output it is added.
    fn eliminate_next(&mut self, gate: Gate) -> Result<(), Memory>
        requires gate { Contains self.old.extended.gates gate }
        requires next { CanEliminate self.old.extended (taken nothing self.old.steps) gate.v }
        ensures extended { self.new.extended ≡ self.old.extended }
        ensures below { self.new.below ≡ self.old.below }
        ensures steps { OnOk result (self.new.steps ≡ self.old.steps ++ steps.Eliminate gate.v ∷ []) }
    {
        let _gates = self.extended.gates();
        self.eliminate(gate)
    }

    // Whether a gate isn't eliminated, and nothing reads it any more.
    fn can_go(&self, gate: Gate) -> bool
        requires gate { Contains self.now.extended.gates gate }
        ensures { IsTrue result ↔ IsReadyGate self.now gate.v }
    {
        let _gates = self.extended.gates();
        let v = gate.v as usize;
        !self.gone[v] && self.readers[v] == 0
    }

    // Eliminates a gate that can go.
    fn eliminate(&mut self, gate: Gate) -> Result<(), Memory>
        requires gate { Contains self.old.extended.gates gate }
        requires ready { IsReadyGate self.old gate.v }
        ensures extended { self.new.extended ≡ self.old.extended }
        ensures below { self.new.below ≡ self.old.below }
        ensures steps { OnOk result (self.new.steps ≡ self.old.steps ++ steps.Eliminate gate.v ∷ []) }
    {
        let _gates = self.extended.gates();
        self.steps.push(Step::Eliminate(gate.v))?;
        self.gone[gate.v as usize] = true;
        one_less(&mut self.readers, gate.left.var());
        one_less(&mut self.readers, gate.right.var());
        Ok(())
    }

    // The first gate of the list that can go.
    fn first_ready(&self) -> Option<Gate>
        ensures some { IfSome result (λ x. Contains self.now.extended.gates x × IsReadyGate self.now x.v) }
        ensures none { result ≡ None → All (λ x. ¬ (IsReadyGate self.now x.v)) self.now.extended.gates }
    {
        for gate in self.extended.gates() {
            if self.can_go(*gate) {
                return Some(*gate);
            }
        }
        None
    }
}

// Whether a variable is one of these gates'.
fn are_of(gates: &[Gate], v: u32) -> bool
    ensures { result ≡ has (variables gates.now) v }
{
    for gate in gates {
        if gate.v == v {
            return true;
        }
    }
    false
}

// How many operands of these gates are a variable's.
#[tactic(auto, using(crate::proofs::GroupSteps::count_low))]
fn reads_of(gates: &[Gate], v: u32) -> u128
    ensures { result ≡ read_by_gates gates.now [] v }
{
    let mut count = 0;
    for gate in gates {
        count += is_of(gate.left, v) + is_of(gate.right, v);
    }
    count
}

// 1 where a literal is a variable's.
fn is_of(lit: Lit, v: u32) -> u128
    ensures value { result ≡ is_one (variable_of lit) v }
    ensures small { result ≤ 1 }
{
    u128::from(lit.var() == v)
}

// How many gate operands and outputs are each variable's.
fn readers_of(alloc: Global, extended: &Extended<'_>) -> Result<Vec<u64>, Memory>
    ensures room { IfOk result (λ t. length t.items ≡ extended.now.max + 1) }
    ensures counts { IfOk result (λ t. (v : ℕ) →
        slice_index_or t.items v 0 ≡ still_read (took extended.now [] (length extended.now.graph.outputs)) v) }
{
    let mut readers = operands_of(alloc, extended)?;
    let _gates = extended.gates();
    let _max = extended.max();
    for k in 0..extended.graph().outputs() {
        one_more(&mut readers, extended.new_output(k).var());
    }
    Ok(readers)
}

// How many gate operands are each variable's.
fn operands_of(alloc: Global, extended: &Extended<'_>) -> Result<Vec<u64>, Memory>
    ensures room { IfOk result (λ t. length t.items ≡ extended.now.max + 1) }
    ensures counts { IfOk result (λ t. (v : ℕ) → slice_index_or t.items v 0 ≡ read_by_gates extended.now.gates [] v) }
{
    let mut readers = vec![in alloc; 0u64; extended.max() as usize + 1]?;
    for gate in extended.gates() {
        one_more(&mut readers, gate.left.var());
        one_more(&mut readers, gate.right.var());
    }
    Ok(readers)
}

// One more at a variable.
fn one_more(table: &mut Vec<u64>, v: u32)
    requires in_range { v < length table.old.items }
    requires small { slice_index_or table.old.items v 0 < 2 ^ 40 }
    ensures { Raises v table.old.items table.new.items }
{
    table[v as usize] += 1;
}

// One less at a variable.
fn one_less(table: &mut Vec<u64>, v: u32)
    requires some { 0 < slice_index_or table.old.items v 0 }
    ensures { LowersByOne v table.old.items table.new.items }
{
    table[v as usize] -= 1;
}
