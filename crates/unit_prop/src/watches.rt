// Which literal each node watches, as chains of indices.
ghost use Rattle.std.specs.Prelude.{
  vec_len,
  vec_capacity,
  ◌≡◌,
  ◌≢◌,
  ◌*◌,
  ◌+◌,
  ◌<◌,
  ◌≤◌,
  ℕ,
  [],
  ◌∷◌,
  ◌++◌,
  length,
  pos,
  slice_index_or,
  slice_set,
  take,
  drop,
  IfOk,
  IfSome,
  IsFalse,
  OnOk,
  OnErr,
  MatchOption,
};
ghost use Rattle.unit_prop.specs.Literals.{IsLiteral};
ghost use Rattle.unit_prop.specs.Visits.{partner};
ghost use Rattle.unit_prop.specs.Watches.{code, no_node, none, IsHandOf, TakesNode};
ghost use Rattle.unit_prop.specs.Near.{HasNoPair};

use crate::literal::code_of;
use graph_core::Memory;
use std::alloc::Global;
use std::marker::Model;

/// The end of each chain, and no clause.
pub(crate) const NONE: u32 = u32::MAX;

// How many nodes of a chain are looked at.
const MANY: u32 = 1000;

// One watch of a clause: nodes 2r and 2r + 1 are those of clause r.
#[derive(Clone, Copy)]
struct Node {
    /// The literal that is watched; 0 where there is none.
    lit: i32,
    /// The next node in the literal's chain.
    next: u32,
}

/// The watches of all clauses: for each literal the chain of the nodes that watch it.
///
/// A chain is taken into the hand as a whole; then its nodes are taken one by one, and each is hung up anew. So a node
/// is relinked by a change of indices, and no chain ever loses its place. A node of a clause that was removed hangs
/// where it is until it is taken from the hand.
#[derive(Drop)]
pub(crate) struct Watches {
    heads: Vec<u32>,
    nodes: Vec<Node>,
    hand: u32,
}

impl Model for Watches {
    ghost use Rattle.std.specs.Prelude.{length, map};
    ghost use Rattle.unit_prop.specs.Watches.{Hung, AreChains, chain};

    ghost Value = { Hung };

    ghost view = { λ s. record {
      chains = length s.heads.items;
      places = map (λ n. n.lit) s.nodes.items;
      hand = chain s.nodes.items s.hand;
    } };

    ghost invariant = { λ s. AreChains s.heads.items s.nodes.items s.hand };
}

impl Watches {
    /// No nodes, and room for the chains of the literals of the variables up to `max`.
    pub(crate) fn new(alloc: Global, max: u32) -> Result<Watches, Memory>
        requires { max < 2147483648 }
        ensures { IfOk result (λ w. w ≡ record { chains = 2 * max + 2; places = []; hand = [] }) }
    {
        Ok(Watches {
            heads: vec![in alloc; NONE; 2 * max as usize + 2]?,
            nodes: Vec::new(alloc),
            hand: NONE,
        })
    }

    /// Two more nodes, which watch nothing.
    pub(crate) fn grow(&mut self) -> Result<(), Memory>
        ensures ok { OnOk result (self.new ≡ record self.old { places = self.old.places ++ pos 0 ∷ pos 0 ∷ [] }) }
        ensures err { OnErr result (self.new ≡ self.old) }
        ensures small { OnOk result (length self.new.places < 4294967296) }
    {
        let free = Node { lit: 0, next: NONE };
        if self.nodes.len() >= (NONE - 1) as usize || self.nodes.try_reserve(2).is_err() {
            return Err(Memory);
        }
        append(&mut self.nodes, free);
        append(&mut self.nodes, free);
        Ok(())
    }

    /// The literal that a node watches, or 0.
    pub(crate) fn lit(&self, node: u32) -> i32
        requires { node < length self.now.places }
        ensures lit { result ≡ slice_index_or self.now.places node (pos 0) }
        ensures chain { code result < self.now.chains }
    {
        self.nodes[node as usize].lit
    }

    /// The first node that watches a literal, or `NONE`.
    pub(crate) fn first(&self, lit: i32) -> u32 {
        let list = 2 * lit.unsigned_abs() as usize + usize::from(lit < 0);
        match self.heads.get(list) {
            Some(node) => *node,
            None => NONE,
        }
    }

    /// The next node in the chain of a node, or `NONE`.
    pub(crate) fn after(&self, node: u32) -> u32 {
        match self.nodes.get(node as usize) {
            Some(own) => own.next,
            None => NONE,
        }
    }

    /// Whether a node that watches one literal may have a partner that watches another one. False only where none has;
    /// true also where there are too many.
    pub(crate) fn may_pair(&self, one: i32, other: i32) -> bool
        requires lit { IsLiteral one }
        requires chain { code one < self.now.chains }
        requires idle { self.now.hand ≡ [] }
        ensures { IsFalse result → (n : ℕ) → n < length self.now.places → slice_index_or self.now.places n (pos 0) ≡ one →
            slice_index_or self.now.places (partner n) (pos 0) ≢ other }
    {
        let first = self.heads[code_of(one) as usize];
        may_pair_from(&self.nodes, first, other)
    }

    /// Takes all nodes that watch a literal into the hand.
    pub(crate) fn take_up(&mut self, lit: i32)
        requires lit { IsLiteral lit }
        requires chain { code lit < self.old.chains }
        requires idle { self.old.hand ≡ [] }
        ensures rest { (self.new.chains ≡ self.old.chains) × (self.new.places ≡ self.old.places) }
        ensures hand { IsHandOf self.new.places lit self.new.hand }
    {
        let list = code_of(lit) as usize;
        self.hand = self.heads[list];
        self.heads[list] = NONE;
    }

    /// Takes the next node from the hand; it then watches nothing.
    pub(crate) fn next(&mut self) -> Option<u32>
        ensures cases { MatchOption result
            (self.new ≡ self.old × (self.old.hand ≡ []))
            (λ n. TakesNode self.old n self.new) }
    {
        let node = self.hand;
        if node == NONE {
            return None;
        }
        let at = node as usize;
        self.hand = self.nodes[at].next;
        self.nodes[at] = Node { lit: 0, next: NONE };
        Some(node)
    }

    /// Makes a node that watches nothing watch a literal.
    pub(crate) fn hang(&mut self, node: u32, lit: i32)
        requires lit { IsLiteral lit }
        requires chain { code lit < self.old.chains }
        requires node { node < length self.old.places }
        requires free { slice_index_or self.old.places node (pos 0) ≡ pos 0 }
        ensures { self.new ≡ record self.old { places = slice_set self.old.places node lit } }
    {
        let list = code_of(lit) as usize;
        self.nodes[node as usize] = Node {
            lit,
            next: self.heads[list],
        };
        self.heads[list] = node;
    }
}

/// The other node of a node's clause.
pub(crate) fn partner_of(node: u32) -> u32
    requires { node < 4294967295 }
    ensures { result ≡ partner node }
{
    if node % 2 == 0 { node + 1 } else { node - 1 }
}

// Whether a node of the chain from a place on may have a partner that watches a literal.
fn may_pair_from(nodes: &[Node], first: u32, other: i32) -> bool
    requires { length nodes.now ≤ none }
    ensures { IsFalse result → HasNoPair nodes.now first other }
{
    let mut node = first;
    for _step in 0..MANY {
        if node >= NONE {
            return false;
        }
        let Some(beside) = node_at(nodes, partner_of(node)) else {
            return true;
        };
        if beside.lit == other {
            return true;
        }
        let Some(own) = node_at(nodes, node) else {
            return true;
        };
        node = own.next;
    }
    true
}

fn node_at(nodes: &[Node], place: u32) -> Option<Node>
    ensures { IfSome result (λ n. n ≡ slice_index_or nodes.now place no_node) }
{
    if (place as usize) < nodes.len() {
        return Some(nodes[place as usize]);
    }
    None
}

// one node more, where there is room
fn append(nodes: &mut Vec<Node>, node: Node)
    requires { vec_len nodes.old < vec_capacity nodes.old }
    ensures items { nodes.new.items ≡ nodes.old.items ++ node ∷ [] }
    ensures capacity { vec_capacity nodes.old ≤ vec_capacity nodes.new }
{
    let _ = nodes.push(node);
}
