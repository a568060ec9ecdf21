// A reference multiplier by the values of a graph's signals.
ghost use Rattle.std.specs.Prelude.{IfOk, IfSome};
ghost use Rattle.ripple_graft.specs.Beside.{IsBeside};

use crate::fitting::if_fitting;
use crate::gates::Gates;
use crate::known::Known;
use crate::products::{Form, Products};
use crate::row::Row;
use crate::signals::Signals;
use crate::style::{Shape, Style};
use crate::tree::Tree;
use crate::values::values;
use graph_core::{Graph, Lit, Memory, Operands, Sign};
use ripple_graft::Beside;
use std::alloc::Global;

// No reference is made for a graph of more variables.
const MOST_READ: u32 = 1 << 18;

// So many full adders are judged in all, at most.
const MOST_JUDGED: u64 = 1 << 27;

const SHAPES: [Shape; 3] = [Shape::Level, Shape::Rows, Shape::Array];

const BLIND: [Shape; 6] = [
    Shape::Words,
    Shape::Pairs,
    Shape::Turns,
    Shape::Level,
    Shape::Rows,
    Shape::Array,
];

/// A reference: gates beside the graph, and a new output for each column.
#[derive(Debug, Drop)]
pub struct Reference {
    pub beside: Beside,
    /// of how many in a thousand gates some signal of the graph has the values
    pub known: u32,
}

/// The multiplier of which most is known; none for a very large graph.
pub fn guess(alloc: Global, graph: &Graph, operands: &Operands) -> Result<Option<Reference>, Memory>
    ensures { IfOk result (λ found. IfSome found (λ r. IsBeside graph.now r.beside)) }
{
    let mut guesses = Guesses::new(alloc, graph, operands, 1)?;
    guesses.take(alloc, graph)
}

/// Multipliers whose trees are read off the values of a graph's signals.
#[derive(Debug, Drop)]
pub struct Guesses {
    /// that of which most is known last
    guesses: Vec<Made>,
}

// What is made in one style.
#[derive(Debug, Drop)]
struct Made {
    gates: Vec<(Lit, Lit)>,
    /// columns, and their new outputs
    outputs: Vec<(u32, Lit)>,
    known: u32,
}

impl Guesses {
    /// No more than are asked for; none for a very large graph.
    pub fn new(
        alloc: Global,
        graph: &Graph,
        operands: &Operands,
        most: usize,
    ) -> Result<Guesses, Memory> {
        let mut guesses = Guesses {
            guesses: Vec::new(alloc),
        };
        if graph.max() <= MOST_READ {
            guesses.fill(alloc, graph, operands, most)?;
        }
        Ok(guesses)
    }

    fn fill(
        &mut self,
        alloc: Global,
        graph: &Graph,
        operands: &Operands,
        most: usize,
    ) -> Result<(), Memory> {
        let rows = values(alloc, graph, operands)?;
        let known = Known::new(alloc, graph, &rows)?;
        let signals = Signals::new(alloc, graph, &rows)?;
        let mut left = MOST_JUDGED;
        for style in styles(alloc, graph, operands, &rows, &known)? {
            let tree = Tree::new(alloc, graph, operands, &signals, &known, style, left)?;
            left = tree.left;
            let is_whole = tree.is_whole;
            let made = made_of(alloc, tree)?;
            if is_whole || style.form != Form::Complemented {
                self.enter(made, most)?;
            }
            if is_whole {
                break;
            }
        }
        Ok(())
    }

    // Puts a guess at its place, unless it is there, and drops the first one where there are too many.
    fn enter(&mut self, guess: Made, most: usize) -> Result<(), Memory> {
        if self
            .guesses
            .iter()
            .any(|other| other.gates.as_slice() == guess.gates.as_slice())
        {
            return Ok(());
        }
        self.guesses.push(guess)?;
        self.guesses.sort_by_key(|guess| guess.known)?;
        if self.guesses.len() > most {
            self.guesses.remove(0);
        }
        Ok(())
    }

    /// Takes the multiplier of which most is known, if one is left. The graph is the one that they are made for.
    pub fn take(&mut self, alloc: Global, graph: &Graph) -> Result<Option<Reference>, Memory>
        ensures { IfOk result (λ found. IfSome found (λ r. IsBeside graph.now r.beside)) }
    {
        let Some(guess) = self.guesses.pop() else {
            return Ok(None);
        };
        let known = guess.known;
        match if_fitting(alloc, graph, &guess.gates, &guess.outputs)? {
            Some(beside) => Ok(Some(Reference { beside, known })),
            None => Ok(None),
        }
    }
}

// The gates and outputs of a tree.
fn made_of(alloc: Global, tree: Tree<'_>) -> Result<Made, Memory> {
    let known = tree.share();
    let mut outputs = Vec::new(alloc);
    for (k, lit) in tree.sums.iter().enumerate() {
        outputs.push(((k % (1 << 32)) as u32, *lit))?;
    }
    let Tree { gates, .. } = tree;
    let Gates { pairs, .. } = gates;
    Ok(Made {
        gates: pairs,
        outputs,
        known,
    })
}

// The ways to guess: with Booth's products where most of them are known.
fn styles(
    alloc: Global,
    graph: &Graph,
    operands: &Operands,
    rows: &[Row],
    known: &Known,
) -> Result<Vec<Style>, Memory> {
    let simple = share_of(alloc, graph, operands, rows, known, Form::Simple)?;
    let booth = share_of(alloc, graph, operands, rows, known, Form::Booth)?;
    let mut styles = Vec::new(alloc);
    if booth > simple {
        push_styles(&mut styles, Form::Booth, &[Shape::Level], &[Shape::Level])?;
    } else {
        if operands.sign() == Sign::Signed {
            push_complemented(&mut styles)?;
        }
        push_styles(&mut styles, Form::Simple, &BLIND, &SHAPES)?;
        if operands.sign() == Sign::Signed {
            push_styles(&mut styles, Form::Extended, &BLIND, &SHAPES)?;
        }
    }
    Ok(styles)
}

// Rows that are complemented are each added by an adder, or they are none.
fn push_complemented(styles: &mut Vec<Style>) -> Result<(), Memory> {
    for shape in [Shape::Pairs, Shape::Turns] {
        styles.push(Style {
            form: Form::Complemented,
            shape,
            is_blind: true,
            lost: 5,
        })?;
    }
    Ok(())
}

// Some shapes without any signal, and some with several prices of lost carries.
fn push_styles(
    styles: &mut Vec<Style>,
    form: Form,
    blind: &[Shape],
    shapes: &[Shape],
) -> Result<(), Memory> {
    for (lost, is_blind) in [(5, true), (5, false), (9, false), (2, false)] {
        for shape in if is_blind { blind } else { shapes } {
            styles.push(Style {
                form,
                shape: *shape,
                is_blind,
                lost,
            })?;
        }
    }
    Ok(())
}

// How many of a thousand products in a form are known.
fn share_of(
    alloc: Global,
    graph: &Graph,
    operands: &Operands,
    rows: &[Row],
    known: &Known,
    form: Form,
) -> Result<u64, Memory> {
    let mut gates = Gates::new(alloc, rows);
    let products = Products::of(alloc, &mut gates, operands, graph.outputs(), form)?;
    let mut all = 0u64;
    let mut found = 0u64;
    for column in products.columns.iter() {
        for lit in column.products.iter() {
            if lit.var() > graph.max() {
                all = all.saturating_add(1);
                found = found.saturating_add(u64::from(known.has(gates.row(*lit).key())));
            }
        }
    }
    Ok(found.saturating_mul(1000) / all.max(1))
}
