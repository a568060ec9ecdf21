// How merges are chosen.
use crate::products::Form;

/// What is put together where no signal tells it.
#[derive(Clone, Copy, Debug, PartialEq, Eq)]
pub(crate) enum Shape {
    /// three of the least levels
    Level,
    /// the last sum, the next product and the first carry, products by rising bits of the first operand
    Array,
    /// the same, by rising bits of the second one
    Rows,
    /// three neighbours of the words in hand, of which each row of products is one
    Words,
    /// two neighbours of the words in hand, by an adder
    Pairs,
    /// the next word and the sum of those before, by an adder
    Turns,
}

/// A way to guess.
#[derive(Clone, Copy, Debug)]
pub(crate) struct Style {
    pub(crate) form: Form,
    pub(crate) shape: Shape,
    /// whether no signal is asked
    pub(crate) is_blind: bool,
    /// what a full adder costs whose carry isn't known
    pub(crate) lost: i32,
}
