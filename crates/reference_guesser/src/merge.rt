// Two or three addends of a column, to be put together.
use crate::words::Word;

/// The addends of a half adder or a full adder, by their numbers in a column, rising.
#[derive(Clone, Copy, Debug, PartialEq, Eq, PartialOrd, Ord)]
pub(crate) struct Merge {
    pub(crate) x: u32,
    pub(crate) y: u32,
    pub(crate) z: Option<u32>,
}

impl Merge {
    /// A half adder.
    pub(crate) fn half(x: u32, y: u32) -> Merge {
        Merge {
            x: x.min(y),
            y: x.max(y),
            z: None,
        }
    }

    /// A full adder.
    pub(crate) fn full(x: u32, y: u32, z: u32) -> Merge {
        let low = x.min(y);
        let high = x.max(y);
        Merge {
            x: low.min(z),
            y: low.max(high.min(z)),
            z: Some(high.max(z)),
        }
    }

    /// That of two or three addends.
    pub(crate) fn of(addends: &[u32]) -> Option<Merge> {
        match addends {
            [x, y] => Some(Merge::half(*x, *y)),
            [x, y, z] => Some(Merge::full(*x, *y, *z)),
            _ => None,
        }
    }

    /// Whether it takes an addend.
    pub(crate) fn takes(&self, addend: u32) -> bool {
        self.x == addend || self.y == addend || self.z == Some(addend)
    }

    /// Whether it takes an addend of another's.
    pub(crate) fn meets(&self, other: &Merge) -> bool {
        let third = match self.z {
            Some(z) => other.takes(z),
            None => false,
        };
        third || other.takes(self.x) || other.takes(self.y)
    }

    /// How many addends less there are after it.
    pub(crate) fn fewer(&self) -> usize {
        if self.z.is_some() { 2 } else { 1 }
    }
}

/// A merge that is made, the number of its sum, and the word that its carry is of.
#[derive(Clone, Copy, Debug)]
pub(crate) struct Step {
    pub(crate) merge: Merge,
    pub(crate) sum: u32,
    pub(crate) word: Word,
}
