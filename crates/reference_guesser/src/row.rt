// The values of a signal on all patterns.

/// How many words a row has, with 64 patterns in each.
pub(crate) const WORDS: usize = 16;

/// A signal's values, pattern by pattern.
#[derive(Clone, Copy, Debug)]
pub(crate) struct Row {
    words: [u64; 16],
}

impl Row {
    /// The row of the constant false.
    pub(crate) fn zero() -> Row {
        Row { words: [0; 16] }
    }

    /// The row of the negation, where it is asked for.
    pub(crate) fn not_if(&self, negated: bool) -> Row {
        let mask = if negated { u64::MAX } else { 0 };
        let mut words = self.words;
        for i in 0..WORDS {
            words[i] ^= mask;
        }
        Row { words }
    }

    pub(crate) fn and(&self, other: &Row) -> Row {
        let mut words = self.words;
        for i in 0..WORDS {
            words[i] &= other.words[i];
        }
        Row { words }
    }

    pub(crate) fn xor(&self, other: &Row) -> Row {
        let mut words = self.words;
        for i in 0..WORDS {
            words[i] ^= other.words[i];
        }
        Row { words }
    }

    /// The carry of a full adder.
    pub(crate) fn majority(&self, other: &Row, third: &Row) -> Row {
        let mut words = self.words;
        for i in 0..WORDS {
            words[i] = majority(words[i], other.words[i], third.words[i]);
        }
        Row { words }
    }

    /// Whether two signals have the same values.
    pub(crate) fn is(&self, other: &Row) -> bool {
        self.xor(other).is_zero()
    }

    /// Whether the signal is false on all patterns.
    pub(crate) fn is_zero(&self) -> bool {
        self.words.iter().all(|word| *word == 0)
    }

    /// Makes the value on a pattern true.
    pub(crate) fn set(&mut self, pattern: usize) {
        let place = pattern / 64;
        if place < WORDS {
            self.words[place] |= 1u64 << (pattern % 64) as u32;
        }
    }

    /// A number that is the same for the negation. That of an exclusive or is the exclusive or of both numbers.
    pub(crate) fn key(&self) -> u64 {
        // the words are an even number, so those of the negation change nothing
        let mut key = 0u64;
        for word in self.words {
            key = key.rotate_left(11) ^ word;
        }
        key
    }

    /// The same of the first patterns alone.
    pub(crate) fn head(&self) -> Head {
        Head {
            first: self.words[0],
            second: self.words[1],
        }
    }
}

/// A signal's values on the first patterns.
#[derive(Clone, Copy, Debug)]
pub(crate) struct Head {
    first: u64,
    second: u64,
}

impl Head {
    pub(crate) fn and(&self, other: &Head) -> Head {
        Head {
            first: self.first & other.first,
            second: self.second & other.second,
        }
    }

    /// The carry of a full adder.
    pub(crate) fn majority(&self, other: &Head, third: &Head) -> Head {
        Head {
            first: majority(self.first, other.first, third.first),
            second: majority(self.second, other.second, third.second),
        }
    }

    /// A number that is the same for the negation.
    pub(crate) fn key(&self) -> u64 {
        let mask = 0u64.wrapping_sub(self.first & 1);
        (self.first ^ mask) ^ (self.second ^ mask).wrapping_mul(0xbf58_476d_1ce4_e5b9)
    }
}

fn majority(x: u64, y: u64, z: u64) -> u64 {
    (x & y) | (z & (x | y))
}
