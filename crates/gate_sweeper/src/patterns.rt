// The values of inputs on patterns: drawn ones, and such that a number ends in zeros.
use stage_guesser::Draws;

/// What an input is on patterns, by its number.
#[derive(Clone, Copy, Debug)]
pub(crate) struct Patterns {
    draws: Draws,
    /// Where some patterns have runs of zeros, the greatest number of an input.
    most: Option<u32>,
}

impl Patterns {
    /// All values are drawn.
    pub(crate) fn drawn() -> Patterns {
        Patterns {
            draws: Draws::new(),
            most: None,
        }
    }

    /// On a quarter of the patterns some of the inputs up to a greatest one are zeros, one after the other: the signs of
    /// sums of rows have other values only where an operand ends in zeros.
    pub(crate) fn with_zeros(most: u32) -> Patterns {
        Patterns {
            draws: Draws::new(),
            most: Some(most),
        }
    }

    /// The value of an input on a pattern.
    pub(crate) fn value(&mut self, variable: u32, pattern: usize) -> bool {
        let drawn = self.draws.next() % 16 < share(pattern / 64);
        match self.kept(variable, pattern) {
            Some(value) => value,
            None => drawn,
        }
    }

    // The value that isn't drawn: inputs from one on are zeros up to a first one, and the one before them is one.
    fn kept(&self, variable: u32, pattern: usize) -> Option<bool> {
        let quarter = quarter_of(pattern / 64)?;
        let all = u64::from(self.most?.max(1));
        let first = (all.saturating_mul(quarter) / 4).wrapping_add(1);
        let place = u64::from(variable).wrapping_add(all).wrapping_sub(first) % all.max(1);
        let zeros = ((pattern % 64) as u64).saturating_mul(all / 2) / 64;
        if place < zeros {
            return Some(false);
        }
        if place == zeros || place.wrapping_add(1) == all {
            return Some(true);
        }
        None
    }
}

// In which quarter of the inputs zeros begin, in some words.
fn quarter_of(word: usize) -> Option<u64> {
    match word % 8 {
        4 | 5 => match word / 8 {
            0 => Some(2),
            1 => Some(0),
            _ => Some(1),
        },
        _ => None,
    }
}

// How many of sixteen values are true: of most words half, of some few or nearly all.
fn share(word: usize) -> u64 {
    match word % 8 {
        0 => 4,
        1 => 12,
        2 => 14,
        3 => 15,
        _ => 8,
    }
}
