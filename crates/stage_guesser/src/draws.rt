// Numbers that follow a written rule.

/// The numbers of a mixing rule, the same in each run.
#[derive(Clone, Copy, Debug)]
pub struct Draws {
    seed: u64,
}

impl Draws {
    /// Before the first number.
    pub fn new() -> Draws {
        Draws { seed: 7 }
    }

    /// The next number.
    pub fn next(&mut self) -> u64 {
        self.seed = self.seed.wrapping_add(0x9e37_79b9_7f4a_7c15);
        mixed(self.seed)
    }

    /// The next number, below 64.
    pub(crate) fn place(&mut self) -> u32 {
        (self.next() % 64) as u32
    }
}

// Each bit of a number spread over all bits.
fn mixed(x: u64) -> u64 {
    let x = (x ^ (x >> 30)).wrapping_mul(0xbf58_476d_1ce4_e5b9);
    let x = (x ^ (x >> 27)).wrapping_mul(0x94d0_49bb_1331_11eb);
    x ^ (x >> 31)
}
