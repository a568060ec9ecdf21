// The values of a literal on all patterns.
ghost use Rattle.std.specs.Prelude.{◌≡◌, ◌≢◌, ◌↔◌, ℕ, ◌-◌, ◌*◌, ◌^◌, ◌<◌, min, IsTrue, if◌then◌else◌};
ghost use Rattle.stage_guesser.specs.Values.{pattern_value};

/// How many words a signature has, with 64 patterns in each.
pub const WORDS: usize = 24;

/// The values of a literal, pattern by pattern.
#[derive(Clone, Copy, Debug)]
pub struct Signature {
    words: [u64; 24],
}

impl Signature {
    /// The signature of the constant false.
    pub fn zero() -> Signature
        ensures { (p : ℕ) → p < WORDS * 64 → pattern_value result p ≡ 0 }
    {
        Signature { words: [0; 24] }
    }

    /// The signature of the negation, where it is asked for.
    pub fn negated_if(&self, negated: bool) -> Signature
        ensures { (p : ℕ) → p < WORDS * 64 → pattern_value result p
            ≡ (if negated then 1 - pattern_value self.now p else pattern_value self.now p) }
    {
        let mask = mask_of(negated);
        let mut words = self.words;
        for i in 0..WORDS {
            words[i] ^= mask;
        }
        Signature { words }
    }

    /// The signature of the conjunction.
    pub fn and(&self, other: &Signature) -> Signature
        ensures { (p : ℕ) → p < WORDS * 64 → pattern_value result p
            ≡ min (pattern_value self.now p) (pattern_value other.now p) }
    {
        let mut words = self.words;
        for i in 0..WORDS {
            words[i] &= other.words[i];
        }
        Signature { words }
    }

    pub(crate) fn xor(&self, other: &Signature) -> Signature {
        let mut words = self.words;
        for i in 0..WORDS {
            words[i] ^= other.words[i];
        }
        Signature { words }
    }

    /// The carry out of a position with three literals.
    pub(crate) fn majority(&self, other: &Signature, carry: &Signature) -> Signature {
        let mut words = self.words;
        for i in 0..WORDS {
            let (x, y, c) = (words[i], other.words[i], carry.words[i]);
            words[i] = (x & y) | (c & (x | y));
        }
        Signature { words }
    }

    /// Whether two signatures are equal.
    pub fn is(&self, other: &Signature) -> bool
        ensures { IsTrue result ↔ (self.now ≡ other.now) }
    {
        for i in 0..WORDS {
            if self.words[i] != other.words[i] {
                return false;
            }
        }
        true
    }

    /// A number whose exclusive or with that of another signature is that of their exclusive or.
    pub fn key(&self) -> u64 {
        let mut key = 0;
        for word in self.words {
            key = shifted(key ^ word);
        }
        key
    }

    /// Makes the value on a pattern true.
    pub fn set(&mut self, pattern: usize)
        ensures here { pattern < WORDS * 64 → pattern_value self.new pattern ≡ 1 }
        ensures others { (p : ℕ) → p ≢ pattern → pattern_value self.new p ≡ pattern_value self.old p }
    {
        let place = pattern / 64;
        if place < WORDS {
            self.words[place] |= 1u64 << (pattern % 64) as u32;
        }
    }
}

// The word that changes each bit, or none.
fn mask_of(negated: bool) -> u64
    ensures { result ≡ (if negated then 2 ^ 64 - 1 else 0) }
{
    if negated { u64::MAX } else { 0 }
}

// Mixes a number by shifts, so that no two numbers meet.
fn shifted(x: u64) -> u64 {
    let x = x ^ (x << 13);
    let x = x ^ (x >> 7);
    x ^ (x << 17)
}
