// Words that keep a truth value for each of 64 lanes.
ghost use Rattle.std.specs.Prelude.{◌≡◌, ◌≢◌, ℕ, ◌<◌, length};
ghost use Rattle.operand_search.specs.Lanes.{lane, truth};

/// How many lanes there are.
pub(crate) const LANES: usize = 64;

/// Writes truth values into a lane, and leaves the others.
pub(crate) fn set_lane(words: &mut [u64], place: usize, bits: &[bool])
    requires within { place < 64 }
    requires as_many { length bits.now ≡ length words.old }
    ensures here { lane place words.new ≡ bits.now }
    ensures others { (i : ℕ) → i < 64 → i ≢ place → lane i words.new ≡ lane i words.old }
{
    for (k, &bit) in bits.iter().enumerate() {
        words[k] = with_bit(words[k], place, bit);
    }
}

/// Whether a word has a lane's bit.
pub(crate) fn has_bit(word: u64, place: usize) -> bool
    requires { place < 64 }
    ensures { result ≡ truth place word }
{
    (word >> place) & 1 == 1
}

// The word with a lane's bit.
fn with_bit(word: u64, place: usize, bit: bool) -> u64
    requires { place < 64 }
    ensures here { truth place result ≡ bit }
    ensures others { (i : ℕ) → i < 64 → i ≢ place → truth i result ≡ truth i word }
{
    if bit {
        word | (1u64 << place)
    } else {
        word & !(1u64 << place)
    }
}
