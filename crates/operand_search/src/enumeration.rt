// The values of some inputs one after another: fewer ones first, and as many by the order of their positions.
ghost use Rattle.std.specs.Prelude.{◌≡◌, ◌+◌, ◌-◌, ◌<◌, ◌≤◌, ◌++◌, true, false, length, take, replicate};
ghost use Rattle.operand_search.specs.Enumeration.{EndsInRun, IsStep, ones, left_over};

/// Goes on to the next values with at most so many ones; false where there are none.
pub(crate) fn advance(bits: &mut [bool], most_ones: usize) -> bool
    requires few { ones bits.old ≤ most_ones }
    ensures step { IsStep most_ones result bits.old bits.new }
    ensures smaller { result ≡ true → left_over bits.new < left_over bits.old }
{
    let ones = run_at_end(bits, true);
    let rest = bits.len() - ones;
    let zeros = run_at_end(&bits[..rest], false);
    let front = rest - zeros;
    if front > 0 {
        // the last one that can go one place on does, and those after it follow
        bits[front - 1] = false;
        rewrite(bits, front, ones + 1);
        true
    } else if zeros > 0 && ones < most_ones {
        rewrite(bits, 0, ones + 1);
        true
    } else {
        false
    }
}

// How many values at the end are this one.
fn run_at_end(bits: &[bool], value: bool) -> usize
    ensures { EndsInRun value bits.now result }
{
    let mut rest = bits.len();
    while rest > 0 && bits[rest - 1] == value {
        rest -= 1;
    }
    bits.len() - rest
}

// Writes so many ones from a place on, and zeros after them.
fn rewrite(bits: &mut [bool], at: usize, ones: usize)
    requires { at + ones ≤ length bits.old }
    ensures { bits.new ≡ take at bits.old ++
        (replicate ones true ++ replicate (length bits.old - (at + ones)) false) }
{
    bits[at..].fill(false);
    bits[at..at + ones].fill(true);
}
