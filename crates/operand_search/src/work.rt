// How far a search may go within some work.
ghost use Rattle.std.specs.Prelude.{◌≤◌};

use graph_core::Graph;

// The least bound on ones that is answered.
const FEW_ONES: u32 = 2;

/// The most ones for which trying all values of the inputs with so many takes at most so much work, and at least
/// `FEW_ONES`. A unit of work is a gate's word, or a bit of a lane that is set or read.
pub fn most_ones_within(graph: &Graph, work: u64) -> u32
    ensures { 2 ≤ result }
{
    let inputs = u64::from(graph.inputs());
    let outputs = u64::from(graph.outputs());
    let pass = graph.gates().len() as u64 + 32 * (inputs + outputs);
    let most = (work / pass.max(1)).saturating_mul(64);
    ones_within(inputs, most)
}

// The most ones for which at most so many values of the inputs have no more, and at least `FEW_ONES`.
fn ones_within(inputs: u64, most: u64) -> u32
    ensures { 2 ≤ result }
{
    let mut ones = FEW_ONES;
    // how many values have just so many ones, and how many at most so many
    let mut level = inputs.saturating_mul(inputs.saturating_sub(1)) / 2;
    let mut values = level.saturating_add(inputs).saturating_add(1);
    for more in 3..257 {
        level = level.saturating_mul(inputs.saturating_sub(more - 1)) / more;
        values = values.saturating_add(level);
        if level == 0 || values > most {
            return ones;
        }
        ones = more as u32;
    }
    ones
}
