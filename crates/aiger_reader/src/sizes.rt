// How many inputs and outputs the graphs of a profile have.
ghost use Rattle.std.specs.Prelude.{◌≡◌, ◌↔◌, IsTrue, false};
ghost use Rattle.graph_core.specs.Aiger as aiger;
ghost use Rattle.graph_core.specs.declared.profile.Profile.TheVariants as profiles;
ghost use Rattle.graph_core.specs.Aiger.Refusal.{has_wrong_inputs, has_wrong_outputs};

use graph_core::{MOST_INPUTS, MOST_OUTPUTS, Profile};

// Whether there may be so many inputs.
pub fn fits_inputs(profile: Profile, inputs: u64) -> bool
    ensures { IsTrue result ↔ (has_wrong_inputs profile inputs ≡ false) }
{
    match profile {
        Profile::Multiplier => inputs % 2 == 0 && 2 <= inputs && inputs <= 128,
        Profile::MultiplyAdd => inputs % 4 == 0 && 4 <= inputs && inputs <= 256,
        Profile::Given { a, b, add } => is_given(a, b, add, inputs),
        Profile::Any => inputs <= MOST_INPUTS as u64,
    }
}

// Whether there may be so many outputs beside so many inputs.
pub fn fits_outputs(profile: Profile, inputs: u64, outputs: u64) -> bool
    ensures { IsTrue result ↔ (has_wrong_outputs profile inputs outputs ≡ false) }
{
    1 <= outputs && outputs <= most_outputs(profile, inputs)
}

// Whether operands of such widths, with an addend or without, have so many inputs.
fn is_given(a: u32, b: u32, add: bool, inputs: u64) -> bool
    ensures { IsTrue result ↔ (has_wrong_inputs (profiles.Given a b add) inputs ≡ false) }
{
    let both = u64::from(a) + u64::from(b);
    let given = if add { 2 * both } else { both };
    0 < a && a < 65 && 0 < b && b < 65 && inputs == given
}

fn most_outputs(profile: Profile, inputs: u64) -> u64
    ensures { result ≡ aiger.most_outputs profile inputs }
{
    match profile {
        Profile::Multiplier => inputs,
        Profile::MultiplyAdd | Profile::Given { add: true, .. } => inputs / 2,
        Profile::Given { add: false, .. } => inputs,
        Profile::Any => MOST_OUTPUTS as u64,
    }
}
