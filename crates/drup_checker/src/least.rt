// The least column with a goal to show.
ghost use Rattle.std.specs.Prelude.{◌≡◌, ◌≤◌, ◌<◌, ◌⊎◌, Some, None, length};
ghost use Rattle.drup_checker.specs.Checking.{IsLeastUnshown, IsLesser};

use miter_encoder::Goal;

/// The least column with a goal that is neither met nor shown.
pub(crate) fn least_unshown(goals: &[Goal], shown: &[bool]) -> Option<u32>
    requires { length shown.now ≡ length goals.now }
    ensures { IsLeastUnshown goals.now shown.now result }
{
    let mut least = None;
    for place in 0..goals.len() {
        if !goals[place].met && !shown[place] {
            least = Some(lesser(least, goals[place].column));
        }
    }
    least
}

fn lesser(least: Option<u32>, column: u32) -> u32
    ensures { IsLesser least column result }
{
    match least {
        None => column,
        Some(other) => { if other < column { other } else { column } }
    }
}
