// Goals that a clause shows.
ghost use Rattle.std.specs.Prelude.{◌≡◌, length};
ghost use Rattle.drup_checker.specs.Checking.{ShowsBy};

use clause_core::Clause;
use miter_encoder::Goals;

/// Marks each goal that the clause shows.
pub(crate) fn show(goals: &Goals, clause: &Clause, shown: &mut [bool])
    requires { length shown.old ≡ length goals.now }
    ensures places { length shown.new ≡ length shown.old }
    ensures shown { ShowsBy clause.now goals.now shown.old shown.new }
{
    let goals = goals.as_slice();
    for place in 0..goals.len() {
        if clause.is_subset(&goals[place].clause) {
            shown[place] = true;
        }
    }
}
