// Marks of the clauses that are kept.
ghost use Rattle.std.specs.Prelude.{◌≡◌, length};
ghost use Rattle.clause_core.specs.KeptClauses.{AreBelow, AreEarlier};
ghost use Rattle.pair_trim.specs.Marking.{ClosesMarks, SetsMarks};

use drup_checker::Numbers;

/// Marks whatever the marked clauses use.
pub(crate) fn close(marks: &mut [bool], uses: &[Numbers])
    requires long { length marks.old ≡ length uses.now }
    requires earlier { AreEarlier uses.now }
    ensures { ClosesMarks uses.now marks.old marks.new }
{
    let mut place = uses.len();
    'walk: while 0 < place {
        place -= 1;
        if marks[place] {
            set_all(marks, uses[place].as_slice());
        }
    }
}

/// Sets the marks of some numbers.
pub(crate) fn set_all(marks: &mut [bool], numbers: &[u64])
    requires { AreBelow (length marks.old) numbers.now }
    ensures { SetsMarks numbers.now marks.old marks.new }
{
    for &number in numbers {
        marks[number as usize - 1] = true;
    }
}
