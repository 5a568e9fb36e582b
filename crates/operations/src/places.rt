// A place that code goes to.
ghost use Rattle.std.specs.Prelude.{◌≡◌, ◌<◌};
ghost use Rattle.machine.specs.State.{tests_of};

use machine::Place;

// The tests of a line.
pub fn tests_of(line: u64) -> Place
    requires { line < 65536 }
    ensures { result ≡ tests_of line }
{
    Place {
        kind: machine::AT_TESTS,
        row: 0,
        line: line as u16,
    }
}
