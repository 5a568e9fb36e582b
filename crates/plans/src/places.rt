// Places: the next line, an operation or an exit.
ghost use Rattle.std.specs.Prelude.{◌≡◌, ◌<◌};
ghost use Rattle.machine.specs.Step.{next_line, operation_or_exit};

use machine::Place;
use operations::places::tests_of;

// The next line, or finished.
pub fn next_line(next: u64) -> Place
    requires { next < 65536 }
    ensures { result ≡ next_line next }
{
    if next == 0 {
        return Place {
            kind: machine::FINISHED,
            row: 0,
            line: 0,
        };
    }
    tests_of(next)
}

// An operation of a line, or its exit.
pub fn operation_or_exit(row: u64, line: u16) -> Place
    requires { row < 65536 }
    ensures { result ≡ operation_or_exit row line }
{
    if row == 0 {
        return Place {
            kind: machine::AT_EXIT,
            row: 0,
            line,
        };
    }
    Place {
        kind: machine::AT_OPERATION,
        row: row as u16,
        line,
    }
}
