// The lines of a text one after the other, and the labels that they declare.
ghost use Rattle.std.specs.Prelude.{◌≡◌, ◌∷◌, [], ◌+◌, ◌≤◌, length, drop};
ghost use Rattle.lines.specs.Reading.{read_line};
ghost use Rattle.lines.specs.Program.{declares, kept_lines};
ghost use Rattle.faults.specs.Places.{lines_in};

use crate::line;
use lines::words;

// Whether a line declares a label.
fn declares_it(b: u64, s: &[u8], label: &[u8]) -> bool
    requires { b ≤ 48 }
    ensures { result ≡ declares (kept_lines (read_line b s.now ∷ [])) label.now }
{
    let Some(c) = line::scan(b, s) else {
        return false;
    };
    let from = c.from;
    let end = c.label;
    label == &s[from..end]
}

// Whether a line of a text declares a label.
pub fn declared(b: u64, text: &[u8], label: &[u8]) -> bool
    requires { b ≤ 48 }
    ensures { result ≡ declares (lines_in b text.now) label.now }
{
    for s in text.split_inclusive(|x| *x == b'\n') {
        if declares_it(b, s, label) {
            return true;
        }
    }
    false
}
