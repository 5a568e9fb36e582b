// The pairs of a parenthesis.
ghost use Rattle.std.specs.Prelude.{◌≡◌, true, ◌&&◌, ◌++◌, get_or};
ghost use Rattle.lines.specs.Words.{any, is_field, absent_pair, gives_name, name_number, last_byte_of};
ghost use Rattle.lines.specs.Forms.{fits, form_of, pairs_of, name_in, row_in, is_test, is_operation};
ghost use Rattle.lines.specs.Reading.{split};
ghost use Rattle.lines.specs.Walking.{kind_of, as_form, within, forms_of};
ghost use Rattle.lines.specs.Program.{test_row, operation_row};
ghost use Rattle.typed.specs.Putting.{moved_row};

use crate::values;
use crate::values::Ready;
use lines::{Form, Kind, arguments, fitting};
use table::{Pair, Row, codes};

// The name number of a word's last byte.
fn last_name(w: &[u8]) -> u64
    ensures { result ≡ name_number (last_byte_of w.now) }
{
    values::name_number(u64::from(values::last_byte(w)))
}

// Whether a kind gives a name.
#[tactic(auto, unfolding(lines::specs::Words::gives_name, lines::specs::Walking::kind_of))]
fn gives_name(kind: Kind) -> bool
    ensures { result ≡ gives_name (kind_of kind) }
{
    matches!(kind, Kind::Name | Kind::Definition)
}

// The name that arguments give in a form, 0 where none does: the number that its row then has.
pub fn name_in(form: &Form, s: &[u8]) -> u64
    ensures { result ≡ name_in (as_form form.now).arguments (split s.now) }
{
    let parts = s.split(|x| *x == b',');
    let named = form
        .arguments
        .iter()
        .zip(parts)
        .find(|(kind, _)| gives_name(**kind));
    match named {
        Some((_, w)) => last_name(w),
        None => 0,
    }
}

// The row of (a, Δ), which stands for (a, P, aΔ).
fn moved_row(a: &[u8], names: &[u8], next: u64) -> Row
    requires { (is_field a.now && is_field (a.now ++ names.now)) ≡ true }
    ensures { result ≡ moved_row next a.now names.now }
{
    let first = values::value_from(Kind::Field, 0, a);
    let second = values::value_from(Kind::Field, first, names);
    Row {
        kind: codes::OPERATION,
        next,
        code: codes::COPY,
        name: 0,
        first: Pair {
            form: codes::REFERENCE,
            value: first,
        },
        second: Pair {
            form: codes::REFERENCE,
            value: second,
        },
        third: Pair {
            form: codes::ABSENT,
            value: 0,
        },
    }
}

impl Ready<'_> {
    ghost use Rattle.typed.specs.Looking.{row_at};

    // Pair k of what arguments that fit a form become.
    pub fn operand(&self, form: &Form, s: &[u8], k: usize) -> Pair
        requires { (within (as_form form.now) ≡ true) × (fits self.now.labels.b (split s.now) (as_form form.now) ≡ true) }
        ensures { result ≡ get_or (pairs_of (row_at self.now) (as_form form.now) (split s.now)) k absent_pair }
    {
        let Some(i) = form.operands.get(k) else {
            return Pair {
                form: codes::ABSENT,
                value: 0,
            };
        };
        let Some(kind) = form.arguments.get(*i) else {
            unreachable!()
        };
        let Some(w) = arguments::argument_at(s, *i) else {
            unreachable!()
        };
        self.pair_of(*kind, w)
    }

    // The row of a kind that arguments become which fit a form.
    pub fn row_in(&self, tests: bool, s: &[u8], kind: u64, next: u64) -> Row
        requires { any (fits self.now.labels.b (split s.now)) (forms_of tests) ≡ true }
        ensures { result ≡ row_in (row_at self.now) kind next
            (form_of self.now.labels.b (split s.now) (forms_of tests)) (split s.now) }
    {
        let Some(form) = fitting::form_of(self.labels.b, tests, s) else {
            unreachable!()
        };
        Row {
            kind,
            next,
            code: form.code,
            name: name_in(form, s),
            first: self.operand(form, s, 0),
            second: self.operand(form, s, 1),
            third: self.operand(form, s, 2),
        }
    }

    // The row of a test.
    pub fn test_row(&self, s: &[u8], next: u64) -> Row
        requires { is_test self.now.labels.b (split s.now) ≡ true }
        ensures { result ≡ test_row self.now.labels.b (row_at self.now) next (split s.now) }
    {
        self.row_in(true, s, codes::TEST, next)
    }

    // The row of an operation.
    pub fn operation_row(&self, s: &[u8], next: u64) -> Row
        requires { is_operation self.now.labels.b (split s.now) ≡ true }
        ensures { result ≡ operation_row self.now.labels.b (row_at self.now) next (split s.now) }
    {
        match arguments::moved(s) {
            Some((a, names)) => moved_row(a, names, next),
            None => self.row_in(false, s, codes::OPERATION, next),
        }
    }
}
