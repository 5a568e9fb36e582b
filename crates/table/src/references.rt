// References as numbers: tested, and taken apart into names.
ghost use Rattle.std.specs.Prelude.{true, ◌≡◌, ◌<◌, length};
ghost use Rattle.table.specs.Reference.{names, is_reference, reference_of, names_of, Following, FollowingLater, name_at};

use crate::{BugLetter, FieldName, Names};

// The digits of names: the first field's, that of A, and the last.
const FIRST: u64 = 1;

const A: u64 = 11;

const LAST: u64 = 36;

// As many values as a digit has, two digits, and six; and the bits of a digit.
pub const ONE_DIGIT: u64 = 0o100;

pub const TWO_DIGITS: u64 = 0o10_000;

const SIX_DIGITS: u64 = 0o1_000_000_000_000;

pub const DIGIT_BITS: u64 = 6;

// A digit that names something: one of lowest to the last.
fn is_name(lowest: u64, x: u64) -> bool
    ensures { result ≡ names lowest x }
{
    (lowest <= x) & (x <= LAST)
}

// v is a reference: six base-64 digits at most, the first a bug's, the others fields'.
pub fn is_reference(v: u64) -> bool
    ensures { result ≡ is_reference v }
{
    if SIX_DIGITS <= v {
        return false;
    }
    let mut rest = v;
    while ONE_DIGIT <= rest {
        if !is_name(FIRST, rest % ONE_DIGIT) {
            return false;
        }
        rest = rest / ONE_DIGIT;
    }
    is_name(A, rest)
}

// The names of a reference, the last one first found. It is no one loop with that above, which judges a number: this one takes a
// judged one apart, and its place steps while digits are taken off.
pub fn names_in(v: u64) -> Names
    requires { is_reference v ≡ true }
    ensures { (names_of result ≡ reference_of v) × (length result.fields ≡ 5) }
{
    let mut fields = [FieldName(0); 5];
    let mut rest = v;
    let mut from = 5;
    // no range: the digits tell how many names there are
    while ONE_DIGIT <= rest {
        from -= 1;
        fields[from] = FieldName((rest % ONE_DIGIT - FIRST) as u8);
        rest = rest / ONE_DIGIT;
    }
    Names {
        bug: BugLetter(rest - A),
        from,
        fields,
    }
}

// How many bits of a reference follow its first digit.
pub fn bits_after(v: u64) -> u64
    requires { is_reference v ≡ true }
    ensures { Following v result }
{
    (63 - u64::leading_zeros(v)) as u64 / DIGIT_BITS * DIGIT_BITS
}

// The bug of a reference, of which so many bits follow it.
pub fn bug_before(v: u64, bits: u64) -> BugLetter
    requires { is_reference v ≡ true × Following v bits }
    ensures { (result ≡ (reference_of v).bug) × (result.0 < 26) }
{
    BugLetter((v >> bits) - A)
}

// The field that a reference names where so many bits follow.
pub fn name_before(v: u64, bits: u64) -> FieldName
    requires { is_reference v ≡ true × FollowingLater v bits }
    ensures { (result ≡ name_at v bits) × (result.0 < 36) }
{
    FieldName(((v >> bits) % ONE_DIGIT - FIRST) as u8)
}
