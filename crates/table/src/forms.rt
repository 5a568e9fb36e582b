// The operands that a row has, and those that its code takes.
ghost use Rattle.std.specs.Prelude.{◌≡◌, ◌^◌, ltb};
ghost use Rattle.table.specs.Operands.{is_absent, is_literal, is_ref, is_zero, takes};
ghost use Rattle.table.specs.Table.{fit_pairs, largest_name, fits};

use crate::{Operand, Pair, Row, Shape, codes, references};
use word::arithmetic;

// Form 0, absent.
pub(crate) fn is_absent(p: Pair) -> bool
    ensures { result ≡ is_absent p }
{
    (p.form == codes::ABSENT) & (p.value == 0)
}

// A number below 2^b: each is, where b is 64 or more.
fn fits_word(b: u64, v: u64) -> bool
    ensures { result ≡ ltb v (2 ^ b) }
{
    if b < 64 {
        v < arithmetic::power(b)
    } else {
        true
    }
}

// Form 1, a literal below 2^b.
fn is_literal(b: u64, p: Pair) -> bool
    ensures { result ≡ is_literal b p }
{
    (p.form == codes::LITERAL) & fits_word(b, p.value)
}

// Form 2, a reference.
fn is_ref(p: Pair) -> bool
    ensures { result ≡ is_ref p }
{
    (p.form == codes::REFERENCE) & references::is_reference(p.value)
}

// The literal 0.
fn is_zero(p: Pair) -> bool
    ensures { result ≡ is_zero p }
{
    (p.form == codes::LITERAL) & (p.value == 0)
}

// A pair is such an operand, in a table of this many rows.
fn is_operand(b: u64, rows: u64, x: Operand, p: Pair) -> bool
    ensures { result ≡ takes b rows x p }
{
    match x {
        Operand::Absent => is_absent(p),
        Operand::Literal => is_literal(b, p),
        Operand::Reference => is_ref(p),
        Operand::Either => is_literal(b, p) | is_ref(p),
        Operand::ReferenceOrAbsent => is_ref(p) | is_absent(p),
        Operand::ReferenceOrZero => is_ref(p) | is_zero(p),
        Operand::Line => is_literal(b, p) & ((1 <= p.value) & (p.value < rows)),
    }
}

// The pairs are what the shape says.
fn has_pairs(b: u64, rows: u64, s: Shape, row: Row) -> bool
    ensures { result ≡ fit_pairs b rows s row }
{
    let x = s.first;
    let y = s.second;
    let z = s.third;
    let first = is_operand(b, rows, x, row.first);
    let second = is_operand(b, rows, y, row.second);
    let third = is_operand(b, rows, z, row.third);
    first & (second & third)
}

// The name number of the last field, Z.
const LAST_NAME: u64 = 35;

// The largest name number that a row may have.
fn largest_name(named: bool) -> u64
    ensures { result ≡ largest_name named }
{
    if named { LAST_NAME } else { 0 }
}

// And the name is one where there is one and otherwise zero.
pub(crate) fn has_shape(b: u64, rows: u64, s: Shape, row: Row) -> bool
    ensures { result ≡ fits b rows s row }
{
    let most = largest_name(s.named);
    (row.name <= most) & has_pairs(b, rows, s, row)
}
