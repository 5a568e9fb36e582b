// Well-formed rows, and the check of a whole table.
ghost use Rattle.std.specs.Prelude.{◌≡◌, ◌-◌, ◌≤◌};
ghost use Rattle.table.specs.Operands.{shape, named_shape};
ghost use Rattle.table.specs.Table.{shape_of, row_or_none, names_rows, has_mode, has_tests};
ghost use Rattle.table.specs.Table.{goes_on_of, rest_unused, complete, is_line, is_test, is_operation};
ghost use Rattle.table.specs.Table.{chained, shaped, well_formed_as, well_formed};
ghost use Rattle.table.specs.Table.{usable, lowest_from, table_checked, told_check, check_told};
ghost use Rattle.table.specs.Row.{length_fits, rows};

use crate::{Operand, Row, Shape, TableError, codes, forms, rows};

// The shape of an operation, or of a test, that has no name.
fn unnamed(x: Operand, y: Operand, z: Operand) -> Shape
    ensures { result ≡ shape x y z }
{
    Shape {
        named: false,
        first: x,
        second: y,
        third: z,
    }
}

// Operands (a, cd), and operands (a, c).
fn a_and_cd() -> Shape
    ensures { result ≡ shape Operand.Reference Operand.Either Operand.Absent }
{
    unnamed(Operand::Reference, Operand::Either, Operand::Absent)
}

fn a_and_c() -> Shape
    ensures { result ≡ shape Operand.Reference Operand.Reference Operand.Absent }
{
    unnamed(Operand::Reference, Operand::Reference, Operand::Absent)
}

// A name, and three operands of one form.
fn name_and(x: Operand) -> Shape
    ensures { result ≡ named_shape x x x }
{
    Shape {
        named: true,
        first: x,
        second: x,
        third: x,
    }
}

// The operands of an operation from add on.
fn later_shape(code: u64) -> Shape
    requires { (8 ≤ code) × (code ≤ 36) }
    ensures { result ≡ shape_of code }
{
    if code <= codes::COMPLEMENT {
        return a_and_cd();
    }
    if code <= codes::RIGHTMOST_ZERO {
        return a_and_c();
    }
    if code <= codes::INPUT {
        return a_and_cd();
    }
    if code <= codes::PRINT {
        return unnamed(Operand::Either, Operand::Either, Operand::Absent);
    }
    if code <= codes::ZEROS_TO_BLANKS {
        return a_and_c();
    }
    if code <= codes::RESTORE {
        return unnamed(Operand::Reference, Operand::Absent, Operand::Absent);
    }
    if code <= codes::RESTORE_DEFINITION {
        return name_and(Operand::Absent);
    }
    unnamed(Operand::Line, Operand::Absent, Operand::Absent)
}

// The operands of an operation.
fn shape_of(code: u64) -> Shape
    requires { (1 ≤ code) × (code ≤ 36) }
    ensures { result ≡ shape_of code }
{
    if code <= codes::SET_UP {
        return unnamed(Operand::Literal, Operand::Literal, Operand::Literal);
    }
    if code <= codes::DEFINE {
        return name_and(Operand::Either);
    }
    if code <= codes::GET {
        return unnamed(
            Operand::Reference,
            Operand::Either,
            Operand::ReferenceOrAbsent,
        );
    }
    if code <= codes::FREE {
        return unnamed(
            Operand::Reference,
            Operand::ReferenceOrZero,
            Operand::Absent,
        );
    }
    if code <= codes::DUPLICATE {
        return a_and_c();
    }
    if code <= codes::COPY {
        return a_and_cd();
    }
    if code <= codes::INTERCHANGE {
        return a_and_c();
    }
    later_shape(code)
}

// A row number of a line is zero or below the row count.
fn row_or_none(rows: u64, r: u64) -> bool
    ensures { result ≡ row_or_none rows r }
{
    (r == 0) | (r < rows)
}

// A line's first test row, first operation row and go-to, which may be DONE.
fn names_rows(rows: u64, row: Row) -> bool
    ensures { result ≡ names_rows rows row }
{
    let test = row_or_none(rows, row.first.form);
    let operation = row_or_none(rows, row.first.value);
    let goes = row_or_none(rows, row.second.form) | (row.second.form == codes::DONE);
    test & (operation & goes)
}

// One of the five modes, and no name.
fn has_mode(row: Row) -> bool
    ensures { result ≡ has_mode row }
{
    (row.code <= codes::IFNALL) & (row.name == 0)
}

// THEN has no test, the others have one or more.
fn has_tests(row: Row) -> bool
    ensures { result ≡ has_tests row }
{
    (row.code == codes::THEN) == (row.first.form == 0)
}

// Without operations a go-to is needed.
fn goes_on(row: Row) -> bool
    ensures { result ≡ goes_on_of row }
{
    !((row.first.value == 0) & (row.second.form == 0))
}

// Unused numbers are zero.
fn rest_unused(row: Row) -> bool
    ensures { result ≡ rest_unused row }
{
    (row.second.value == 0) & forms::is_absent(row.third)
}

// A line's numbers but the rows that it names.
fn is_complete(row: Row) -> bool
    ensures { result ≡ complete row }
{
    has_mode(row) & (has_tests(row) & (goes_on(row) & rest_unused(row)))
}

// Kind 1, a line.
fn is_line(rows: u64, row: Row) -> bool
    ensures { result ≡ is_line rows row }
{
    names_rows(rows, row) & is_complete(row)
}

// Kind 2, a test: codes 1 to 7.
fn is_test(b: u64, rows: u64, row: Row) -> bool
    ensures { result ≡ is_test b rows row }
{
    (codes::EQUAL <= row.code)
        & ((row.code <= codes::ZEROS) & forms::has_shape(b, rows, a_and_cd(), row))
}

// Kind 3, an operation: codes 1 to 36.
fn is_operation(b: u64, rows: u64, row: Row) -> bool
    ensures { result ≡ is_operation b rows row }
{
    if row.code < codes::SET_UP {
        return false;
    }
    if codes::DO < row.code {
        return false;
    }
    forms::has_shape(b, rows, shape_of(row.code), row)
}

// Row r is a well-formed row of this kind.
fn well_formed_as(kind: u64, b: u64, rows: u64, r: u64, row: Row) -> bool
    ensures { result ≡ well_formed_as kind b rows r row }
{
    if row.kind != kind {
        return false;
    }
    if !is_chained(rows, r, row.next) {
        return false;
    }
    has_kind(kind, b, rows, row)
}

// The row's own numbers are those of its kind.
fn has_kind(kind: u64, b: u64, rows: u64, row: Row) -> bool
    ensures { result ≡ shaped kind b rows row }
{
    if kind == codes::LINE {
        return is_line(rows, row);
    }
    if kind == codes::TEST {
        return is_test(b, rows, row);
    }
    is_operation(b, rows, row)
}

// Next is zero, or exceeds its own row and is below the row count.
fn is_chained(rows: u64, r: u64, next: u64) -> bool
    ensures { result ≡ chained rows r next }
{
    (next == 0) | ((r < next) & (next < rows))
}

// Row r is well-formed.
fn well_formed(b: u64, rows: u64, r: u64, row: Row) -> bool
    ensures { result ≡ well_formed b rows r row }
{
    let line = well_formed_as(codes::LINE, b, rows, r, row);
    let test = well_formed_as(codes::TEST, b, rows, r, row);
    let operation = well_formed_as(codes::OPERATION, b, rows, r, row);
    line | test | operation
}

// The table's length is 20 to 8,000 and a multiple of ten.
pub fn has_length(table: &[u64]) -> bool
    ensures { result ≡ length_fits table.now }
{
    let n = table.len();
    (rows::LEAST <= n) & (n <= rows::ALL) & (n % rows::NUMBERS == 0)
}

// Row r can be used as this kind: it is there, well-formed and of this kind.
pub fn is_usable(kind: u64, b: u64, table: &[u64], r: usize) -> bool
    ensures { result ≡ usable kind b table.now r }
{
    let rows = table.len() / rows::NUMBERS;
    if r < 1 {
        return false;
    }
    if rows <= r {
        return false;
    }
    well_formed_as(kind, b, rows as u64, r as u64, rows::row_at(table, r))
}

// The lowest ill-formed row of words of b bits, 0 if none: document 01's answer, which C is given as it is.
pub fn lowest_ill_formed(b: u64, table: &[u64]) -> u64
    ensures { result ≡ lowest_from b table.now 1 (rows table.now - 1) }
{
    let rows = table.len() / rows::NUMBERS;
    for r in 1..rows {
        if !well_formed(b, rows as u64, r as u64, rows::row_at(table, r)) {
            return r as u64;
        }
    }
    0
}

// The table check at a width: refusal 31, then 1, then the lowest ill-formed row, 0 if there is none; the second promise gives the
// answer in the papers' numbers.
pub fn check_table(b: u64, table: &[u64]) -> Result<u64, TableError>
    ensures value { result ≡ table_checked b table.now }
    ensures numbered { told_check result ≡ check_told b table.now }
{
    if !word::is_width(b) {
        return Err(TableError::NoWidth);
    }
    if !has_length(table) {
        return Err(TableError::BadLength);
    }
    Ok(lowest_ill_formed(b, table))
}
