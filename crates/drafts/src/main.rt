// The check of fields tried on the tables of the input, which reference/drafts.rs wrote with the lines that must be printed: what
// it says of each labelled table, then a checksum over all answers and how often each came up.
#![tactic(auto)]

ghost use Rattle.std.specs.Prelude.{◌≤◌};

use cases::lines;
use defined::FieldsError;
use states::numbers;
use states::numbers::NUMBERS;
use std::io;

// The checksum, and how many tables got yes, no, 1, an ill-formed row, 30.
const FIGURES: usize = 6;

// An answer as a number, for the checksum.
fn told(found: Result<(), FieldsError>) -> u64 {
    match found {
        Ok(()) => 0,
        Err(FieldsError::NotDefined { row, field }) => cases::fold(cases::fold(3, row), field),
        Err(FieldsError::NoWidth) => 31,
        Err(FieldsError::BadLength) => 1,
        Err(FieldsError::IllFormed(row)) => cases::fold(2, row),
        Err(FieldsError::WrongKind(row)) => cases::fold(30, row),
    }
}

// Which figure counts an answer.
fn kind(found: Result<(), FieldsError>) -> usize {
    match found {
        Ok(()) => 1,
        Err(FieldsError::NotDefined { .. }) => 2,
        Err(FieldsError::NoWidth | FieldsError::BadLength) => 3,
        Err(FieldsError::IllFormed(_)) => 4,
        Err(FieldsError::WrongKind(_)) => 5,
    }
}

// Writes the rest of the line of a table that has a label: an answer.
fn write_found(rt: &impl Print, found: Result<(), FieldsError>) -> io::Result<()> {
    match found {
        Ok(()) => println!(rt; ": yes"),
        Err(FieldsError::NotDefined { row, field }) => println!(rt;
            ": no, row {row}, field {field}"
        ),
        Err(FieldsError::NoWidth) => println!(rt; ": refusal 31"),
        Err(FieldsError::BadLength) => println!(rt; ": refusal 1"),
        Err(FieldsError::IllFormed(row)) => println!(rt; ": ill-formed, row {row}"),
        Err(FieldsError::WrongKind(row)) => println!(rt; ": refusal 30, row {row}"),
    }
}

// Counts an answer.
fn count(found: Result<(), FieldsError>, figures: &mut [u64; FIGURES]) {
    if let Some(figure) = figures.get_mut(kind(found)) {
        *figure = figure.wrapping_add(1);
    }
    figures[0] = cases::fold(figures[0], told(found));
}

// What is said of the first numbers of a table.
fn checked(table: &[u64; NUMBERS], n: usize) -> Result<(), FieldsError>
    requires { n ≤ 16384 }
{
    defined::check_fields(36, &table[..n])
}

// The table that starts at a place of the input, and where the next one starts.
fn try_at(
    rt: &impl Print,
    file: &[u8],
    from: usize,
    figures: &mut [u64; FIGURES],
) -> io::Result<usize> {
    let mut table = [0u64; NUMBERS];
    let length = numbers::number_at(file, from);
    let n = numbers::within(length.value, NUMBERS);
    let after = numbers::read_numbers(file, length.next, n, &mut table);
    let found = checked(&table, n);
    let label = numbers::number_at(file, after);
    let end = numbers::write_text(rt, file, label.next, label.value)?;
    if label.value != 0 {
        write_found(rt, found)?;
    }
    count(found, figures);
    Ok(end)
}

// All tables of the input.
fn try_all(rt: &impl Print, file: &[u8]) -> io::Result<[u64; FIGURES]> {
    let mut figures = [0u64; FIGURES];
    let first = numbers::number_at(file, 0);
    let mut at = first.next;
    for _ in 0..first.value {
        at = try_at(rt, file, at, &mut figures)?;
    }
    Ok(figures)
}

// The names of the figures.
const NAMES: [&str; FIGURES] = [
    "all answers",
    "yes",
    "no",
    "refusal 1",
    "ill-formed",
    "refusal 30",
];

fn main(rt: HostRuntime) -> io::Result<()> {
    let mut file = files::zeros::<524288>();
    let length = files::read_full(&mut rt.reader(), &mut file);
    let figures = try_all(&rt, &file[..length])?;
    lines::write_lines(&rt, &NAMES, &figures.map(|figure| figure % cases::REFUSED))
}
