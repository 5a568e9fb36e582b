// The reader of typed lines tried on the texts of the input, which reference/scripts.rs wrote with the lines that must be printed:
// what it says of each labelled text, then a checksum over all answers and all of each table, and how often each answer came up.
#![tactic(auto)]

ghost use Rattle.std.specs.Prelude.{◌≤◌, length};

use lines::ReadError;
use states::numbers;
use std::io;

// The numbers of the table of which a part is lent, and what stands in it before.
const ROOM: usize = 8010;

const BEFORE: u64 = 77;

// The checksum, and how many texts got a table, 23, 24, 25.
const FIGURES: usize = 5;

// An answer as a number, for the checksum.
fn told(found: Result<u64, ReadError>) -> u64 {
    match found {
        Ok(rows) => rows,
        Err(ReadError::NoWidth) => 31,
        Err(ReadError::BadLine(line)) => cases::fold(23, line),
        Err(ReadError::BadLabel(line)) => cases::fold(24, line),
        Err(ReadError::TooLong(line)) => cases::fold(25, line),
    }
}

// Which figure counts an answer.
fn kind(found: Result<u64, ReadError>) -> usize {
    match found {
        Ok(_) => 1,
        Err(ReadError::NoWidth) => 2,
        Err(ReadError::BadLine(_)) => 2,
        Err(ReadError::BadLabel(_)) => 3,
        Err(ReadError::TooLong(_)) => 4,
    }
}

// Writes the rest of the line of a text that has a label: an answer.
fn write_found(rt: &impl Print, found: Result<u64, ReadError>) -> io::Result<()> {
    match found {
        Ok(rows) => println!(rt; ": rows {rows}"),
        Err(ReadError::NoWidth) => println!(rt; ": 31"),
        Err(ReadError::BadLine(line)) => println!(rt; ": 23, line {line}"),
        Err(ReadError::BadLabel(line)) => println!(rt; ": 24, line {line}"),
        Err(ReadError::TooLong(line)) => println!(rt; ": 25, line {line}"),
    }
}

// Counts an answer, and takes it and the table into the checksum.
fn count(found: Result<u64, ReadError>, table: &[u64], figures: &mut [u64; FIGURES]) {
    if let Some(figure) = figures.get_mut(kind(found)) {
        *figure = figure.wrapping_add(1);
    }
    figures[0] = cases::fold_all(cases::fold(figures[0], told(found)), table);
}

// Where so many bytes from a place on end; the place itself if there are not so many.
fn end_of(file: &[u8], from: usize, length: u64) -> usize {
    if file.len() < from {
        return from;
    }
    if ((file.len() - from) as u64) < length {
        return from;
    }
    from + length as usize
}

// What is said of the bytes between two places, which are none where the places are not in the file in this order.
fn read_part(file: &[u8], from: usize, end: usize, table: &mut [u64]) -> Result<u64, ReadError> {
    if end < from || file.len() < end {
        return typed::read(36, &file[0..0], table);
    }
    typed::read(36, &file[from..end], table)
}

// The same with so many numbers of a table lent, which has them.
fn read_into(
    file: &[u8],
    from: usize,
    end: usize,
    room: usize,
    table: &mut [u64],
) -> Result<u64, ReadError>
    requires { room ≤ length table.old }
{
    read_part(file, from, end, &mut table[..room])
}

// The text that starts at a place of the input, and where the next one starts.
fn try_at(
    rt: &impl Print,
    file: &[u8],
    from: usize,
    figures: &mut [u64; FIGURES],
) -> io::Result<usize> {
    let mut table = [BEFORE; ROOM];
    let lent = numbers::number_at(file, from);
    let length = numbers::number_at(file, lent.next);
    let end = end_of(file, length.next, length.value);
    let room = numbers::within(lent.value, ROOM);
    let found = read_into(file, length.next, end, room, &mut table);
    let label = numbers::number_at(file, end);
    let after = numbers::write_text(rt, file, label.next, label.value)?;
    if label.value != 0 {
        write_found(rt, found)?;
    }
    count(found, &table, figures);
    Ok(after)
}

// All texts of the input.
fn try_all(rt: &impl Print, file: &[u8]) -> io::Result<[u64; FIGURES]> {
    let mut figures = [0u64; FIGURES];
    let first = numbers::number_at(file, 0);
    let mut at = first.next;
    for _ in 0..first.value {
        at = try_at(rt, file, at, &mut figures)?;
    }
    Ok(figures)
}

// The names of the figures.
const NAMES: [&str; FIGURES] = ["all answers", "tables", "23", "24", "25"];

fn main(rt: HostRuntime) -> io::Result<()> {
    let mut file = files::zeros::<524288>();
    let length = files::read_full(&mut rt.reader(), &mut file);
    let figures = try_all(&rt, &file[..length])?;
    cases::lines::write_lines(&rt, &NAMES, &figures.map(|figure| figure % cases::REFUSED))
}
