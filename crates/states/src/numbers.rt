// The input taken apart: numbers in groups of seven bits, and the parts of a case.
ghost use Rattle.std.specs.Prelude.{◌≤◌};

use std::io;
use std::io::Write;

// The most numbers of a case.
pub const NUMBERS: usize = 16384;

// A number that was read, and where the next one starts.
#[derive(Clone, Copy)]
pub struct Read {
    pub value: u64,
    pub next: usize,
}

// A case by its lengths and counts. Its table, input and damages (two numbers each) follow them, in this order.
#[derive(Clone, Copy)]
pub struct Case {
    pub table: usize,
    pub input: usize,
    pub storage: usize,
    pub output: usize,
    pub before: u64,
    pub damages: usize,
    pub limit: u64,
    pub width: u64,
}

// The number that starts at a place: groups of seven bits, the lowest first, every byte but the last with 128 added.
pub fn number_at(file: &[u8], from: usize) -> Read {
    let mut value = 0;
    let mut shift: u64 = 0;
    for at in from..file.len() {
        let byte = u64::from(file[at]);
        value |= (byte % 128) << shift;
        shift = (shift + 7) % 64;
        if byte < 128 {
            return Read {
                value,
                next: at + 1,
            };
        }
    }
    Read {
        value,
        next: from.max(file.len()),
    }
}

// Reads so many numbers, and tells where the next one starts.
pub fn read_numbers(file: &[u8], from: usize, count: usize, numbers: &mut [u64; NUMBERS]) -> usize
    requires { count ≤ 16384 }
{
    let mut at = from;
    for number in &mut numbers[..count] {
        let read = number_at(file, at);
        *number = read.value;
        at = read.next;
    }
    at
}

// Writes so many bytes of the input from a place on, and tells where they end; writes nothing if there are not so many.
pub fn write_text(rt: &impl Print, file: &[u8], from: usize, length: u64) -> io::Result<usize> {
    if file.len() < from {
        return Ok(from);
    }
    if ((file.len() - from) as u64) < length {
        return Ok(from);
    }
    let end = from + length as usize;
    io::writer(rt).write_all(&file[from..end])?;
    Ok(end)
}

// Number i, or 0 if there is none.
pub fn number(numbers: &[u64], i: usize) -> u64 {
    numbers.get(i).copied().unwrap_or(0)
}

// A number, or the most that it may be.
pub fn within(number: u64, most: usize) -> usize
    ensures { result ≤ most }
{
    number.min(most as u64) as usize
}

// The lengths and counts of a case.
pub fn case_of(numbers: &[u64]) -> Case
    ensures { (result.table ≤ 8010) × (result.input ≤ 256) × (result.storage ≤ 5000) × (result.output ≤ 4096) × (result.damages ≤ 512) }
{
    Case {
        table: within(number(numbers, 0), 8010),
        input: within(number(numbers, 1), 256),
        storage: within(number(numbers, 2), 5000),
        output: within(number(numbers, 3), 4096),
        before: number(numbers, 4),
        damages: within(number(numbers, 5), 512),
        limit: number(numbers, 6),
        width: number(numbers, 7),
    }
}

// Numbers below 256 as bytes; zeros where there are fewer numbers than bytes.
pub fn to_bytes(numbers: &[u64], bytes: &mut [u8]) {
    bytes.fill(0);
    for (byte, number) in bytes.iter_mut().zip(numbers) {
        *byte = (number % 256) as u8;
    }
}
