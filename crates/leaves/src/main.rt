// The leaves of the engine tried: bench cases of document 01, then a checksum over generated cases for each public function of
// the crates word, character and table. reference/leaves.rs computes the same lines independently.
#![tactic(auto)]

mod characters;
mod tables;
mod words;

use std::io;
use word::{arithmetic, fields};

// What function number `which` gives on a case.
fn result(which: u64, a: u64, x: u64, y: u64) -> u64 {
    match which {
        0..=21 => words::result(which, a, x, y),
        22..=30 => characters::result(which, a, x, y),
        _ => tables::result(which, a, x, y),
    }
}

// The checksum of a function over its cases.
fn checksum(which: u64) -> u64 {
    let mut sum = 0;
    for case in cases::all() {
        sum = cases::fold(sum, result(which, case.a, case.x, case.y));
    }
    sum
}

// A number whose decimal digits are the last 16 octal ones of a word.
fn octal(word: u64) -> u64 {
    let mut made = 0;
    for left in (0..16_u64).rev() {
        made = made % 1000000000000000 * 10 + (word >> (left * 3)) % 8;
    }
    made
}

// Eight printed of o60007, packed again.
fn eight_printed() -> u64 {
    let output = characters::printed(0, 8, 36, 0o60007);
    characters::pack_input(&output, 0, 8)
}

// The bench cases whose answers are words.
fn bench_word(which: u64) -> u64 {
    match which {
        37 => fields::store_field(36, 6, 20, 0o777777777777, 32769),
        38 => fields::kept_bits(0, 14, arithmetic::subtract(36, 32768, 1)),
        39 => arithmetic::multiply(36, 0o400000000000, 3),
        40 => character::from_binary_decimal(6, 607),
        41 => character::from_binary_decimal(6, 1000607),
        42 => character::zeros_to_blanks(6, 0o000000060007),
        _ => eight_printed(),
    }
}

// The figure of line number `which`: the checksum of a function, or a bench case.
fn figure(which: u64) -> u64 {
    match which {
        0..=36 => checksum(which) / 2,
        37..=43 => octal(bench_word(which)),
        44 => characters::to_binary(10, 6, 0o606060060007),
        _ => characters::to_binary(10, 6, 0o000000060007),
    }
}

// The names of the lines.
const NAMES: [&str; 46] = [
    "power",
    "low_bits",
    "add",
    "subtract",
    "multiply",
    "divide",
    "or",
    "and",
    "exclusive_or",
    "complement",
    "count_ones",
    "count_zeros",
    "leftmost_one",
    "rightmost_one",
    "leftmost_zero",
    "rightmost_zero",
    "left_shift",
    "right_shift",
    "width",
    "read_field",
    "kept_bits",
    "store_field",
    "holds",
    "from_binary_octal",
    "from_binary_decimal",
    "to_binary, octal",
    "to_binary, decimal",
    "blanks_to_zeros",
    "zeros_to_blanks",
    "print_into",
    "pack_input",
    "is_reference",
    "names_in",
    "has_length and check by length",
    "check",
    "row_at",
    "is_usable",
    "32769 into bits 6-20 of all ones, octal",
    "32768 - 1 into 15 bits, octal",
    "2^35 times 3, octal",
    "607 to decimal, octal",
    "1000607 to decimal, octal",
    "zeros to blanks, octal",
    "eight printed of o60007, octal",
    "o606060060007 to binary",
    "o000000060007 to binary",
];

fn main(rt: HostRuntime) -> io::Result<()> {
    for (name, which) in NAMES.iter().zip(0..) {
        cases::lines::write_line(&rt, name, figure(which))?;
    }
    Ok(())
}
