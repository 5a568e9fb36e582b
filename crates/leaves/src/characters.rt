// Operations 24 to 31 on a generated case: a number for choices, and two values.
ghost use Rattle.std.specs.Prelude.{◌+◌, ◌≤◌};

// Refusals 4 and 6.
const NO_CHARACTER: u64 = cases::REFUSED + 4;

const NO_DIGIT: u64 = cases::REFUSED + 6;

// Characters to binary: the number, or refusal 6.
pub fn to_binary(base: u64, n: usize, v: u64) -> u64
    requires { (base ≤ 64) × (n ≤ 10) }
{
    character::to_binary(base, n, v).unwrap_or(NO_DIGIT)
}

// A value printed among bytes that are no characters.
pub fn printed(at: usize, count: usize, width: usize, v: u64) -> [u8; 160]
    requires { (width ≤ 64) × (at + count ≤ 160) }
{
    let mut output = [64u8; 160];
    character::print_into(&mut output, at, count, width, v);
    output
}

// Input packed: the characters, or refusal 4.
pub fn pack_input(input: &[u8; 160], from: usize, n: usize) -> u64
    requires { (from ≤ 150) × (n ≤ 10) }
{
    character::pack_input(input, from, n).unwrap_or(NO_CHARACTER)
}

// Output and input: a value printed, and a part of that packed again.
fn stream_result(which: u64, a: u64, v: u64, y: u64) -> u64 {
    let output = printed(
        (a % 41) as usize,
        (a / 64 % 121) as usize,
        (a / 8192 % 65) as usize,
        v,
    );
    if which == 29 {
        return cases::fold_all(1, &output);
    }
    pack_input(&output, (y % 151) as usize, (a / 128 % 11) as usize)
}

// What function number `which` gives on a case.
pub fn result(which: u64, a: u64, x: u64, y: u64) -> u64 {
    let n = (a / 128 % 11) as usize;
    let v = cases::characters::drawn(a, x ^ y);
    match which {
        22 => character::holds((a % 65) as usize) as u64,
        23 => character::from_binary_octal(n, x),
        24 => character::from_binary_decimal(n % 10, x),
        25 => to_binary(8, n, v),
        26 => to_binary(10, n, v),
        27 => character::blanks_to_zeros(n, (a / 2048 % 65) as usize, v),
        28 => character::zeros_to_blanks(n, v),
        _ => stream_result(which, a, v, y),
    }
}
