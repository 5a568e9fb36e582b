// Six-bit characters in a value of up to ten: the operations 24 to 31 of document 01. A value's first character is its leftmost.
#![tactic(auto)]

mod thousand;
pub mod triples;

ghost use Rattle.std.specs.Prelude.{◌≡◌, ◌++◌, ◌+◌, ◌*◌, ◌/◌, ◌%◌, ◌^◌, ◌≤◌, ◌<◌, length, take, drop, get_or, replicate};
ghost use Rattle.character.specs.Character.{holds, leading, characters, packed, printed, blanks_to_zeros, to_binary, from_binary};
ghost use Rattle.character.specs.Character.{zeros_to_blanks};
ghost use Rattle.character.specs.Converted.{told_converted, told_packed, converting, packing};

// The blank.
const BLANK: u64 = 0o60;

// As many values as a character has.
const CODES: u64 = 0o100;

// How many characters are looked up at once, as many values as they have, and as many numbers as six and three digits.
const SIX: usize = 6;

const SIXES: u64 = 0o1_000_000_000_000;

const SIX_DIGITS: u64 = 1_000_000;

const THREE_DIGITS: u64 = 1_000;

// The characters that a field of this width holds.
pub fn holds(width: usize) -> usize
    ensures { result ≡ holds width }
{
    width / 6 + (width % 6 + 5) / 6
}

// The digit of some bits at a place of a value, counted from the right.
fn digit(bits: usize, place: usize, v: u64) -> u64
    requires { (bits < 64) × (bits * place < 64) }
    ensures { result ≡ v / (2 ^ bits) ^ place % 2 ^ bits }
{
    (v >> (bits * place)) % (1 << bits)
}

// As many values as this many characters have.
fn power(places: usize) -> u64
    requires { places ≤ 10 }
    ensures { result ≡ 64 ^ places }
{
    1 << (6 * places)
}

// Operation 30: the last n octal digits of a value.
pub fn from_binary_octal(n: usize, v: u64) -> u64
    requires { n ≤ 10 }
    ensures { result ≡ from_binary 8 n v }
{
    let mut made = 0;
    for left in (0..n).rev() {
        made = made * CODES + digit(3, left, v);
    }
    made
}

// Operation 29: the last n decimal digits of a value, six at a time.
pub fn from_binary_decimal(n: usize, v: u64) -> u64
    requires { n ≤ 9 }
    ensures { result ≡ from_binary 10 n v }
{
    let last = thousand::six(v % SIX_DIGITS);
    if n <= SIX {
        return last % power(n);
    }
    (thousand::six(v / SIX_DIGITS % THREE_DIGITS) * SIXES + last) % power(n)
}

// Operations 27 and 28: the number that n characters are in base 10 or 8, if each is a digit of the base.
pub fn to_binary(base: u64, n: usize, v: u64) -> Option<u64>
    requires { (base ≤ 64) × (n ≤ 10) }
    ensures { told_converted result ≡ converting (to_binary base n v) }
{
    let mut made = 0;
    for left in (0..n).rev() {
        let next = digit(6, left, v);
        if next >= base {
            return None;
        }
        made = made * base + next;
    }
    Some(made)
}

// The last n characters of a value, with each leading one that is `old` made `new`.
fn changed(old: u64, new: u64, n: usize, v: u64) -> u64
    requires { (new < 64) × (n ≤ 10) }
    ensures { result ≡ packed (leading old new (characters n v)) }
{
    let mut made = 0;
    for left in (0..n).rev() {
        if digit(6, left, v) != old {
            let rest = power(left + 1);
            return made * rest + v % rest;
        }
        made = made * CODES + new;
    }
    made
}

// Operation 26: leading blanks become zeros, those that lead a narrow field too.
pub fn blanks_to_zeros(n: usize, width: usize, v: u64) -> u64
    requires { n ≤ 10 }
    ensures { result ≡ blanks_to_zeros n width v }
{
    changed(BLANK, 0, n.min(holds(width)), v)
}

// Operation 31: leading zeros become blanks.
pub fn zeros_to_blanks(n: usize, v: u64) -> u64
    requires { n ≤ 10 }
    ensures { result ≡ zeros_to_blanks n v }
{
    changed(0, BLANK, n, v)
}

// Character i of the `count` that are printed of a field.
fn printed_at(count: usize, width: usize, v: u64, i: usize) -> u8
    requires { (width ≤ 64) × (i < count) }
    ensures { result ≡ get_or (printed count width v) i 0 }
{
    let right = count - 1 - i;
    if right < holds(width) {
        digit(6, right, v) as u8
    } else {
        BLANK as u8
    }
}

// Operation 25: a field is printed from a place of the output on.
pub fn print_into(output: &mut [u8], at: usize, count: usize, width: usize, v: u64)
    requires { (width ≤ 64) × (at + count ≤ length output.old) }
    ensures { output.new ≡ take at output.old ++
        (printed count width v ++ drop (at + count) output.old) }
{
    for i in 0..count {
        output[at + i] = printed_at(count, width, v, i);
    }
}

// Operation 24 without an input: the value of n characters of octal 77.
pub fn line_ends(n: usize) -> u64
    requires { n ≤ 10 }
    ensures { result ≡ packed (replicate n 0o77) }
{
    power(n) - 1
}

// Operation 24: the value of `count` input bytes from a place on, if each is a character.
pub fn pack_input(input: &[u8], at: usize, count: usize) -> Option<u64>
    requires { (count ≤ 10) × (at + count ≤ length input.now) }
    ensures { told_packed result ≡ packing (take count (drop at input.now)) }
{
    let mut made = 0;
    for byte in &input[at..at + count] {
        let next = u64::from(*byte);
        if next >= CODES {
            return None;
        }
        made = made * CODES + next;
    }
    Some(made)
}
