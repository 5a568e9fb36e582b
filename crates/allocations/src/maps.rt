// The block allocator on generated cases and on sequences of operations.
ghost use Rattle.std.specs.Prelude.{◌≡◌, ◌%◌, ◌<◌, ◌≤◌, true, length};
ghost use Rattle.block.specs.Blocks.{size};
ghost use Rattle.block.specs.Map.{keeps};
ghost use Rattle.block.specs.SetUp.{top, words};

use block::SetUp;
use buddy::{section, sizes};

// Refusals 8, 11 and 17.
const BAD_SIZE: u64 = cases::REFUSED + 8;

pub const UNSOUND: u64 = cases::REFUSED + 11;

const NO_RUN: u64 = cases::REFUSED + 17;

// The bytes of a map: a few more than the words of the largest set-up.
pub const BYTES: usize = 1030;

// The operations of a sequence.
const STEPS: u64 = 4000;

// The set-up of the bench cases.
pub fn small() -> SetUp
    ensures { result ≡ record { d = 8; s1 = 8; s2 = 23 } }
{
    SetUp {
        d: 8,
        s1: 8,
        s2: 23,
    }
}

// The set-ups tried.
pub fn setup_of(which: u64) -> SetUp
    ensures { (words result % size (top result.d) ≡ 0) × (words result ≤ 1030) }
{
    match which {
        0 => small(),
        1 => SetUp {
            d: 128,
            s1: 128,
            s2: 1151,
        },
        2 => SetUp {
            d: 1,
            s1: 1,
            s2: 40,
        },
        _ => SetUp {
            d: 16,
            s1: 32,
            s2: 95,
        },
    }
}

// A fresh map: free blocks of the largest size.
pub fn fresh(setup: SetUp) -> [u8; BYTES]
    requires { words setup ≤ 1030 }
{
    let mut map = [0u8; BYTES];
    let k = sizes::top_of(setup.d);
    let n = sizes::size_of(k);
    let end = section::words_of(setup);
    for first in map[..end].iter_mut().step_by(n) {
        *first = k + k + 1;
    }
    map
}

// Get: the address of a block of n words or more, refusal 8 or 17.
fn get(setup: SetUp, map: &mut [u8], n: u64) -> u64
    requires { (words setup % size (top setup.d) ≡ 0) × (keeps setup map.old ≡ true) }
{
    if u64::from(setup.d) <= n.wrapping_sub(1) {
        return BAD_SIZE;
    }
    let j = sizes::level_of(sizes::top_of(setup.d), n);
    let Some(a) = section::lowest_run(setup, map, j) else {
        return NO_RUN;
    };
    section::deliver(setup, map, j, a);
    a as u64
}

// An address rounded down to 1, 2, 4 .. 128 words: the first at which a live block starts, or that of 128.
fn near(setup: SetUp, map: &[u8], address: usize) -> usize
    requires { (words setup % size (top setup.d) ≡ 0) × (keeps setup map.now ≡ true) }
{
    let mut n: usize = 1;
    while n < 128 {
        let rounded = address / n * n;
        if section::live_size(setup, map, rounded as u64) != 0 {
            return rounded;
        }
        n += n;
    }
    address / 128 * 128
}

// Free: the block that starts at an address rounded down, for 1; 0 if none does.
fn free(setup: SetUp, map: &mut [u8], address: usize) -> u64
    requires { (words setup % size (top setup.d) ≡ 0) × (keeps setup map.old ≡ true) }
{
    let rounded = near(setup, &*map, address);
    if section::live_size(setup, map, rounded as u64) == 0 {
        return 0;
    }
    section::free_block(setup, map, rounded);
    1
}

// Whether the map still keeps its section with one byte changed; the byte is put back.
fn damaged(setup: SetUp, map: &mut [u8], at: usize, byte: u8) -> u64
    requires { (words setup % size (top setup.d) ≡ 0) × (words setup ≤ length map.old) × (at < length map.old) }
{
    let old = map[at];
    map[at] = byte;
    let kept = section::keeps_section(setup, map);
    map[at] = old;
    u64::from(kept)
}

// An operation on a map that keeps its section: 1 get, 2 free, 3 the live size, 4 whether a damaged map keeps its section.
fn done(setup: SetUp, map: &mut [u8], operation: u64, n: u64) -> u64
    requires { (words setup % size (top setup.d) ≡ 0) × (keeps setup map.old ≡ true) × (words setup ≤ length map.old)
        × (1030 ≤ length map.old) }
{
    match operation {
        1 => get(setup, map, n),
        2 => free(setup, map, n as usize),
        3 => section::live_size(setup, map, n),
        _ => damaged(setup, map, (n % 1030) as usize, (n / 1030 % 20) as u8),
    }
}

// An operation on a map of a set-up, refusal 11 if the map does not keep its section.
fn operate(which: u64, map: &mut [u8; BYTES], operation: u64, n: u64) -> u64 {
    let setup = setup_of(which);
    if section::keeps_section(setup, map) {
        return done(setup, map, operation, n);
    }
    UNSOUND
}

// The last answer of operations on a fresh map of the first set-up. Each is two hexadecimal digits, the last two first:
// the operation, and the size or an eighth of the address.
pub fn script(steps: u64) -> u64 {
    let mut map = fresh(setup_of(0));
    let mut last = 0;
    let mut left = steps;
    while left > 0 {
        let operation = left / 16 % 16;
        let n = if operation == 1 {
            left % 16
        } else {
            left % 16 * 8
        };
        last = operate(0, &mut map, operation, n);
        left /= 256;
    }
    last
}

// A size that a get may ask for, or else an address, small ones more often; or what damages a map.
fn operand(setup: SetUp, operation: u64, a: u64) -> u64 {
    match operation {
        1 => (a / 4 % (u64::from(setup.d) + 3)) >> (a % 4),
        4 => a % 20600,
        _ => (a / 4 % (u64::from(setup.s2) + 3)) >> (a % 4),
    }
}

// A drawn operation; the larger the turn, from 0 to 4, the fewer gets.
pub fn drawn_step(which: u64, map: &mut [u8; BYTES], turn: u64, drawn: u64) -> u64
    requires { turn ≤ 4 }
{
    let operation = 1 + (turn + drawn % 8) / 3;
    let n = operand(setup_of(which), operation, drawn / 8);
    operate(which, map, operation, n)
}

// The bytes of a map folded.
fn folded(map: &[u8; BYTES]) -> u64 {
    cases::fold_all(1, map)
}

// The checksum of a sequence from a fresh map, of answers and bytes: by turns the operations are mostly gets and seldom gets.
pub fn sequence(which: u64) -> u64 {
    let mut map = fresh(setup_of(which));
    let mut state = STEPS;
    let mut sum = 0;
    for left in (0..STEPS).rev() {
        state = cases::next(state);
        let turn = left / 256 % 2 * 4;
        sum = cases::fold(sum, drawn_step(which, &mut map, turn, state));
        sum = cases::fold(sum, folded(&map));
    }
    sum
}
