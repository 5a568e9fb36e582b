// Drawn references, and drawn words that they lead through.
use crate::next;
use std::num;

// Two addresses of the set-up words, one in each half of a word, most often multiples of four.
fn addresses(drawn: u64) -> u64 {
    let fours = num::wrapping_add_u64(drawn & 0o000014000014, 0o000010000010);
    fours | (drawn & (drawn >> 8) & 0o000003000003)
}

// Words of two addresses each, of which the bits in a mask are kept.
pub fn words_of(drawn: u64, mask: u64) -> [u64; 26] {
    let mut made = [0u64; 26];
    let mut state = drawn;
    for word in &mut made {
        state = next(state);
        *word = addresses(state) & mask;
    }
    made
}

// A reference of one to six names: any bug, and fields, seldom beyond the first eight.
pub fn drawn(a: u64, drawn: u64) -> u64 {
    let seldom = (drawn >> 6) & (drawn >> 12) & (drawn >> 18) & 0o1010101010;
    let fields = num::wrapping_add_u64((drawn & 0o0707070707) | seldom, 0o0101010101);
    let bug = (a / 8 % 26 + 11) << 30;
    (bug | fields) >> (a % 6 * 6)
}
