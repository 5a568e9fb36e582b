// Storage kept by bit columns: words saved as bytes, and loaded from them.
#![tactic(auto)]

ghost use Rattle.std.specs.Prelude.{true, ◌++◌, ◌≡◌, ℕ, ◌+◌, ◌-◌, ◌*◌, ◌/◌, ◌%◌, ◌^◌, ◌≤◌, ◌<◌, min, eqb, length, get_or, take, drop};
ghost use Rattle.std.proofs.lemmas.List.Edits.{sets};
ghost use Rattle.character.specs.Character.{number};
ghost use Rattle.columns.specs.Columns.{groups_of, filled_up, turned_groups, saved, fits_width, each_below, saving};
ghost use Rattle.columns.specs.Columns.{loading, told_kept, saving_told, loading_told, bits_at, turned};
ghost use Rattle.columns.specs.Packing.{unpacked, spread_of, packed_turned, octets, longer};

use word::is_width;

// How many words a group has.
const GROUP: usize = 8;

// A one in each byte, seven ones in each byte, and in the lowest byte the leftmost bit, in the next the next one, and so on.
const ONES: u64 = 0x0101_0101_0101_0101;

const SEVENS: u64 = 0x7F7F_7F7F_7F7F_7F7F;

const DIAGONAL: u64 = 0x0102_0408_1020_4080;

// Why a call wrote none: refusals 31, 33, 34, 35.
#[derive(Clone, Copy, PartialEq, Eq, Debug)]
pub enum KeepError {
    NoWidth,
    WordTooWide,
    NotSaved,
    OutputShort,
}

// How many groups of eight so many words have.
fn groups_of(words: usize) -> usize
    ensures { result ≡ groups_of words }
{
    words.div_ceil(GROUP)
}

// Whether every word fits the width.
fn fit(b: u64, words: &[u64]) -> bool
    requires { b ≤ 48 }
    ensures { result ≡ fits_width b words.now }
{
    words.iter().all(|word| *word >> b == 0)
}

// The word i places after a place, or zero past the last.
fn word_or_zero(words: &[u64], at: usize, i: usize) -> u64
    requires { at ≤ length words.now }
    ensures { result ≡ get_or words.now (at + i) 0 }
{
    words[at..].get(i).copied().unwrap_or(0)
}

// Eight words from a place on, zero past the last.
fn group_at(words: &[u64], at: usize) -> [u64; GROUP]
    requires { at + 8 ≤ 8 * groups_of (length words.now) }
    ensures { result ≡ take 8 (drop at (filled_up words.now)) }
{
    let mut group = [0u64; GROUP];
    for i in 0..GROUP {
        group[i] = word_or_zero(words, at, i);
    }
    group
}

// The bits of a byte as eight bytes of 0 or 1, the leftmost bit in the lowest byte: eight copies of the byte, one bit kept of each,
// and a one in the place of each that is not zero.
fn spread(x: u64) -> u64
    requires { x < 256 }
    ensures { result ≡ spread_of x }
{
    let bits = (x * ONES) & DIAGONAL;
    ((bits + SEVENS) >> 7) & ONES
}

// Eight bits of eight words turned, those with so many bits to their right.
fn turned_words(group: &[u64], right: u64) -> u64
    requires { (right < 64) × (length group.now ≡ 8) }
    ensures { result ≡ packed_turned (octets right group.now) }
{
    let mut made = 0;
    for word in group {
        made = made * 2 + spread((*word >> right) % 256);
    }
    made
}

// So many bytes from a place on turned. A loop of its own: words are shifted first, and bytes are not.
fn turned_bytes(bytes: &[u8], at: usize, n: usize) -> u64
    requires { (n ≤ 8) × (at + n ≤ length bytes.now) }
    ensures { result ≡ packed_turned (take n (drop at bytes.now)) }
{
    let mut made = 0;
    for byte in &bytes[at..at + n] {
        made = made * 2 + spread(u64::from(*byte));
    }
    made
}

// Writes the lowest n bytes of a number.
fn put_bytes(bytes: &mut [u8], to: usize, n: usize, all: u64)
    requires { to + n ≤ length bytes.old }
    ensures { bytes.new ≡ sets bytes.old to (unpacked n all) }
{
    let mut rest = all;
    for i in 0..n {
        bytes[to + i] = (rest % 256) as u8;
        rest = rest / 256;
    }
}

// Writes the bytes of a group: those of the first bits where the width is no multiple of eight, and then eight at a time,
// by a count of eights: with step_by(8) it took one in a hundred instructions more.
fn save_group(b: u64, group: &[u64], bytes: &mut [u8], to: usize)
    requires { (b ≤ 48) × (length group.now ≡ 8) × (to + b ≤ length bytes.old) }
    ensures { bytes.new ≡ sets bytes.old to (turned b group.now) }
{
    let n = b as usize;
    let odd = n % 8;
    put_bytes(
        bytes,
        to,
        odd,
        (turned_words(group, b - b % 8) / 256) >> (56 - 8 * odd),
    );
    for k in 0..n / 8 {
        let p = odd + 8 * k;
        put_bytes(bytes, to + p, 8, turned_words(group, (n - p - 8) as u64));
    }
}

// Eight words with eight bits more, those in the bytes of a number.
fn with_bits(group: &[u64], all: u64) -> [u64; GROUP]
    requires { (length group.now ≡ 8) × ((i : ℕ) → get_or group.now i 0 < 2 ^ 48) }
    ensures { result ≡ longer group.now all }
{
    let mut made = [0u64; GROUP];
    let mut rest = all;
    for i in 0..GROUP {
        made[i] = group[i] * 256 + rest % 256;
        rest = rest / 256;
    }
    made
}

// The words of a group.
fn load_group(b: u64, bytes: &[u8], at: usize) -> [u64; GROUP]
    requires { (b ≤ 48) × (at + b ≤ length bytes.now) }
    ensures { result ≡ turned 8 (take b (drop at bytes.now)) }
{
    let n = b as usize;
    let odd = n % 8;
    let mut group = with_bits(&[0; GROUP], turned_bytes(bytes, at, odd));
    for k in 0..n / 8 {
        let p = odd + 8 * k;
        group = with_bits(&group, turned_bytes(bytes, at + p, 8));
    }
    group
}

// Writes the first n words of a group.
fn put_words(group: &[u64], n: usize, words: &mut [u64], to: usize)
    requires { (n ≤ length group.now) × (to + n ≤ length words.old) }
    ensures { words.new ≡ sets words.old to (take n group.now) }
{
    words[to..to + n].copy_from_slice(&group[..n]);
}

// The word that has bit i of each of the b bytes from a place on.
fn row(b: u64, i: u64, bytes: &[u8], at: usize) -> u64
    requires { (i < 8) × (b ≤ 48) × (at + b ≤ length bytes.now) }
    ensures { result ≡ number 2 0 (bits_at 8 i (take b (drop at bytes.now))) }
{
    let right = 7 - i;
    let n = b as usize;
    let mut made = 0;
    for byte in &bytes[at..at + n] {
        made = made * 2 + (u64::from(*byte) >> right) % 2;
    }
    made
}

// Word i of what is loaded, of so many groups.
fn word_at(b: u64, groups: usize, bytes: &[u8], i: usize) -> u64
    requires { (b ≤ 48) × (length bytes.now ≡ b * groups) × (i < 8 * groups) }
    ensures { result ≡ get_or (turned_groups 8 b groups bytes.now) i 0 }
{
    row(b, (i % GROUP) as u64, bytes, i / GROUP * b as usize)
}

// Whether the words that fill up the last group, from word n on, are zero.
fn filled_with_zeros(b: u64, groups: usize, bytes: &[u8], n: usize) -> bool
    requires { (8 ≤ b) × (b ≤ 48) × (length bytes.now ≡ b * groups) }
    ensures { result ≡ each_below 1 (drop n (turned_groups 8 b groups bytes.now)) }
{
    (n..groups * GROUP).all(|i| word_at(b, groups, bytes, i) == 0)
}

// Writes what is saved of words at the start of the bytes, a group at a time.
fn save_all(b: u64, words: &[u64], groups: usize, bytes: &mut [u8])
    requires { (b ≤ 48) × (groups ≡ groups_of (length words.now)) × (b * groups ≤ length bytes.old) }
    ensures { bytes.new ≡ saved b words.now ++ drop (b * groups) bytes.old }
{
    let n = b as usize;
    for k in 0..groups {
        let group = group_at(words, GROUP * k);
        save_group(b, &group, bytes, n * k);
    }
}

// Writes the first n words of what is loaded at the start of the words, a group at a time.
fn load_all(b: u64, groups: usize, bytes: &[u8], n: usize, words: &mut [u64])
    requires { (b ≤ 48) × (length bytes.now ≡ b * groups) × (groups ≡ groups_of n) × (n ≤ length words.old) }
    ensures { words.new ≡ take n (turned_groups 8 b groups bytes.now) ++ drop n words.old }
{
    let size = b as usize;
    for k in 0..groups {
        let group = load_group(b, bytes, size * k);
        let i = GROUP * k;
        put_words(&group, GROUP.min(n - i), words, i);
    }
}

// Whether so many bytes are b for each group.
fn is_whole(b: u64, groups: usize, length: usize) -> bool
    requires { 1 ≤ b }
    ensures { result ≡ eqb length (b * groups) }
{
    let n = b as usize;
    (length % n == 0) & (length / n == groups)
}

// Saves words of b bits: refusals 31, 33, 35. Bytes past those written stay.
pub fn save(b: u64, words: &[u64], bytes: &mut [u8]) -> Result<usize, KeepError>
    ensures bytes_after { record { answer = result; output = bytes.new } ≡ saving b words.now bytes.old }
    ensures numbered { told_kept result ≡ saving_told b words.now bytes.old }
{
    if !is_width(b) {
        return Err(KeepError::NoWidth);
    }
    if !fit(b, words) {
        return Err(KeepError::WordTooWide);
    }
    let n = b as usize;
    let groups = groups_of(words.len());
    if bytes.len() / n < groups {
        return Err(KeepError::OutputShort);
    }
    let count = n * groups;
    save_all(b, words, groups, bytes);
    Ok(count)
}

// Loads n words of b bits: refusals 31, 34, 35. Words past those written stay.
pub fn load(b: u64, bytes: &[u8], n: usize, words: &mut [u64]) -> Result<usize, KeepError>
    ensures words_after { record { answer = result; output = words.new } ≡ loading b n bytes.now words.old }
    ensures numbered { told_kept result ≡ loading_told b n bytes.now words.old }
{
    if !is_width(b) {
        return Err(KeepError::NoWidth);
    }
    let groups = groups_of(n);
    if !is_whole(b, groups, bytes.len()) {
        return Err(KeepError::NotSaved);
    }
    if !filled_with_zeros(b, groups, bytes, n) {
        return Err(KeepError::NotSaved);
    }
    if words.len() < n {
        return Err(KeepError::OutputShort);
    }
    load_all(b, groups, bytes, n, words);
    Ok(n)
}
