// The whole block map: its trees one after the other, zero past the set-up words.
ghost use Rattle.std.specs.Prelude.{◌≡◌, ◌+◌, ◌-◌, ◌*◌, ◌/◌, ◌%◌, ◌<◌, ◌≤◌, true, length, ◌≢◌, slice_index};
ghost use Rattle.block.specs.Blocks.{size, size_at};
ghost use Rattle.block.specs.SetUp.{top, words, runs};
ghost use Rattle.block.specs.Map.{keeps, live, freed_map, delivered_map};
ghost use Rattle.buddy.specs.Marks.{mark as mark_of, marks, all_counted, PassedOver, is_tag, TagsAt, WholeTrees};
ghost use Rattle.buddy.specs.Lowest.{first_of, told_found, first_told, Passed};
ghost use Rattle.buddy.specs.Tag.{tag_size, start_size};

use super::sizes::{size_of, top_of};
use super::tree::{count_blocks, free_tag, free_up, is_tag, split, zero_from};
use block::SetUp;
use std::num;

// Bytes of a map are looked at so many at a time, a number of turns that the compiler knows.
const PART: u8 = 128;

const PART_BYTES: usize = PART as usize;

// The largest size, by its level, of trees that are passed a part at a time, and the greatest tag.
const SMALL: u8 = 4;

const LAST_TAG: u8 = 16;

// How many words are set up.
pub fn words_of(setup: SetUp) -> usize
    ensures { result ≡ words setup }
{
    if setup.d == 0 {
        return 0;
    }
    if setup.s2 < setup.s1 {
        return 0;
    }
    (setup.s2 - setup.s1) as usize + 1
}

// Whether a byte marks a block, as a number: it is not zero.
fn mark(x: u8) -> u8
    ensures { result ≡ mark_of x }
{
    if x == 0 { 0 } else { 1 }
}

// How many of at most 128 bytes are not zero.
fn part_marks(part: &[u8]) -> u8
    requires { length part.now ≤ 128 }
    ensures { result ≡ marks part.now }
{
    let mut count: u8 = 0;
    for x in part {
        count += mark(*x);
    }
    count
}

// How many bytes are not zero, a part at a time.
fn marks_of(bytes: &[u8]) -> usize
    ensures { (result ≡ marks bytes.now) × (result ≤ length bytes.now) }
{
    let (parts, rest) = bytes.as_chunks::<PART_BYTES>();
    let mut count = part_marks(rest) as usize;
    for part in parts {
        count += part_marks(part) as usize;
    }
    count
}

// How far trees were passed, and a number with the blocks of those passed.
#[derive(Clone, Copy)]
struct Whole {
    at: usize,
    count: usize,
}

// A byte less the tag of a free block of the k-th size, which leaves 0 or 1 of a tag of that size; 0 where no tree of n bytes is.
fn off_tag(k: u8, n: u8, i: u8, x: u8) -> u8
    requires { (k ≤ 7) × (0 < n) }
    ensures { result < 2 → i % n ≡ 0 → is_tag k x ≡ true }
{
    if i % n != 0 {
        return 0;
    }
    num::wrapping_sub_u8(x, free_tag(k))
}

// Whether the trees of the k-th size in a part of 128 bytes are one block each: what is left of their tags is joined by "or".
fn whole_part(k: u8, part: &[u8]) -> bool
    requires { (k ≤ 7) × (length part.now ≡ 128) }
    ensures { result ≡ true → TagsAt k part.now 128 }
{
    let n: u8 = 1 << k;
    let mut all: u8 = 0;
    for i in 0_u8..PART {
        all = all | off_tag(k, n, i, part[i as usize]);
    }
    all < 2
}

// How many trees from a place on are passed as one block each: all in 128 bytes where small ones fill them, otherwise one or none.
fn whole_here(k: u8, i: usize, end: usize, map: &[u8]) -> usize
    requires { (k ≤ 7) × (i < end) × (end ≤ length map.now) }
    ensures { (result ≤ 128) × WholeTrees k map.now end i result }
{
    if !is_tag(k, map[i]) {
        return 0;
    }
    if (SMALL < k) | (i % PART_BYTES != 0) {
        return 1;
    }
    if end - i < PART_BYTES {
        return 1;
    }
    let past = i + PART_BYTES;
    if !whole_part(k, &map[i..past]) {
        return 1;
    }
    PART_BYTES / size_of(k)
}

// Passes trees of the k-th size that are one block each, up to the first that is not, or to the end.
fn whole_trees(k: u8, before: usize, from: usize, end: usize, map: &[u8]) -> Whole
    requires { (k ≤ 7) × (end ≤ length map.now) × (end ≤ 65536) × (before ≤ 33554432) }
    ensures { PassedOver k map.now end from before result.at result.count }
{
    let n = size_of(k);
    let mut count = before;
    let mut i = from;
    // no range: how far a turn goes is found out in it
    while i < end {
        let more = whole_here(k, i, end, map);
        if more == 0 {
            return Whole { at: i, count };
        }
        count += more;
        i += more * n;
    }
    Whole { at: i, count }
}

// One more than the number of blocks in so many trees of the k-th size, 0 if one is broken. The definition has that 0.
fn all_blocks(k: u8, count: usize, map: &[u8]) -> usize
    requires { (k ≤ 7) × (count ≤ 65536) × (count * size k ≤ 65536) × (count * size k ≤ length map.now) }
    ensures { result ≡ all_counted k count 1 map.now }
{
    let n = size_of(k);
    let all = count * n;
    let mut whole = whole_trees(k, 1, 0, all, map);
    while whole.at < all {
        let at = whole.at;
        let end = at + n;
        let more = count_blocks(k, &map[at..end]);
        if more == 0 {
            return 0;
        }
        whole = whole_trees(k, whole.count + more, end, all, map);
    }
    whole.count
}

// How many bytes of a map lie past the set-up words.
fn bytes_past(words: usize, length: usize) -> usize
    ensures { result ≡ length - words }
{
    if words <= length { length - words } else { 0 }
}

// Whether a map keeps the section "Blocks": it is as long as its trees and the bytes past them, no tree is broken, and the tags of
// their blocks are all that is not zero, which is so if there are as many bytes that are not zero as blocks.
pub fn keeps_section(setup: SetUp, map: &[u8]) -> bool
    ensures { result ≡ keeps setup map.now }
{
    let k = top_of(setup.d);
    let n = size_of(k);
    let words = words_of(setup);
    let count = words / n;
    let end = count * n;
    if end + bytes_past(words, map.len()) != map.len() {
        return false;
    }
    let blocks = all_blocks(k, count, map);
    (blocks == 1 + marks_of(&map[..end])) & zero_from(end, map)
}

// The size of the live block of which a byte is the tag; 0 if it is none, as sizes in the definitions are, here and below.
fn tag_size(tag: u8) -> u64
    ensures { result ≡ tag_size tag }
{
    if LAST_TAG < tag {
        return 0;
    }
    if tag % 2 == 1 {
        return 0;
    }
    if tag < 2 {
        return 0;
    }
    size_of(tag / 2 - 1) as u64
}

// The size of the live block that starts at an address, by the byte there; 0 if none does.
pub fn size_at(s1: u16, map: &[u8], address: u64) -> u64
    ensures { result ≡ start_size s1 map.now address }
{
    let first = s1 as u64;
    if address < first {
        return 0;
    }
    let offset = address - first;
    if offset < map.len() as u64 {
        return tag_size(map[offset as usize]);
    }
    0
}

// The size of the live block of a map that starts at an address; 0 if none does.
pub fn live_size(setup: SetUp, map: &[u8], address: u64) -> u64
    requires { (words setup % size (top setup.d) ≡ 0) × (keeps setup map.now ≡ true) }
    ensures { result ≡ size_at address (live setup map.now) }
{
    size_at(setup.s1, map, address)
}

// From a place on, n bytes at a time, past bytes below a tag: the first that is not, or the end.
fn skip(map: &[u8], from: usize, end: usize, least: u8, n: usize) -> usize
    requires { (end ≤ length map.now) × (end ≤ 65536) × (0 < n) × (n ≤ 128) }
    ensures { Passed map.now end least n from result × (result < end → least ≤ slice_index map.now result) }
{
    let mut i = from;
    // no range: where it stops, past the end too, is the answer
    while i < end {
        if least <= map[i] {
            return i;
        }
        i += n;
    }
    i
}

// The lowest aligned run of the j-th size outside the live blocks, from block to block: where a smaller block stands there is none
// in as many words as are wanted, a free block of that size or a larger starts one, and a live block has none in its words.
pub fn lowest_run(setup: SetUp, map: &[u8], j: u8) -> Option<usize>
    requires { (words setup % size (top setup.d) ≡ 0) × (keeps setup map.now ≡ true) × (j ≤ top setup.d) }
    ensures { told_found result ≡ first_told (runs (size j) setup (live setup map.now)) }
{
    let n = size_of(j);
    let least = free_tag(j);
    let end = words_of(setup);
    let mut i = skip(map, 0, end, least, n);
    // no range: how far a turn goes is found out in it
    while i < end {
        let tag = map[i];
        if tag % 2 == 1 {
            return Some(setup.s1 as usize + i);
        }
        i = skip(map, i + size_of(tag / 2 - 1), end, least, n);
    }
    None
}

// Frees the live block that starts at an address: in its tree, from its own byte upward.
pub fn free_block(setup: SetUp, map: &mut [u8], address: usize)
    requires { (words setup % size (top setup.d) ≡ 0) × (keeps setup map.old ≡ true)
        × (size_at address (live setup map.old) ≢ 0) }
    ensures { map.new ≡ freed_map address setup map.old }
{
    let k = top_of(setup.d);
    let n = size_of(k);
    let offset = address - setup.s1 as usize;
    let level = map[offset] / 2 - 1;
    let start = offset / n * n;
    let end = start + n;
    free_up(k, level, offset % n, &mut map[start..end]);
}

// Delivers the lowest aligned run of the j-th size: the free block that it starts is split.
pub fn deliver(setup: SetUp, map: &mut [u8], j: u8, address: usize)
    requires { (words setup % size (top setup.d) ≡ 0) × (keeps setup map.old ≡ true) × (setup.s1 ≤ address)
        × (address < setup.s1 + words setup) × (j ≤ top setup.d)
        × (first_of (runs (size j) setup (live setup map.old)) ≡ Some address) }
    ensures { map.new ≡ delivered_map j address setup map.old }
{
    let start = address - setup.s1 as usize;
    let k = map[start] / 2;
    let end = start + size_of(k);
    split(k, j, &mut map[start..end]);
}
