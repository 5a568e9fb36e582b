// One tree of the block map: the bytes of a block of the k-th size.
ghost use Rattle.std.specs.Prelude.{◌≡◌, ℕ, ◌-◌, ◌<◌, ◌≤◌, ◌&&◌, List, length, drop, replicate, ◌==◌, nat_lt, slice_index};
ghost use Rattle.block.specs.Blocks.{Free, size, delivered};
ghost use Rattle.block.specs.Map.{free_tag, live_tag_of, written, same};
ghost use Rattle.buddy.specs.Marks.{is_tag, is_rest, starts_block, counted};
ghost use Rattle.buddy.specs.Upward.{pair_start, other_place, Rises, Rising};

use super::sizes::size_of;

// The byte of a free block of the k-th size.
pub(crate) fn free_tag(k: u8) -> u8
    requires { k ≤ 7 }
    ensures { result ≡ free_tag k }
{
    k + k + 1
}

// The byte of a live block of the k-th size.
pub(crate) fn live_tag(k: u8) -> u8
    requires { k ≤ 7 }
    ensures { result ≡ live_tag_of k }
{
    k + k + 2
}

// Whether every byte from a place on is zero: so is what they are joined to by "or".
pub(crate) fn zero_from(from: usize, tags: &[u8]) -> bool
    requires { from ≤ length tags.now }
    ensures { result ≡ same (replicate (length tags.now - from) 0) (drop from tags.now) }
{
    let mut all: u8 = 0;
    for x in &tags[from..] {
        all |= *x;
    }
    all == 0
}

// Whether a byte is the tag of a block of the k-th size.
pub(crate) fn is_tag(k: u8, x: u8) -> bool
    requires { k ≤ 7 }
    ensures { result ≡ is_tag k x }
{
    (x == free_tag(k)) | (x == live_tag(k))
}

// Whether a free block of n words at a place is the high half of a block of which the low half is free too.
fn is_rest(tag: u8, n: usize, i: usize, bytes: &[u8]) -> bool
    requires { (0 < n) × (i < length bytes.now) }
    ensures { result ≡ is_rest tag n i bytes.now }
{
    if tag % 2 != 1 {
        return false;
    }
    if i / n % 2 != 1 {
        return false;
    }
    bytes[i - n] == tag
}

// Whether a block starts at a place of a tree of the k-th size and keeps the section.
fn starts_block(k: u8, i: usize, bytes: &[u8]) -> bool
    requires { (k ≤ 7) × (i < length bytes.now) }
    ensures { result ≡ starts_block k i bytes.now }
{
    let tag = bytes[i];
    if tag == 0 {
        return false;
    }
    if live_tag(k) < tag {
        return false;
    }
    let n = size_of((tag - 1) / 2);
    if i % n != 0 {
        return false;
    }
    !is_rest(tag, n, i, bytes)
}

// How many blocks a tree of the k-th size has, counted one after the other, 0 if one breaks the section, as the definition
// has it. Bytes between them are not looked at.
pub(crate) fn count_blocks(k: u8, bytes: &[u8]) -> usize
    requires { (k ≤ 7) × (length bytes.now ≡ size k) }
    ensures { result ≡ counted k bytes.now }
{
    let mut count: usize = 0;
    let mut i = 0;
    // no range: how far a turn goes is found out in it
    while i < bytes.len() {
        if !starts_block(k, i, bytes) {
            return 0;
        }
        count += 1;
        i += size_of((bytes[i] - 1) / 2);
    }
    count
}

// Delivers the first words of a free block of the k-th size: it is halved until the j-th size is reached, the low half going on.
pub(crate) fn split(k: u8, j: u8, tags: &mut [u8])
    requires { (j ≤ k) × (k ≤ 7) × (length tags.old ≡ size k) }
    ensures { (at : ℕ) → tags.old ≡ written k Free → tags.new ≡ written k (delivered j at k at Free) }
{
    if k == j {
        tags[0] = live_tag(k);
        return;
    }
    let half = tags.len() / 2;
    let tag = free_tag(k - 1);
    tags[half] = tag;
    tags[0] = tag;
    let low = 0;
    let end = low + half;
    split(k - 1, j, &mut tags[low..end]);
}

// Where the block of two halves of n words starts that is around a place.
fn pair_start(n: usize, at: usize) -> usize
    requires { (0 < n) × (n ≤ 128) }
    ensures { result ≡ pair_start n at }
{
    let pair = n + n;
    at / pair * pair
}

// Whether the other half of the block around a block of the j-th size is free too.
fn is_joined(k: u8, j: u8, at: usize, tags: &[u8]) -> bool
    requires { (k ≤ 7) × (length tags.now ≡ size k) × Rising k j at tags.now }
    ensures { result ≡ (nat_lt j k && slice_index tags.now (other_place (size j) at) == free_tag j) }
{
    if k <= j {
        return false;
    }
    let n = size_of(j);
    let start = pair_start(n, at);
    tags[start + start + n - at] == free_tag(j)
}

// Frees a live block of a tree: as long as the other half of the block around it is free too, that block is freed instead. It goes up
// by levels, and the test asks the tree at each: no range has them.
pub(crate) fn free_up(k: u8, level: u8, offset: usize, tags: &mut [u8])
    requires { (k ≤ 7) × (length tags.old ≡ size k) × Rising k level offset tags.old }
    ensures { (new : List ℕ) → Rises k level offset tags.old new → tags.new ≡ new }
{
    let mut j = level;
    let mut at = offset;
    while is_joined(k, j, at, &*tags) {
        let n = size_of(j);
        at = pair_start(n, at);
        tags[at + n] = 0;
        j += 1;
    }
    tags[at] = free_tag(j);
}
