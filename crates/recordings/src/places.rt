// Pairs of an output while rows are noted: a row of the list, and the chains of places by which its stop is found again.
// List, heads, size, output and count are parameters of their own: the definitions of the clauses take them one by one.
ghost use Rattle.std.specs.Prelude.{◌≡◌, ◌+◌, ◌*◌, ◌/◌, ◌%◌, ◌≤◌, ◌<◌, length, set};
ghost use Rattle.recordings.specs.Walking.{row_at, second_at_of, link_at, chain_count, head_at, stop_at, standing_of, Holds};
ghost use Rattle.recordings.specs.Walking.{Place, Linked, HeadPut, Pushed, Cleared, Regrown, Entering, Enters};

use super::{DAY, STOP, number_of};

// As many values as half of 64 bits has, and the last of them.
const HALF: u64 = 4294967296;

const LAST: usize = 4294967295;

// How many pairs there are when they first hold the heads themselves: a prime, and so are the next ones.
const FIRST: usize = 16381;

// How many pairs more than four for each head there are when the heads become as many.
const MORE: usize = 33;

// The first number of pair k.
pub fn first_of(output: &[u64], k: usize) -> u64
    requires { 2 * k + 2 ≤ length output.now }
    ensures { result ≡ row_at output.now k }
{
    output[2 * k]
}

// The second number of pair k.
pub fn second_of(output: &[u64], k: usize) -> u64
    requires { 2 * k + 2 ≤ length output.now }
    ensures { result ≡ second_at_of output.now k }
{
    output[2 * k + 1]
}

// The link of pair k.
pub fn link_of(output: &[u64], k: usize) -> u64
    requires { 2 * k + 2 ≤ length output.now }
    ensures { result ≡ link_at output.now k }
{
    second_of(output, k) % HALF
}

// Writes the first number of pair k.
pub fn put_first(output: &mut [u64], k: usize, first: u64)
    requires { 2 * k + 2 ≤ length output.old }
    ensures { output.new ≡ set output.old (2 * k) first }
{
    output[2 * k] = first;
}

// Writes the second number of pair k.
pub fn put_second(output: &mut [u64], k: usize, second: u64)
    requires { 2 * k + 2 ≤ length output.old }
    ensures { output.new ≡ set output.old (2 * k + 1) second }
{
    output[2 * k + 1] = second;
}

// Writes both numbers of pair k.
pub fn put_pair(output: &mut [u64], k: usize, first: u64, second: u64)
    requires { 2 * k + 2 ≤ length output.old }
    ensures { output.new ≡ set (set output.old (2 * k) first) (2 * k + 1) second }
{
    put_first(output, k, first);
    put_second(output, k, second);
}

// Writes the link of pair k.
pub fn put_link(output: &mut [u64], k: usize, link: u64)
    requires { (2 * k + 2 ≤ length output.old) × (link < 4294967296) }
    ensures { output.new
        ≡ set output.old (2 * k + 1) (second_at_of output.old k / 4294967296 * 4294967296 + link) }
{
    let second = second_of(&*output, k);
    put_second(output, k, second / HALF * HALF + link);
}

// The stop of the row in pair k.
pub fn stop_at(list: &[u64], output: &[u64], k: usize) -> u64
    requires { (2 * k + 2 ≤ length output.now) × (4 * row_at output.now k + 1 < length list.now) }
    ensures { result ≡ stop_at list.now output.now k }
{
    number_of(list, first_of(output, k) as usize, STOP)
}

// The place of a stop among the first so many pairs, or their count where it is not there.
pub fn place_of(list: &[u64], output: &[u64], count: usize, stop: u64) -> usize
    requires { Holds list.now count output.now }
    ensures { Place list.now output.now count stop result }
{
    for k in 0..count {
        if stop_at(list, output, k) == stop {
            return k;
        }
    }
    count
}

// Which chain a stop belongs to: that of its remainder.
pub fn chain_of(heads: &[u32], size: usize, stop: u64) -> usize
    requires { 0 < length heads.now }
    ensures { (result ≡ stop % chain_count heads.now size) × (result < chain_count heads.now size) }
{
    if size == 0 {
        return (stop % heads.len() as u64) as usize;
    }
    (stop % size as u64) as usize
}

// The head of a chain: one more than its last place, or 0.
pub fn head_of(heads: &[u32], size: usize, output: &[u64], chain: usize) -> u64
    requires { (chain < chain_count heads.now size) × (2 * size ≤ length output.now) }
    ensures { (result ≡ head_at heads.now size output.now chain) × (result < 4294967296) }
{
    if size == 0 {
        return heads[chain] as u64;
    }
    second_of(output, chain) / HALF
}

// Puts another head of a chain.
pub fn put_head(heads: &mut [u32], size: usize, output: &mut [u64], chain: usize, head: u64)
    requires { (chain < chain_count heads.old size) × (2 * size ≤ length output.old) × (head < 4294967296) }
    ensures { HeadPut size chain head
        output.old output.new heads.old heads.new }
{
    if size == 0 {
        heads[chain] = head as u32;
        return;
    }
    let second = second_of(&*output, chain);
    put_second(output, chain, head * HALF + second % HALF);
}

// The place of a stop along the chain of its remainder, from the head back from place to place by the links; each is one more than
// a place, and 0 at the end. Where there are more pairs than 32 bits can tell, all are looked through.
pub fn find(
    list: &[u64],
    heads: &[u32],
    size: usize,
    output: &[u64],
    count: usize,
    stop: u64,
) -> usize
    requires { Holds list.now count output.now × Linked list.now heads.now size output.now count }
    ensures { Place list.now output.now count stop result }
{
    if LAST < count {
        return place_of(list, output, count, stop);
    }
    let mut at = head_of(heads, size, output, chain_of(heads, size, stop)) as usize;
    // A `while`: it follows links from place to place, and counts no index.
    while 0 < at {
        let k = at - 1;
        if stop_at(list, output, k) == stop {
            return k;
        }
        at = link_of(output, k) as usize;
    }
    count
}

// Puts a place at the head of its stop's chain, linked to the head before. It is never zero, and right up to place 4,294,967,294.
pub fn push(list: &[u64], heads: &mut [u32], size: usize, k: usize, output: &mut [u64])
    requires { Holds list.now (k + 1) output.old × (0 < length heads.old) × (2 * size ≤ length output.old) }
    ensures { Pushed list.now size k
        output.old output.new heads.old heads.new }
{
    let chain = chain_of(&*heads, size, stop_at(list, &*output, k));
    let before = head_of(&*heads, size, &*output, chain);
    put_link(output, k, before);
    put_head(heads, size, output, chain, (k % LAST + 1) as u64);
}

// Makes the second numbers of the first so many pairs zero.
pub fn clear(count: usize, output: &mut [u64])
    requires { 2 * count ≤ length output.old }
    ensures { Cleared count output.old output.new }
{
    for k in 0..count {
        put_second(output, k, 0);
    }
}

// Makes all chains anew, with a head in each pair.
pub fn relink(list: &[u64], count: usize, output: &mut [u64], heads: &mut [u32])
    requires { Holds list.now count output.old × (0 < length heads.old) × (0 < count) }
    ensures { Regrown list.now count count
        output.old output.new heads.old heads.new }
{
    clear(count, output);
    for k in 0..count {
        push(list, heads, count, k, output);
    }
}

// How many heads the pairs have, when their chains have been made anew if they were long.
pub fn grow(list: &[u64], count: usize, size: usize, output: &mut [u64], heads: &mut [u32]) -> usize
    requires { Holds list.now count output.old × Linked list.now heads.old size output.old count }
    ensures { Regrown list.now result count
        output.old output.new heads.old heads.new }
{
    if count < FIRST {
        return size;
    }
    if (count - MORE) / 4 < size {
        return size;
    }
    relink(list, count, output, heads);
    count
}

// Of two rows of a stop the one that stands: the one that came later, unless its issue day is smaller.
pub fn standing_of(list: &[u64], held: usize, row: usize) -> usize
    requires { (4 * held + 2 < length list.now) × (4 * row + 2 < length list.now) }
    ensures { result ≡ standing_of list.now held row }
{
    if number_of(list, row, DAY) < number_of(list, held, DAY) {
        return held;
    }
    row
}

// Enters a row into the pairs of row and link: in that of its stop, if it stands for it now, or after them. Their count then.
pub fn enter(
    list: &[u64],
    row: usize,
    count: usize,
    size: usize,
    output: &mut [u64],
    heads: &mut [u32],
) -> usize
    requires { Entering list.now row count output.old × Linked list.now heads.old size output.old count }
    ensures { Enters list.now row size count result
        output.old output.new heads.old heads.new }
{
    let stop = number_of(list, row, STOP);
    let k = find(list, &*heads, size, &*output, count, stop);
    if k == count {
        put_pair(output, count, row as u64, 0);
        push(list, heads, size, count, output);
        return count + 1;
    }
    let held = first_of(&*output, k) as usize;
    put_first(output, k, standing_of(list, held, row) as u64);
    count
}
