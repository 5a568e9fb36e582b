// Re-recorded stops: of a museum's corrections to its list, the recording that stands for each stop. Document 02, ticket 6.
#![tactic(auto)]

ghost use Rattle.std.specs.Prelude.{◌≡◌, true, None, ◌++◌, ◌+◌, ◌*◌, ◌≤◌, ◌<◌, leb, length, drop};
ghost use Rattle.recordings.specs.Recordings.{row_count, number_of, zeros_after, nexts_inside, is_list, chain};
ghost use Rattle.recordings.specs.Recordings.{all_standing, correcting, told_written, correcting_told};
ghost use Rattle.recordings.specs.Walking.{Walked, Noted, Fresh, stops, from, lesser, least_from};
ghost use Rattle.recordings.specs.Walking.{told_least, lesser_told, least_told};
ghost use Rattle.recordings.specs.Walking.{with_row, all_written, Answered, FewNoted, ManyStops, told_few, few_told, few_output};

use places::{enter, first_of, grow, put_pair};

mod places;

// Why the call wrote none: refusals 26, 27, 28.
#[derive(Clone, Copy, PartialEq, Eq, Debug)]
pub enum CorrectionError {
    BadList,
    RowTwice,
    OutputShort,
}

// How many stops are noted in memory of the call's own, with room for one more, and how many chains these have.
const FEW: usize = 1023;

const FEW_NUMBERS: usize = 2048;

const FEW_HEADS: usize = 1021;

// How many chains the first pairs of more stops have.
const HEADS: usize = 8191;

// How many numbers a row has, and which are its next index, its stop, its issue day and its recording. No struct holds them: C
// lends a list as plain numbers, and nothing is copied from it.
const NUMBERS: usize = 4;

const NEXT: usize = 0;

const STOP: usize = 1;

const DAY: usize = 2;

const RECORDING: usize = 3;

// Number k of a row.
fn number_of(list: &[u64], row: usize, k: usize) -> u64
    requires { 4 * row + k < length list.now }
    ensures { result ≡ number_of list.now row k }
{
    list[NUMBERS * row + k]
}

// Whether the next index of every row lies inside.
fn nexts_inside(list: &[u64]) -> bool
    ensures { result ≡ nexts_inside list.now (row_count list.now) }
{
    let rows = list.len() / NUMBERS;
    for row in (0..rows).rev() {
        if rows as u64 <= number_of(list, row, NEXT) {
            return false;
        }
    }
    true
}

// Whether the other numbers of row 0 are zero.
fn zeros_after(list: &[u64]) -> bool
    requires { 4 ≤ length list.now }
    ensures { result ≡ zeros_after list.now }
{
    (list[STOP] == 0) & ((list[DAY] == 0) & (list[RECORDING] == 0))
}

// Whether it is a list: refusal 26.
fn is_list(list: &[u64]) -> bool
    ensures { result ≡ is_list list.now }
{
    !list.is_empty() && list.len() % NUMBERS == 0 && zeros_after(list) && nexts_inside(list)
}

// How many rows the chain reaches, counted up to as many as the list has.
fn chain_length(list: &[u64]) -> usize
    requires { is_list list.now ≡ true }
    ensures { result ≡ length (chain list.now) }
{
    let rows = list.len() / NUMBERS;
    let mut row = number_of(list, 0, NEXT);
    for count in 0..rows {
        if row == 0 {
            return count;
        }
        row = number_of(list, row as usize, NEXT);
    }
    rows
}

// Whether a stop is greater than the last one.
fn is_after(last: Option<u64>, stop: u64) -> bool
    ensures { result ≡ leb (from last) stop }
{
    last.is_none_or(|before| before < stop)
}

// The lesser of what was found and a stop, unless the stop is no greater than the last one.
fn lesser_of(last: Option<u64>, found: Option<u64>, stop: u64) -> Option<u64>
    ensures value { result ≡ lesser (from last) found stop }
    ensures numbered { told_least result ≡ lesser_told (from last) found stop }
{
    if !is_after(last, stop) {
        return found;
    }
    Some(found.map_or(stop, |least| least.min(stop)))
}

// The least stop of the chain that is greater than the last one.
fn next_stop(list: &[u64], steps: usize, last: Option<u64>) -> Option<u64>
    requires { Walked list.now steps }
    ensures value { result ≡ least_from (from last) None (stops list.now (chain list.now)) }
    ensures numbered { told_least result ≡ least_told (from last) (stops list.now (chain list.now)) }
{
    let mut found = None;
    let mut row = number_of(list, 0, NEXT);
    for i in 0..steps {
        found = lesser_of(last, found, number_of(list, row as usize, STOP));
        row = number_of(list, row as usize, NEXT);
    }
    found
}

// Heads of so many chains that have no place yet.
fn no_heads<const N: usize>() -> [u32; N]
    requires { 0 < N }
    ensures { (length result ≡ N) × Fresh result }
{
    [0; N]
}

// Whether there is room for the stops of a chain with more than 1,023, which are counted only where the chain has more rows than
// there is room for: in the order of their numbers, by a pass for each.
fn has_room(list: &[u64], steps: usize, room: usize) -> bool
    requires { Walked list.now steps × (1023 < length (all_standing list.now)) }
    ensures { result ≡ leb (length (all_standing list.now)) room }
{
    if steps <= room {
        return true;
    }
    if room <= FEW {
        return false;
    }
    let mut last = None;
    for left in (0..room).rev() {
        let Some(stop) = next_stop(list, steps, last) else {
            return true;
        };
        last = Some(stop);
    }
    next_stop(list, steps, last).is_none()
}

// Notes row and link of each standing row at the start of the output, and counts them.
fn note_standing(list: &[u64], steps: usize, output: &mut [u64], heads: &mut [u32]) -> usize
    requires { Walked list.now steps × (2 * length (all_standing list.now) ≤ length output.old) × Fresh heads.old }
    ensures { Noted (all_standing list.now) result output.old output.new }
{
    let mut count = 0;
    let mut size = 0;
    let mut row = number_of(list, 0, NEXT);
    for i in 0..steps {
        size = grow(list, count, size, output, heads);
        count = enter(list, row as usize, count, size, output, heads);
        row = number_of(list, row as usize, NEXT);
    }
    count
}

// The same with heads of its own.
fn note(list: &[u64], steps: usize, output: &mut [u64]) -> usize
    requires { Walked list.now steps × (2 * length (all_standing list.now) ≤ length output.old) }
    ensures { Noted (all_standing list.now) result output.old output.new }
{
    let mut heads = no_heads::<HEADS>();
    note_standing(list, steps, output, &mut heads)
}

// Writes stop and recording of a row as pair k.
fn put_row(list: &[u64], row: usize, k: usize, output: &mut [u64])
    requires { (4 * row + 3 < length list.now) × (2 * k + 2 ≤ length output.old) }
    ensures { output.new ≡ with_row list.now row k output.old }
{
    put_pair(
        output,
        k,
        number_of(list, row, STOP),
        number_of(list, row, RECORDING),
    );
}

// Puts each noted row's stop and recording in its place.
fn put_recordings(list: &[u64], count: usize, output: &mut [u64])
    requires { is_list list.now ≡ true × Noted (all_standing list.now) count output.old output.old }
    ensures { output.new ≡ all_written list.now ++ drop (2 * count) output.old }
{
    for k in 0..count {
        put_row(list, first_of(&*output, k) as usize, k, output);
    }
}

// Notes row and link of each standing row in little memory, and counts them, as long as they are few and the chain ends. It is no
// one function with note_standing: this one tests for both at each row, which that one has behind it, and its pairs hold no heads.
fn note_few(list: &[u64], pairs: &mut [u64], heads: &mut [u32]) -> usize
    requires { is_list list.now ≡ true × (2048 ≤ length pairs.old) × Fresh heads.old }
    ensures { FewNoted list.now result pairs.new }
{
    let rows = list.len() / NUMBERS;
    let mut count = 0;
    let mut row = number_of(list, 0, NEXT);
    for i in 0..rows {
        if row == 0 {
            return count;
        }
        count = enter(list, row as usize, count, 0, pairs, heads);
        if FEW < count {
            return count;
        }
        row = number_of(list, row as usize, NEXT);
    }
    FEW + 1
}

// The same of rows noted elsewhere.
fn put_few(list: &[u64], count: usize, pairs: &[u64], output: &mut [u64])
    requires { is_list list.now ≡ true × Noted (all_standing list.now) count pairs.now pairs.now
        × (2 * count ≤ length output.old) }
    ensures { output.new ≡ all_written list.now ++ drop (2 * count) output.old }
{
    output[..2 * count].copy_from_slice(&pairs[..2 * count]);
    put_recordings(list, count, output);
}

// Answers for a list with few stops by one walk along its chain; none where it has more.
fn write_few(list: &[u64], output: &mut [u64]) -> Option<Result<usize, CorrectionError>>
    requires { is_list list.now ≡ true }
    ensures { (told_few result ≡ few_told list.now output.old)
        × (output.new ≡ few_output list.now output.old) }
{
    let mut pairs = [0; FEW_NUMBERS];
    let mut heads = no_heads::<FEW_HEADS>();
    let count = note_few(list, &mut pairs, &mut heads);
    if FEW < count {
        return None;
    }
    if output.len() / 2 < count {
        return Some(Err(CorrectionError::OutputShort));
    }
    put_few(list, count, &pairs, output);
    Some(Ok(count))
}

// The same for a list with more.
fn write_many(list: &[u64], output: &mut [u64]) -> Result<usize, CorrectionError>
    requires { is_list list.now ≡ true × ManyStops list.now }
    ensures { Answered list.now output.old result output.new }
{
    let steps = chain_length(list);
    if steps == list.len() / NUMBERS {
        return Err(CorrectionError::RowTwice);
    }
    if !has_room(list, steps, output.len() / 2) {
        return Err(CorrectionError::OutputShort);
    }
    let count = note(list, steps, output);
    put_recordings(list, count, output);
    Ok(count)
}

// Writes stop and recording of each standing record, in the order in which the stops first occur in the chain, and counts them:
// refusals 26, 27, 28. Numbers past those written stay.
pub fn write_standing(list: &[u64], output: &mut [u64]) -> Result<usize, CorrectionError>
    ensures output_after { record { answer = result; output = output.new } ≡ correcting list.now output.old }
    ensures numbered { told_written result ≡ correcting_told list.now output.old }
{
    if !is_list(list) {
        return Err(CorrectionError::BadList);
    }
    match write_few(list, output) {
        Some(answer) => answer,
        None => write_many(list, output),
    }
}
