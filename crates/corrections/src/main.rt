// Re-recorded stops tried: edges, then a checksum over generated and damaged lists, and how often each answer came up.
// reference/corrections.rs computes the same lines independently.
#![tactic(auto)]

ghost use Rattle.std.specs.Prelude.{◌<◌, ◌≤◌, length};

use cases::next;
use recordings::CorrectionError;
use std::io;

// A list's rows besides row 0, and its chain: it goes on by a number of rows, round and round, from the first row to the last.
#[derive(Clone, Copy)]
struct Shape {
    rows: u64,
    step: u64,
    first: u64,
    last: u64,
    after: u64,
}

// How many rows a list has besides row 0.
fn rows_of(a: u64) -> u64
    ensures { (0 < result) × (result < 12) }
{
    match a % 6 {
        0 => 1,
        1 => 2,
        2 => 3,
        3 => 5,
        4 => 7,
        _ => 11,
    }
}

// The row so many places round.
fn round(rows: u64, places: u64) -> u64
    requires { 0 < rows }
    ensures { result ≤ rows }
{
    1 + cases::below(rows, places)
}

// The shape of a drawn list. In one case of eight its chain has no row, and in one of eight the last row's next index is that of
// any row.
fn shape_of(a: u64, y: u64) -> Shape {
    let rows = rows_of(a);
    let first = if a / 128 % 8 == 0 {
        0
    } else {
        round(rows, a / 2048 % 64)
    };
    let after = if a / 1048576 % 8 == 0 {
        round(rows, y)
    } else {
        0
    };
    Shape {
        rows,
        step: a / 8 % 10 + 1,
        first,
        last: round(rows, a / 1125899906842624),
        after,
    }
}

// The next index of a row; row 0 has that of the first row.
fn next_index(s: Shape, row: u64) -> u64 {
    if row == 0 {
        return s.first;
    }
    if row == s.last {
        return s.after;
    }
    let rows = s.rows;
    if rows == 0 {
        return 0;
    }
    round(rows, (row - 1).wrapping_add(s.step))
}

// A stop: one of a few, or in one list of four any number.
fn stop(many: bool, drawn: u64) -> u64 {
    if many {
        return drawn;
    }
    match drawn % 5 {
        4 => 18446744073709551615,
        few => few,
    }
}

// An issue day: one of three, or the greatest.
fn day(drawn: u64) -> u64 {
    match drawn / 8 % 16 {
        0 => 18446744073709551615,
        few => few % 3,
    }
}

// Number k of a row.
fn number(s: Shape, row: u64, k: u64, many: bool, drawn: u64) -> u64 {
    if k == 0 {
        return next_index(s, row);
    }
    if row == 0 {
        return 0;
    }
    match k {
        1 => stop(many, drawn),
        2 => day(drawn),
        _ => drawn / 64,
    }
}

// A drawn list, more rows than are lent.
fn list_of(s: Shape, many: bool, seed: u64) -> [u64; 48] {
    let mut list = [0u64; 48];
    let mut drawn = seed;
    for (i, entry) in (0..).zip(&mut list) {
        if i % 4 == 0 {
            drawn = next(drawn);
        }
        *entry = number(s, i / 4, i % 4, many, drawn);
    }
    list
}

// A number near the bounds of an index, or any other.
fn near(rows: u64, x: u64) -> u64 {
    match x % 8 {
        0 => 0,
        1 => 1,
        2 => 2,
        3 => rows,
        4 => rows.wrapping_add(1),
        5 => 18446744073709551615,
        6 => x / 16 % 12,
        _ => x,
    }
}

// A list with a number drawn anew in a quarter of the cases.
fn damaged(list: [u64; 48], rows: u64, a: u64, x: u64) -> [u64; 48] {
    let mut t = list;
    if a % 4 == 0 {
        t[(a / 4 % 48) as usize] = near(rows, x);
    }
    t
}

// How many numbers are lent: all of a list's, or in one case of sixteen up to four fewer.
fn lent(rows: u64, a: u64) -> usize
    requires { rows < 12 }
    ensures { result ≤ 48 }
{
    let whole = 4 * rows + 4;
    if a % 16 == 0 {
        return (whole - 1 - a / 16 % 4) as usize;
    }
    whole as usize
}

// The refusal of an answer, or the count.
fn told(answer: Result<usize, CorrectionError>) -> u64 {
    match answer {
        Ok(n) => n as u64,
        Err(CorrectionError::BadList) => cases::REFUSED + 26,
        Err(CorrectionError::RowTwice) => cases::REFUSED + 27,
        Err(CorrectionError::OutputShort) => cases::REFUSED + 28,
    }
}

// Writes into so many numbers of an output.
fn write_into(list: &[u64], room: usize, output: &mut [u64]) -> u64
    requires { room ≤ length output.old }
{
    told(recordings::write_standing(list, &mut output[..room]))
}

// How many figures there are of all cases.
const FIGURES: usize = 6;

// Which figure counts an answer: lists without stops, others, and each refusal.
fn kind(answer: u64) -> usize
    ensures { result < 6 }
{
    if answer < cases::REFUSED {
        return if answer == 0 { 1 } else { 2 };
    }
    match answer - cases::REFUSED {
        26 => 3,
        27 => 4,
        _ => 5,
    }
}

// A case: its answer is counted, and the checksum, the first figure, gets it and all of the output.
fn try_case(a: u64, x: u64, y: u64, figures: &mut [u64; FIGURES]) {
    let rows = rows_of(a);
    let drawn = list_of(shape_of(a, y), a / 16777216 % 4 == 0, next(a));
    let list = damaged(drawn, rows, x / 8, y / 8);
    let n = lent(rows, a / 1073741824);
    let room = (a / 1099511627776 % 27) as usize;
    let mut output = [77u64; 26];
    let answer = write_into(&list[..n], room, &mut output);
    let at = kind(answer);
    figures[at] = figures[at].wrapping_add(1);
    figures[0] = cases::fold(figures[0], cases::fold_all(answer, &output));
}

// All cases.
fn try_all() -> [u64; FIGURES] {
    let mut figures = [0u64; FIGURES];
    for case in cases::all() {
        try_case(case.a, case.x, case.y, &mut figures);
    }
    figures[0] /= 2;
    figures
}

// Lists for the edges.
fn edge_list(which: u64) -> [u64; 16] {
    match which {
        3 => [1, 0, 0, 0, 0, 0, 0, 0, 0, 0, 0, 0, 0, 0, 0, 0],
        4 => [0, 0, 0, 5, 0, 0, 0, 0, 0, 0, 0, 0, 0, 0, 0, 0],
        5 => [1, 0, 0, 0, 0, 7, 3, 70, 0, 0, 0, 0, 0, 0, 0, 0],
        6 => [1, 0, 0, 0, 2, 7, 3, 70, 0, 7, 3, 71, 0, 0, 0, 0],
        7 => [1, 0, 0, 0, 2, 7, 4, 70, 0, 7, 3, 71, 0, 0, 0, 0],
        8 => [2, 0, 0, 0, 0, 7, 3, 70, 1, 7, 3, 71, 0, 0, 0, 0],
        9 => [1, 0, 0, 0, 2, 7, 3, 70, 3, 8, 9, 80, 0, 7, 3, 72],
        10 => [1, 0, 0, 0, 1, 7, 3, 70, 0, 0, 0, 0, 0, 0, 0, 0],
        11 => [1, 0, 0, 0, 2, 7, 3, 70, 3, 7, 3, 71, 2, 7, 3, 72],
        12 => [0, 0, 0, 0, 2, 7, 3, 70, 0, 0, 0, 0, 0, 0, 0, 0],
        13 => [1, 0, 0, 0, 2, 7, 3, 70, 0, 8, 3, 80, 0, 0, 0, 0],
        14 => [1, 0, 0, 0, 2, 7, 3, 70, 1, 8, 3, 80, 0, 0, 0, 0],
        _ => [0, 0, 0, 0, 0, 0, 0, 0, 0, 0, 0, 0, 0, 0, 0, 0],
    }
}

// How many numbers of them are lent, and how many of the output.
const LENGTHS: [usize; 15] = [0, 3, 4, 4, 4, 8, 12, 12, 12, 16, 8, 16, 8, 12, 12];

const ROOMS: [usize; 15] = [4, 4, 0, 4, 4, 2, 4, 4, 4, 4, 4, 4, 4, 3, 0];

// An edge: the refusal, or the recording of the stop that is written first, 77 where there is none.
fn edge(which: u64) -> u64 {
    let list = edge_list(which);
    let i = cases::below(15, which) as usize;
    let n = LENGTHS[i];
    let room = ROOMS[i];
    if n > 16 {
        return 0;
    }
    if room > 4 {
        return 0;
    }
    let mut output = [77u64; 4];
    let answer = write_into(&list[..n], room, &mut output);
    if answer >= cases::REFUSED {
        return answer;
    }
    output[1]
}

// The names of the edges' lines, and of the figures of all cases.
const EDGES: [&str; 15] = [
    "no numbers",
    "three numbers",
    "row 0 alone",
    "row 0 names a row that is missing",
    "row 0 with a recording",
    "one record",
    "two of one day",
    "an earlier day later in the chain",
    "the chain from the last row",
    "a stop again after another",
    "a row that is its own next",
    "a loop past the first row",
    "a next index outside, the chain empty",
    "room for one stop of two",
    "a loop, and no room",
];

const NAMES: [&str; FIGURES] = [
    "all answers",
    "no stop",
    "stops",
    "refusals 26",
    "refusals 27",
    "refusals 28",
];

fn main(rt: HostRuntime) -> io::Result<()> {
    for (name, which) in EDGES.iter().zip(0..) {
        cases::lines::write_line(&rt, name, edge(which))?;
    }
    cases::lines::write_lines(&rt, &NAMES, &try_all())
}
