// Opening hours tried: edges, then a checksum over generated and damaged lists, and how often each answer came up.
// reference/openings.rs computes the same lines independently.
#![tactic(auto)]

ghost use Rattle.std.specs.Prelude.{◌<◌, ◌≤◌};

use cases::next;
use hours::BadHours;
use std::io;

// The opening minute of a drawn entry.
fn opening(drawn: u64) -> u64
    ensures { result ≤ 1410 }
{
    drawn % 48 * 30
}

// Its closing minute: after the opening one, 1,440 at most.
fn closing(drawn: u64) -> u64 {
    let from = opening(drawn);
    from + 1 + cases::below(1440 - from, drawn / 64)
}

// A number of an open entry.
fn open_number(place: usize, drawn: u64) -> u64 {
    match place {
        1 => opening(drawn),
        2 => closing(drawn),
        3 => drawn / 65536 % 799 + 1,
        _ => 0,
    }
}

// The weekday that a window names, or the day of an exception: this one or one of the seven after it.
fn name_of(n: usize, day: u64, drawn: u64) -> u64 {
    if n == 4 {
        return drawn / 1099511627776 % 7;
    }
    day.wrapping_add(drawn / 1099511627776 % 8)
}

// A number of a drawn entry; a quarter of the exceptions are closed.
fn number(n: usize, place: usize, day: u64, drawn: u64) -> u64 {
    if place == 0 {
        return name_of(n, day, drawn);
    }
    if (n == 5) & (drawn >> 62 == 0) {
        return u64::from(place == 4);
    }
    open_number(place, drawn)
}

// Entries of n numbers, more than are lent.
fn entries(n: usize, day: u64, seed: u64) -> [u64; 41]
    requires { 0 < n }
{
    let mut list = [0u64; 41];
    let mut drawn = seed;
    for (i, entry) in list.iter_mut().enumerate() {
        if i % n == 0 {
            drawn = next(drawn);
        }
        *entry = number(n, i % n, day, drawn);
    }
    list
}

// A number near the bounds of a rule, or any other.
fn near(drawn: u64) -> u64 {
    match drawn % 12 {
        0 => 0,
        1 => 1,
        2 => 2,
        3 => 6,
        4 => 7,
        5 => 799,
        6 => 800,
        7 => 1440,
        8 => 1441,
        9 => 18446744073709551615,
        10 => drawn / 16 % 1440,
        _ => drawn,
    }
}

// A list with a number drawn anew in a quarter of the cases.
fn damaged(list: [u64; 41], a: u64, y: u64) -> [u64; 41] {
    let mut t = list;
    if a % 4 == 0 {
        t[(a / 4 % 41) as usize] = near(y);
    }
    t
}

// The day asked about: a small one, one of the last, or any.
fn day_of(a: u64, x: u64) -> u64 {
    match a % 4 {
        0 => x % 15,
        1 => 18446744073709551615 - x % 15,
        _ => x,
    }
}

// The minute asked about: the first and the last, one too many, or any.
fn minute_of(a: u64, x: u64) -> u64 {
    match a % 16 {
        0 => 0,
        1 => 1439,
        2 => 1440,
        3 => x,
        _ => x % 1440,
    }
}

// An answer as a number: the row, 0 if closed, or the refusal.
fn told(opening: Result<Option<u64>, BadHours>) -> u64 {
    match opening {
        Ok(row) => row.unwrap_or(0),
        Err(BadHours) => cases::REFUSED + 29,
    }
}

// What is answered on so many numbers of two lists.
fn lent(windows: [u64; 41], exceptions: [u64; 41], a: u64, day: u64, minute: u64) -> u64 {
    let n = (a % 11 * 4 + a / 256 % 24 / 23) as usize;
    let m = (a / 65536 % 9 * 5 + a / 16777216 % 24 / 23) as usize;
    told(hours::open_at(&windows[..n], &exceptions[..m], day, minute))
}

// The answer on a case. In half of the cases the minute is an opening or a closing one of an entry.
fn answer(a: u64, x: u64, y: u64) -> u64 {
    let day = day_of(a, x);
    let windows = damaged(entries(4, day, next(a)), y / 8, x);
    let exceptions = damaged(entries(5, day, next(next(a))), x / 8, y);
    let minute = match a / 16 % 8 {
        0 => windows[1],
        1 => windows[6],
        2 => exceptions[1],
        3 => exceptions[7],
        _ => minute_of(a / 128, y),
    };
    lent(windows, exceptions, a / 2048, day, minute)
}

// What a figure counts of an answer: rows, closed, refusals.
fn counted(which: u64, answer: u64) -> u64 {
    match which {
        1 => u64::from((answer > 0) & (answer < 800)),
        2 => u64::from(answer == 0),
        _ => u64::from(answer > 800),
    }
}

// The checksum of all answers, or how many are of a kind.
fn over_all(which: u64) -> u64 {
    let mut sum = 0;
    for case in cases::all() {
        let answer = answer(case.a, case.x, case.y);
        sum = if which == 0 {
            cases::fold(sum, answer)
        } else {
            sum.wrapping_add(counted(which, answer))
        };
    }
    sum
}

// The days and the minutes of the edges.
const DAYS: [u64; 12] = [
    0,
    0,
    0,
    2,
    2,
    2,
    2,
    7,
    14,
    18446744073709551615,
    18446744073709551615,
    18446744073709551608,
];

const MINUTES: [u64; 12] = [0, 1439, 1440, 59, 60, 119, 120, 0, 0, 1438, 1439, 1];

// The edges: a window of a whole Saturday, one of Monday from minute 60 to 120, one of Sunday from minute 1 on. Day 7 is closed,
// and the last day of all is open in its last minute alone.
fn edge(which: u64) -> u64 {
    let windows = [5, 0, 1440, 7, 0, 60, 120, 8, 6, 1, 1440, 9];
    let exceptions = [7, 0, 0, 0, 1, 18446744073709551615, 1439, 1440, 799, 0];
    let i = cases::below(12, which) as usize;
    told(hours::open_at(&windows, &exceptions, DAYS[i], MINUTES[i]))
}

// The figure of line number `which`.
fn figure(which: u64) -> u64 {
    match which {
        0..=11 => edge(which),
        12 => over_all(0) / 2,
        _ => over_all(which - 12),
    }
}

// The names of the lines.
const NAMES: [&str; 16] = [
    "day 0, a Saturday, minute 0",
    "day 0, minute 1439",
    "day 0, minute 1440",
    "day 2, a Monday, minute 59",
    "day 2, minute 60",
    "day 2, minute 119",
    "day 2, minute 120",
    "day 7, closed, minute 0",
    "day 14, minute 0",
    "day 2^64 - 1, minute 1438",
    "day 2^64 - 1, minute 1439",
    "day 2^64 - 8, a Sunday, minute 1",
    "all answers",
    "rows",
    "closed",
    "refusals",
];

fn main(rt: HostRuntime) -> io::Result<()> {
    for (name, which) in NAMES.iter().zip(0..) {
        cases::lines::write_line(&rt, name, figure(which))?;
    }
    Ok(())
}
