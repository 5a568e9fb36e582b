// laps run LIMIT CALLS WIDTH, laps step CALLS WIDTH: the engine on the tour of tour.tab and stops.in, for its speed. It makes so
// many calls of run (one where CALLS is left out) or of step, fewer up to a finish or refusal, on words of WIDTH bits (36 where it
// is left out). Prints the last answer's number (0 running, 100 finished), the count of steps and a checksum over the reports of
// the calls of step, the bugs and the storage.
#![tactic(auto)]

ghost use Rattle.std.specs.Prelude.{◌≤◌};

use cases::fold_all;
use engine::answers::refusal_number;
use files::read_file;
use machine::{Answer, State};
use states::checksums;
use std::io;
use std::rt::Env;
use tour::numbers::read_table;

// What is asked for: so many calls of step, or of run up to a limit, on words of a width.
#[derive(Clone, Copy)]
struct Asked {
    stepping: bool,
    limit: u64,
    calls: u64,
    width: u8,
}

// How the steps end: the last answer's number, the count and the checksum.
#[derive(Clone, Copy)]
struct Ended {
    answer: u64,
    count: u64,
    sum: u64,
}

// The number of decimal digits, of which the last thirteen count.
fn number_of(digits: &[u8]) -> u64 {
    let mut number: u64 = 0;
    for digit in digits {
        number = number % 1000000000000 * 10 + u64::from(digit % 16);
    }
    number
}

// What the steps leave folded: bugs and storage.
fn fold_left(before: u64, state: State, storage: &[u64]) -> u64 {
    let core = state.core;
    let bugs = core.bugs;
    fold_all(fold_all(before, &bugs), storage)
}

// An answer's number: 0 running, 100 finished, otherwise the refusal.
fn answer_number(answer: Answer) -> u64 {
    match answer {
        Answer::Running => 0,
        Answer::Finished => 100,
        Answer::Refused(refusal) => refusal_number(refusal),
    }
}

// Calls of run, one after the other.
fn run_all(
    table: &[u64],
    storage: &mut [u64],
    input: &[u8],
    output: &mut [u8],
    asked: Asked,
) -> Ended {
    let mut state = engine::fresh_state(asked.width);
    let mut answer = 0;
    let mut count = 0;
    for _ in 0..asked.calls {
        if answer != 0 {
            break;
        }
        let ran = engine::run(
            table,
            &mut *storage,
            input,
            &mut *output,
            state,
            asked.limit,
        );
        let given = ran.answer;
        state = ran.state;
        answer = answer_number(given);
        count = ran.count.wrapping_add(count);
    }
    Ended {
        answer,
        count,
        sum: fold_left(1, state, storage),
    }
}

// Calls of step, one after the other.
fn step_all(
    table: &[u64],
    storage: &mut [u64],
    input: &[u8],
    output: &mut [u8],
    asked: Asked,
) -> Ended {
    let mut state = engine::fresh_state(asked.width);
    let mut answer = 0;
    let mut sum = 1;
    let mut count = 0;
    for before in 0..asked.calls {
        if answer != 0 {
            break;
        }
        let stepped = engine::step(table, &mut *storage, input, &mut *output, state);
        let given = stepped.answer;
        let report = stepped.report;
        state = stepped.state;
        answer = answer_number(given);
        sum = checksums::report(sum, report);
        count = before + 1;
    }
    Ended {
        answer,
        count,
        sum: fold_left(sum, state, storage),
    }
}

// Writes how the steps end.
fn write(rt: &impl Print, ended: Ended) -> io::Result<()> {
    println!(rt; "{} {} {}", ended.answer, ended.count, ended.sum)
}

// Steps through a table, with new storage and output.
fn play(rt: &impl Print, asked: Asked, table: &[u64], input: &[u8]) -> io::Result<()> {
    let mut storage = [0u64; 4096];
    let mut output = [0u8; 4096];
    if asked.stepping {
        write(rt, step_all(table, &mut storage, input, &mut output, asked))
    } else {
        write(rt, run_all(table, &mut storage, input, &mut output, asked))
    }
}

// The same, given both files' bytes.
fn play_files(rt: &impl Print, asked: Asked, tab: &[u8], stops: &[u8]) -> io::Result<()> {
    let mut table = [0u64; 8000];
    let count = read_table(tab, &mut table);
    let given = stops.len().min(4096);
    play(rt, asked, &table[..count], &stops[..given])
}

// The number that an argument gives, or another one where it is missing.
fn argument(rt: &impl Env, i: usize, missing: u64) -> u64 {
    let mut digits = [0u8; 20];
    match rt.arg(i, &mut digits) {
        Ok(0) | Err(_) => missing,
        Ok(length) => number_of(&digits[..length]),
    }
}

// Whether the mode is step: its first letter is s.
fn is_step(rt: &impl Env) -> bool {
    let mut mode = [0u8; 8];
    let _ = rt.arg(1, &mut mode);
    mode[0] == 115
}

// What the arguments ask for.
fn arguments(rt: &impl Env) -> Asked {
    let stepping = is_step(rt);
    if stepping {
        return Asked {
            stepping,
            limit: 1,
            calls: argument(rt, 2, 0),
            width: (argument(rt, 3, 36) % 256) as u8,
        };
    }
    Asked {
        stepping,
        limit: argument(rt, 2, 0),
        calls: argument(rt, 3, 1),
        width: (argument(rt, 4, 36) % 256) as u8,
    }
}

fn main(rt: HostRuntime) -> io::Result<()> {
    let mut tab = files::zeros::<65536>();
    let mut stops = files::zeros::<65536>();
    let table = read_file(&rt, b"tour.tab", &mut tab);
    let given = read_file(&rt, b"stops.in", &mut stops);
    play_files(&rt, arguments(&rt), &tab[..table], &stops[..given])
}
