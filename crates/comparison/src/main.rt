// The engine compared with reference/engine.rs, which wrote the cases of the input (reference/comparison.rs has their form) and the
// lines that must be printed. Each case is stepped from its start, and then run from the same start. A line has the case's number;
// answer, count of steps, and checksums over the steps and over all that they leave (state, storage, output); the run's answer,
// count and checksum over all that it leaves; and the case's label. At the end there is a line for each count of what the cases
// reached, those of 36 bits and then those of 48.
#![tactic(auto)]

use engine::answers::refusal_number;
use layout::reading::read_state;
use layout::writing::write_state;
use machine::Answer;
use states::counts::COUNTS;
use states::numbers::NUMBERS;
use states::{STATE, checksums, counts, numbers};
use std::io;

// What a step answers, as a number; the checksum with it; and which count its first store belongs to.
#[derive(Clone, Copy)]
struct Told {
    answer: u64,
    steps: u64,
    store: u64,
}

// How a case ends: answer, steps taken, checksums over the steps and over what is left.
#[derive(Clone, Copy)]
struct Ended {
    answer: u64,
    count: u64,
    steps: u64,
    left: u64,
}

// An answer's number: 0 running, 100 finished, otherwise the refusal. laps has it too: no crate below both stands on engine.
fn answer_number(answer: Answer) -> u64 {
    match answer {
        Answer::Running => 0,
        Answer::Finished => 100,
        Answer::Refused(refusal) => refusal_number(refusal),
    }
}

// Fills a storage with words, most of them too wide for a set-up word.
fn fill_words(storage: &mut [u64]) {
    for (i, word) in (1..).zip(storage) {
        *word = cases::next(i);
    }
}

// Fills an output with bytes that are no characters.
fn fill_bytes(output: &mut [u8]) {
    for (i, byte) in output.iter_mut().enumerate() {
        *byte = 128 + (i % 128) as u8;
    }
}

// One step of a state; the checksum so far gets its report.
fn step(
    state: &mut [u8; STATE],
    table: &[u64],
    storage: &mut [u64],
    input: &[u8],
    output: &mut [u8],
    steps: u64,
) -> Told {
    let stepped = engine::step(table, storage, input, output, read_state(state));
    write_state(state, stepped.state);
    let answer = stepped.answer;
    let report = stepped.report;
    Told {
        answer: answer_number(answer),
        steps: checksums::report(steps, report),
        store: counts::store_count(report.first, states::width(state)),
    }
}

// A run of a state.
fn run(
    state: &mut [u8; STATE],
    table: &[u64],
    storage: &mut [u64],
    input: &[u8],
    output: &mut [u8],
    limit: u64,
) -> Ended {
    let ran = engine::run(table, storage, input, output, read_state(state), limit);
    write_state(state, ran.state);
    let answer = ran.answer;
    Ended {
        answer: answer_number(answer),
        count: ran.count,
        steps: 0,
        left: checksums::left(state, storage, output),
    }
}

// Changes a byte of a state, or, past them, a word of the storage.
fn change(state: &mut [u8; STATE], storage: &mut [u64], i: usize, value: u64) {
    if i < STATE {
        state[i] = (value % 256) as u8;
        return;
    }
    if let Some(word) = storage.get_mut(i - STATE) {
        *word = value;
    }
}

// Carries damages out, each an index and a value.
fn damage(state: &mut [u8; STATE], storage: &mut [u64], damages: &[u64]) {
    for pair in damages.chunks_exact(2) {
        change(state, storage, pair[0] as usize, pair[1]);
    }
}

// The state that a case starts from: a fresh engine over new storage and output, some steps on, and damaged.
fn start(
    width: u64,
    state: &mut [u8; STATE],
    table: &[u64],
    storage: &mut [u64],
    input: &[u8],
    output: &mut [u8],
    damages: &[u64],
    before: u64,
) {
    fill_words(storage);
    fill_bytes(output);
    let made = engine::fresh(width);
    write_state(state, made.state);
    run(state, table, storage, input, output, before);
    damage(state, storage, damages);
}

// Whether a step was not refused.
fn is_done(answer: u64) -> bool {
    matches!(answer, 0 | 100)
}

// The checksum with a step's answer and the place after it.
fn folded(state: &[u8; STATE], told: Told) -> u64 {
    let a = cases::fold(told.steps, told.answer);
    let b = cases::fold(a, states::kind(state));
    let c = cases::fold(b, states::row(state));
    cases::fold(c, states::line(state))
}

// One step of a case, counted: its answer, and the checksum with it.
fn counted_step(
    state: &mut [u8; STATE],
    table: &[u64],
    storage: &mut [u64],
    input: &[u8],
    output: &mut [u8],
    steps: u64,
    counts: &mut [u64; COUNTS],
) -> Told {
    let kind = states::kind(state);
    let row = states::row(state);
    let line = states::line(state);
    let told = step(state, table, storage, input, output, steps);
    if is_done(told.answer) {
        counts::done(
            counts,
            table,
            kind,
            row,
            line,
            states::kind(state),
            told.store,
        );
    }
    Told {
        answer: told.answer,
        steps: folded(state, told),
        store: told.store,
    }
}

// A case stepped until its limit, a finish or a refusal.
fn step_all(
    state: &mut [u8; STATE],
    table: &[u64],
    storage: &mut [u64],
    input: &[u8],
    output: &mut [u8],
    limit: u64,
    counts: &mut [u64; COUNTS],
) -> Ended {
    let mut answer = 0;
    let mut steps = 1;
    let mut count = 0;
    for before in 0..limit {
        if answer != 0 {
            break;
        }
        let last = counted_step(state, table, storage, input, output, steps, counts);
        answer = last.answer;
        steps = last.steps;
        count = before + 1;
    }
    counts::ended(counts, answer, state);
    Ended {
        answer,
        count,
        steps,
        left: checksums::left(state, storage, output),
    }
}

// Writes an answer and a count of steps.
fn write_answer(rt: &impl Print, answer: u64, count: u64) -> io::Result<()> {
    match answer {
        0 => print!(rt; " running {count}"),
        100 => print!(rt; " finished {count}"),
        _ => print!(rt; " {answer} {count}"),
    }
}

// Writes a checksum.
fn write_sum(rt: &impl Print, sum: u64) -> io::Result<()> {
    print!(rt; " {sum:016x}")
}

// Writes the line of a case, but for its label.
fn write_case(rt: &impl Print, which: u64, stepped: Ended, ran: Ended) -> io::Result<()> {
    print!(rt; "{which}")?;
    write_answer(rt, stepped.answer, stepped.count)?;
    write_sum(rt, stepped.steps)?;
    write_sum(rt, stepped.left)?;
    print!(rt; ", run")?;
    write_answer(rt, ran.answer, ran.count)?;
    write_sum(rt, ran.left)?;
    print!(rt; ": ")
}

// A case by steps and by a run, each from its start.
fn play(
    rt: &impl Print,
    width: u64,
    which: u64,
    table: &[u64],
    storage: &mut [u64],
    input: &[u8],
    output: &mut [u8],
    damages: &[u64],
    before: u64,
    limit: u64,
    counts: &mut [u64; COUNTS],
) -> io::Result<()> {
    let mut state = [0u8; STATE];
    start(
        width, &mut state, table, storage, input, output, damages, before,
    );
    let stepped = step_all(&mut state, table, storage, input, output, limit, counts);
    start(
        width, &mut state, table, storage, input, output, damages, before,
    );
    let ran = run(&mut state, table, storage, input, output, limit);
    write_case(rt, which, stepped, ran)
}

// The case of these numbers, its width beside.
fn play_numbers(
    rt: &impl Print,
    which: u64,
    numbers: &[u64; NUMBERS],
    counts: &mut [u64; COUNTS],
) -> io::Result<()> {
    let all = &numbers[..];
    let case = numbers::case_of(all);
    let input = 8 + case.table;
    let damages = input + case.input;
    let end = damages + 2 * case.damages;
    let mut input_bytes = [0u8; 256];
    let mut storage = [0u64; 5000];
    let mut output = [0u8; 4096];
    numbers::to_bytes(&all[input..damages], &mut input_bytes);
    let input_length = case.input;
    let storage_length = case.storage;
    let output_length = case.output;
    play(
        rt,
        case.width,
        which,
        &all[8..input],
        &mut storage[..storage_length],
        &input_bytes[..input_length],
        &mut output[..output_length],
        &all[damages..end],
        case.before,
        case.limit,
        counts,
    )
}

// The case that starts at a place of the input, and where the next one starts.
fn play_at(
    rt: &impl Print,
    file: &[u8],
    from: usize,
    which: u64,
    narrow: &mut [u64; COUNTS],
    wide: &mut [u64; COUNTS],
) -> io::Result<usize> {
    let mut numbers = [0u64; NUMBERS];
    let length = numbers::number_at(file, from);
    let count = numbers::within(length.value, NUMBERS);
    let after = numbers::read_numbers(file, length.next, count, &mut numbers);
    if numbers[7] == 48 {
        play_numbers(rt, which, &numbers, wide)?;
    } else {
        play_numbers(rt, which, &numbers, narrow)?;
    }
    let label = numbers::number_at(file, after);
    let end = numbers::write_text(rt, file, label.next, label.value)?;
    println!(rt)?;
    Ok(end)
}

// All cases of the input, and what they reached.
fn play_all(rt: &impl Print, file: &[u8]) -> io::Result<()> {
    let mut narrow = [0u64; COUNTS];
    let mut wide = [0u64; COUNTS];
    let first = numbers::number_at(file, 0);
    let mut at = first.next;
    for which in 0..first.value {
        at = play_at(rt, file, at, which, &mut narrow, &mut wide)?;
    }
    let rest = counts::write(rt, &narrow, file, at)?;
    counts::write(rt, &wide, file, rest)?;
    Ok(())
}

fn main(rt: HostRuntime) -> io::Result<()> {
    let mut file = files::zeros::<524288>();
    let length = files::read_full(&mut rt.reader(), &mut file);
    play_all(&rt, &file[..length])
}
