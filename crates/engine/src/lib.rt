// The L6 engine: a fresh state, one step, and a run. Any table, storage, input, output buffer and state may be lent.
#![tactic(auto)]

ghost use Rattle.std.specs.Prelude.{◌≡◌, true, false, if◌then◌else◌};
ghost use Rattle.word.specs.Word.{is_width};
ghost use Rattle.table.specs.Table.{checked};
ghost use Rattle.word.specs.Told.{gives, refuses};
ghost use Rattle.machine.specs.Answer.{told_answer};
ghost use Rattle.machine.specs.State.{fresh as freshState, fresh_of, told_fresh};
ghost use Rattle.machine.specs.Sound.{lends, engine_on};
ghost use Rattle.machine.specs.Step.{step as step_of, step_told, run as run_of, run_told};
ghost use Rattle.engine.specs.Starting.{start_told};

pub mod answers;
mod walks;

use block::SetUp;
use machine::{
    Answer, Core, Definition, Fresh, MapBytes, NoWidth, Place, Ran, Refusal, Report, Stack, State,
    Stepped,
};
use soundness::is_sound;
use table::check::{has_length, lowest_ill_formed};
use table::rows::NUMBERS;
use walks::walk;
use word::is_width;

// What a walk returns: state, answer, the last step's report, and how many steps it took.
#[derive(Clone, Copy)]
pub struct Walked {
    pub state: State,
    pub answer: Answer,
    pub report: Report,
    pub count: u64,
}

// A fresh engine's state: at the tests of row 1, nothing set up, defined, saved, taken or written.
pub fn fresh_state(width: u8) -> State
    ensures { result ≡ freshState width }
{
    let place = Place {
        kind: machine::AT_TESTS,
        row: 0,
        line: 1,
    };
    let undefined = Definition {
        defined: false,
        word: 0,
        left: 0,
        right: 0,
    };
    let contents = Stack {
        entries: [0; machine::STACK],
        count: 0,
    };
    let saved = Stack {
        entries: [undefined; machine::STACK],
        count: 0,
    };
    let calls = Stack {
        entries: [place; machine::STACK],
        count: 0,
    };
    let setup = SetUp { d: 0, s1: 0, s2: 0 };
    let core = Core {
        place,
        bugs: [0; machine::BUGS],
        definitions: [undefined; machine::FIELDS],
        contents,
        saved,
        calls,
        setup,
        taken: 0,
        written: 0,
    };
    State {
        width,
        core,
        map: [0; machine::MAP],
    }
}

// A fresh engine of words of b bits: refusal 31. The second promise, as in the calls below, gives the answer in the papers'
// numbers, which its definition has beside the enum; the first gives what a caller in Rattle takes apart.
pub fn fresh(b: u64) -> Fresh
    ensures value { result ≡ fresh_of b }
    ensures numbered { told_fresh result.answer ≡ (if is_width b then gives tt else refuses 31) }
{
    if b == 36 {
        return Fresh {
            state: fresh_state(36),
            answer: Ok(()),
        };
    }
    if b == 48 {
        return Fresh {
            state: fresh_state(48),
            answer: Ok(()),
        };
    }
    Fresh {
        state: fresh_state(0),
        answer: Err(NoWidth),
    }
}

// Whether a table is known to be well-formed: it is looked at in a walk of at least as many steps as it has rows.
fn judge(b: u64, table: &[u64], limit: u64) -> bool
    ensures { result ≡ true → checked b table.now ≡ Ok 0 }
{
    if limit < (table.len() / NUMBERS) as u64 {
        return false;
    }
    if !has_length(table) {
        return false;
    }
    lowest_ill_formed(b, table) == 0
}

// What is judged before a walk: what its first step answers where it stops there, running where it goes on, and whether the table
// is then known to be well-formed.
#[derive(Clone, Copy)]
pub struct Start {
    pub answer: Answer,
    pub judged: bool,
}

// A walk that stops at its first step.
fn stops(answer: Answer) -> Start
    ensures { result ≡ record { answer = answer; judged = false } }
{
    Start {
        answer,
        judged: false,
    }
}

// What is judged once, before a walk: refusals 31 and 11, finished, and refusal 1. The map is lent: handed over in the state, it
// would be copied once more.
fn begin(
    width: u8,
    core: Core,
    map: &MapBytes,
    table: &[u64],
    storage: &[u64],
    input: &[u8],
    output: &[u8],
    limit: u64,
) -> Start
    ensures { (told_answer result.answer ≡ start_told (lends table.now input.now output.now)
        (engine_on (record { width = width; core = core; map = map.now }) storage.now))
        × (result.judged ≡ true → checked width table.now ≡ Ok 0) }
{
    let place = core.place;
    let b = width as u64;
    if !is_width(b) {
        return stops(Answer::Refused(Refusal::NoWidth));
    }
    if !is_sound(b, core, map, storage, input, output) {
        return stops(Answer::Refused(Refusal::Unsound));
    }
    if place.kind == machine::FINISHED {
        return stops(Answer::Finished);
    }
    if !has_length(table) {
        return stops(Answer::Refused(Refusal::TableLength));
    }
    Start {
        answer: Answer::Running,
        judged: judge(b, table, limit),
    }
}

// One step.
pub fn step(
    table: &[u64],
    storage: &mut [u64],
    input: &[u8],
    output: &mut [u8],
    state: State,
) -> Stepped
    ensures output_after { record { stepped = result; storage = storage.new; output = output.new }
        ≡ step_of (lends table.now input.now output.old) (engine_on state storage.old) }
    ensures numbered { told_answer result.answer
        ≡ step_told (lends table.now input.now output.old)
        (engine_on state storage.old) }
{
    let core = state.core;
    let map = state.map;
    let first = begin(
        state.width,
        core,
        &map,
        table,
        &*storage,
        input,
        &*output,
        1,
    );
    let last = walk(first, state, table, storage, input, output, 1);
    let after = last.state;
    let answer = last.answer;
    let report = last.report;
    Stepped {
        state: after,
        answer,
        report,
    }
}

// A run: limit steps, or fewer up to a finish or refusal. Earlier steps stand when a later one is refused.
pub fn run(
    table: &[u64],
    storage: &mut [u64],
    input: &[u8],
    output: &mut [u8],
    state: State,
    limit: u64,
) -> Ran
    ensures output_after { record { ran = result; storage = storage.new; output = output.new }
        ≡ run_of limit (lends table.now input.now output.old)
        (engine_on state storage.old) }
    ensures numbered { told_answer result.answer
        ≡ run_told limit (lends table.now input.now output.old)
        (engine_on state storage.old) }
{
    if limit == 0 {
        return Ran {
            state,
            answer: Answer::Running,
            count: 0,
        };
    }
    let core = state.core;
    let map = state.map;
    let first = begin(
        state.width,
        core,
        &map,
        table,
        &*storage,
        input,
        &*output,
        limit,
    );
    let last = walk(first, state, table, storage, input, output, limit);
    let after = last.state;
    let answer = last.answer;
    Ran {
        state: after,
        answer,
        count: last.count,
    }
}
