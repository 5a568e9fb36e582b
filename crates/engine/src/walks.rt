// Steps one after the other: each is planned over slices of local arrays and carried out in place.
ghost use Rattle.std.specs.Prelude.{◌≡◌, ◌-◌, ◌≤◌, true, length, if◌then◌else◌};
ghost use Rattle.machine.specs.declared.Answer.TheVariants.{Running, Finished};
ghost use Rattle.machine.specs.State.{is_finished};
ghost use Rattle.machine.specs.Storage.{no_report};
ghost use Rattle.machine.specs.Sound.{lends, engine_on};
ghost use Rattle.commit.specs.Then.{core_with};
ghost use Rattle.operations.specs.Seen.{counts_of};
ghost use Rattle.table.specs.Table.{checked};
ghost use Rattle.machine.specs.Answer.{told_answer};
ghost use Rattle.engine.specs.Starting.{start_told};
ghost use Rattle.engine.specs.Walking.{walked_to, walk_from};

use crate::{Start, Walked};
use block::SetUp;
use commit::Records;
use commit::carry::carry_out;
use commit::leading::go_on;
use commit::reports::report_of;
use machine::{Answer, BugWords, Core, Entries, MapBytes, Place, Report, Stack, State, Store};
use operands::packing::{pack, pack_all};
use operations::places::tests_of;
use operations::{Action, Counts, Known};
use plans::Step;
use plans::steps::plan_step;

// A report of nothing.
pub fn no_report() -> Report
    ensures { result ≡ no_report }
{
    let none = Store {
        address: 0,
        left: 0,
        right: 0,
        bits: 0,
    };
    Report {
        freed: 0,
        delivered: 0,
        size: 0,
        copied: 0,
        first: none,
        second: none,
    }
}

// What is known of the entries by their type alone: how many there are.
fn known_entries(entries: [Place; machine::STACK])
    ensures { length entries ≡ 128 }
{}

// How far stacks, input and output are used, and how many entries the calls have.
fn counts_of(core: Core) -> Counts
    ensures { (result ≡ counts_of core) × (length core.calls.entries ≡ 128) }
{
    let contents = core.contents;
    let saved = core.saved;
    let calls = core.calls;
    let places = calls.entries;
    known_entries(places);
    Counts {
        contents: contents.count,
        saved: saved.count,
        calls: calls.count,
        taken: core.taken,
        written: core.written,
    }
}

// The core put together again from its parts.
fn core_of(
    place: Place,
    bugs: BugWords,
    records: Records,
    entries: Entries,
    counts: Counts,
    setup: SetUp,
) -> Core
    ensures { result ≡ core_with place bugs records entries counts setup }
{
    let definitions = records.definitions;
    let kept = records.saved;
    let places = records.calls;
    let contents = Stack {
        entries,
        count: counts.contents,
    };
    let saved = Stack {
        entries: kept,
        count: counts.saved,
    };
    let calls = Stack {
        entries: places,
        count: counts.calls,
    };
    Core {
        place,
        bugs,
        definitions,
        contents,
        saved,
        calls,
        setup,
        taken: counts.taken,
        written: counts.written,
    }
}

// What a walk returns that ends so.
fn ended(width: u8, core: Core, map: MapBytes, answer: Answer, report: Report, count: u64) -> Walked
    ensures { result ≡ walked_to (record { width = width; core = core; map = map }) answer report count }
{
    let state = State { width, core, map };
    Walked {
        state,
        answer,
        report,
        count,
    }
}

// What a step that goes so far answers.
fn answer_at(place: Place) -> Answer
    ensures { result ≡ (if is_finished place then Finished else Running) }
{
    if place.kind == machine::FINISHED {
        Answer::Finished
    } else {
        Answer::Running
    }
}

// What a walk returns that stops at its first step.
fn stopped(state: State, answer: Answer) -> Walked
    ensures { result ≡ record { state = state; answer = answer; report = no_report; count = 1 } }
{
    let report = no_report();
    Walked {
        state,
        answer,
        report,
        count: 1,
    }
}

// Up to limit steps of any engine, as it was judged.
pub fn walk(
    first: Start,
    state: State,
    table: &[u64],
    storage: &mut [u64],
    input: &[u8],
    output: &mut [u8],
    limit: u64,
) -> Walked
    requires { (1 ≤ limit)
        × (told_answer first.answer ≡ start_told (lends table.now input.now output.old) (engine_on state storage.old))
        × (first.judged ≡ true → checked state.width table.now ≡ Ok 0) }
    ensures { record { walked = result; storage = storage.new; output = output.new } ≡ walk_from 0 (limit - 1)
        (lends table.now input.now output.old) (engine_on state storage.old) }
{
    let answer = first.answer;
    let Answer::Running = answer else {
        return stopped(state, answer);
    };
    let judged = first.judged;
    let width = state.width;
    let core = state.core;
    let contents = core.contents;
    let mut place = core.place;
    let mut bugs = core.bugs;
    let mut entries = contents.entries;
    let mut setup = core.setup;
    let mut definitions = core.definitions;
    let stack = core.saved;
    let mut saved = stack.entries;
    let places = core.calls;
    let mut calls = places.entries;
    let mut counts = counts_of(core);
    let mut map = state.map;
    let mut fields = [0u32; machine::FIELDS];
    pack_all(definitions, &mut fields);
    // the count of steps is what a run tells: they end by a step, not by it
    let mut count: u64 = 0;
    loop {
        count += 1;
        let known = Known {
            b: width as u64,
            setup,
            counts,
            room: output.len(),
            judged,
        };
        let planned = plan_step(
            known, place, &bugs, &fields, &map, &*storage, &entries, input, table,
        );
        match planned {
            Step::Stopped(r) => {
                let records = Records {
                    definitions,
                    saved,
                    calls,
                };
                let core = core_of(place, bugs, records, entries, counts, setup);
                return ended(width, core, map, Answer::Refused(r), no_report(), count);
            }
            Step::Goes { to, action } => {
                let next = go_on(action, setup, counts, input.len(), output.len());
                carry_out(
                    known,
                    &mut bugs,
                    &mut entries,
                    &mut map,
                    &mut *storage,
                    &mut *output,
                    action,
                );
                place = to;
                if next.recorded {
                    match action {
                        Action::Define { field, definition } => {
                            let i = field.0 as usize;
                            definitions[i] = definition;
                            fields[i] = pack(definition);
                        }
                        Action::SaveDefinition(f) => {
                            let i = f.0 as usize;
                            let n = counts.saved;
                            saved[n] = definitions[i];
                        }
                        Action::RestoreDefinition(f) => {
                            let i = f.0 as usize;
                            let n = counts.saved - 1;
                            let x = saved[n];
                            definitions[i] = x;
                            fields[i] = pack(x);
                        }
                        Action::Call(row) => {
                            let n = counts.calls;
                            calls[n] = to;
                            place = tests_of(row);
                        }
                        Action::Return => {
                            let n = counts.calls - 1;
                            place = calls[n];
                        }
                        _ => {}
                    }
                }
                counts = next.counts;
                setup = next.setup;
                if (place.kind == machine::FINISHED) | (count == limit) {
                    let records = Records {
                        definitions,
                        saved,
                        calls,
                    };
                    let core = core_of(place, bugs, records, entries, counts, setup);
                    return ended(width, core, map, answer_at(place), report_of(action), count);
                }
            }
        }
    }
}
