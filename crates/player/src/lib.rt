// The engine as a library for players in C and Rust: numbers and slices alone.
#![tactic(auto)]

pub mod correcting;
pub mod defining;
pub mod extending;
pub mod keeping;
pub mod opening;
pub mod rehearsing;
pub mod typing;

ghost use Rattle.std.specs.Prelude.{◌≤◌, true, cond, [], ◌∷◌, ◌≡◌, eqb, length};
ghost use Rattle.word.specs.Word.{is_width};
ghost use Rattle.machine.specs.Sound.{lends};
ghost use Rattle.machine.specs.State.{fresh as fresh_state};
ghost use Rattle.machine.specs.Step.{step as step_of, run as run_of};
ghost use Rattle.machine.specs.Storage.{placed};
ghost use Rattle.layout.specs.Layout.{state_length, bytes_of_state, state_of};
ghost use Rattle.player.specs.Calls.{version, code, moved, numbers_of_store, numbers_of_report, engine_at, fresh_left};
ghost use Rattle.player.specs.Calls.{unreported as unreported_of, step_leaves, step_left, run_leaves, run_left, check_left};
ghost use Rattle.player.specs.Calls.{state_fault, counts_left, blocks_left};

use engine::answers::refusal_number;
use engine::{fresh, run, step};
use layout::offsets::{MAP, STATE_BYTES, WIDTH};
use layout::reading::{read_state, setup_at, width_at};
use layout::writing::write_state;
use listing::{are_blocks, count_blocks, list_blocks};
use machine::{Answer, Report, State, Store};
use table::TableError;
use table::check::check_table;
use word::is_width;

// How many numbers a report has.
const REPORT: usize = 12;

// Answers that are no refusal of a paper: finished, a state, a report or a list of a wrong length, closed, a field that is not
// defined, an ill-formed row.
const FINISHED: u64 = 100;

const STATE_LENGTH: u64 = 101;

const REPORT_LENGTH: u64 = 102;

const LIST_LENGTH: u64 = 103;

const CLOSED: u64 = 104;

const NOT_DEFINED: u64 = 106;

const ILL_FORMED: u64 = 107;

// Refusals that calls answer by themselves: 1, 11 and 31.
const TABLE_LENGTH: u64 = 1;

const UNSOUND: u64 = 11;

const NO_WIDTH: u64 = 31;

// The number of an answer: 0 running, 100 finished, otherwise document 01's number of the refusal.
fn code_of(answer: Answer) -> u64
    ensures { result ≡ code answer }
{
    match answer {
        Answer::Running => 0,
        Answer::Finished => FINISHED,
        Answer::Refused(refusal) => refusal_number(refusal),
    }
}

// Whether steps were carried out: more than one, or one that was not refused of an engine that was not finished.
fn has_moved(kind: u8, answer: Answer, count: u64) -> bool
    ensures { result ≡ moved (eqb kind 3) answer count }
{
    if count != 1 {
        return 1 < count;
    }
    if kind == machine::FINISHED {
        return false;
    }
    match answer {
        Answer::Running => true,
        Answer::Finished => true,
        Answer::Refused(_) => false,
    }
}

// Writes the state where steps were carried out.
fn keep_state(bytes: &mut [u8], kind: u8, answer: Answer, count: u64, after: State)
    requires { length bytes.old ≡ state_length }
    ensures bytes_after { bytes.new ≡ cond (moved (eqb kind 3) answer count) (bytes_of_state after) bytes.old }
    ensures back { moved (eqb kind 3) answer count ≡ true → state_of (bytes_of_state after) ≡ after }
{
    if !has_moved(kind, answer, count) {
        return;
    }
    write_state(bytes, after);
}

// A store as four numbers.
fn numbers_of(store: Store) -> [u64; 4]
    ensures { result ≡ numbers_of_store store }
{
    [
        store.address,
        u64::from(store.left),
        u64::from(store.right),
        store.bits,
    ]
}

// A report as twelve numbers.
fn put_report(report: &mut [u64], of: Report)
    requires { length report.old ≡ 12 }
    ensures { report.new ≡ numbers_of_report of }
{
    report[..4].copy_from_slice(&[of.freed, of.delivered, of.size, of.copied]);
    report[4..8].copy_from_slice(&numbers_of(of.first));
    report[8..].copy_from_slice(&numbers_of(of.second));
}

// The version of the library, which its header and module have too.
const VERSION: u64 = 1;

#[unsafe(no_mangle)]
pub extern "C" fn l6_version() -> u64
    ensures { result ≡ version }
{
    VERSION
}

// A fresh state of words of width bits.
#[unsafe(no_mangle)]
pub extern "C" fn l6_fresh(width: u64, state: &mut [u8]) -> u64
    ensures state_after { record { answer = result; state = state.new } ≡ fresh_left width state.old }
    ensures back { is_width width ≡ true → length state.old ≡ state_length → state_of state.new
        ≡ fresh_state width }
{
    if !is_width(width) {
        return NO_WIDTH;
    }
    if state.len() != STATE_BYTES {
        return STATE_LENGTH;
    }
    let made = fresh(width);
    write_state(state, made.state);
    0
}

// What a step answers where its report has a wrong length: refusal 31 where the state has another width, otherwise 102.
fn unreported(state: &[u8]) -> u64
    requires { length state.now ≡ state_length }
    ensures { result ≡ unreported_of state.now }
{
    if !is_width(width_at(state) as u64) {
        return NO_WIDTH;
    }
    REPORT_LENGTH
}

// One step, with its report.
#[unsafe(no_mangle)]
pub extern "C" fn l6_step(
    table: &[u64],
    storage: &mut [u64],
    input: &[u8],
    output: &mut [u8],
    state: &mut [u8],
    report: &mut [u64],
) -> u64
    ensures report_after { step_leaves result storage.new output.new state.new report.new
        ≡ step_left (lends table.now input.now output.old) storage.old
        state.old report.old }
    ensures back { length state.old ≡ state_length → length report.old ≡ 12
        → state_of state.new ≡ (step_of (lends table.now input.now output.old)
        (engine_at state.old storage.old)).stepped.state }
{
    if state.len() != STATE_BYTES {
        return STATE_LENGTH;
    }
    if report.len() != REPORT {
        return unreported(&*state);
    }
    let before = read_state(&*state);
    let kind = before.core.place.kind;
    let stepped = step(table, storage, input, output, before);
    put_report(report, stepped.report);
    keep_state(state, kind, stepped.answer, 1, stepped.state);
    code_of(stepped.answer)
}

// A run, with its count.
#[unsafe(no_mangle)]
pub extern "C" fn l6_run(
    table: &[u64],
    storage: &mut [u64],
    input: &[u8],
    output: &mut [u8],
    state: &mut [u8],
    limit: u64,
    count: &mut u64,
) -> u64
    ensures count_after { run_leaves result storage.new output.new state.new count.new
        ≡ run_left limit (lends table.now input.now output.old) storage.old
        state.old count.old }
    ensures back { length state.old ≡ state_length → state_of state.new
        ≡ (run_of limit (lends table.now input.now output.old)
        (engine_at state.old storage.old)).ran.state }
{
    if state.len() != STATE_BYTES {
        return STATE_LENGTH;
    }
    let before = read_state(&*state);
    let kind = before.core.place.kind;
    let ran = run(table, storage, input, output, before, limit);
    *count = ran.count;
    keep_state(state, kind, ran.answer, ran.count, ran.state);
    code_of(ran.answer)
}

// The table check for words of width bits.
#[unsafe(no_mangle)]
pub extern "C" fn l6_check(width: u64, table: &[u64], row: &mut u64) -> u64
    ensures { record { answer = result; row = row.new } ≡ check_left width table.now row.old }
{
    match check_table(width, table) {
        Ok(r) => {
            *row = r;
            0
        }
        Err(TableError::BadLength) => TABLE_LENGTH,
        Err(TableError::NoWidth) => NO_WIDTH,
    }
}

// What is wrong with a state that blocks are asked of, 0 where nothing is: the number that C is told.
fn state_fault(state: &[u8]) -> u64
    ensures { result ≡ state_fault state.now }
{
    if state.len() != STATE_BYTES {
        return STATE_LENGTH;
    }
    if !is_width(width_at(state) as u64) {
        return NO_WIDTH;
    }
    0
}

// How many blocks are live, and how many free.
#[unsafe(no_mangle)]
pub extern "C" fn l6_count_blocks(state: &[u8], counts: &mut [u64]) -> u64
    ensures { record { answer = result; list = counts.new } ≡ counts_left state.now counts.old }
{
    let fault = state_fault(state);
    if fault != 0 {
        return fault;
    }
    if counts.len() != 2 {
        return LIST_LENGTH;
    }
    let setup = setup_at(state);
    let map = &state[MAP..WIDTH];
    if !are_blocks(setup, map) {
        return UNSOUND;
    }
    counts[0] = count_blocks(true, setup, map);
    counts[1] = count_blocks(false, setup, map);
    0
}

// Address and size of each live block, or of each free one where live is 0, lowest first.
#[unsafe(no_mangle)]
pub extern "C" fn l6_list_blocks(state: &[u8], live: u64, list: &mut [u64]) -> u64
    ensures { record { answer = result; list = list.new } ≡ blocks_left state.now live list.old }
{
    let fault = state_fault(state);
    if fault != 0 {
        return fault;
    }
    let setup = setup_at(state);
    let map = &state[MAP..WIDTH];
    if !are_blocks(setup, map) {
        return UNSOUND;
    }
    let asked = live != 0;
    if list.len() as u64 != 2 * count_blocks(asked, setup, map) {
        return LIST_LENGTH;
    }
    list_blocks(asked, setup, map, list);
    0
}
