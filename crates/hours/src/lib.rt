// Opening hours: the row of the entry line at which a tour starts, by the day and the minute. Document 02: ticket 7.
#![tactic(auto)]

ghost use Rattle.std.specs.Prelude.{◌&&◌, eqb, ◌≡◌, ◌<◌, get_or, Ok};
ghost use Rattle.hours.specs.Hours.{weekday, entry_of, entries, has_hours, has_zeros, has_name, keeps, all_keep_of, holds};
ghost use Rattle.hours.specs.Hours.{any_names, naming, first_holding, list_keeps, accepts, open_at};
ghost use Rattle.hours.specs.Hours.{told_opening, holding_told, open_told};

// How many numbers a window and an exception have.
const WINDOW: usize = 4;

const EXCEPTION: usize = 5;

// How many weekdays there are and which is the last, how many minutes and which is the last, and the last row of a table.
const WEEKDAYS: u64 = 7;

const LAST_WEEKDAY: u64 = 6;

const MINUTES: u64 = 1440;

const LAST_MINUTE: u64 = 1439;

const LAST_ROW: u64 = 799;

// What a window or an exception says: its weekday or day, the opening and the closing minute, the row, and 1 if it is closed. These
// are the numbers of a lent list, before they are tested: `closed` may be neither 0 nor 1, which is refused.
#[derive(Clone, Copy)]
pub struct Entry {
    pub name: u64,
    pub opening: u64,
    pub closing: u64,
    pub row: u64,
    pub closed: u64,
}

// The lists or the minute break the rules: refusal 29.
#[derive(Clone, Copy, PartialEq, Eq, Debug)]
pub struct BadHours;

// The weekday of a day.
fn weekday_of(day: u64) -> u64
    ensures { result ≡ weekday day }
{
    (day % WEEKDAYS + 5) % WEEKDAYS
}

// Number k of these numbers, zero past the last.
fn number_of(numbers: &[u64], k: usize) -> u64
    ensures { result ≡ get_or numbers.now k 0 }
{
    numbers.get(k).copied().unwrap_or(0)
}

// The entry of these numbers.
fn entry_of(numbers: &[u64]) -> Entry
    ensures { result ≡ entry_of numbers.now }
{
    Entry {
        name: number_of(numbers, 0),
        opening: number_of(numbers, 1),
        closing: number_of(numbers, 2),
        row: number_of(numbers, 3),
        closed: number_of(numbers, 4),
    }
}

// The minutes and the row of an entry that is not closed.
fn has_hours(e: Entry) -> bool
    ensures { result ≡ has_hours e }
{
    (e.opening < e.closing) & ((e.closing <= MINUTES) & ((1 <= e.row) & (e.row <= LAST_ROW)))
}

// The minutes and the row of a closed exception.
fn has_zeros(e: Entry) -> bool
    ensures { result ≡ has_zeros e }
{
    (e.opening == 0) & ((e.closing == 0) & (e.row == 0))
}

// A window names a weekday, an exception any day.
fn has_name(n: usize, e: Entry) -> bool
    ensures { result ≡ has_name n e }
{
    (n == EXCEPTION) | (e.name <= LAST_WEEKDAY)
}

// Whether an entry of n numbers keeps the rules.
fn keeps_rules(n: usize, e: Entry) -> bool
    ensures { result ≡ keeps n e }
{
    if !has_name(n, e) {
        return false;
    }
    match e.closed {
        0 => has_hours(e),
        1 => has_zeros(e),
        _ => false,
    }
}

// Whether an entry names this day or weekday and holds the minute.
fn answers(e: Entry, name: u64, minute: u64) -> bool
    ensures { result ≡ (eqb e.name name && holds minute e) }
{
    (e.name == name) & ((e.opening <= minute) & (minute < e.closing))
}

// Whether every entry keeps the rules.
fn all_keep(list: &[u64], n: usize) -> bool
    requires { 0 < n }
    ensures { result ≡ all_keep_of n (entries n list.now) }
{
    list.chunks_exact(n)
        .all(|numbers| keeps_rules(n, entry_of(numbers)))
}

// Whether some entry names this day.
fn any_names(list: &[u64], n: usize, name: u64) -> bool
    requires { 0 < n }
    ensures { result ≡ any_names name (entries n list.now) }
{
    list.chunks_exact(n)
        .any(|numbers| entry_of(numbers).name == name)
}

// The row of the first entry that names this day or weekday and holds the minute.
fn first_holding(list: &[u64], n: usize, name: u64, minute: u64) -> Option<u64>
    requires { 0 < n }
    ensures value { result ≡ first_holding minute (naming name (entries n list.now)) }
    ensures numbered { told_opening (Ok result) ≡ holding_told minute (naming name (entries n list.now)) }
{
    list.chunks_exact(n)
        .map(entry_of)
        .find(|e| answers(*e, name, minute))
        .map(|e| e.row)
}

// Whether a list's length is a multiple of n and every entry keeps the rules.
fn list_keeps(list: &[u64], n: usize) -> bool
    requires { 0 < n }
    ensures { result ≡ list_keeps n list.now }
{
    list.len() % n == 0 && all_keep(list, n)
}

// Whether both lists and the minute keep the rules.
fn accepts(windows: &[u64], exceptions: &[u64], minute: u64) -> bool
    ensures { result ≡ accepts windows.now exceptions.now minute }
{
    list_keeps(windows, WINDOW) && list_keeps(exceptions, EXCEPTION) && minute <= LAST_MINUTE
}

// The row of the entry line on a day at a minute, none if it is closed, or refused; the second promise gives the answer in the
// ticket's numbers.
pub fn open_at(
    windows: &[u64],
    exceptions: &[u64],
    day: u64,
    minute: u64,
) -> Result<Option<u64>, BadHours>
    ensures value { result ≡ open_at windows.now exceptions.now day minute }
    ensures numbered { told_opening result ≡ open_told windows.now exceptions.now day minute }
{
    if !accepts(windows, exceptions, minute) {
        return Err(BadHours);
    }
    if any_names(exceptions, EXCEPTION, day) {
        return Ok(first_holding(exceptions, EXCEPTION, day, minute));
    }
    Ok(first_holding(windows, WINDOW, weekday_of(day), minute))
}
