// Plans of the operations: operands are taken as written, and then each makes its own checks.
ghost use Rattle.std.specs.Prelude.{true, ◌≡◌, ◌^◌, ◌≤◌, ◌<◌, length};
ghost use Rattle.table.specs.Reference.{is_reference};
ghost use Rattle.table.specs.Row.{as_row};
ghost use Rattle.operands.specs.Locating.{located, bits_at};
ghost use Rattle.operands.specs.Reading.{seen, valued, Readable, Reached, Taken};
ghost use Rattle.operations.specs.Plans.{set_up_plan, defining, define_plan, taking, storing, acting, two_plan, swap_plan};
ghost use Rattle.operations.specs.Plans.{printing};
ghost use Rattle.operations.specs.Plans.{print_plan, contents_plan, record_plan, value_by, Computes, Acts};
ghost use Rattle.machine.specs.Answer.{told};
ghost use Rattle.machine.specs.Locate.{contents};
ghost use Rattle.operations.specs.Answers.{told_planned};
ghost use Rattle.operations.specs.Seen.{seen_by};

use crate::blocks::{duplicate, free, get};
use crate::values::compute;
use crate::{Action, Known};
use block::SetUp;
use buddy::setup::fits;
use character::{line_ends, pack_input};
use machine::{BugWords, Definition, Entries, MapBytes, Refusal, STACK};
use operands::Spot;
use operands::locations::width_of;
use operands::packing::PackedFields;
use operands::references::{locate, operand};
use table::rows::{CODE, FIRST, FIRST_FORM, NAME, SECOND, SECOND_FORM, THIRD, THIRD_FORM, pair_at};
use table::{FieldName, codes};

// The last word of a block that a definition may name.
const LAST_WORD: u64 = machine::LAST_WORD as u64;

// Operation 1, set up: refusal 3.
pub fn plan_set_up(lent: usize, row: &[u64]) -> Result<Action, Refusal>
    requires { 10 ≤ length row.now }
    ensures { told_planned result ≡ told (set_up_plan lent (as_row row.now)) }
{
    let d = row[FIRST];
    let s1 = row[SECOND];
    let s2 = row[THIRD];
    if !fits(lent, d, s1, s2) {
        return Err(Refusal::SetUpNumbers);
    }
    let setup = SetUp {
        d: d as u16,
        s1: s1 as u16,
        s2: s2 as u16,
    };
    Ok(Action::SetUpWords(setup))
}

// 2, define, once its numbers are taken: refusal 7.
fn define(b: u64, name: u64, word: u64, left: u64, right: u64) -> Result<Action, Refusal>
    requires { (b ≤ 48) × (name < 36) }
    ensures { told_planned result ≡ told (defining b name word left right) }
{
    let known = (word <= LAST_WORD) & (left < b) & (right < b);
    if !known {
        return Err(Refusal::DefinitionNumber);
    }
    let field = FieldName(name as u8);
    let definition = Definition {
        defined: true,
        word: word as u8,
        left: left as u8,
        right: right as u8,
    };
    Ok(Action::Define { field, definition })
}

// 2, define.
pub fn plan_define(
    b: u64,
    bugs: &BugWords,
    fields: &PackedFields,
    setup: SetUp,
    map: &MapBytes,
    storage: &[u64],
    row: &[u64],
) -> Result<Action, Refusal>
    requires { Readable b (seen bugs.now fields.now setup map.now storage.now) × Taken b (as_row row.now).first
        × Taken b (as_row row.now).second × Taken b (as_row row.now).third × ((as_row row.now).name < 36)
        × (10 ≤ length row.now) }
    ensures { told_planned result ≡ told
        (define_plan b (seen bugs.now fields.now setup map.now storage.now)
        (as_row row.now)) }
{
    let first = pair_at(row, FIRST_FORM);
    let second = pair_at(row, SECOND_FORM);
    let third = pair_at(row, THIRD_FORM);
    let word = operand(b, bugs, fields, setup, map, storage, first)?;
    let left = operand(b, bugs, fields, setup, map, storage, second)?;
    let right = operand(b, bugs, fields, setup, map, storage, third)?;
    define(b, row[NAME], word.holds, left.holds, right.holds)
}

// 24, input: refusals 10, 5, 4. Where the input has length 0, its characters are octal 77 and nothing is taken.
fn take(b: u64, at: u64, taken: usize, input: &[u8], n: u64) -> Result<Action, Refusal>
    requires { (b ≤ 48) × (taken ≤ length input.now) }
    ensures { told_planned result ≡ told (taking b taken input.now (located at) n) }
{
    if b / 6 < n {
        return Err(Refusal::CharacterCount);
    }
    let count = n as usize;
    if input.len() == 0 {
        return Ok(Action::Input {
            at,
            value: line_ends(count),
            taken: 0,
        });
    }
    if input.len() - taken < count {
        return Err(Refusal::InputShort);
    }
    let value = pack_input(input, taken, count).ok_or(Refusal::InputByte)?;
    Ok(Action::Input {
        at,
        value,
        taken: n,
    })
}

// The operations that compute a value and store it in a.
fn make(b: u64, code: u64, a: Spot, x: Spot) -> Result<Action, Refusal>
    requires { (b ≤ 48) × (a.holds < 2 ^ b) × (x.holds < 2 ^ b) × (bits_at b a.at ≤ b) × (bits_at b x.at ≤ b)
        × Computes code }
    ensures { told_planned result ≡ told (storing (located a.at)
        (value_by code b (valued a.holds (bits_at b a.at)) (valued x.holds (bits_at b x.at)))) }
{
    let value = compute(b, code, a, x)?;
    Ok(Action::Store { at: a.at, value })
}

// An operation (a, x) by its code, once a is located and x taken.
fn act(
    known: Known,
    bugs: &BugWords,
    fields: &PackedFields,
    map: &MapBytes,
    storage: &[u64],
    input: &[u8],
    row: &[u64],
    a: Spot,
    x: Spot,
) -> Result<Action, Refusal>
    requires { Readable known.b (seen_by known bugs.now fields.now map.now storage.now)
        × (known.counts.taken ≤ length input.now) × Reached known.b known.setup.s1 storage.now (located a.at)
        × (x.holds < 2 ^ known.b) × (bits_at known.b x.at ≤ known.b) × Acts (as_row row.now).code
        × (((as_row row.now).third.form ≡ 0 → ⊥) → is_reference (as_row row.now).third.value ≡ true)
        × (a.holds ≡ contents known.b (seen_by known bugs.now fields.now map.now storage.now) (located a.at))
        × (10 ≤ length row.now) }
    ensures { told_planned result ≡ told (acting (as_row row.now).code known.b
        (seen_by known bugs.now fields.now map.now storage.now)
        known.counts.taken input.now (as_row row.now).third (located a.at)
        (valued x.holds (bits_at known.b x.at))) }
{
    let b = known.b;
    let setup = known.setup;
    let counts = known.counts;
    let code = row[CODE];
    match code {
        codes::GET => {
            let third = pair_at(row, THIRD_FORM);
            get(known, bugs, fields, map, storage, third, a, x.holds)
        }
        codes::FREE => free(setup, map, a.at, a.holds, x.holds),
        codes::DUPLICATE => duplicate(setup, map, a.at, x.holds),
        codes::INPUT => take(b, a.at, counts.taken, input, x.holds),
        _ => make(b, code, a, x),
    }
}

// An operation (a, x).
pub fn plan_two(
    known: Known,
    bugs: &BugWords,
    fields: &PackedFields,
    map: &MapBytes,
    storage: &[u64],
    input: &[u8],
    row: &[u64],
) -> Result<Action, Refusal>
    requires { Readable known.b (seen_by known bugs.now fields.now map.now storage.now)
        × (known.counts.taken ≤ length input.now) × Acts (as_row row.now).code
        × (is_reference (as_row row.now).first.value ≡ true)
        × Taken known.b (as_row row.now).second
        × (((as_row row.now).third.form ≡ 0 → ⊥) → is_reference (as_row row.now).third.value ≡ true)
        × (10 ≤ length row.now) }
    ensures { told_planned result ≡ told (two_plan known.b
        (seen_by known bugs.now fields.now map.now storage.now)
        known.counts.taken input.now (as_row row.now)) }
{
    let b = known.b;
    let setup = known.setup;
    let a = locate(b, bugs, fields, setup, map, storage, row[FIRST])?;
    let second = pair_at(row, SECOND_FORM);
    let x = operand(b, bugs, fields, setup, map, storage, second)?;
    act(known, bugs, fields, map, storage, input, row, a, x)
}

// 7, interchange: both located, and then each gets what the other held.
pub fn plan_swap(
    b: u64,
    bugs: &BugWords,
    fields: &PackedFields,
    setup: SetUp,
    map: &MapBytes,
    storage: &[u64],
    row: &[u64],
) -> Result<Action, Refusal>
    requires { Readable b (seen bugs.now fields.now setup map.now storage.now)
        × (is_reference (as_row row.now).first.value ≡ true) × (is_reference (as_row row.now).second.value ≡ true)
        × (10 ≤ length row.now) }
    ensures { told_planned result ≡ told
        (swap_plan b (seen bugs.now fields.now setup map.now storage.now)
        (as_row row.now)) }
{
    let a = locate(b, bugs, fields, setup, map, storage, row[FIRST])?;
    let c = locate(b, bugs, fields, setup, map, storage, row[SECOND])?;
    Ok(Action::StoreTwo {
        at: a.at,
        value: c.holds,
        then_at: c.at,
        then_value: a.holds,
    })
}

// 25, print, once its operands are taken: refusals 10, 21.
fn print(written: usize, room: usize, n: u64, v: u64, width: u64) -> Result<Action, Refusal>
    requires { written ≤ room }
    ensures { told_planned result ≡ told (printing written room n (valued v width)) }
{
    if machine::PRINTED < n {
        return Err(Refusal::CharacterCount);
    }
    if ((room - written) as u64) < n {
        return Err(Refusal::OutputFull);
    }
    Ok(Action::Print {
        count: n,
        width,
        value: v,
    })
}

// 25, print.
pub fn plan_print(
    known: Known,
    bugs: &BugWords,
    fields: &PackedFields,
    map: &MapBytes,
    storage: &[u64],
    row: &[u64],
) -> Result<Action, Refusal>
    requires { Readable known.b (seen_by known bugs.now fields.now map.now storage.now)
        × (known.counts.written ≤ known.room) × Taken known.b (as_row row.now).first
        × Taken known.b (as_row row.now).second × (10 ≤ length row.now) }
    ensures { told_planned result ≡ told (print_plan known.b
        (seen_by known bugs.now fields.now map.now storage.now)
        known.counts.written known.room (as_row row.now)) }
{
    let b = known.b;
    let setup = known.setup;
    let counts = known.counts;
    let first = pair_at(row, FIRST_FORM);
    let second = pair_at(row, SECOND_FORM);
    let n = operand(b, bugs, fields, setup, map, storage, first)?;
    let v = operand(b, bugs, fields, setup, map, storage, second)?;
    print(
        counts.written,
        known.room,
        n.holds,
        v.holds,
        width_of(b, v.at),
    )
}

// 32, save contents: refusal 19. 33, restore contents: refusal 20. a is located before the stack is looked at.
pub fn plan_contents(
    known: Known,
    bugs: &BugWords,
    fields: &PackedFields,
    map: &MapBytes,
    storage: &[u64],
    entries: &Entries,
    row: &[u64],
) -> Result<Action, Refusal>
    requires { Readable known.b (seen_by known bugs.now fields.now map.now storage.now)
        × (known.counts.contents ≤ 128) × (is_reference (as_row row.now).first.value ≡ true) × (10 ≤ length row.now) }
    ensures { told_planned result ≡ told (contents_plan known.b
        (seen_by known bugs.now fields.now map.now storage.now)
        known.counts.contents entries.now (as_row row.now)) }
{
    let setup = known.setup;
    let counts = known.counts;
    let a = locate(known.b, bugs, fields, setup, map, storage, row[FIRST])?;
    let count = counts.contents;
    if row[CODE] == codes::SAVE {
        if STACK <= count {
            return Err(Refusal::StackFull);
        }
        return Ok(Action::Save(a.holds));
    }
    if count == 0 {
        return Err(Refusal::StackEmpty);
    }
    let i = count - 1;
    Ok(Action::Restore {
        at: a.at,
        value: entries[i],
    })
}

// 34, save a definition: refusal 19. 35, restore it: refusal 20. 36, DO: refusal 19.
pub fn plan_records(saved: usize, calls: usize, row: &[u64]) -> Result<Action, Refusal>
    requires { (as_row row.now).name < 36 × (10 ≤ length row.now) }
    ensures { told_planned result ≡ told (record_plan saved calls (as_row row.now)) }
{
    let field = FieldName(row[NAME] as u8);
    let code = row[CODE];
    if code == codes::SAVE_DEFINITION {
        if STACK <= saved {
            return Err(Refusal::StackFull);
        }
        return Ok(Action::SaveDefinition(field));
    }
    if code == codes::RESTORE_DEFINITION {
        if saved == 0 {
            return Err(Refusal::StackEmpty);
        }
        return Ok(Action::RestoreDefinition(field));
    }
    if STACK <= calls {
        return Err(Refusal::StackFull);
    }
    Ok(Action::Call(row[FIRST]))
}
