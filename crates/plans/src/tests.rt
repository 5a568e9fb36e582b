// The tests of a line, one after the other, up to the first that settles it.
ghost use Rattle.std.specs.Prelude.{true, ◌≡◌, ◌≤◌, ◌<◌};
ghost use Rattle.table.specs.Row.{rows};
ghost use Rattle.table.specs.Table.{usable, checked};
ghost use Rattle.machine.specs.Test.{compared as compared_by, settling as settling_of, settled_as, testing, satisfied as satisfied_by};
ghost use Rattle.operands.specs.Reading.{Readable};
ghost use Rattle.operations.specs.Seen.{seen_by};
ghost use Rattle.machine.specs.Answer.{told};
ghost use Rattle.plans.specs.Answers.{told_tested, told_settled};

use crate::Outcome;
use machine::{BugWords, MapBytes, Refusal};
use operands::packing::PackedFields;
use operands::references::operand;
use operations::Known;
use table::check::is_usable;
use table::codes;
use table::rows::{CODE, FIRST_FORM, KIND, NEXT, NUMBERS, SECOND_FORM, from_row, pair_at};

// Row r can be used as this kind. Where the whole table is judged well-formed, its kind alone tells.
pub fn can_use(kind: u64, b: u64, table: &[u64], r: usize, judged: bool) -> bool
    requires { judged ≡ true → checked b table.now ≡ Ok 0 }
    ensures { result ≡ usable kind b table.now r }
{
    if !judged {
        return is_usable(kind, b, table, r);
    }
    if r < 1 {
        return false;
    }
    if table.len() / NUMBERS <= r {
        return false;
    }
    let row = from_row(table, r);
    row[KIND] == kind
}

// The outcome of a test that settles a line of this mode.
fn settling(mode: u64) -> bool
    ensures { result ≡ settling_of mode }
{
    (mode == codes::IFANY) | (mode == codes::IFNONE)
}

// Whether a line that is settled so is satisfied.
fn settled_as(mode: u64) -> bool
    ensures { result ≡ settled_as mode }
{
    (mode == codes::IFANY) | (mode == codes::IFNALL)
}

// The seven tests.
fn compared(b: u64, code: u64, c: u64, cd: u64) -> bool
    requires { (b < 64) × (1 ≤ code) × (code ≤ 7) }
    ensures { result ≡ compared_by b code c cd }
{
    match code {
        codes::EQUAL => c == cd,
        codes::UNEQUAL => c != cd,
        codes::GREATER => cd < c,
        codes::LESS => c < cd,
        codes::SAME_POINTER => c == cd,
        codes::ONES => word::logic::and(b, c, cd) == cd,
        _ => word::logic::and(b, c, cd) == 0,
    }
}

// The test in a row: refusal 2, then its operands.
fn test_at(
    known: Known,
    bugs: &BugWords,
    fields: &PackedFields,
    map: &MapBytes,
    storage: &[u64],
    table: &[u64],
    r: u64,
) -> Result<Outcome, Refusal>
    requires { Readable known.b (seen_by known bugs.now fields.now map.now storage.now)
        × (known.judged ≡ true → checked known.b table.now ≡ Ok 0) }
    ensures { told_tested result ≡ told (testing known.b table.now
        (seen_by known bugs.now fields.now map.now storage.now) r) }
{
    let b = known.b;
    let setup = known.setup;
    let i = r as usize;
    if !can_use(codes::TEST, b, table, i, known.judged) {
        return Err(Refusal::BadRow);
    }
    let row = from_row(table, i);
    let first = pair_at(row, FIRST_FORM);
    let second = pair_at(row, SECOND_FORM);
    let c = operand(b, bugs, fields, setup, map, storage, first)?;
    let cd = operand(b, bugs, fields, setup, map, storage, second)?;
    Ok(Outcome {
        holds: compared(b, row[CODE], c.holds, cd.holds),
        next: row[NEXT],
    })
}

// Whether a line is satisfied: its tests from a row on, left at the first that settles it.
pub fn satisfied(
    known: Known,
    bugs: &BugWords,
    fields: &PackedFields,
    map: &MapBytes,
    storage: &[u64],
    table: &[u64],
    mode: u64,
    first: u64,
) -> Result<bool, Refusal>
    requires { Readable known.b (seen_by known bugs.now fields.now map.now storage.now)
        × (known.judged ≡ true → checked known.b table.now ≡ Ok 0) × (1 ≤ rows table.now) }
    ensures { told_settled result ≡ told (satisfied_by known.b table.now
        (seen_by known bugs.now fields.now map.now storage.now)
        mode (rows table.now) first) }
{
    let mut r = first;
    let outcome = loop {
        if r == 0 {
            break Ok(!settled_as(mode));
        }
        let answer = test_at(known, bugs, fields, map, storage, table, r);
        match answer {
            Ok(test) => {
                if test.holds == settling(mode) {
                    break Ok(settled_as(mode));
                }
                r = test.next;
            }
            Err(q) => break Err(q),
        }
    };
    outcome
}
