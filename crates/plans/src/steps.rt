// The plan of a step: at a line's tests, at an operation, at a line's exit.
ghost use Rattle.std.specs.Prelude.{true, ◌≡◌, ◌≤◌, length};
ghost use Rattle.table.specs.Row.{as_row, length_fits};
ghost use Rattle.table.specs.Table.{checked};
ghost use Rattle.operands.specs.Reading.{Readable};
ghost use Rattle.machine.specs.Answer.{told};
ghost use Rattle.operations.specs.declared.Action.TheVariants.{Nothing};
ghost use Rattle.operations.specs.Answers.{told_planned};
ghost use Rattle.operations.specs.Rows.{Operates};
ghost use Rattle.operations.specs.Seen.{seen_by, sees, Ready};
ghost use Rattle.plans.specs.Answers.{told_step};
ghost use Rattle.plans.specs.Steps.{tests_plan, operation_plan, ordered_plan, exit_plan, step_plan};

use crate::Step;
use crate::places::{next_line, operation_or_exit};
use crate::tests::{can_use, satisfied};
use machine::{BugWords, Entries, MapBytes, Place, Refusal};
use operands::packing::PackedFields;
use operations::actions::plan_set_up;
use operations::codes::plan_by_code;
use operations::places::tests_of;
use operations::{Action, Known};
use table::codes;
use table::rows::{CODE, FIRST, FIRST_FORM, NEXT, SECOND_FORM, from_row};

// A step that goes to a place and does nothing else.
fn going_to(to: Place) -> Step
    ensures { result ≡ Step.Goes to Nothing }
{
    Step::Goes {
        to,
        action: Action::Nothing,
    }
}

// The step at a line's tests.
fn plan_tests(
    known: Known,
    line: u16,
    bugs: &BugWords,
    fields: &PackedFields,
    map: &MapBytes,
    storage: &[u64],
    table: &[u64],
) -> Step
    requires { Readable known.b (seen_by known bugs.now fields.now map.now storage.now)
        × (length_fits table.now ≡ true) × (known.judged ≡ true → checked known.b table.now ≡ Ok 0) }
    ensures { told_step result ≡ told (tests_plan known.b
        (seen_by known bugs.now fields.now map.now storage.now)
        table.now line) }
{
    let i = line as usize;
    if !can_use(codes::LINE, known.b, table, i, known.judged) {
        return Step::Stopped(Refusal::BadRow);
    }
    let row = from_row(table, i);
    let mode = row[CODE];
    let first = row[FIRST_FORM];
    match satisfied(known, bugs, fields, map, storage, table, mode, first) {
        Ok(holds) => {
            if holds {
                return going_to(operation_or_exit(row[FIRST], line));
            }
            going_to(next_line(row[NEXT]))
        }
        Err(r) => Step::Stopped(r),
    }
}

// An operation: refusal 13 or 12, and then by its code.
fn plan_ordered(
    known: Known,
    bugs: &BugWords,
    fields: &PackedFields,
    map: &MapBytes,
    storage: &[u64],
    entries: &Entries,
    input: &[u8],
    row: &[u64],
) -> Result<Action, Refusal>
    requires { Ready known.b (sees known bugs.now fields.now map.now storage.now entries.now input.now)
        × (((as_row row.now).code ≡ 1 → ⊥) → Operates known.b (as_row row.now)) × (10 ≤ length row.now) }
    ensures { told_planned result ≡ told (ordered_plan known.b
        (sees known bugs.now fields.now map.now storage.now
        entries.now input.now) (as_row row.now)) }
{
    let setup = known.setup;
    if row[CODE] == codes::SET_UP {
        if setup.d != 0 {
            return Err(Refusal::SecondSetUp);
        }
        return plan_set_up(storage.len(), row);
    }
    if setup.d == 0 {
        return Err(Refusal::BeforeSetUp);
    }
    plan_by_code(known, bugs, fields, map, storage, entries, input, row)
}

// The step of an operation: refusal 2, then its action and the place after it.
fn plan_operation(
    known: Known,
    bugs: &BugWords,
    fields: &PackedFields,
    map: &MapBytes,
    storage: &[u64],
    entries: &Entries,
    input: &[u8],
    table: &[u64],
    place: Place,
) -> Step
    requires { Ready known.b (sees known bugs.now fields.now map.now storage.now entries.now input.now)
        × (length_fits table.now ≡ true) × (known.judged ≡ true → checked known.b table.now ≡ Ok 0) }
    ensures { told_step result ≡ told (operation_plan known.b
        (sees known bugs.now fields.now map.now storage.now
        entries.now input.now) table.now place) }
{
    let i = place.row as usize;
    if !can_use(codes::OPERATION, known.b, table, i, known.judged) {
        return Step::Stopped(Refusal::BadRow);
    }
    let row = from_row(table, i);
    let to = operation_or_exit(row[NEXT], place.line);
    match plan_ordered(known, bugs, fields, map, storage, entries, input, row) {
        Ok(action) => Step::Goes { to, action },
        Err(r) => Step::Stopped(r),
    }
}

// The step at a line's exit: DONE, the go-to, or the next line.
fn plan_exit(known: Known, line: u16, table: &[u64]) -> Step
    requires { (length_fits table.now ≡ true)
        × (known.judged ≡ true → checked known.b table.now ≡ Ok 0) }
    ensures { told_step result ≡ told (exit_plan known.b known.counts.calls table.now line) }
{
    let counts = known.counts;
    let i = line as usize;
    if !can_use(codes::LINE, known.b, table, i, known.judged) {
        return Step::Stopped(Refusal::BadRow);
    }
    let row = from_row(table, i);
    let goes = row[SECOND_FORM];
    if goes == codes::DONE {
        if counts.calls == 0 {
            return Step::Stopped(Refusal::StackEmpty);
        }
        return Step::Goes {
            to: next_line(0),
            action: Action::Return,
        };
    }
    if goes == 0 {
        return going_to(next_line(row[NEXT]));
    }
    going_to(tests_of(goes))
}

// The step at a place, with a table of the right length. Where the whole table is judged well-formed, rows are not judged again.
pub fn plan_step(
    known: Known,
    place: Place,
    bugs: &BugWords,
    fields: &PackedFields,
    map: &MapBytes,
    storage: &[u64],
    entries: &Entries,
    input: &[u8],
    table: &[u64],
) -> Step
    requires { Ready known.b (sees known bugs.now fields.now map.now storage.now entries.now input.now)
        × (length_fits table.now ≡ true) × (known.judged ≡ true → checked known.b table.now ≡ Ok 0) }
    ensures { told_step result ≡ told (step_plan known.b
        (sees known bugs.now fields.now map.now storage.now
        entries.now input.now) table.now place) }
{
    let kind = place.kind;
    match kind {
        machine::AT_TESTS => plan_tests(known, place.line, bugs, fields, map, storage, table),
        machine::AT_OPERATION => plan_operation(
            known, bugs, fields, map, storage, entries, input, table, place,
        ),
        _ => plan_exit(known, place.line, table),
    }
}
