// An operation but the set-up, by its code.
ghost use Rattle.std.specs.Prelude.{◌≡◌, ◌≤◌, length};
ghost use Rattle.table.specs.Row.{as_row};
ghost use Rattle.operands.specs.Reading.{Readable};
ghost use Rattle.machine.specs.Answer.{told};
ghost use Rattle.operations.specs.Answers.{told_planned};
ghost use Rattle.operations.specs.Seen.{seen_by, sees, Ready};
ghost use Rattle.operations.specs.Plans.{plan_of, stack_plan};
ghost use Rattle.operations.specs.Rows.{Stacked, Operates};

use crate::actions::{plan_contents, plan_define, plan_print, plan_records, plan_swap, plan_two};
use crate::{Action, Known};
use machine::{BugWords, Entries, MapBytes, Refusal};
use operands::packing::PackedFields;
use table::codes;
use table::rows::CODE;

// The stacks: operations 32 to 36.
fn plan_stacks(
    known: Known,
    bugs: &BugWords,
    fields: &PackedFields,
    map: &MapBytes,
    storage: &[u64],
    entries: &Entries,
    row: &[u64],
) -> Result<Action, Refusal>
    requires { Readable known.b (seen_by known bugs.now fields.now map.now storage.now)
        × (known.counts.contents ≤ 128) × Stacked (as_row row.now) × (10 ≤ length row.now) }
    ensures { told_planned result ≡ told (stack_plan known.b
        (seen_by known bugs.now fields.now map.now storage.now)
        known.counts entries.now (as_row row.now)) }
{
    let counts = known.counts;
    if codes::RESTORE < row[CODE] {
        return plan_records(counts.saved, counts.calls, row);
    }
    plan_contents(known, bugs, fields, map, storage, entries, row)
}

// By the code.
pub fn plan_by_code(
    known: Known,
    bugs: &BugWords,
    fields: &PackedFields,
    map: &MapBytes,
    storage: &[u64],
    entries: &Entries,
    input: &[u8],
    row: &[u64],
) -> Result<Action, Refusal>
    requires { Ready known.b
        (sees known bugs.now fields.now map.now storage.now entries.now input.now)
        × Operates known.b (as_row row.now) × (10 ≤ length row.now) }
    ensures { told_planned result ≡ told (plan_of known.b
        (sees known bugs.now fields.now map.now storage.now
        entries.now input.now) (as_row row.now)) }
{
    let b = known.b;
    let setup = known.setup;
    let code = row[CODE];
    if codes::ZEROS_TO_BLANKS < code {
        return plan_stacks(known, bugs, fields, map, storage, entries, row);
    }
    match code {
        codes::DEFINE => plan_define(b, bugs, fields, setup, map, storage, row),
        codes::INTERCHANGE => plan_swap(b, bugs, fields, setup, map, storage, row),
        codes::PRINT => plan_print(known, bugs, fields, map, storage, row),
        _ => plan_two(known, bugs, fields, map, storage, input, row),
    }
}
