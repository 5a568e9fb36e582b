// Get, free and duplicate, once their operands are taken.
ghost use Rattle.std.specs.Prelude.{true, ◌≡◌, ◌%◌, ◌≤◌, ◌<◌};
ghost use Rattle.block.specs.Blocks.{size, size_at};
ghost use Rattle.block.specs.SetUp.{top, words};
ghost use Rattle.block.specs.Map.{keeps, live};
ghost use Rattle.table.specs.Reference.{is_reference};
ghost use Rattle.machine.specs.Operations.{lowest_run, lies_in};
ghost use Rattle.operands.specs.Locating.{located};
ghost use Rattle.operands.specs.Reading.{Readable, Reached};
ghost use Rattle.operands.specs.Through.{Deliverable};
ghost use Rattle.operations.specs.Plans.{delivering, getting, freeing, duplicating};
ghost use Rattle.machine.specs.Answer.{told};
ghost use Rattle.machine.specs.Locate.{contents};
ghost use Rattle.operations.specs.Answers.{told_planned, told_fetched, fetched};
ghost use Rattle.operations.specs.Seen.{seen_by};

use crate::{Action, Known, Run};
use block::SetUp;
use buddy::section::{live_size, lowest_run};
use buddy::sizes::{level_of, size_of, top_of};
use machine::{BugWords, MapBytes, Refusal};
use operands::locations::bits_of;
use operands::packing::PackedFields;
use operands::references::locate_through;
use operands::stores::bugs_after;
use operands::{Delivery, FIELDS, Spot};
use table::{Pair, codes};

// The lowest aligned run of the j-th size: refusal 17.
fn fetch(setup: SetUp, map: &[u8], j: u8) -> Result<Run, Refusal>
    requires { (words setup % size (top setup.d) ≡ 0) × (keeps setup map.now ≡ true) × (j ≤ top setup.d) }
    ensures { told_fetched result ≡ told (fetched (size j) (lowest_run setup map.now (size j))) }
{
    let address = lowest_run(setup, map, j).ok_or(Refusal::NoRun)?;
    Ok(Run {
        address: address as u64,
        size: size_of(j) as u64,
    })
}

// 3, get, once a run is found: a2 is located after the delivery.
fn deliver(
    known: Known,
    bugs: &BugWords,
    fields: &PackedFields,
    map: &MapBytes,
    storage: &[u64],
    third: Pair,
    ahead: Delivery,
    held: u64,
) -> Result<Action, Refusal>
    requires { Readable known.b (seen_by known bugs.now fields.now map.now storage.now)
        × Deliverable known.b (seen_by known bugs.now fields.now map.now storage.now) ahead.address ahead.size
        (located ahead.at) × ((third.form ≡ 0 → ⊥) → is_reference third.value ≡ true)
        × (held ≡ contents known.b (seen_by known bugs.now fields.now map.now storage.now) (located ahead.at)) }
    ensures { told_planned result ≡ told (delivering known.b
        (seen_by known bugs.now fields.now map.now storage.now)
        third (located ahead.at) ahead.address ahead.size) }
{
    let b = known.b;
    let setup = known.setup;
    let at = ahead.at;
    if third.form == codes::ABSENT {
        return Ok(Action::Deliver {
            address: ahead.address,
            size: ahead.size,
            copied: 0,
            at,
        });
    }
    let after = bugs_after(b, bugs, at, ahead.address);
    let second = locate_through(b, &after, fields, setup, map, storage, ahead, third.value)?;
    Ok(Action::DeliverTwo {
        address: ahead.address,
        size: ahead.size,
        at,
        then_at: second.at,
        then_value: held,
    })
}

// 3, get, once a is located and the size taken: refusals 8, 17, and then those of a2.
pub fn get(
    known: Known,
    bugs: &BugWords,
    fields: &PackedFields,
    map: &MapBytes,
    storage: &[u64],
    third: Pair,
    a: Spot,
    wanted: u64,
) -> Result<Action, Refusal>
    requires { Readable known.b (seen_by known bugs.now fields.now map.now storage.now)
        × Reached known.b known.setup.s1 storage.now (located a.at)
        × ((third.form ≡ 0 → ⊥) → is_reference third.value ≡ true)
        × (a.holds ≡ contents known.b (seen_by known bugs.now fields.now map.now storage.now) (located a.at)) }
    ensures { told_planned result ≡ told (getting known.b
        (seen_by known bugs.now fields.now map.now storage.now)
        third (located a.at) wanted) }
{
    let setup = known.setup;
    if wanted == 0 {
        return Err(Refusal::BlockSize);
    }
    if (setup.d as u64) < wanted {
        return Err(Refusal::BlockSize);
    }
    let run = fetch(setup, map, level_of(top_of(setup.d), wanted))?;
    let ahead = Delivery {
        address: run.address,
        size: run.size,
        at: a.at,
    };
    deliver(known, bugs, fields, map, storage, third, ahead, a.holds)
}

// The field to change lies in the block of n words at an address.
fn lies_in(address: u64, n: u64, at: u64) -> bool
    ensures { result ≡ lies_in address n (located at) }
{
    if at < FIELDS {
        return false;
    }
    let bits = bits_of(at);
    if bits.address < address {
        return false;
    }
    bits.address - address < n
}

// 4, free: refusals 15, 18.
pub fn free(setup: SetUp, map: &MapBytes, at: u64, address: u64, v: u64) -> Result<Action, Refusal>
    requires { (words setup % size (top setup.d) ≡ 0) × (keeps setup map.now ≡ true) }
    ensures { told_planned result ≡ told (freeing address (size_at address (live setup map.now)) (located at) v) }
{
    let n = live_size(setup, map, address);
    if n == 0 {
        return Err(Refusal::NotABlock);
    }
    if lies_in(address, n, at) {
        return Err(Refusal::FieldFreed);
    }
    Ok(Action::Free {
        address,
        at,
        value: v,
    })
}

// 5, duplicate: refusals 15, 17.
pub fn duplicate(setup: SetUp, map: &MapBytes, at: u64, from: u64) -> Result<Action, Refusal>
    requires { (words setup % size (top setup.d) ≡ 0) × (keeps setup map.now ≡ true) }
    ensures { told_planned result ≡ told
        (duplicating setup map.now (located at) from (size_at from (live setup map.now))) }
{
    let n = live_size(setup, map, from);
    if n == 0 {
        return Err(Refusal::NotABlock);
    }
    let run = fetch(setup, map, level_of(top_of(setup.d), n))?;
    Ok(Action::Deliver {
        address: run.address,
        size: run.size,
        copied: from,
        at,
    })
}
