// What an action reports.
ghost use Rattle.std.specs.Prelude.{◌≡◌};
ghost use Rattle.machine.specs.Storage.{no_store_of};
ghost use Rattle.machine.specs.Effects.{store_to};
ghost use Rattle.operands.specs.Locating.{located};
ghost use Rattle.operations.specs.Deeds.{meant};
ghost use Rattle.commit.specs.Reported.{told, report_of, Short, Reportable};

use machine::{Report, Store};
use operands::FIELDS;
use operands::locations::bits_of;
use operations::Action;
use word::fields::{kept_bits, width};

// No store.
fn no_store() -> Store
    ensures { result ≡ no_store_of }
{
    Store {
        address: 0,
        left: 0,
        right: 0,
        bits: 0,
    }
}

// A store's part in a report: none where it goes to a bug or a null field.
pub fn store_to(at: u64, v: u64) -> Store
    requires { Short (located at) }
    ensures { result ≡ store_to (located at) v }
{
    if at < FIELDS {
        return no_store();
    }
    let bits = bits_of(at);
    if width(bits.left, bits.right) == 0 {
        return no_store();
    }
    Store {
        address: bits.address,
        left: bits.left as u8,
        right: bits.right as u8,
        bits: kept_bits(bits.left, bits.right, v),
    }
}

// A report by its parts.
fn tell(freed: u64, delivered: u64, size: u64, copied: u64, first: Store, second: Store) -> Report
    ensures { result ≡ told freed delivered size copied first second }
{
    Report {
        freed,
        delivered,
        size,
        copied,
        first,
        second,
    }
}

// What an action reports.
pub fn report_of(action: Action) -> Report
    requires { Reportable (meant action) }
    ensures { result ≡ report_of (meant action) }
{
    match action {
        Action::Store { at, value } => tell(0, 0, 0, 0, store_to(at, value), no_store()),
        Action::StoreTwo {
            at,
            value,
            then_at,
            then_value,
        } => tell(
            0,
            0,
            0,
            0,
            store_to(at, value),
            store_to(then_at, then_value),
        ),
        Action::Deliver {
            address,
            size,
            copied,
            at,
        } => tell(0, address, size, copied, store_to(at, address), no_store()),
        Action::DeliverTwo {
            address,
            size,
            at,
            then_at,
            then_value,
        } => tell(
            0,
            address,
            size,
            0,
            store_to(at, address),
            store_to(then_at, then_value),
        ),
        Action::Free { address, at, value } => {
            tell(address, 0, 0, 0, store_to(at, value), no_store())
        }
        Action::Input {
            at,
            value,
            taken: _,
        } => tell(0, 0, 0, 0, store_to(at, value), no_store()),
        Action::Restore { at, value } => tell(0, 0, 0, 0, store_to(at, value), no_store()),
        _ => tell(0, 0, 0, 0, no_store(), no_store()),
    }
}
