// References and the table check on a generated case: a number for choices, and two values.
use cases::tables;
use table::{Names, Pair, Row, TableError, check, references, rows};

// The names folded, the bug first.
fn taken_apart(n: Names) -> u64 {
    let bug = n.bug;
    let fields = n.fields;
    let mut sum = bug.0;
    for name in fields.iter().skip(n.from) {
        sum = cases::fold(sum, u64::from(name.0));
    }
    sum
}

// The names of a reference, or 1,000.
fn names_in(v: u64) -> u64 {
    if references::is_reference(v) {
        return taken_apart(references::names_in(v));
    }
    1000
}

// What the check answers: the row, or 1,000 for a refusal.
fn checked(t: &[u64]) -> u64 {
    match check::check_table(36, t) {
        Ok(r) => r,
        Err(TableError::BadLength) => 1000,
        Err(TableError::NoWidth) => 1001,
    }
}

// A table of zeros by its length: a multiple of ten, seldom nine more.
fn by_length(a: u64) -> u64 {
    let zeros = [0u64; 8019];
    let n = (a % 802 * 10 + a / 1024 % 24 / 20 * 9) as usize;
    let part = &zeros[..n];
    cases::fold(u64::from(check::has_length(part)), checked(part))
}

// The numbers of a pair folded.
fn pair_folded(sum: u64, p: Pair) -> u64 {
    cases::fold(cases::fold(sum, p.form), p.value)
}

// The ten numbers of a row folded.
fn folded(row: Row) -> u64 {
    let head = cases::fold(
        cases::fold(cases::fold(row.kind, row.next), row.code),
        row.name,
    );
    pair_folded(
        pair_folded(pair_folded(head, row.first), row.second),
        row.third,
    )
}

// Whether a row can be used as a line, a test and an operation.
fn usable(t: &[u64], r: usize) -> u64 {
    let line = u64::from(check::is_usable(1, 36, t, r));
    let test = u64::from(check::is_usable(2, 36, t, r));
    let operation = u64::from(check::is_usable(3, 36, t, r));
    cases::fold(cases::fold(line, test), operation)
}

// The functions on a table: the row changed is asked for, seldom another one or one past the last.
fn table_result(which: u64, a: u64, y: u64) -> u64 {
    let r = (a % 8) as usize;
    let t = tables::changed(r, a / 8, y);
    match which {
        34 => checked(&t),
        35 => folded(rows::row_at(&t, r)),
        _ => usable(&t, r + (a / 32768 % 8 / 7 * 5) as usize),
    }
}

// What function number `which` gives on a case.
pub fn result(which: u64, a: u64, x: u64, y: u64) -> u64 {
    match which {
        31 => u64::from(references::is_reference(tables::candidate(a, x ^ y))),
        32 => names_in(tables::candidate(a, x ^ y)),
        33 => by_length(a),
        _ => table_result(which, a, y),
    }
}
