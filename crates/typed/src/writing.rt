// The rows of a text, put into a table one after the other.
ghost use Rattle.std.specs.Prelude.{◌≡◌, true, cond, ◌∷◌, [], ◌++◌, ◌+◌, ◌*◌, ◌^◌, ◌≤◌, ◌<◌, eqb, length, drop};
ghost use Rattle.lines.specs.Reading.{split, read_line};
ghost use Rattle.lines.specs.Program.{go_to_row, rows_from, numbers_of, row_count, table_of};
ghost use Rattle.faults.specs.Checking.{line_at, line_read};
ghost use Rattle.faults.specs.Places.{lines_in, size_of};
ghost use Rattle.typed.specs.Putting.{put_rows, is_group, group_row, group_rows, line_numbers, line_rows, read_rows, zero_row};
ghost use Rattle.typed.specs.Putting.{Grouped, Laid, Roomy};

use crate::Group;
use crate::values::Ready;
use faults::{Scan, line};
use lines::{Spot, spots, words};
use table::{Pair, Row, codes, rows};

// Ten numbers.
fn put_numbers(ten: &mut [u64], made: Row)
    requires { length ten.old ≡ 10 }
    ensures { ten.new ≡ numbers_of made }
{
    let Row {
        kind,
        next,
        code,
        name,
        first,
        second,
        third,
    } = made;
    ten.copy_from_slice(&[
        kind,
        next,
        code,
        name,
        first.form,
        first.value,
        second.form,
        second.value,
        third.form,
        third.value,
    ]);
}

// A row.
fn put_row(table: &mut [u64], row: usize, made: Row)
    requires { 10 * (row + 1) ≤ length table.old }
    ensures { table.new ≡ put_rows row (made ∷ []) table.old }
{
    let at = rows::NUMBERS * row;
    let end = at + rows::NUMBERS;
    put_numbers(&mut table[at..end], made);
}

// The row that comes next, 0 where none does: the number that a row then has.
fn following(last: bool, row: usize) -> u64
    ensures { result ≡ cond last 0 row }
{
    if last { 0 } else { row as u64 }
}

// The row of a line.
fn line_row(next: u64, mode: u64, tests: u64, operations: u64, goes: u64) -> Row
    ensures { result ≡ line_numbers next mode tests operations goes }
{
    Row {
        kind: codes::LINE,
        next,
        code: mode,
        name: 0,
        first: Pair {
            form: tests,
            value: operations,
        },
        second: Pair {
            form: goes,
            value: 0,
        },
        third: Pair { form: 0, value: 0 },
    }
}

// Row 0.
fn zero_row() -> Row
    ensures { result ≡ zero_row }
{
    Row {
        kind: 0,
        next: 0,
        code: 0,
        name: 0,
        first: Pair { form: 0, value: 0 },
        second: Pair { form: 0, value: 0 },
        third: Pair { form: 0, value: 0 },
    }
}

impl Ready<'_> {
    ghost use Rattle.typed.specs.Looking.{row_at};

    // The row of a test or an operation.
    fn group_row(&self, tests: bool, s: &[u8], next: u64) -> Row
        requires { is_group self.now.labels.b tests (split s.now) ≡ true }
        ensures { result ≡ group_row self.now.labels.b (row_at self.now) tests next (split s.now) }
    {
        if tests {
            self.test_row(s, next)
        } else {
            self.operation_row(s, next)
        }
    }

    // The rows of tests or operations.
    fn put_group(&self, s: &[u8], g: Group, table: &mut [u64])
        requires { Grouped self.now.labels.b s.now g table.old }
        ensures { table.new ≡ put_rows g.row (group_rows self.now.labels.b (row_at self.now) s.now g) table.old }
    {
        let tests = g.tests;
        let mut place = g.from;
        let mut row = g.row;
        for left in (0..g.count).rev() {
            let start = words::blanks_end(s, place);
            let Some(Spot::Paren(close)) = spots::token_at(s, start) else {
                unreachable!()
            };
            let from = start + 1;
            let next = following(left == 0, row + 1);
            put_row(table, row, self.group_row(tests, &s[from..close], next));
            place = close + 1;
            row += 1;
        }
    }

    // The go-to of a line.
    fn go_to_row(&self, w: &[u8]) -> u64
        ensures { result ≡ go_to_row self.now.labels.b (row_at self.now) w.now }
    {
        if w.len() == 0 {
            return 0;
        }
        if w == b"DONE".as_slice() {
            return codes::DONE;
        }
        self.labels.row_of(w)
    }

    // The rows of a line that keeps the grammar.
    fn put_scanned(&self, s: &[u8], c: Scan, row: usize, next: u64, table: &mut [u64])
        requires { Laid self.now.labels.b s.now c × (10 * (row + (1 + c.tests + c.operations)) ≤ length table.old) }
        ensures { table.new ≡ put_rows row (line_rows self.now.labels.b (row_at self.now) row next (line_at s.now c)) table.old }
    {
        let goes = c.goes;
        let ends = c.ends;
        let count = c.tests;
        let operations = c.operations;
        let first = row + 1;
        let later = first + count;
        let go_to = self.go_to_row(&s[goes..ends]);
        let made = line_row(
            next,
            c.mode,
            following(count == 0, first),
            following(operations == 0, later),
            go_to,
        );
        put_row(table, row, made);
        let tests = Group {
            tests: true,
            from: c.test,
            count,
            row: first,
        };
        self.put_group(s, tests, table);
        let others = Group {
            tests: false,
            from: c.operation,
            count: operations,
            row: later,
        };
        self.put_group(s, others, table);
    }

    // The rows of a line: the row after them.
    fn put_line(&self, s: &[u8], last: bool, row: usize, table: &mut [u64]) -> usize
        requires { 10 * (row + size_of (line_read (read_line self.now.labels.b s.now))) ≤ length table.old }
        ensures { (result ≡ row + size_of (line_read (read_line self.now.labels.b s.now)))
            × (table.new ≡ put_rows row (read_rows self.now.labels.b (row_at self.now) row last
            (line_read (read_line self.now.labels.b s.now))) table.old) }
    {
        let Some(c) = line::scan(self.labels.b, s) else {
            return row;
        };
        let after = row + (1 + c.tests + c.operations);
        self.put_scanned(s, c, row, following(last, after), table);
        after
    }

    // The rows of all lines.
    fn put_lines(&self, table: &mut [u64])
        requires { Roomy self.now.labels.b self.now.labels.text.now table.old }
        ensures { table.new ≡ put_rows 1 (rows_from self.now.labels.b (row_at self.now) 1
            (lines_in self.now.labels.b self.now.labels.text.now)) table.old }
    {
        let text = self.labels.text;
        let mut left = text.len();
        let mut row = 1;
        for s in text.split_inclusive(|x| *x == b'\n') {
            left -= s.len();
            row = self.put_line(s, left == 0, row, table);
        }
    }

    // The table of the text.
    pub fn put_text(&self, table: &mut [u64])
        requires { Roomy self.now.labels.b self.now.labels.text.now table.old }
        ensures { table.new ≡ table_of self.now.labels.b (lines_in self.now.labels.b self.now.labels.text.now)
            ++ drop (10 * row_count (lines_in self.now.labels.b self.now.labels.text.now)) table.old }
    {
        put_row(table, 0, zero_row());
        self.put_lines(table);
    }
}
