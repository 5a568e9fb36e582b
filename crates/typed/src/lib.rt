// Tours typed as L6 lines, read into a lent table: document 02, ticket 3. What a text says stands in the specs of crate lines.
#![tactic(auto)]

ghost use Rattle.std.specs.Prelude.{◌≡◌, ◌≤◌, length};
ghost use Rattle.lines.specs.Program.{reading, read_at, told_read, read_told};
ghost use Rattle.typed.specs.Putting.{reading_told};

pub mod pairs;
pub mod values;
pub mod writing;

use faults::Label;
use faults::names::Labels;
use faults::seeking::learn;
use lines::ReadError;
use table::rows;
use values::Ready;
use word::is_width;

// Tests or operations of a line: where they begin, how many they are, and the row of the first.
#[derive(Clone, Copy)]
pub struct Group {
    pub tests: bool,
    pub from: usize,
    pub count: usize,
    pub row: usize,
}

// Room for the labels of a text: for those of its first lines, and as many that it uses.
const LABELS: usize = 2 * rows::MOST;

fn no_labels() -> [Label; LABELS] {
    [Label { key: 0, row: 0 }; LABELS]
}

// Reads a text some of whose labels are known.
fn read_known(labels: &Labels<'_>, table: &mut [u64]) -> Result<u64, ReadError>
    ensures { (told_read result ≡ reading_told labels.now.b labels.now.text.now table.old)
        × (table.new ≡ (reading labels.now.b labels.now.text.now table.old).table) }
{
    let count = labels.judge(table.len() as u64)?;
    let ready = Ready { labels: *labels };
    ready.put_text(table);
    Ok(count)
}

// Reads a text, with room for its labels.
fn read_with(b: u64, text: &[u8], room: &mut [Label], table: &mut [u64]) -> Result<u64, ReadError>
    requires { (b ≤ 48) × (800 ≤ length room.old) }
    ensures { (told_read result ≡ reading_told b text.now table.old)
        × (table.new ≡ (reading b text.now table.old).table) }
{
    let n = learn(b, text, room);
    let known = &room[0..n];
    let labels = Labels { b, text, known };
    read_known(&labels, table)
}

// Reads a text whose words have b bits.
pub fn read_at(b: u64, text: &[u8], table: &mut [u64]) -> Result<u64, ReadError>
    requires { b ≤ 48 }
    ensures { (told_read result ≡ reading_told b text.now table.old)
        × (table.new ≡ (reading b text.now table.old).table) }
{
    let mut room = no_labels();
    read_with(b, text, &mut room, table)
}

// Reads a text into the lent table, for words of b bits: refusals 31, 23, 24, 25.
pub fn read(b: u64, text: &[u8], table: &mut [u64]) -> Result<u64, ReadError>
    ensures table_after { record { answer = result; table = table.new } ≡ read_at b text.now table.old }
    ensures numbered { told_read result ≡ read_told b text.now table.old }
{
    if !is_width(b) {
        return Err(ReadError::NoWidth);
    }
    read_at(b, text, table)
}
