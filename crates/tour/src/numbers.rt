// The table of tour.tab: numbers of eight bytes, low first.
ghost use Rattle.std.specs.Prelude.{◌≡◌, ◌*◌, ◌≤◌, length};
ghost use Rattle.tour.specs.Tour.{numbers, table_of};
ghost use Rattle.tour.specs.Put.{put_before};

use octets::number_at;

// How many bytes a table has at most.
pub const BYTES: usize = 64000;

// The first n numbers, put at the start of the table.
fn read_numbers(bytes: &[u8], n: usize, table: &mut [u64])
    requires { (8 * n ≤ length bytes.now) × (n ≤ length table.old) }
    ensures { table.new ≡ put_before n (numbers n bytes.now) table.old }
{
    for left in (0..n).rev() {
        table[left] = number_at(bytes, 8 * left, 8);
    }
}

// The table of a file's bytes, put at the start of the numbers lent. Returns how many numbers it has: none where the file is no
// table.
pub fn read_table(tab: &[u8], table: &mut [u64]) -> usize
    requires { 8000 ≤ length table.old }
    ensures value { result ≡ length (table_of tab.now) }
    ensures table_after { table.new ≡ put_before result (table_of tab.now) table.old }
{
    if tab.len() % 8 != 0 {
        return 0;
    }
    if tab.len() > BYTES {
        return 0;
    }
    let n = tab.len() / 8;
    read_numbers(tab, n, table);
    n
}
