// Words of the storage: zeroed, and copied. A call of the library each, with what it leaves as the definitions have it.
ghost use Rattle.std.specs.Prelude.{◌≡◌, ◌+◌, ◌≤◌, ◌⊎◌, length, take, drop, replicate};
ghost use Rattle.machine.specs.Storage.{placed};

// n words from a place on are zero.
pub fn zero_words(storage: &mut [u64], from: usize, n: usize)
    requires { from + n ≤ length storage.old }
    ensures { storage.new ≡ placed from (replicate n 0) storage.old }
{
    storage[from..from + n].fill(0);
}

// n words from a place on are those from another place on, clear of them.
pub fn copy_words(storage: &mut [u64], to: usize, from: usize, n: usize)
    requires { (to + n ≤ length storage.old) × (from + n ≤ length storage.old) × ((from + n ≤ to) ⊎ (to + n ≤ from)) }
    ensures { storage.new ≡ placed to (take n (drop from storage.old)) storage.old }
{
    storage.copy_within(from..from + n, to);
}
