// The sizes 1, 2, 4 .. 128, and the place of a size among them.
ghost use Rattle.std.specs.Prelude.{◌≡◌, ◌≤◌};
ghost use Rattle.block.specs.Blocks.{size, level};
ghost use Rattle.block.specs.SetUp.{top};

use block::TOP;

// The k-th size.
pub fn size_of(k: u8) -> usize
    requires { k ≤ 7 }
    ensures { result ≡ size k }
{
    1 << k
}

// The least level up to k whose size is n or more, k if there is none: that level is the length of n - 1 in bits.
pub fn level_of(k: u8, n: u64) -> u8
    requires { k ≤ 7 }
    ensures { result ≡ level k n }
{
    if n == 0 {
        return 0;
    }
    let least = 64 - u64::leading_zeros(n - 1) as u8;
    if least < k { least } else { k }
}

// The place of the largest size d among the sizes.
pub fn top_of(d: u16) -> u8
    ensures { result ≡ top d }
{
    level_of(TOP, d as u64)
}
