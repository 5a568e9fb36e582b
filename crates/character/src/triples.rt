// The three-character list worked out from the decimal definition: entry for entry the constant of thousand.rt.
ghost use Rattle.std.specs.Prelude.{◌≡◌, ◌<◌};
ghost use Rattle.character.specs.Character.{from_binary};
ghost use Rattle.character.specs.Triples.{filled, answered};

// How many entries the list has.
const COUNT: usize = 1000;

// Entry k: hundreds, tens and ones of k, each in six bits.
fn entry(k: usize) -> u16
    requires { k < 1000 }
    ensures { result ≡ from_binary 10 3 k }
{
    let hundreds = k / 100;
    let tens = k / 10 % 10;
    let ones = k % 10;
    ((hundreds * 64 + tens) * 64 + ones) as u16
}

// Fills a buffer of 1,000 with what is worked out, which is the constant, and answers 1,000. Any other buffer stays as it was, and
// the answer is 0.
pub fn fill(buffer: &mut [u16]) -> usize
    ensures { (result ≡ answered buffer.old) × (buffer.new ≡ filled buffer.old) }
{
    if buffer.len() != COUNT {
        return 0;
    }
    for k in 0..COUNT {
        buffer[k] = entry(k);
    }
    COUNT
}
