// The width that a program is given.
ghost use Rattle.std.specs.Prelude.{◌≡◌};
ghost use Rattle.tour.specs.Width.{width_of_two, width_of};

// Of two characters.
fn width_of_two(x: u8, y: u8) -> u64
    ensures { result ≡ width_of_two x y }
{
    if (x == b'3') & (y == b'6') {
        return 36;
    }
    if (x == b'4') & (y == b'8') {
        return 48;
    }
    0
}

// Of the word after the program's name: 36 where there is none, 0 where it is no width, which is refused where a width is.
pub fn width_of(word: &[u8]) -> u64
    ensures { result ≡ width_of word.now }
{
    if word.len() == 0 {
        return 36;
    }
    if word.len() != 2 {
        return 0;
    }
    width_of_two(word[0], word[1])
}
