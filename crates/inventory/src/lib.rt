// tourlist over slices: the listing that it prints of the bytes that it reads, put at the end of a text, last character first. Each
// function returns where its text starts; no line has more than 96 characters.
#![tactic(auto)]

ghost use Rattle.std.specs.Prelude.{ℕ, List, ◌++◌, ◌≡◌, ◌+◌, ◌*◌, ◌≤◌, ◌<◌, length};
ghost use Rattle.block.specs.SetUp.{words};
ghost use Rattle.inventory.specs.Puts.{Puts, MayPut, PutsLines};
ghost use Rattle.inventory.specs.Inventory.{octal, word_end, number_text, three_end, texts, bug_text, field_text};
ghost use Rattle.inventory.specs.Inventory.{start_text, owner, content_text, stored_text, saved_text, definition_text};
ghost use Rattle.inventory.specs.Inventory.{place_text, head_text, counts_line, stacks_text, listing, printed};

use buddy::section::words_of;
use buddy::sizes::size_of;
use diagnosis::field_character;
use machine::{BUGS, Core, Definition, FIELDS, MAP, Place, STACK, State};
use tour::text::{BLANK, NEWLINE, put, put_decimal, put_word};
use tour::{LENT, run_tour};

// How many bytes the listing has at most.
pub const LISTING: usize = 440000;

// How many octal digits a word has, and an address.
const WORD: usize = 12;

const ADDRESS: usize = 5;

// The last octal digits of a number.
fn put_octal(text: &mut [u8], at: usize, digits: usize, n: u64) -> usize
    requires { (digits ≤ at) × (at ≤ length text.old) }
    ensures { Puts (octal digits n) digits at text.old result text.new }
{
    let mut place = at;
    let mut rest = n;
    for _ in 0..digits {
        place = put(text, place, b'0' + (rest % 8) as u8);
        rest /= 8;
    }
    place
}

// A word at the end of a line.
fn put_word_end(text: &mut [u8], at: usize, w: u64) -> usize
    requires { (14 ≤ at) × (at ≤ length text.old) }
    ensures { Puts (word_end w) 14 at text.old result text.new }
{
    let end = put(text, at, NEWLINE);
    let digits = put_octal(text, end, WORD, w);
    put(text, digits, BLANK)
}

// A number after a blank.
fn put_number(text: &mut [u8], at: usize, n: u64) -> usize
    requires { (21 ≤ at) × (at ≤ length text.old) }
    ensures { Puts (number_text n) 21 at text.old result text.new }
{
    let digits = put_decimal(text, at, n);
    put(text, digits, BLANK)
}

// Three numbers at the end of a line.
fn put_three_end(text: &mut [u8], at: usize, x: u64, y: u64, z: u64) -> usize
    requires { (64 ≤ at) × (at ≤ length text.old) }
    ensures { Puts (three_end x y z) 64 at text.old result text.new }
{
    let end = put(text, at, NEWLINE);
    let last = put_number(text, end, z);
    let middle = put_number(text, last, y);
    put_number(text, middle, x)
}

// A line of a word and three numbers.
fn put_line(text: &mut [u8], at: usize, word: &[u8], x: u64, y: u64, z: u64) -> usize
    requires { (length word.now ≤ 11) × (75 ≤ at) × (at ≤ length text.old) }
    ensures { Puts (word.now ++ three_end x y z) 75 at text.old result text.new }
{
    let end = put_three_end(text, at, x, y, z);
    put_word(text, end, word)
}

// A bug that is not zero.
fn put_bug(text: &mut [u8], at: usize, i: usize, w: u64) -> usize
    requires { (i < 26) × (96 ≤ at) × (at ≤ length text.old) }
    ensures { Puts (bug_text i w) 96 at text.old result text.new }
{
    if w == 0 {
        return at;
    }
    let end = put_word_end(text, at, w);
    let name = put(text, end, b'A' + i as u8);
    put_word(text, name, b"bug ")
}

// A field that is defined.
fn put_field(text: &mut [u8], at: usize, i: usize, x: Definition) -> usize
    requires { (96 ≤ at) × (at ≤ length text.old) }
    ensures { Puts (field_text i x) 96 at text.old result text.new }
{
    if !x.defined {
        return at;
    }
    let end = put_three_end(
        text,
        at,
        u64::from(x.word),
        u64::from(x.left),
        u64::from(x.right),
    );
    let name = put(text, end, field_character(i as u64));
    put_word(text, name, b"field ")
}

// A saved definition.
fn put_definition(text: &mut [u8], at: usize, x: Definition) -> usize
    requires { (96 ≤ at) × (at ≤ length text.old) }
    ensures { Puts (definition_text x) 96 at text.old result text.new }
{
    if !x.defined {
        return put_word(text, at, b"definition undefined\n");
    }
    put_line(
        text,
        at,
        b"definition",
        u64::from(x.word),
        u64::from(x.left),
        u64::from(x.right),
    )
}

// A saved place.
fn put_place(text: &mut [u8], at: usize, p: Place) -> usize
    requires { (96 ≤ at) × (at ≤ length text.old) }
    ensures { Puts (place_text p) 96 at text.old result text.new }
{
    put_line(
        text,
        at,
        b"place",
        u64::from(p.kind),
        u64::from(p.row),
        u64::from(p.line),
    )
}

// Saved contents.
fn put_saved(text: &mut [u8], at: usize, w: u64) -> usize
    requires { (96 ≤ at) × (at ≤ length text.old) }
    ensures { Puts (saved_text w) 96 at text.old result text.new }
{
    let end = put_word_end(text, at, w);
    put_word(text, end, b"contents")
}

// The tag of the block that the word at a place lies in.
fn owner_of(map: &[u8; MAP], i: usize) -> u8
    requires { i < 4096 }
    ensures { result ≡ owner map.now i }
{
    for at in (1..i + 1).rev() {
        if map[at] != 0 {
            return map[at];
        }
    }
    map[0]
}

// Where a block starts.
fn put_start(text: &mut [u8], at: usize, address: u64, tag: u8) -> usize
    requires { (address < 131072) × (75 ≤ at) × (at ≤ length text.old) }
    ensures { Puts (start_text address tag) 75 at text.old result text.new }
{
    if tag == 0 {
        return at;
    }
    let n = size_of((tag - 1) / 2 % 8) as u64;
    let last = address + n - 1;
    if tag % 2 == 0 {
        return put_line(text, at, b"block", address, last, n);
    }
    put_line(text, at, b"free", address, last, n)
}

// A word of a live block.
fn put_content(text: &mut [u8], at: usize, address: u64, tag: u8, w: u64) -> usize
    requires { (19 ≤ at) × (at ≤ length text.old) }
    ensures { Puts (content_text address tag w) 19 at text.old result text.new }
{
    if tag == 0 {
        return at;
    }
    if tag % 2 != 0 {
        return at;
    }
    let end = put_word_end(text, at, w);
    put_octal(text, end, ADDRESS, address)
}

// The block that starts at a place, and the word there.
fn put_stored(
    text: &mut [u8],
    at: usize,
    s1: u16,
    map: &[u8; MAP],
    storage: &[u64; LENT],
    i: usize,
) -> usize
    requires { (i < 4096) × (96 ≤ at) × (at ≤ length text.old) }
    ensures { Puts (stored_text s1 map.now storage.now i) 96 at
        text.old result text.new }
{
    let address = u64::from(s1) + i as u64;
    let end = put_content(text, at, address, owner_of(map, i), storage[i]);
    put_start(text, end, address, map[i])
}

// The lines of the first n places, one after the other, each put by a call. The last is put first.
fn put_each<F: Fn(&mut [u8], usize, usize) -> usize>(
    text: &mut [u8],
    at: usize,
    n: usize,
    put_one: F,
) -> usize
    requires room { (96 * n ≤ at) × (at ≤ length text.old) }
    requires calls { MayPut (F.pre put_one) n }
    requires lines { (f : ℕ → List ℕ) × PutsLines (F.post put_one) f n }
    ensures room { at ≤ result + 96 * n }
    ensures inside { result ≤ length text.new }
    ensures text_after { (f : ℕ → List ℕ) → PutsLines (F.post put_one) f n
        → Puts (texts f 0 n) (96 * n) at text.old result text.new }
{
    let mut place = at;
    for left in (0..n).rev() {
        place = put_one(text, place, left);
    }
    place
}

// Set-up, bugs and fields.
fn put_head(text: &mut [u8], at: usize, core: &Core) -> usize
    requires { (6048 ≤ at) × (at ≤ length text.old) }
    ensures { Puts (head_text core.now) 6048 at text.old result text.new }
{
    let fields = put_each(text, at, FIELDS, |text, at, i| {
        put_field(text, at, i, core.definitions[i])
    });
    let letters = put_each(text, fields, BUGS, |text, at, i| {
        put_bug(text, at, i, core.bugs[i])
    });
    put_line(
        text,
        letters,
        b"set-up",
        u64::from(core.setup.d),
        u64::from(core.setup.s1),
        u64::from(core.setup.s2),
    )
}

// How many entries the stacks have.
fn put_counts(text: &mut [u8], at: usize, contents: usize, saved: usize, calls: usize) -> usize
    requires { (96 ≤ at) × (at ≤ length text.old) }
    ensures { Puts (counts_line contents saved calls) 96 at text.old result text.new }
{
    put_line(
        text,
        at,
        b"stacks",
        contents as u64,
        saved as u64,
        calls as u64,
    )
}

// The stacks.
fn put_stacks(text: &mut [u8], at: usize, core: &Core) -> usize
    requires { (36960 ≤ at) × (at ≤ length text.old) }
    ensures { Puts (stacks_text core.now.contents core.now.saved core.now.calls) 36960 at text.old result text.new }
{
    let contents = &core.contents;
    let saved = &core.saved;
    let calls = &core.calls;
    let places = put_each(text, at, calls.count.min(STACK), |text, at, i| {
        put_place(text, at, calls.entries[i])
    });
    let definitions = put_each(text, places, saved.count.min(STACK), |text, at, i| {
        put_definition(text, at, saved.entries[i])
    });
    let words = put_each(
        text,
        definitions,
        contents.count.min(STACK),
        |text, at, i| { put_saved(text, at, contents.entries[i]) },
    );
    put_counts(text, words, contents.count, saved.count, calls.count)
}

// The listing of a state and its storage.
fn put_listing(text: &mut [u8], at: usize, state: &State, storage: &[u64; LENT]) -> usize
    requires { (440000 ≤ at) × (at ≤ length text.old) }
    ensures { Puts (listing state.now storage.now) 440000 at text.old result text.new }
{
    let setup = state.core.setup;
    let stacks = put_stacks(text, at, &state.core);
    let blocks = put_each(text, stacks, words_of(setup).min(LENT), |text, at, i| {
        put_stored(text, at, setup.s1, &state.map, storage, i)
    });
    put_head(text, blocks, &state.core)
}

// Runs a tour as tourrun does and puts what tourlist prints at the end of the text. Returns where it starts.
pub fn list_tour(tab: &[u8], stops: &[u8], text: &mut [u8; LISTING]) -> usize
    ensures { Puts (printed tab.now stops.now) 440000 440000
        text.old result text.new }
{
    let mut storage = [0u64; LENT];
    let mut output = [0u8; LENT];
    let ran = run_tour(tab, stops, &mut storage, &mut output);
    put_listing(text, LISTING, &ran.state, &storage)
}
