// Soundness: refusal 11, clause by clause.
#![tactic(auto)]

ghost use Rattle.std.specs.Prelude.{◌&&◌, ◌||◌, cond, ◌≡◌, [], Bool, List, ℕ, ◌^◌, ◌≤◌, ◌<◌, eqb, ltb, length, take};
ghost use Rattle.std.specs.Fn.{FnReturnsAt};
ghost use Rattle.block.specs.SetUp.{words};
ghost use Rattle.machine.specs.Sound.{engine_on, every, is_row, is_place, is_definition, sound_place, sound_stack, sound_stacks};
ghost use Rattle.machine.specs.Sound.{sound_core, sound_storage, sound_engine, sound};

use block::SetUp;
use buddy::section::{keeps_section, words_of};
use buddy::setup::{fits, is_absent};
use machine::{
    AT_EXIT, AT_OPERATION, AT_TESTS, Core, Definition, FIELDS, FINISHED, LAST_ROW, LAST_WORD,
    Place, STACK, Stack,
};
use word::arithmetic::power;

// How many words are joined at a time, a number of turns that the compiler knows.
const AT_ONCE: usize = 128;

// What these words are joined to by "or": it is below a power of two if each of them is.
fn joined(words: &[u64]) -> u64
    ensures { (b : ℕ) → ltb result (2 ^ b) ≡ every (λ x. ltb x (2 ^ b)) words.now }
{
    let mut all: u64 = 0;
    for word in words {
        all |= *word;
    }
    all
}

// Each of these words is below 2^b: so is what they are joined to, some at a time.
pub fn are_words(b: u64, words: &[u64]) -> bool
    requires { b < 64 }
    ensures { result ≡ every (λ x. ltb x (2 ^ b)) words.now }
{
    let (parts, rest) = words.as_chunks::<AT_ONCE>();
    let mut all: u64 = 0;
    for part in parts {
        all |= joined(part);
    }
    (all | joined(rest)) < power(b)
}

// A row that a place may name.
fn is_row(r: u16) -> bool
    ensures { result ≡ is_row r }
{
    (1 <= r) & (r <= LAST_ROW)
}

// The row of a place: an operation's, otherwise zero.
fn has_row(p: Place) -> bool
    ensures { result ≡ cond (eqb p.kind 1) (is_row p.row) (eqb p.row 0 && (eqb p.kind 0 || eqb p.kind 2)) }
{
    if p.kind == AT_OPERATION {
        is_row(p.row)
    } else {
        (p.row == 0) & ((p.kind == AT_TESTS) | (p.kind == AT_EXIT))
    }
}

// A place in range.
fn is_place(p: Place) -> bool
    ensures { result ≡ is_place p }
{
    is_row(p.line) & has_row(p)
}

// A place in range, or that of a finished engine.
fn is_sound_place(p: Place) -> bool
    ensures { result ≡ sound_place p }
{
    is_place(p) | ((p.kind == FINISHED) & (p.row == 0) & (p.line == 0))
}

// A definition that is undefined or in range.
fn is_definition(b: u64, x: Definition) -> bool
    ensures { result ≡ is_definition b x }
{
    !x.defined | ((x.word <= LAST_WORD) & ((x.left as u64) < b) & ((x.right as u64) < b))
}

// Each field's definition is undefined or in range: all are looked at, which takes no branch for each.
fn are_fields(b: u64, definitions: &[Definition; FIELDS]) -> bool
    ensures { result ≡ every (is_definition b) definitions.now }
{
    let mut all = true;
    for definition in definitions {
        all = all & is_definition(b, *definition);
    }
    all
}

// Each of these definitions is undefined or in range.
fn are_definitions(b: u64, definitions: &[Definition]) -> bool
    ensures { result ≡ every (is_definition b) definitions.now }
{
    definitions
        .iter()
        .all(|definition| is_definition(b, *definition))
}

// Each of these places is in range.
fn are_places(places: &[Place]) -> bool
    ensures { result ≡ every is_place places.now }
{
    places.iter().all(|place| is_place(*place))
}

// A stack: at most 128 entries, and those used pass the test. The entries of an empty one are not copied.
fn is_sound_stack<T: Copy, F: Fn(&[T]) -> bool>(stack: Stack<T>, test: F) -> bool
    requires { F.IsAlwaysCallable test }
    ensures { (f : T → Bool) → ((l : List T) (r : Bool) → FnReturnsAt F.Fn test l r → r ≡ every f l)
        → result ≡ sound_stack f stack.count stack.entries }
{
    if stack.count == 0 {
        return true;
    }
    let entries = stack.entries;
    stack.count <= STACK && test(&entries[..stack.count])
}

// The three stacks.
fn are_stacks(b: u64, core: Core) -> bool
    requires { b < 64 }
    ensures { result ≡ sound_stacks b core }
{
    is_sound_stack(core.contents, |words| are_words(b, words))
        & is_sound_stack(core.saved, |definitions| are_definitions(b, definitions))
        & is_sound_stack(core.calls, |places| are_places(places))
}

// Bugs, definitions, place and stacks in range. The core is handed over: what is lent of it would be copied here.
fn is_sound_core(b: u64, core: Core) -> bool
    requires { b < 64 }
    ensures { result ≡ sound_core b core }
{
    let bugs = core.bugs;
    let definitions = core.definitions;
    are_words(b, &bugs)
        & are_fields(b, &definitions)
        & is_sound_place(core.place)
        & are_stacks(b, core)
}

// The set-up words are below 2^b.
fn are_set_up_words(b: u64, setup: SetUp, storage: &[u64]) -> bool
    requires { (b < 64) × (words setup ≤ length storage.now) }
    ensures { result ≡ every (λ x. ltb x (2 ^ b)) (take (words setup) storage.now) }
{
    let end = words_of(setup);
    are_words(b, &storage[..end])
}

// Set-up numbers that fit the lent storage, or none yet; blocks that keep their section; set-up words in range.
fn is_sound_storage(b: u64, setup: SetUp, map: &[u8], storage: &[u64]) -> bool
    requires { b < 64 }
    ensures { result ≡ sound_storage b setup map.now storage.now }
{
    let fitting = fits(
        storage.len(),
        setup.d as u64,
        setup.s1 as u64,
        setup.s2 as u64,
    );
    let known = fitting | is_absent(setup);
    if !known {
        return false;
    }
    keeps_section(setup, map) & are_set_up_words(b, setup, storage)
}

// What of soundness no lent input or output bears on: core and storage.
pub fn is_sound_engine(b: u64, core: Core, map: &[u8], storage: &[u64]) -> bool
    requires { b < 64 }
    ensures { result
        ≡ sound_engine b (engine_on (record { width = b; core = core; map = map.now }) storage.now) }
{
    let setup = core.setup;
    is_sound_core(b, core) & is_sound_storage(b, setup, map, storage)
}

// A sound engine, with counts not past the input's or the output's length.
pub fn is_sound(
    b: u64,
    core: Core,
    map: &[u8],
    storage: &[u64],
    input: &[u8],
    output: &[u8],
) -> bool
    requires { b < 64 }
    ensures { result ≡ sound b (record { table = []; input = input.now; output = output.now })
        (record { state = record { width = b; core = core; map = map.now }; storage = storage.now }) }
{
    is_sound_engine(b, core, map, storage)
        & (core.taken <= input.len())
        & (core.written <= output.len())
}
