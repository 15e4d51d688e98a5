// The cases of a test program of lists as bytes: a pool of entries, each an item of two bytes and a value of four, and after it the cases.
// A list of a case is three numbers of two bytes: where it starts in the pool, how many items and how many values it has. A byte past
// the end is 0.
ghost use Rattle.std.specs.Prelude.{◌<◌, ◌≤◌};

use ink_list::entries_mut::EntriesMut;
use ink_list::lists::Lists;

// How many bytes an entry takes, how many entries the pool has, where the cases start, and how many bytes a case takes.
const ENTRY: usize = 6;

pub const POOL: usize = 1600;

pub const CASES: usize = 9600;

pub const CASE: usize = 24;

// Where the parts of a case are: what it is, two lists and two numbers of four bytes.
pub const WHAT: usize = 0;

pub const FIRST: usize = 2;

pub const SECOND: usize = 8;

pub const NUMBER: usize = 14;

pub const OTHER_NUMBER: usize = 18;

// A case that is a line of text, from byte 2 on after its length.
pub const TITLE: u8 = 255;

// A byte, 0 past the end. A case's kinds, operators and marks are bytes, as make_cases.py writes them.
pub fn byte(s: &[u8], at: usize) -> u8 {
    s.get(at).copied().unwrap_or(0)
}

// A number of two bytes.
fn short(s: &[u8], at: usize) -> u16
    requires { at ≤ 65536 }
{
    u16::from_le_bytes([byte(s, at), byte(s, at + 1)])
}

pub fn place(s: &[u8], at: usize) -> usize
    requires { at ≤ 65536 }
    ensures { result < 65536 }
{
    usize::from(short(s, at))
}

// A number of four bytes.
pub fn value(s: &[u8], at: usize) -> i32
    requires { at ≤ 65530 }
{
    i32::from_le_bytes([
        byte(s, at),
        byte(s, at + 1),
        byte(s, at + 2),
        byte(s, at + 3),
    ])
}

// The pool, as far as the slices go.
pub fn pool(s: &[u8], out: &mut EntriesMut<'_>) {
    let places = out.items.iter_mut().zip(out.values.iter_mut());
    for (entry, (item, v)) in s.chunks_exact(ENTRY).take(POOL).zip(places) {
        *item = short(entry, 0);
        *v = value(entry, 2);
    }
}

// A part of the pool, none where the pool does not go so far: where it starts and how many it has are numbers of a case.
fn part_of<'a, T>(s: &[u8], start: usize, count: usize, all: &'a [T]) -> &'a [T]
    requires { (start ≤ 65536) × (count ≤ 65536) }
{
    let from = place(s, start);
    let to = from + place(s, count);
    if all.len() < to {
        return &all[..0];
    }
    &all[from..to]
}

// A list of a case, which part `at` has: its items and its values in the pool.
pub fn list_of<'a>(s: &[u8], at: usize, pool: Lists<'a>) -> Lists<'a>
    requires { at ≤ 65530 }
{
    Lists {
        items: part_of(s, at, at + 2, pool.items),
        values: part_of(s, at, at + 4, pool.values),
    }
}

pub fn title(s: &[u8]) {
    let end = 2 + usize::from(byte(s, 1));
    if end <= s.len() {
        test_output::bytes(&s[2..end]);
        test_output::println("");
    }
}

// Hands each case of the standard input to `work`, with the pool.
pub fn each_case<F: FnMut(&[u8], Lists<'_>)>(mut work: F)
    requires { F.IsAlwaysCallable work }
{
    let mut buf = io::large_buffer();
    let n = io::read_full(0, &mut buf);
    if n < CASES {
        return;
    }
    let mut items = [0u16; POOL];
    let mut values = [0i32; POOL];
    let mut entries = EntriesMut {
        items: &mut items,
        values: &mut values,
    };
    pool(&buf, &mut entries);
    for case in buf[CASES..n].chunks_exact(CASE) {
        work(case, entries.lists());
    }
}
