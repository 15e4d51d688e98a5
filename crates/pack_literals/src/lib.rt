// Readers of the literals of a pack that has passed questions 1 to 5.
#![tactic(auto)]

ghost use Rattle.std.specs.Prelude.{◌≡◌, ◌+◌, ◌*◌, ◌<◌, ◌≤◌, length};
ghost use Rattle.ink_list.specs.Lists.{places};
ghost use Rattle.pack.specs.Bodies.{decoded};
ghost use Rattle.pack.specs.Contents.{literal_count};
ghost use Rattle.pack.specs.Judge.{Framed, Sound};
ghost use Rattle.pack.specs.Read.{literal_of};
ghost use Rattle.pack_literals.specs.Slices.{Copies, CopiesInto, EntriesReadIn};

use ink_list::entries_mut::EntriesMut;
use pack::bytes::{byte_at, i32_at, number_at, u64_at};
use pack::contents::{offset, size};
use pack::format::Format;
use pack::sound::SoundPack;

// How many literals there are.
pub fn literal_count(p: &[u8]) -> usize
    requires { Framed p.now }
    ensures { result ≡ literal_count p.now }
{
    byte_at(p, 2)
}

// The origin set of literal l.
pub fn literal_origins(p: &[u8], l: usize, format: Format) -> u64
    requires sound { Sound format p.now }
    requires l_bound { l < literal_count p.now }
    ensures { result ≡ (literal_of (decoded format p.now) l).origins }
{
    let at = offset(p, byte_at(p, 1) + l);
    u64_at(p, at)
}

// How many entries literal l has.
pub fn literal_len(pack: SoundPack<'_>, l: usize) -> usize
    requires l_bound { l < literal_count pack.bytes.now }
    ensures { result ≡ length (literal_of (decoded pack.entry.format pack.entry.bytes.now) l).entries }
{
    let n = size(pack.bytes, byte_at(pack.bytes, 1) + l);
    (n - 8) / (pack.format.wide + 4)
}

// Copies n entries that stand one after another from a position, into the places from an index on of two slices.
fn copy_each(
    p: &[u8],
    at: usize,
    n: usize,
    items: &mut [u16],
    values: &mut [i32],
    from: usize,
    wide: usize,
)
    requires wide_nonzero { (0 < wide) × (wide ≤ 2) }
    requires n_in_bounds { at + (wide + 4) * n ≤ length p.now }
    requires n_in_bounds_2 { from + n ≤ length items.old }
    requires n_in_bounds_3 { from + n ≤ length values.old }
    ensures { CopiesInto wide n p at from items.old items.new values.old values.new }
{
    // By index: tried with `iter_mut().zip(..)`, and the proof did not close, since all that is known after such a loop is the length.
    for k in 0..n {
        let e = at + (wide + 4) * k;
        let item = number_at(p, e, wide) as u16;
        let value = i32_at(p, e + wide);
        items[from + k] = item;
        values[from + k] = value;
    }
}

// The same of entries written into, by a loop for each width, in which it is a constant. The loop gets the two slices themselves: through
// `out` it would look up both anew at each entry.
fn copy_entries(p: &[u8], at: usize, n: usize, out: &mut EntriesMut<'_>, from: usize, wide: usize)
    requires wide_nonzero { (0 < wide) × (wide ≤ 2) }
    requires n_in_bounds { at + (wide + 4) * n ≤ length p.now }
    requires room { from + n ≤ places out.old }
    ensures { Copies wide n p at from out.old out.new }
{
    if wide == 1 {
        copy_each(p, at, n, out.items, out.values, from, 1);
        return;
    }
    copy_each(p, at, n, out.items, out.values, from, 2);
}

// Copies the entries of literal l into the places from an index on, and says how many there are.
pub fn read_literal(pack: SoundPack<'_>, l: usize, out: &mut EntriesMut<'_>, from: usize) -> usize
    requires l_bound { l < literal_count pack.bytes.now }
    requires room { from + length (literal_of (decoded pack.format pack.bytes.now) l).entries ≤ places out.old }
    ensures { EntriesReadIn (literal_of (decoded pack.entry.format pack.entry.bytes.now) l).entries from result out.old out.new }
{
    let n = literal_len(pack, l);
    let at = offset(pack.bytes, byte_at(pack.bytes, 1) + l) + 8;
    copy_entries(pack.bytes, at, n, out, from, pack.format.wide);
    n
}
