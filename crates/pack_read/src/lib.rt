// Readers of the definitions and the sheets of a pack that has passed questions 1 to 5.
#![tactic(auto)]

ghost use Rattle.std.specs.Prelude.{◌≡◌, true, ◌+◌, ◌*◌, ◌<◌, ◌≤◌, length};
ghost use Rattle.slices.specs.Every.{table};
ghost use Rattle.slices.specs.Filled.{fill};
ghost use Rattle.pack.specs.Bodies.{item_count, decoded};
ghost use Rattle.pack.specs.Bytes.{i32};
ghost use Rattle.pack.specs.Contents.{definition_count, sheet_count};
ghost use Rattle.pack.specs.Judge.{question5, Framed, Placed};
ghost use Rattle.pack.specs.Read.{SheetSpan};
ghost use Rattle.pack_read.specs.Slices.{TabledIn};

use ink_list::well_formed::Counts;

pub mod instructions;

use pack::bytes::{byte_at, i32_at};
use pack::contents::{offset, size};
use pack::placed::PlacedPack;
use pack::sound::SoundPack;
use pack_lists::definitions::item_count;

// Copies n values that stand one after another from a position, into the places from an index on.
fn copy_values(p: &[u8], at: usize, n: usize, out: &mut [i32], from: usize)
    requires n_in_bounds { at + 4 * n ≤ length p.now }
    requires n_in_bounds_2 { from + n ≤ length out.old }
    ensures { out.new ≡ fill from (table n (λ k. i32 p.now (at + 4 * k))) out.old }
{
    // By index: tried with `iter_mut().zip(..)`, and the proof did not close, since all that is known after such a loop is the length.
    for k in 0..n {
        out[from + k] = i32_at(p, at + 4 * k);
    }
}

// Reads the definitions: one past each definition's last item, and each item's value. How many places of the two slices they take. The two
// are written in one place; a struct for them would be taken apart at once.
pub fn read_definitions(pack: SoundPack<'_>, ends: &mut [u16], defined: &mut [i32]) -> Counts
    requires p_in_bounds { definition_count pack.bytes.now ≤ length ends.old }
    requires p_in_bounds_2 { item_count pack.format pack.bytes.now ≤ length defined.old }
    ensures { TabledIn (decoded pack.entry.format pack.entry.bytes.now) result ends defined }
{
    let placed = PlacedPack { bytes: pack.bytes };
    let n = byte_at(pack.bytes, 1);
    let mut items = 0;
    // By index: a body has a number and no slice, and `iter_mut().enumerate()` would leave of `ends` only the length, as in `copy_values`.
    for d in 0..n {
        let at = offset(pack.bytes, d) + pack.format.wide;
        let k = item_count(placed, d, pack.format);
        copy_values(pack.bytes, at, k, defined, items);
        items += k;
        ends[d] = items as u16;
    }
    Counts {
        definitions: n,
        items,
    }
}

// How many sheets there are.
pub fn sheet_count(p: &[u8]) -> usize
    requires { Framed p.now }
    ensures { result ≡ sheet_count p.now }
{
    byte_at(p, 3)
}

// Where a body starts and ends.
#[derive(Clone, Copy)]
pub struct Span {
    pub start: usize,
    pub end: usize,
}

// Where sheet s starts and ends.
pub fn sheet_span(p: &[u8], s: usize) -> Span
    requires placed { Placed p.now × (question5 p.now ≡ true) }
    requires s_bound { s < sheet_count p.now }
    ensures { SheetSpan p.now s result.start result.end }
{
    let b = byte_at(p, 1) + byte_at(p, 2) + s;
    let start = offset(p, b);
    let end = start + size(p, b);
    Span { start, end }
}
