// Question 4: literals.
ghost use Rattle.std.specs.Prelude.{true, ◌≡◌, ◌+◌, ◌*◌, ◌<◌};
ghost use Rattle.ink_list.specs.Entries.{ascends};
ghost use Rattle.slices.specs.Every.{table};
ghost use Rattle.pack.specs.Bodies.{item_count, item, literal_ok};
ghost use Rattle.pack.specs.Contents.{body_count, size};
ghost use Rattle.pack.specs.Format.{Narrow};
ghost use Rattle.pack.specs.Judge.{question3, question4};

use super::definitions::total_items;
use pack::bytes::{byte_at, number_at, u64_at};
use pack::contents::{offset, size};
use pack::format::Format;
use pack::placed::PlacedPack;

// Do the items of the n entries of a literal rise, all below total?
#[tactic(auto, using(pack::proofs::Laid::body, slices::proofs::Strides::stride_fits))]
fn items_ok(pack: PlacedPack<'_>, b: usize, n: usize, total: usize, format: Format) -> bool
    requires narrow { Narrow format }
    requires b_bound { b < body_count pack.bytes.now }
    requires b_value { size pack.bytes.now b ≡ 8 + (format.wide + 4) * n }
    ensures { result ≡ ascends 0 total (table n (item format pack.entry.bytes.now b)) }
{
    let stride = format.wide + 4;
    let first = offset(pack.bytes, b) + 8;
    let entries = &pack.bytes[first..first + stride * n];
    let mut least = 0;
    for entry in entries.chunks_exact(stride) {
        let item = number_at(entry, 0, format.wide);
        if item < least {
            return false;
        }
        least = item + 1;
    }
    // They rise, so that all are below total where the last is.
    least <= total
}

// Is the literal that is body b well formed, its items below total?
#[tactic(auto, using(pack::proofs::Laid::body), unfolding(pack::specs::Bodies::literal_ok, ink_list::specs::Entries::formed))]
fn literal_ok(pack: PlacedPack<'_>, b: usize, total: usize, format: Format) -> bool
    requires narrow { Narrow format }
    requires b_bound { b < body_count pack.bytes.now }
    requires total_value { total ≡ item_count format pack.bytes.now }
    ensures { result ≡ literal_ok format pack.entry.bytes.now b }
{
    let n = size(pack.bytes, b);
    if n < 8 {
        return false;
    }
    let k = (n - 8) / (format.wide + 4);
    if n != 8 + (format.wide + 4) * k {
        return false;
    }
    let at = offset(pack.bytes, b);
    if !ink_list::well_formed::bits_below(u64_at(pack.bytes, at), byte_at(pack.bytes, 1)) {
        return false;
    }
    items_ok(pack, b, k, total, format)
}

// Is each literal well formed, items in the pack, origin bits below D?
pub fn question4(pack: PlacedPack<'_>, format: Format) -> bool
    requires narrow { Narrow format }
    requires p_value { question3 format pack.bytes.now ≡ true }
    ensures { result ≡ question4 format pack.entry.bytes.now }
{
    let total = total_items(pack, format);
    let d = byte_at(pack.bytes, 1);
    (0..byte_at(pack.bytes, 2)).all(|l| literal_ok(pack, d + l, total, format))
}
