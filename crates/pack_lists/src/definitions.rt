// Question 3: definitions.
ghost use Rattle.std.specs.Prelude.{true, ◌≡◌, ◌<◌};
ghost use Rattle.pack.specs.Bodies.{count, definition_ok, item_count};
ghost use Rattle.pack.specs.Contents.{body_count};
ghost use Rattle.pack.specs.Format.{Narrow};
ghost use Rattle.pack.specs.Judge.{question3};

use pack::bytes::{byte_at, number_at};
use pack::contents::{offset, size};
use pack::format::Format;
use pack::placed::PlacedPack;

// Is definition d well formed?
#[tactic(auto, using(pack::proofs::Laid::body), unfolding(pack::specs::Bodies::definition_ok))]
fn definition_ok(pack: PlacedPack<'_>, d: usize, format: Format) -> bool
    requires narrow { Narrow format }
    requires d_bound { d < body_count pack.bytes.now }
    ensures { result ≡ definition_ok format pack.entry.bytes.now d }
{
    let n = size(pack.bytes, d);
    if n < format.wide {
        return false;
    }
    let at = offset(pack.bytes, d);
    let k = number_at(pack.bytes, at, format.wide);
    if k == 0 {
        return false;
    }
    n == format.wide + 4 * k
}

// The items of a well-formed definition.
pub fn item_count(pack: PlacedPack<'_>, d: usize, format: Format) -> usize
    requires narrow { Narrow format }
    requires d_bound { d < body_count pack.bytes.now }
    requires d_value { definition_ok format pack.bytes.now d ≡ true }
    ensures { (result ≡ count format pack.entry.bytes.now d) × (result < 65536) }
{
    let at = offset(pack.bytes, d);
    number_at(pack.bytes, at, format.wide)
}

// Is each definition well formed, items in all at most the limit?
#[tactic(auto, using(slices::proofs::Every::every_more, pack::proofs::Values::items_more), unfolding(pack::specs::Bodies::items_below, slices::specs::Every::every))]
pub fn question3(pack: PlacedPack<'_>, format: Format) -> bool
    requires narrow { Narrow format }
    ensures { result ≡ question3 format pack.entry.bytes.now }
{
    let n = byte_at(pack.bytes, 1);
    let mut items = 0;
    // One pass asks and counts, since a definition's items are counted only where it is well formed: `all` and `sum` would be two passes.
    for d in 0..n {
        if !definition_ok(pack, d, format) {
            return false;
        }
        items += item_count(pack, d, format);
    }
    items <= format.limit
}

// The items of all definitions.
pub fn total_items(pack: PlacedPack<'_>, format: Format) -> usize
    requires narrow { Narrow format }
    requires p_value { question3 format pack.bytes.now ≡ true }
    ensures { (result ≡ item_count format pack.entry.bytes.now) × (result < 65536) }
{
    (0..byte_at(pack.bytes, 1))
        .map(|d| item_count(pack, d, format))
        .sum()
}
