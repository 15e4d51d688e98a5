// ListMin and ListMax: the first entry with the least or the greatest value.
#![tactic(auto)]

ghost use Rattle.std.specs.Prelude.{◌<◌, ◌≤◌, length};
ghost use Rattle.ink_list.specs.Lists.{list_of, places, Fills};
ghost use Rattle.ink_list.specs.Ops.{list_extreme, list_min, list_max};
ghost use Rattle.ink_list.specs.Steps.{ExtremeAt};

use extreme_values::beats;
use ink_list::entries::Entries;
use ink_list::entries_mut::EntriesMut;

// The place of the first of the least (or else the greatest) values.
fn extreme_at(least: bool, vs: &[i32]) -> usize
    requires { 0 < length vs.now }
    ensures { ExtremeAt least vs.now result }
{
    let mut best = 0;
    for (i, v) in vs.iter().enumerate() {
        if beats(least, *v, vs[best]) {
            best = i;
        }
    }
    best
}

// The first entry with the least (or else the greatest) value, as a list of one; of an empty list, none.
fn list_extreme(least: bool, a: Entries<'_>, out: &mut EntriesMut<'_>) -> usize
    requires { 1 ≤ places out.old }
    ensures { Fills (list_extreme least (list_of a.entry)) result out.old out.new }
{
    if a.items.is_empty() {
        return 0;
    }
    let best = extreme_at(least, a.values);
    out.push(0, a.items[best], a.values[best])
}

// ListMin: a list of one, or empty.
// By name, as the field has it: one line over `list_extreme`, which a const parameter would make no plainer.
pub fn list_min(a: Entries<'_>, out: &mut EntriesMut<'_>) -> usize
    requires { 1 ≤ places out.old }
    ensures { Fills (list_min (list_of a.entry)) result out.old out.new }
{
    list_extreme(true, a, out)
}

// ListMax: a list of one, or empty.
pub fn list_max(a: Entries<'_>, out: &mut EntriesMut<'_>) -> usize
    requires { 1 ≤ places out.old }
    ensures { Fills (list_max (list_of a.entry)) result out.old out.new }
{
    list_extreme(false, a, out)
}
