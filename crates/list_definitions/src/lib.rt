// The list operators that go by the pack's definitions.
#![tactic(auto)]

pub mod definitions;

ghost use Rattle.std.specs.Prelude.{◌≡◌, ℕ, ◌+◌, ◌-◌, ◌<◌, ◌≤◌, length};
ghost use Rattle.ink_list.specs.Entries.{Ascends, item_numbers, gather_from, member};
ghost use Rattle.ink_list.specs.Lists.{places, AppendsTo, Fills};
ghost use Rattle.list_definitions.specs.Defs.{missing, invert, all, origins_of};

use definitions::Definitions;
use ink_list::cursor::{skip_below, stands};
use ink_list::entries_mut::EntriesMut;

// Stores from place `at` on the items from first on and before end that a has not, with their defined values. The next
// place, and what is left of a.
fn push_missing<'a>(
    a: &'a [u16],
    first: usize,
    end: usize,
    defined: &[i32],
    out: &mut EntriesMut<'_>,
    at: usize,
) -> (usize, &'a [u16])
    requires ascends { Ascends 0 item_numbers a.now }
    requires range { (first ≤ end) × (end ≤ length defined.now) × (length defined.now < item_numbers) }
    requires room { at + length (gather_from first (end - first) (missing defined.now a.now)) ≤ places out.old }
    ensures entries { AppendsTo at (gather_from first (end - first) (missing defined.now a.now)) result.0 out.old out.new }
    ensures left { Ascends 0 item_numbers result.1.now
        × ((k : ℕ) → end ≤ k → member result.1.now k ≡ member a.now k) }
{
    let mut left = a;
    let mut n = at;
    // k is an item's number, by which it is looked for and stored, and where its value stands: over the values it would be counted up again.
    for k in first..end {
        let item = k as u16;
        left = skip_below(left, item);
        if !stands(left, item) {
            n = out.push(n, item, defined[k]);
        }
    }
    (n, left)
}

// Invert: all items of the set's definitions that a has not, with their defined values.
pub fn invert(a: &[u16], set: u64, definitions: Definitions<'_>, out: &mut EntriesMut<'_>) -> usize
    requires ascends { Ascends 0 item_numbers a.now }
    requires defined_len_bound { length definitions.defined.now ≤ places out.old }
    ensures { Fills (invert definitions.entry.ends.now definitions.entry.defined.now set a.now) result out.old out.new }
{
    let mut left = a;
    let mut s = set;
    let mut low = 0;
    let mut n = 0;
    for end in definitions.ends {
        let first = low;
        let chosen = s % 2 == 1;
        low = usize::from(*end);
        if chosen {
            (n, left) = push_missing(left, first, low, definitions.defined, out, n);
        }
        s /= 2;
    }
    n
}

// All: all items of the set's definitions.
pub fn all(set: u64, definitions: Definitions<'_>, out: &mut EntriesMut<'_>) -> usize
    requires defined_len_bound { length definitions.defined.now ≤ places out.old }
    ensures { Fills (all definitions.entry.ends.now definitions.entry.defined.now set) result out.old out.new }
{
    invert(&[], set, definitions, out)
}

// The set of the origins of some items.
pub fn origins_of(a: &[u16], ends: &[u16]) -> u64
    requires ascends { Ascends 0 item_numbers a.now }
    requires ends_len_bound { length ends.now ≤ 64 }
    ensures { result ≡ origins_of ends.now a.now }
{
    let mut set = 0;
    let mut left = a;
    for (d, end) in ends.iter().enumerate() {
        let rest = skip_below(left, *end);
        if rest.len() < left.len() {
            set += 1 << d;
        }
        left = rest;
    }
    set
}
