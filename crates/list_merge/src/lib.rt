// Add of two lists: their entries merged.
#![tactic(auto)]

ghost use Rattle.std.specs.Prelude.{ℕ};
ghost use Rattle.ink_list.specs.Entries.{Ascends, Rising};
ghost use Rattle.ink_list.specs.Lists.{list_of, places, Fills};
ghost use Rattle.ink_list.specs.Ops.{union};

use ink_list::entries::Entries;
use ink_list::entries_mut::EntriesMut;

// Add: b's value on b's items, else a's. Two cursors go on by what they compare, so no `for` counts them; what is left of each list as a
// value is no plainer (each arm cuts two slices in the place of a sum) and 14 % slower. It is a function of its own in the library too: its
// loop needs all registers, and takes up to 1.6 of the time within a longer function.
#[inline(never)]
pub fn union(a: Entries<'_>, b: Entries<'_>, out: &mut EntriesMut<'_>) -> usize
    requires rising_a { Ascends 0 (places out.old) a.items.now }
    requires rising_b { Ascends 0 (places out.old) b.items.now }
    ensures { (limit : ℕ) → Rising limit (list_of a.entry) → Rising limit (list_of b.entry)
        → Fills (union limit (list_of a.entry) (list_of b.entry)) result out.old out.new }
{
    let mut i = 0;
    let mut j = 0;
    let mut n = 0;
    while i < a.items.len() && j < b.items.len() {
        let x = a.items[i];
        let y = b.items[j];
        if x < y {
            n = out.push(n, x, a.values[i]);
            i += 1;
        } else if x == y {
            n = out.push(n, x, b.values[j]);
            i += 1;
            j += 1;
        } else {
            n = out.push(n, y, b.values[j]);
            j += 1;
        }
    }
    n = out.append(n, a.from(i));
    out.append(n, b.from(j))
}
