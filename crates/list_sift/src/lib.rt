// Subtract and Intersect of two lists: the entries of one whose items the other has not, or has.
#![tactic(auto)]

ghost use Rattle.std.specs.Prelude.{ℕ};
ghost use Rattle.std.specs.Bool.{beq};
ghost use Rattle.ink_list.specs.Entries.{member, Ascends, Rising};
ghost use Rattle.ink_list.specs.Lists.{list_of, places, Fills};
ghost use Rattle.ink_list.specs.Ops.{sift, without, intersect};

use ink_list::cursor::{skip_below, stands};
use ink_list::entries::Entries;
use ink_list::entries_mut::EntriesMut;

// a's entries whose items are b's (want), or are not.
fn matching(want: bool, a: Entries<'_>, b: &[u16], out: &mut EntriesMut<'_>) -> usize
    requires rising_a { Ascends 0 (places out.old) a.items.now }
    requires rising_b { Ascends 0 (places out.old) b.now }
    ensures { (limit : ℕ) → Rising limit (list_of a.entry)
        → Fills (sift limit (λ e. beq (member b.now e.0) want) (list_of a.entry)) result out.old out.new }
{
    let mut left = b;
    let mut n = 0;
    for (i, x) in a.items.iter().enumerate() {
        left = skip_below(left, *x);
        if stands(left, *x) == want {
            n = out.push(n, *x, a.values[i]);
        }
    }
    n
}

// Subtract: a's entries whose items are not b's.
// By name, as the field has it: one line over `matching`, which a const parameter would make no plainer.
pub fn without(a: Entries<'_>, b: &[u16], out: &mut EntriesMut<'_>) -> usize
    requires rising_a { Ascends 0 (places out.old) a.items.now }
    requires rising_b { Ascends 0 (places out.old) b.now }
    ensures { (limit : ℕ) → Rising limit (list_of a.entry)
        → Fills (without limit (list_of a.entry) b.now) result out.old out.new }
{
    matching(false, a, b, out)
}

// Intersect: a's entries whose items are b's.
pub fn intersect(a: Entries<'_>, b: &[u16], out: &mut EntriesMut<'_>) -> usize
    requires rising_a { Ascends 0 (places out.old) a.items.now }
    requires rising_b { Ascends 0 (places out.old) b.now }
    ensures { (limit : ℕ) → Rising limit (list_of a.entry)
        → Fills (intersect limit (list_of a.entry) b.now) result out.old out.new }
{
    matching(true, a, b, out)
}
