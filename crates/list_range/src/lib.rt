// Range: the entries of a list whose values lie within two bounds.
#![tactic(auto)]

ghost use Rattle.std.specs.Prelude.{◌≡◌, ℕ};
ghost use Rattle.ink_list.specs.Entries.{Ascends, Rising};
ghost use Rattle.ink_list.specs.Lists.{list_of, places, Fills};
ghost use Rattle.ink_list.specs.Ops.{within, range};

use ink_list::entries::Entries;
use ink_list::entries_mut::EntriesMut;

// Does v lie within the bounds.
fn within(lower: i32, upper: i32, v: i32) -> bool
    ensures { result ≡ within lower upper v }
{
    lower <= v && v <= upper
}

// Range: a's entries whose values lie within the bounds.
pub fn range(a: Entries<'_>, lower: i32, upper: i32, out: &mut EntriesMut<'_>) -> usize
    requires { Ascends 0 (places out.old) a.items.now }
    ensures { (limit : ℕ) → Rising limit (list_of a.entry)
        → Fills (range limit lower upper (list_of a.entry)) result out.old out.new }
{
    let mut n = 0;
    for (i, x) in a.items.iter().enumerate() {
        let v = a.values[i];
        if within(lower, upper, v) {
            n = out.push(n, *x, v);
        }
    }
    n
}
