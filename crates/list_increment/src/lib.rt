// Increment and decrement: each value moved, and the item taken that its definition has at the new one.
#![tactic(auto)]

ghost use Rattle.std.specs.Prelude.{◌≤◌, length};
ghost use Rattle.ink_list.specs.Entries.{Ascends, item_numbers};
ghost use Rattle.ink_list.specs.Lists.{list_of, places, Fills};
ghost use Rattle.list_definitions.specs.Defs.{increment, decrement};

use increment_search::definition::Definition;
use increment_search::{Raised, retarget};
use ink_list::cursor::skip_below;
use ink_list::entries::Entries;
use ink_list::entries_mut::EntriesMut;
use list_definitions::definitions::Definitions;

// Increment: `by` is added to each value, wrapping, and the first item of the same definition that is defined
// with that value is kept, if the definition is in the set.
pub fn increment(
    a: Entries<'_>,
    by: i32,
    set: u64,
    definitions: Definitions<'_>,
    out: &mut EntriesMut<'_>,
) -> usize
    requires ascends { Ascends 0 item_numbers a.items.now }
    requires defined_len_bound { length definitions.defined.now ≤ places out.old }
    ensures { Fills (increment definitions.entry.ends.now definitions.entry.defined.now set by (list_of a.entry)) result out.old out.new }
{
    let mut left = a;
    let mut s = set;
    let mut low = 0;
    let mut n = 0;
    for end in definitions.ends {
        let first = low;
        let chosen = s % 2 == 1;
        let passed = left.len() - skip_below(left.items, *end).len();
        low = usize::from(*end);
        if chosen {
            let raised = Raised {
                values: &left.values[..passed],
                by,
            };
            let definition = Definition {
                first,
                values: &definitions.defined[first..low],
            };
            n = retarget(raised, definition, out, n);
        }
        left = left.from(passed);
        s /= 2;
    }
    n
}

// The same with `by` taken from each value.
// By name, as the field has it: one line over `increment`, which a const parameter would make no plainer.
pub fn decrement(
    a: Entries<'_>,
    by: i32,
    set: u64,
    definitions: Definitions<'_>,
    out: &mut EntriesMut<'_>,
) -> usize
    requires ascends { Ascends 0 item_numbers a.items.now }
    requires defined_len_bound { length definitions.defined.now ≤ places out.old }
    ensures { Fills (decrement definitions.entry.ends.now definitions.entry.defined.now set by (list_of a.entry)) result out.old out.new }
{
    increment(
        a,
        ink_number::int::wrapping_mul(by, -1),
        set,
        definitions,
        out,
    )
}
