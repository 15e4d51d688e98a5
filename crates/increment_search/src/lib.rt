// Increment's search within one definition.
#![tactic(auto)]

pub mod definition;

ghost use Rattle.std.specs.Prelude.{◌≡◌, true, ◌+◌, ◌≤◌, length};
ghost use Rattle.ink_list.specs.Lists.{places, AppendsTo};
ghost use Rattle.list_definitions.specs.Search.{among, rises, Rose};
ghost use Rattle.increment_search.specs.Chosen.{values_of, chosen_of};

use definition::Definition;
use ink_list::entries_mut::EntriesMut;
use ink_number::int::wrapping_add;

// The values of entries, to each of which `by` is added, wrapping.
#[derive(Clone, Copy)]
pub struct Raised<'a> {
    pub values: &'a [i32],
    pub by: i32,
}

impl Raised<'_> {
    // Is v among them.
    fn hits(self, v: i32) -> bool
        ensures { result ≡ among (values_of self.entry) v }
    {
        // Tried as `any`: its closure is not told that a value it is lent fits an i32, and the proof did not close.
        for value in self.values {
            if wrapping_add(*value, self.by) == v {
                return true;
            }
        }
        false
    }

    // Do they rise strictly.
    fn rises(self) -> bool
        ensures { Rose self.entry.by self.entry.values.now result }
    {
        let Some((first, rest)) = self.values.split_first() else {
            return true;
        };
        let mut last = wrapping_add(*first, self.by);
        for value in rest {
            let v = wrapping_add(*value, self.by);
            if v <= last {
                return false;
            }
            last = v;
        }
        true
    }
}

// Where both rise, one pass over the two, side by side. Two cursors go on by what they compare, so no `for` counts them;
// what is left of each as a slice would need k counted beside it, since it is the item's number.
fn search_rising(
    raised: Raised<'_>,
    definition: Definition<'_>,
    out: &mut EntriesMut<'_>,
    at: usize,
) -> usize
    requires rising { (rises definition.values.now ≡ true) × (rises (values_of raised) ≡ true) }
    requires room { at + length definition.values.now ≤ places out.old }
    ensures { AppendsTo at (chosen_of definition.entry raised.entry) result out.old out.new }
{
    let mut k = 0;
    let mut i = 0;
    let mut n = at;
    while k < definition.values.len() && i < raised.values.len() {
        let d = definition.values[k];
        let v = wrapping_add(raised.values[i], raised.by);
        if d < v {
            k += 1;
        } else if v < d {
            i += 1;
        } else {
            n = out.push(n, (definition.first + k) as u16, d);
            k += 1;
            i += 1;
        }
    }
    n
}

// Each item's value looked for among the entries' values and among those of the items before it.
fn search_each(
    raised: Raised<'_>,
    definition: Definition<'_>,
    out: &mut EntriesMut<'_>,
    at: usize,
) -> usize
    requires { at + length definition.values.now ≤ places out.old }
    ensures { AppendsTo at (chosen_of definition.entry raised.entry) result out.old out.new }
{
    let mut n = at;
    for (k, d) in definition.values.iter().enumerate() {
        let before = Raised {
            values: &definition.values[..k],
            by: 0,
        };
        if raised.hits(*d) && !before.hits(*d) {
            n = out.push(n, (definition.first + k) as u16, *d);
        }
    }
    n
}

// The definition's items that are defined with one of the values, stored from place `at` on.
pub fn retarget(
    raised: Raised<'_>,
    definition: Definition<'_>,
    out: &mut EntriesMut<'_>,
    at: usize,
) -> usize
    requires { at + length definition.values.now ≤ places out.old }
    ensures { AppendsTo at (chosen_of definition.entry raised.entry) result out.old out.new }
{
    if raised.values.is_empty() {
        return at;
    }
    let defined = Raised {
        values: definition.values,
        by: 0,
    };
    if defined.rises() && raised.rises() {
        return search_rising(raised, definition, out, at);
    }
    search_each(raised, definition, out, at)
}
