// Two lent slices that lists stand in.

ghost use Rattle.std.specs.Prelude.{◌≡◌, ◌+◌, ◌≤◌, length};
ghost use Rattle.slices.specs.Filled.{part};

use crate::entries::Entries;

// The entries of lists: their items in one slice, and their values at the same places of another, which may be longer or shorter.
#[derive(Clone, Copy)]
pub struct Lists<'a> {
    pub items: &'a [u16],
    pub values: &'a [i32],
}

impl<'a> Lists<'a> {
    // The n entries from place s on.
    pub fn part(self, s: usize, n: usize) -> Entries<'a>
        requires { (s + n ≤ length self.items.now) × (s + n ≤ length self.values.now) }
        ensures items { result.items.now ≡ part s n self.entry.items.now }
        ensures values { result.values.now ≡ part s n self.entry.values.now }
    {
        let end = s + n;
        Entries {
            items: &self.items[s..end],
            values: &self.values[s..end],
        }
    }
}
