// Entries written into two lent slices.

ghost use Rattle.std.specs.Prelude.{◌≡◌, [], ◌∷◌, ◌+◌, ◌<◌, ◌≤◌, length, take};
ghost use Rattle.ink_list.specs.Lists.{list_of, places, AppendsTo, Fills};

use crate::entries::Entries;
use crate::lists::Lists;

// Two slices that entries are written into, side by side.
#[derive(Drop)]
pub struct EntriesMut<'a> {
    pub items: &'a mut [u16],
    pub values: &'a mut [i32],
}

impl<'a> EntriesMut<'a> {
    // Stores an entry at place n; the next place.
    pub fn push(&mut self, n: usize, item: u16, value: i32) -> usize
        requires { n < places self.old }
        ensures { AppendsTo n ((item, value) ∷ []) result self.old self.new }
    {
        self.items[n] = item;
        self.values[n] = value;
        n + 1
    }

    // Stores a list's entries from place n on; the next place. `copy_from_slice` is a call for each slice, which short lists wait for.
    pub fn append(&mut self, n: usize, a: Entries<'_>) -> usize
        requires { n + length a.items.now ≤ places self.old }
        ensures { AppendsTo n (list_of a.entry) result self.old self.new }
    {
        let mut next = n;
        for (i, x) in a.items.iter().enumerate() {
            next = self.push(next, *x, a.values[i]);
        }
        next
    }

    // Stores a list's entries from the start; their count.
    pub fn copy(&mut self, a: Entries<'_>) -> usize
        requires { length a.items.now ≤ places self.old }
        ensures { Fills (list_of a.entry) result self.old self.new }
    {
        self.append(0, a)
    }

    // The items of the first n entries.
    pub fn first_items(&self, n: usize) -> &[u16]
        requires { n ≤ length self.now.items.now }
        ensures { result.now ≡ take n self.now.items.now }
    {
        &self.items[..n]
    }

    // Both, to read.
    pub fn lists(&self) -> Lists<'_>
        ensures items { result.items.now ≡ self.now.items.now }
        ensures values { result.values.now ≡ self.now.values.now }
    {
        Lists {
            items: &self.items[..],
            values: &self.values[..],
        }
    }
}
