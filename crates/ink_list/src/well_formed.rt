// What it is that a list is formed as a literal of a pack.

ghost use Rattle.std.specs.Prelude.{◌≡◌};
ghost use Rattle.ink_list.specs.Entries.{ascends, bits_below, formed_lent};

use crate::lists::Lists;

// How many definitions, and how many items in all, a pack has.
#[derive(Clone, Copy)]
pub struct Counts {
    pub definitions: usize,
    pub items: usize,
}

// Has an origin set bits below d alone.
#[tactic(auto, using(crate::proofs::Formed::all_fit))]
pub fn bits_below(set: u64, d: usize) -> bool
    ensures { result ≡ bits_below d set }
{
    if d >= 64 {
        return true;
    }
    set >> d == 0
}

// Are item numbers strictly rising and below the limit.
fn ascends(items: &[u16], limit: usize) -> bool
    ensures { result ≡ ascends 0 limit items.now }
{
    let mut low = 0;
    for item in items {
        let k = usize::from(*item);
        if k < low {
            return false;
        }
        if limit <= k {
            return false;
        }
        low = k + 1;
    }
    true
}

impl Lists<'_> {
    // Are the two, as one list with these origins, formed as a literal of a pack with so many, and are they equally long.
    pub fn is_formed(self, origins: u64, counts: Counts) -> bool
        ensures { result ≡ formed_lent counts.items counts.definitions origins self.entry.items.now self.entry.values.now }
    {
        if self.items.len() != self.values.len() {
            return false;
        }
        if !bits_below(origins, counts.definitions) {
            return false;
        }
        ascends(self.items, counts.items)
    }
}
