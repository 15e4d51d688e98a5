// A lent list.

ghost use Rattle.std.specs.Prelude.{◌≡◌, ◌+◌, ◌≤◌, length, drop, slice_range, IfSome, IfNone};

// The entries of a lent list: their items and their values, equally many. That the items rise is asked where it is needed, by readers below
// 65,536 and by writers below the places of the result: a type for each of the two would be no plainer.
#[derive(Clone, Copy)]
pub struct Entries<'a> {
    pub items: &'a [u16],
    pub values: &'a [i32],
    pub ghost parallel: { length items.now ≡ length values.now },
}

impl<'a> Entries<'a> {
    // Of two slices, if they are equally long.
    pub fn new(items: &'a [u16], values: &'a [i32]) -> Option<Entries<'a>>
        ensures some { IfSome result (λ a. (a.items.now ≡ items.now) × (a.values.now ≡ values.now)) }
        ensures none { IfNone result (length items.now ≡ length values.now → ⊥) }
    {
        if items.len() == values.len() {
            Some(Entries { items, values })
        } else {
            None
        }
    }

    pub fn len(self) -> usize
        ensures { result ≡ length self.entry.items.now }
    {
        self.items.len()
    }

    // Those from place i on.
    pub fn from(self, i: usize) -> Entries<'a>
        requires { i ≤ length self.items.now }
        ensures items { result.items.now ≡ drop i self.entry.items.now }
        ensures values { result.values.now ≡ drop i self.entry.values.now }
    {
        Entries {
            items: &self.items[i..],
            values: &self.values[i..],
        }
    }

    // Those from place i on and before place e.
    pub fn between(self, i: usize, e: usize) -> Entries<'a>
        requires { (i ≤ e) × (e ≤ length self.items.now) }
        ensures items { result.items.now ≡ slice_range self.entry.items.now i e }
        ensures values { result.values.now ≡ slice_range self.entry.values.now i e }
    {
        Entries {
            items: &self.items[i..e],
            values: &self.values[i..e],
        }
    }
}
