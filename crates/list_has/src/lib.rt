// Has and Hasnt: whether a list has all items of another.
#![tactic(auto)]

ghost use Rattle.std.specs.Prelude.{◌≡◌};
ghost use Rattle.ink_list.specs.Entries.{Ascends, item_numbers};
ghost use Rattle.ink_list.specs.Ops.{has, hasnt};

use ink_list::cursor::{skip_below, stands};

// Has: both are non-empty, and b's items all lie in a.
pub fn has(a: &[u16], b: &[u16]) -> bool
    requires rising_a { Ascends 0 item_numbers a.now }
    requires rising_b { Ascends 0 item_numbers b.now }
    ensures { result ≡ has a.now b.now }
{
    if a.is_empty() || b.is_empty() {
        return false;
    }
    let mut left = a;
    for x in b {
        left = skip_below(left, *x);
        if !stands(left, *x) {
            return false;
        }
    }
    true
}

// Hasnt: the opposite.
// By name, as the field has it: one line over `has`, which a const parameter would make no plainer.
pub fn hasnt(a: &[u16], b: &[u16]) -> bool
    requires rising_a { Ascends 0 item_numbers a.now }
    requires rising_b { Ascends 0 item_numbers b.now }
    ensures { result ≡ hasnt a.now b.now }
{
    !has(a, b)
}
