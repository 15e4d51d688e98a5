// Equal and NotEquals of two lists: whether they have the same items.
#![tactic(auto)]

ghost use Rattle.std.specs.Prelude.{◌≡◌};
ghost use Rattle.ink_list.specs.Entries.{Ascends, item_numbers};
ghost use Rattle.ink_list.specs.Ops.{equal, not_equals};

// Equal: the same items on both sides. They rise, so they are the same one by one.
pub fn equal(a: &[u16], b: &[u16]) -> bool
    requires rising_a { Ascends 0 item_numbers a.now }
    requires rising_b { Ascends 0 item_numbers b.now }
    ensures { result ≡ equal a.now b.now }
{
    a == b
}

// NotEquals: the opposite.
// By name, as the field has it: one line over `equal`, which a const parameter would make no plainer.
pub fn not_equals(a: &[u16], b: &[u16]) -> bool
    requires rising_a { Ascends 0 item_numbers a.now }
    requires rising_b { Ascends 0 item_numbers b.now }
    ensures { result ≡ not_equals a.now b.now }
{
    !equal(a, b)
}
