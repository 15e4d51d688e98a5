// The operators on the entries of two lists: tests, and Add, Subtract and Intersect.
#![tactic(auto)]

ghost use Rattle.std.specs.Prelude.{◌≡◌, ℕ};
ghost use Rattle.ink_list.specs.Entries.{item_numbers, Ascends, Rising};
ghost use Rattle.ink_list.specs.Lists.{list_of, places, Fills};
ghost use Rattle.op.specs.Op.{op_number};
ghost use Rattle.list_pairs.specs.Pairs.{test_l, merge_l};

use ink_list::entries::Entries;
use ink_list::entries_mut::EntriesMut;
use op::Op;

// A test of two lists.
#[tactic(auto, using(ink_list::proofs::Rests::items_entries, ink_list::proofs::Rests::values_entries), unfolding(crate::specs::Pairs::test_l))]
pub fn test_entries(op: Op, a: Entries<'_>, b: Entries<'_>) -> bool
    requires rising_a { Ascends 0 item_numbers a.items.now }
    requires rising_b { Ascends 0 item_numbers b.items.now }
    ensures { result ≡ test_l (op_number op) (list_of a.entry) (list_of b.entry) }
{
    match op {
        Op::Equal => list_equality::equal(a.items, b.items),
        Op::Greater => list_comparisons::greater(a.values, b.values),
        Op::Less => list_comparisons::less(a.values, b.values),
        Op::GreaterThanOrEquals => list_comparisons::greater_or_equals(a.values, b.values),
        Op::LessThanOrEquals => list_comparisons::less_or_equals(a.values, b.values),
        Op::NotEquals => list_equality::not_equals(a.items, b.items),
        Op::Has => list_has::has(a.items, b.items),
        Op::Hasnt => list_has::hasnt(a.items, b.items),
        _ => false,
    }
}

// A result that is a List.
#[tactic(auto, using(ink_list::proofs::Rests::items_entries), unfolding(crate::specs::Pairs::merge_l))]
pub fn merge(op: Op, a: Entries<'_>, b: Entries<'_>, out: &mut EntriesMut<'_>) -> usize
    requires rising_a { Ascends 0 (places out.old) a.items.now }
    requires rising_b { Ascends 0 (places out.old) b.items.now }
    ensures { (limit : ℕ) → Rising limit (list_of a.entry) → Rising limit (list_of b.entry)
        → Fills (merge_l limit (op_number op) (list_of a.entry) (list_of b.entry)) result out.old out.new }
{
    match op {
        Op::Add => list_merge::union(a, b, out),
        Op::Subtract => list_sift::without(a, b.items, out),
        Op::Intersect => list_sift::intersect(a, b.items, out),
        _ => 0,
    }
}
