// Range on three values: the bounds that two of them give, and the entries of the first whose values lie within.
#![tactic(auto)]

ghost use Rattle.std.specs.Prelude.{◌≡◌, List, ℕ, ◌≤◌, ◌+◌, length};
ghost use Rattle.ink_list.specs.Lists.{places, Fills};
ghost use Rattle.ink_list.specs.Ops.{range};
ghost use Rattle.ink_value.specs.Convert.{entries_of};
ghost use Rattle.ink_value.specs.Held.{val_in, FormedIn};
ghost use Rattle.ink_value.specs.Value.{val_of, start_of, len_of};
ghost use Rattle.value_range.specs.Bounds.{lower_of, upper_of};

use ink_list::entries_mut::EntriesMut;
use ink_list::lists::Lists;
use ink_value::Value;

// Range's bounds where neither an Int nor a list that has entries gives one.
const LOWER_BOUND: i32 = 0;

const UPPER_BOUND: i32 = 2147483647;

// Two functions: they call different readers and have different defaults; one with both as parameters would be no plainer.
#[tactic(auto, using(ink_value::proofs::Reading::values_at, slices::proofs::Filled::cut))]
pub fn lower_bound(v: Value, values: &[i32]) -> i32
    requires { start_of v + len_of v ≤ length values.now }
    ensures { (is : List ℕ) → start_of v + len_of v ≤ length is → result ≡ lower_of (val_of is values.now v) }
{
    match v {
        Value::Int(z) => z,
        Value::List { start, len, .. } => extreme_values::lower_bound(&values[start..start + len]),
        Value::Bool(_) | Value::Float(_) | Value::Void => LOWER_BOUND,
    }
}

#[tactic(auto, using(ink_value::proofs::Reading::values_at, slices::proofs::Filled::cut))]
pub fn upper_bound(v: Value, values: &[i32]) -> i32
    requires { start_of v + len_of v ≤ length values.now }
    ensures { (is : List ℕ) → start_of v + len_of v ≤ length is → result ≡ upper_of (val_of is values.now v) }
{
    match v {
        Value::Int(z) => z,
        Value::List { start, len, .. } => extreme_values::upper_bound(&values[start..start + len]),
        Value::Bool(_) | Value::Float(_) | Value::Void => UPPER_BOUND,
    }
}

// Range on a list, its lower and its upper bound.
pub fn range(a: Value, b: Value, c: Value, lists: Lists<'_>, out: &mut EntriesMut<'_>) -> usize
    requires formed_a { FormedIn (places out.old) lists a }
    requires formed_b { FormedIn (places out.old) lists b }
    requires formed_c { FormedIn (places out.old) lists c }
    ensures { (limit : ℕ) → FormedIn limit lists.entry a
        → Fills (range limit (lower_of (val_in lists.entry b)) (upper_of (val_in lists.entry c)) (entries_of (val_in lists.entry a)))
        result out.old out.new }
{
    let lower = lower_bound(b, lists.values);
    let upper = upper_bound(c, lists.values);
    list_range::range(a.entries_of(lists), lower, upper, out)
}
