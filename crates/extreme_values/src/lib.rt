// The least and the greatest of a list's values: the value of a List, and a List as a bound of a range.
#![tactic(auto)]

ghost use Rattle.std.specs.Prelude.{◌≡◌};
ghost use Rattle.ink_list.specs.Ops.{beats, extreme_value, value_of_list, lower_bound, upper_bound};

const GREATEST_INT: i32 = 2147483647;

// Does x come before y as the least (or else the greatest).
pub fn beats(least: bool, x: i32, y: i32) -> bool
    ensures { result ≡ beats least x y }
{
    if least { x < y } else { y < x }
}

// The least (or else the greatest) of some values, or 0.
pub fn extreme_value(least: bool, vs: &[i32]) -> i32
    ensures { result ≡ extreme_value least vs.now }
{
    let values = vs.iter().copied();
    let extreme = if least { values.min() } else { values.max() };
    extreme.unwrap_or(0)
}

// ValueOfList: the greatest value, or 0.
pub fn value_of_list(vs: &[i32]) -> i32
    ensures { result ≡ value_of_list vs.now }
{
    extreme_value(false, vs)
}

// A List as range's lower bound: its least value, or 0.
pub fn lower_bound(vs: &[i32]) -> i32
    ensures { result ≡ lower_bound vs.now }
{
    extreme_value(true, vs)
}

// A List as range's upper bound: its greatest value, or the greatest Int.
pub fn upper_bound(vs: &[i32]) -> i32
    ensures { result ≡ upper_bound vs.now }
{
    vs.iter().copied().max().unwrap_or(GREATEST_INT)
}
