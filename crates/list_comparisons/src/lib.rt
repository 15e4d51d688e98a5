// The comparisons of two lists, by their least and greatest values.
#![tactic(auto)]

ghost use Rattle.std.specs.Prelude.{◌≡◌};
ghost use Rattle.ink_list.specs.Ops.{greater, greater_or_equals, less, less_or_equals};

use extreme_values::extreme_value;

// Greater: a's least above b's greatest.
pub fn greater(a: &[i32], b: &[i32]) -> bool
    ensures { result ≡ greater a.now b.now }
{
    if a.is_empty() {
        return false;
    }
    if b.is_empty() {
        return true;
    }
    extreme_value(false, b) < extreme_value(true, a)
}

// GreaterThanOrEquals: least against least and greatest against greatest.
pub fn greater_or_equals(a: &[i32], b: &[i32]) -> bool
    ensures { result ≡ greater_or_equals a.now b.now }
{
    if a.is_empty() {
        return false;
    }
    if b.is_empty() {
        return true;
    }
    let least = extreme_value(true, b) <= extreme_value(true, a);
    least && extreme_value(false, b) <= extreme_value(false, a)
}

// Less: a's greatest below b's least.
// By name, as the field has it: one line over `greater`, which a const parameter would make no plainer.
pub fn less(a: &[i32], b: &[i32]) -> bool
    ensures { result ≡ less a.now b.now }
{
    greater(b, a)
}

// LessThanOrEquals: the mirror of GreaterThanOrEquals.
pub fn less_or_equals(a: &[i32], b: &[i32]) -> bool
    ensures { result ≡ less_or_equals a.now b.now }
{
    greater_or_equals(b, a)
}
