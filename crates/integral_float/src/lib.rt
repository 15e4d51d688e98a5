// A Float rounded to an integral value, toward negative and toward positive infinity.
#![tactic(auto)]

ghost use Rattle.std.specs.Prelude.{◌≡◌, true, pos};
ghost use Rattle.ink_number.specs.Int.{bit_of};
ghost use Rattle.binary32.specs.Binary32.{Exactly};
ghost use Rattle.binary32.specs.Operations.{Floor, Ceiling, less};
ghost use Rattle.binary32.specs.Real.{floor_f, ceiling_f, of_int32};
ghost use Rattle.integral_float.specs.Near.{fraction_limit, Near};

// From 2^23 on a Float has no fraction.
const FRACTION_LIMIT: f32 = 8388608.0;

// A whole number less than 1 away from a positive x below 2^23: the sum is rounded to one, and the difference is exact.
fn nearby(x: f32) -> f32
    requires { (less (of_int32 (pos 0)) x ≡ true) × (less x (of_int32 (pos fraction_limit)) ≡ true) }
    ensures { Near x result }
{
    (x + FRACTION_LIMIT) - FRACTION_LIMIT
}

// 1 or 0, without a branch; f32::from would convert a whole number.
fn one_where(test: bool) -> f32
    ensures { result ≡ of_int32 (pos (bit_of test)) }
{
    if test { 1.0 } else { 0.0 }
}

// A positive x rounded down.
fn whole_below(x: f32) -> f32
    requires { less (of_int32 (pos 0)) x ≡ true }
    ensures { result ≡ floor_f x }
{
    if x < FRACTION_LIMIT {
        let whole = nearby(x);
        return whole - one_where(x < whole);
    }
    x
}

// A positive x rounded up.
fn whole_above(x: f32) -> f32
    requires { less (of_int32 (pos 0)) x ≡ true }
    ensures { result ≡ ceiling_f x }
{
    if x < FRACTION_LIMIT {
        let whole = nearby(x);
        return whole + one_where(whole < x);
    }
    x
}

// The nearest integral value from below; a zero, also -0.0, is its own, and a NaN is a NaN. (The library's is slower: it rounds both ways.)
pub fn floor(x: f32) -> f32
    ensures value { result ≡ floor_f x }
    ensures exactly { Exactly (Floor x) result }
{
    if x < 0.0 {
        return -whole_above(-x);
    }
    if x > 0.0 {
        return whole_below(x);
    }
    x
}

// The nearest integral value from above: -0.0 for -0.5.
pub fn ceiling(x: f32) -> f32
    ensures value { result ≡ ceiling_f x }
    ensures exactly { Exactly (Ceiling x) result }
{
    -floor(-x)
}
