// The operators on Float, each under a name for the definition that its contract cites, and for its edits. A Float is an f32. Each contract says over whole numbers what the answer is, by a definition of
// binary32's specs/Operations.antt. Where that is a relation it also gives the answer the name that other definitions cite.
#![tactic(auto)]

ghost use Rattle.std.specs.Prelude.{◌≡◌};
ghost use Rattle.binary32.specs.Binary32.{Exactly};
ghost use Rattle.binary32.specs.Operations.{Sum, Difference, Product, Quotient, Remainder, opposite, equal, not_equal, less, less_or_equal, smaller, greater, truthy};
ghost use Rattle.binary32.specs.Real.{add_f, sub_f, mul_f, div_f, rem_f};

pub fn add(a: f32, b: f32) -> f32
    ensures value { result ≡ add_f a b }
    ensures exactly { Exactly (Sum a b) result }
{
    a + b
}

pub fn sub(a: f32, b: f32) -> f32
    ensures value { result ≡ sub_f a b }
    ensures exactly { Exactly (Difference a b) result }
{
    a - b
}

pub fn mul(a: f32, b: f32) -> f32
    ensures value { result ≡ mul_f a b }
    ensures exactly { Exactly (Product a b) result }
{
    a * b
}

pub fn div(a: f32, b: f32) -> f32
    ensures value { result ≡ div_f a b }
    ensures exactly { Exactly (Quotient a b) result }
{
    a / b
}

pub fn rem(a: f32, b: f32) -> f32
    ensures value { result ≡ rem_f a b }
    ensures exactly { Exactly (Remainder a b) result }
{
    float_remainder::rem(a, b)
}

#[tactic(auto, using(binary32::proofs::Meets::neg_meets))]
pub fn neg(a: f32) -> f32
    ensures { result ≡ opposite a }
{
    -a
}

#[tactic(auto, using(binary32::proofs::Meets::eq_meets))]
pub fn eq(a: f32, b: f32) -> bool
    ensures { result ≡ equal a b }
{
    a == b
}

#[tactic(auto, using(binary32::proofs::Meets::ne_meets))]
pub fn ne(a: f32, b: f32) -> bool
    ensures { result ≡ not_equal a b }
{
    a != b
}

#[tactic(auto, using(binary32::proofs::Meets::lt_meets))]
pub fn lt(a: f32, b: f32) -> bool
    ensures { result ≡ less a b }
{
    a < b
}

#[tactic(auto, using(binary32::proofs::Meets::le_meets))]
pub fn le(a: f32, b: f32) -> bool
    ensures { result ≡ less_or_equal a b }
{
    a <= b
}

#[tactic(auto, using(binary32::proofs::Meets::lt_meets))]
pub fn gt(a: f32, b: f32) -> bool
    ensures { result ≡ less b a }
{
    a > b
}

#[tactic(auto, using(binary32::proofs::Meets::le_meets))]
pub fn ge(a: f32, b: f32) -> bool
    ensures { result ≡ less_or_equal b a }
{
    a >= b
}

// The smaller: the other operand beside a NaN, the left one when equal.
#[tactic(auto, using(crate::proofs::Nans::smaller_nan, crate::proofs::Nans::smaller_right, crate::proofs::Nans::smaller_left))]
pub fn min(a: f32, b: f32) -> f32
    ensures { result ≡ smaller a b }
{
    if a.is_nan() {
        return b;
    }
    if b < a { b } else { a }
}

// The greater: the other operand beside a NaN, the left one when equal.
#[tactic(auto, using(crate::proofs::Nans::greater_nan, crate::proofs::Nans::greater_right, crate::proofs::Nans::greater_left))]
pub fn max(a: f32, b: f32) -> f32
    ensures { result ≡ greater a b }
{
    if a.is_nan() {
        return b;
    }
    if a < b { b } else { a }
}

// A NaN is truthy, since it is not 0.
#[tactic(auto, using(binary32::proofs::Meets::truthy_meets))]
pub fn truthy(x: f32) -> bool
    ensures { result ≡ truthy x }
{
    x != 0.0
}
