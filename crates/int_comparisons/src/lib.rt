// The comparisons of two Ints, the smaller and the greater of them, and an Int's truth. They are the language's and the library's own: each
// has a name here for the definition that its contract cites, and for its edits.
#![tactic(auto)]

ghost use Rattle.std.specs.Prelude.{◌≡◌, not};
ghost use Rattle.std.specs.Int.Signed.{lt_z, le_z};
ghost use Rattle.ink_number.specs.Int.{min_z, max_z, eq_z, truthy_z};

#[tactic(auto, using(ink_number::proofs::Signed::same_bits))]
pub fn eq(a: i32, b: i32) -> bool
    ensures { result ≡ eq_z a b }
{
    a == b
}

#[tactic(auto, using(ink_number::proofs::Signed::same_bits))]
pub fn ne(a: i32, b: i32) -> bool
    ensures { result ≡ not (eq_z a b) }
{
    a != b
}

pub fn lt(a: i32, b: i32) -> bool
    ensures { result ≡ lt_z a b }
{
    a < b
}

pub fn le(a: i32, b: i32) -> bool
    ensures { result ≡ le_z a b }
{
    a <= b
}

pub fn gt(a: i32, b: i32) -> bool
    ensures { result ≡ lt_z b a }
{
    a > b
}

pub fn ge(a: i32, b: i32) -> bool
    ensures { result ≡ le_z b a }
{
    a >= b
}

#[tactic(auto, unfolding(ink_number::specs::Int::min_z))]
pub fn min(a: i32, b: i32) -> i32
    ensures { result ≡ min_z a b }
{
    a.min(b)
}

#[tactic(auto, unfolding(ink_number::specs::Int::max_z))]
pub fn max(a: i32, b: i32) -> i32
    ensures { result ≡ max_z a b }
{
    a.max(b)
}

#[tactic(auto, using(ink_number::proofs::Signed::same_bits))]
pub fn truthy(a: i32) -> bool
    ensures { result ≡ truthy_z a }
{
    a != 0
}
