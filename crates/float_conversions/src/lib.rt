// Conversions between Int, Float and bit patterns.
#![tactic(auto)]

ghost use Rattle.std.specs.Prelude.{◌≡◌};
ghost use Rattle.binary32.specs.Binary32.{Exactly, Only};
ghost use Rattle.binary32.specs.Operations.{OfInt, truncated, OfBits, ToBits};
ghost use Rattle.binary32.specs.Real.{of_int32, of_bits32, to_bits32};

// The Float nearest to n, ties to the even significand, by the program's own rounding, as document 01 has it.
#[tactic(auto, using(crate::proofs::Magnitude::plain, crate::proofs::Magnitude::turned))]
pub fn int_to_float(n: i32) -> f32
    ensures value { result ≡ of_int32 n }
    ensures exactly { Exactly (OfInt n) result }
{
    let nearest = nearest_float::magnitude_to_float(n.unsigned_abs());
    if n < 0 { -nearest } else { nearest }
}

// x cut toward zero, held within the range of an Int; 0 for a NaN. (The library's saturating_f32_to_i32 was slower: it goes by an f64.)
pub fn float_to_int(x: f32) -> i32
    ensures { result ≡ truncated x }
{
    if x >= -2147483648.0 {
        if x < 2147483648.0 {
            std::num::truncating_f32_to_i64(x) as i32
        } else {
            i32::MAX
        }
    } else if x.is_nan() {
        0
    } else {
        i32::MIN
    }
}

// The Float with the bit pattern b; every NaN pattern is the one NaN.
pub fn float_from_bits(b: u32) -> f32
    ensures value { result ≡ of_bits32 b }
    ensures exactly { Exactly (OfBits b) result }
{
    std::num::f32_from_bits_with_nan(b)
}

// The bit pattern of x; 7fc00000 for a NaN.
pub fn float_to_bits(x: f32) -> u32
    ensures value { result ≡ to_bits32 x }
    ensures only { Only (ToBits x) result }
{
    std::num::f32_to_bits_with_nan(x)
}
