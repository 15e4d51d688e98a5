// The Float nearest to a whole number.
#![tactic(auto)]

ghost use Rattle.std.specs.Prelude.{◌≡◌, ◌^◌, ◌<◌, pos};
ghost use Rattle.std.specs.Float.Ieee.{of_int};
ghost use Rattle.std.specs.Float.{binary32};
ghost use Rattle.binary32.specs.Binary32.{Exactly};
ghost use Rattle.binary32.specs.Operations.{OfInt};
ghost use Rattle.nearest_float.specs.Rounding.{to_even};

// Up to 2^24 every whole number is a Float.
const WHOLE_LIMIT: u32 = 0x100_0000;

// m / 2^k to the nearest whole number, a tie to the even one: half of 2^k less one, and the quotient's last digit, are
// added before the shift.
fn shift_to_even(m: u32, k: u32) -> u32
    requires { (0 < k) × (k < 32) }
    ensures { result ≡ to_even m (2 ^ k) }
{
    let half = 1u64 << (k - 1);
    let odd = (m >> k) & 1;
    ((u64::from(m) + (half - 1) + u64::from(odd)) >> k) as u32
}

// The Float nearest to m, ties to the even significand: m is rounded to 24 digits, and scaled back by
// a power of two, which is exact.
#[tactic(auto, using(crate::proofs::Significand::small_in, crate::proofs::Significand::unit_le))]
pub fn magnitude_to_float(m: u32) -> f32
    ensures value { result ≡ of_int binary32 (pos m) }
    ensures exactly { Exactly (OfInt (pos m)) result }
{
    if m <= WHOLE_LIMIT {
        return m as f32;
    }
    let k = 8 - m.leading_zeros();
    let digits = shift_to_even(m, k);
    let unit = 1u32 << k;
    (digits as f32) * (unit as f32)
}
