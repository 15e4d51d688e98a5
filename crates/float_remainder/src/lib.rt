// The remainder of two Floats, over whole numbers: `%` on an f32 would be a call of the C library. A finite Float is a whole number of
// units, of 2^-149, which the fields of its bit pattern tell.
#![tactic(auto)]

ghost use Rattle.std.specs.Prelude.{◌≡◌, ◌*◌, ◌%◌, ◌^◌, ◌<◌, ◌≤◌, leb};
ghost use Rattle.binary32.specs.Binary32.{Is, Exactly};
ghost use Rattle.binary32.specs.Operations.{Remainder};
ghost use Rattle.binary32.specs.Real.{rem_f};
ghost use Rattle.float_remainder.specs.Units.{infinity, exponent, significand, units};

const SIGN_BIT: u32 = 0x8000_0000;

// The pattern of an infinity: above it are the NaNs.
const INFINITY: u32 = 0x7f80_0000;

// A significand's leading digit, which no pattern has.
const HIDDEN: u32 = 0x80_0000;

const FRACTION_DIGITS: u32 = 23;

// A significand has 24 digits, and a u64 room for 40 more.
const STEP: u32 = 40;

// The units are a significand times a power of two; this is the power's exponent.
fn exponent(pattern: u32) -> u32
    ensures { result ≡ exponent pattern }
{
    let field = (pattern % SIGN_BIT) >> FRACTION_DIGITS;
    if field == 0 { 0 } else { field - 1 }
}

fn significand(pattern: u32) -> u32
    ensures { result ≡ significand pattern }
{
    let fraction = pattern % HIDDEN;
    if pattern % SIGN_BIT < HIDDEN {
        fraction
    } else {
        HIDDEN + fraction
    }
}

// m * 2^d % n, by the digits that a u64 has room for.
#[tactic(auto, using(crate::proofs::Scaling::room))]
fn shifted_rem(m: u32, n: u32, d: u32) -> u32
    requires m_short { m < 2 ^ 24 }
    requires n_short { n < 2 ^ 24 }
    requires n_nonzero { 0 < n }
    ensures { result ≡ m * 2 ^ d % n }
{
    let divisor = u64::from(n);
    let mut rest = u64::from(m);
    let mut left = d;
    // What is left counts digits, STEP a turn, and is no index: a `for` over the turns would count the digits by hand beside it.
    while left > STEP {
        rest = (rest << STEP) % divisor;
        left -= STEP;
    }
    ((rest << left) % divisor) as u32
}

// The pattern of 2^k units.
fn power_pattern(k: u32) -> u32
    requires { k ≤ 253 }
    ensures finite { result < infinity }
    ensures value { units result ≡ 2 ^ k }
{
    if k < FRACTION_DIGITS {
        1u32 << k
    } else {
        (k - FRACTION_DIGITS + 1) << FRACTION_DIGITS
    }
}

// 2^k units, with the sign of a pattern.
fn power(pattern: u32, k: u32) -> f32
    requires { k ≤ 253 }
    ensures { Is result (leb (2 ^ 31) pattern) (2 ^ k) (2 ^ 149) }
{
    f32::from_bits((pattern - pattern % SIGN_BIT) + power_pattern(k))
}

// The remainder of two finite patterns, with the first one's sign. With a lower exponent than the divisor's the dividend is less.
fn finite_rem(dividend: u32, divisor: u32) -> f32
    requires dividend_finite { dividend % 2 ^ 31 < infinity }
    requires divisor_finite { divisor % 2 ^ 31 < infinity }
    requires divisor_nonzero { 0 < divisor % 2 ^ 31 }
    ensures { Is result (leb (2 ^ 31) dividend) (units dividend % units divisor) (2 ^ 149) }
{
    let from = exponent(dividend);
    let to = exponent(divisor);
    if from < to {
        return f32::from_bits(dividend);
    }
    let rest = shifted_rem(significand(dividend), significand(divisor), from - to);
    (rest as f32) * power(dividend, to)
}

// The dividend less the divisor taken as often as the truncated quotient says, exact, with the dividend's sign: NaN beside a NaN, of an
// infinity and by a zero, and a finite dividend by an infinity itself.
pub fn rem(a: f32, b: f32) -> f32
    ensures value { result ≡ rem_f a b }
    ensures exactly { Exactly (Remainder a b) result }
{
    if a.is_nan() {
        return a;
    }
    if b.is_nan() {
        return b;
    }
    let dividend = a.to_bits();
    let divisor = b.to_bits();
    if dividend % SIGN_BIT >= INFINITY {
        return f32::NAN;
    }
    if divisor % SIGN_BIT == 0 {
        return f32::NAN;
    }
    if divisor % SIGN_BIT >= INFINITY {
        return a;
    }
    finite_rem(dividend, divisor)
}
