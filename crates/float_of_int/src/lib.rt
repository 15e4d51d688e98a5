// Int to Float as a C function by itself, for tests and timing: tests/no_division looks at its machine code, and oracle/bench times it
// beside the processor's own conversion. Hosts have ink_operators.
#![tactic(auto)]

ghost use Rattle.std.specs.Prelude.{◌≡◌};
ghost use Rattle.binary32.specs.Binary32.{Exactly};
ghost use Rattle.binary32.specs.Operations.{OfInt};
ghost use Rattle.binary32.specs.Real.{of_int32};

// The Float nearest to n, ties to the even significand.
#[unsafe(no_mangle)]
pub extern "C" fn float_of_int(n: i32) -> f32
    ensures value { result ≡ of_int32 n }
    ensures exactly { Exactly (OfInt n) result }
{
    float_conversions::int_to_float(n)
}
