// A number of one kind, an Int or a Float, and what each operator answers on two of them.

ghost use Rattle.std.specs.Prelude.{◌≡◌, ℕ, Bool, false, ◌&&◌, ◌||◌};
ghost use Rattle.op.specs.Op.{op_add, op_subtract, op_divide, op_multiply, op_mod, op_min, op_max, op_equal, op_greater, op_less, op_greater_than_or_equals, op_less_than_or_equals, op_not_equals, op_and, op_or};
ghost use Rattle.ink_number.specs.Answer.{Answer, gives};
ghost use Rattle.number_operators.specs.Laws.{NoneOf, arithmetic, tests};

use ink_number::int;
use ink_number::question::Question;

// The functions that an impl calls stay in crates of their own, where each edit costs little: a trait is implemented where it is
// declared.
pub trait Number: Copy {
    // What arithmetic answers: a number, and where it may be refused a number or a question.
    type Outcome;

    ghost says: { Self.Outcome → Answer Self };

    ghost arith: { ℕ → Self → Self → Answer Self };

    ghost test: { ℕ → Self → Self → Bool };

    ghost truth: { Self → Bool };

    ghost zero: { Self };

    fn add(self, other: Self) -> Self::Outcome
        ensures { says result ≡ arith op_add self other };

    fn subtract(self, other: Self) -> Self::Outcome
        ensures { says result ≡ arith op_subtract self other };

    fn divide(self, other: Self) -> Self::Outcome
        ensures { says result ≡ arith op_divide self other };

    fn multiply(self, other: Self) -> Self::Outcome
        ensures { says result ≡ arith op_multiply self other };

    fn remainder(self, other: Self) -> Self::Outcome
        ensures { says result ≡ arith op_mod self other };

    fn smaller(self, other: Self) -> Self::Outcome
        ensures { says result ≡ arith op_min self other };

    fn greater(self, other: Self) -> Self::Outcome
        ensures { says result ≡ arith op_max self other };

    fn zero() -> Self::Outcome
        ensures { says result ≡ gives zero };

    fn eq(self, other: Self) -> bool
        ensures { result ≡ test op_equal self other };

    fn ne(self, other: Self) -> bool
        ensures { result ≡ test op_not_equals self other };

    fn lt(self, other: Self) -> bool
        ensures { result ≡ test op_less self other };

    fn le(self, other: Self) -> bool
        ensures { result ≡ test op_less_than_or_equals self other };

    fn gt(self, other: Self) -> bool
        ensures { result ≡ test op_greater self other };

    fn ge(self, other: Self) -> bool
        ensures { result ≡ test op_greater_than_or_equals self other };

    fn truthy(self) -> bool
        ensures { result ≡ truth self };

    ghost both: { (x y : Self) → test op_and x y ≡ truth x && truth y };

    ghost either: { (x y : Self) → test op_or x y ≡ truth x || truth y };

    ghost no_arith: { (o : ℕ) (x y : Self) → NoneOf arithmetic o → arith o x y ≡ gives zero };

    ghost no_test: { (o : ℕ) (x y : Self) → NoneOf tests o → test o x y ≡ false };
}

#[tactic(auto, unfolding(crate::specs::Numbers::arith_z, crate::specs::Numbers::test_z))]
impl Number for i32 {
    ghost use Rattle.std.specs.Prelude.{pos};
    ghost use Rattle.ink_number.specs.Int.{truthy_z};
    ghost use Rattle.ink_number.specs.Question.{answer};
    ghost use Rattle.number_operators.specs.Numbers.{arith_z, test_z};
    ghost use Rattle.number_operators.specs.Laws.{both_z, either_z, no_arith_z, no_test_z};

    type Outcome = Result<i32, Question>;

    ghost says = { answer };

    ghost arith = { arith_z };

    ghost test = { test_z };

    ghost truth = { truthy_z };

    ghost zero = { pos 0 };

    ghost both = { both_z };

    ghost either = { either_z };

    ghost no_arith = { no_arith_z };

    ghost no_test = { no_test_z };

    fn add(self, other: i32) -> Result<i32, Question> {
        Ok(int::wrapping_add(self, other))
    }

    fn subtract(self, other: i32) -> Result<i32, Question> {
        Ok(int::wrapping_sub(self, other))
    }

    fn divide(self, other: i32) -> Result<i32, Question> {
        int::divide(self, other)
    }

    fn multiply(self, other: i32) -> Result<i32, Question> {
        Ok(int::wrapping_mul(self, other))
    }

    fn remainder(self, other: i32) -> Result<i32, Question> {
        int::remainder_of(self, other)
    }

    fn smaller(self, other: i32) -> Result<i32, Question> {
        Ok(int_comparisons::min(self, other))
    }

    fn greater(self, other: i32) -> Result<i32, Question> {
        Ok(int_comparisons::max(self, other))
    }

    fn zero() -> Result<i32, Question> {
        Ok(0)
    }

    fn eq(self, other: i32) -> bool {
        int_comparisons::eq(self, other)
    }

    fn ne(self, other: i32) -> bool {
        int_comparisons::ne(self, other)
    }

    fn lt(self, other: i32) -> bool {
        int_comparisons::lt(self, other)
    }

    fn le(self, other: i32) -> bool {
        int_comparisons::le(self, other)
    }

    fn gt(self, other: i32) -> bool {
        int_comparisons::gt(self, other)
    }

    fn ge(self, other: i32) -> bool {
        int_comparisons::ge(self, other)
    }

    fn truthy(self) -> bool {
        int_comparisons::truthy(self)
    }
}

#[tactic(auto, unfolding(crate::specs::Numbers::arith_f, crate::specs::Numbers::test_f))]
impl Number for f32 {
    ghost use Rattle.std.specs.Prelude.{pos};
    ghost use Rattle.binary32.specs.Real.{truthy_f, of_int32};
    ghost use Rattle.number_operators.specs.Numbers.{arith_f, test_f};
    ghost use Rattle.number_operators.specs.Laws.{both_f, either_f, no_arith_f, no_test_f};

    type Outcome = f32;

    ghost says = { gives };

    ghost arith = { λ o x y. gives (arith_f o x y) };

    ghost test = { test_f };

    ghost truth = { truthy_f };

    ghost zero = { of_int32 (pos 0) };

    ghost both = { both_f };

    ghost either = { either_f };

    ghost no_arith = { no_arith_f };

    ghost no_test = { no_test_f };

    fn add(self, other: f32) -> f32 {
        ink_float::add(self, other)
    }

    fn subtract(self, other: f32) -> f32 {
        ink_float::sub(self, other)
    }

    fn divide(self, other: f32) -> f32 {
        ink_float::div(self, other)
    }

    fn multiply(self, other: f32) -> f32 {
        ink_float::mul(self, other)
    }

    fn remainder(self, other: f32) -> f32 {
        ink_float::rem(self, other)
    }

    fn smaller(self, other: f32) -> f32 {
        ink_float::min(self, other)
    }

    fn greater(self, other: f32) -> f32 {
        ink_float::max(self, other)
    }

    fn zero() -> f32 {
        float_conversions::int_to_float(0)
    }

    fn eq(self, other: f32) -> bool {
        ink_float::eq(self, other)
    }

    fn ne(self, other: f32) -> bool {
        ink_float::ne(self, other)
    }

    fn lt(self, other: f32) -> bool {
        ink_float::lt(self, other)
    }

    fn le(self, other: f32) -> bool {
        ink_float::le(self, other)
    }

    fn gt(self, other: f32) -> bool {
        ink_float::gt(self, other)
    }

    fn ge(self, other: f32) -> bool {
        ink_float::ge(self, other)
    }

    fn truthy(self) -> bool {
        ink_float::truthy(self)
    }
}
