// The operators on numbers: arithmetic and tests by operator, and the same of numbers in parts.
#![tactic(auto)]

ghost use Rattle.std.specs.Prelude.{◌≡◌, not, ◌&&◌, ◌||◌, eqb};
ghost use Rattle.ink_number.specs.Question.{answer};
ghost use Rattle.op.specs.Op.{op_number};
ghost use Rattle.ink_value.specs.Val.{code_of};
ghost use Rattle.ink_value.specs.declared.Kind.TheVariants as K;
ghost use Rattle.ink_value.specs.Convert.{as_int, as_float, truthy};
ghost use Rattle.ink_value.specs.Held.{number_in};
ghost use Rattle.number_operators.specs.Numbers.{arith_z, arith_f, unary_f, test_z, test_f, test_two, whole_unary, real_unary};

use crate::number::Number;
use ink_number::int;
use ink_number::question::Question;
use ink_value::Kind;
use ink_value::number_parts::NumberParts;
use op::Op;

pub mod number;

// The arithmetic of two numbers of one kind.
pub fn arith<N: Number>(op: Op, x: N, y: N) -> N::Outcome
    ensures { N.says result ≡ N.arith (op_number op) x y }
{
    match op {
        Op::Add => x.add(y),
        Op::Subtract => x.subtract(y),
        Op::Divide => x.divide(y),
        Op::Multiply => x.multiply(y),
        Op::Mod => x.remainder(y),
        Op::Min => x.smaller(y),
        Op::Max => x.greater(y),
        _ => N::zero(),
    }
}

#[tactic(auto, unfolding(crate::specs::Numbers::unary_f))]
pub fn unary_float(op: Op, x: f32) -> f32
    ensures { result ≡ unary_f (op_number op) x }
{
    match op {
        Op::Negate => ink_float::neg(x),
        Op::Floor => integral_float::floor(x),
        Op::Ceiling => integral_float::ceiling(x),
        Op::Float => x,
        _ => float_conversions::int_to_float(0),
    }
}

// The tests on two numbers of one kind.
pub fn test<N: Number>(op: Op, x: N, y: N) -> bool
    ensures { result ≡ N.test (op_number op) x y }
{
    match op {
        Op::Equal => x.eq(y),
        Op::Greater => x.gt(y),
        Op::Less => x.lt(y),
        Op::GreaterThanOrEquals => x.ge(y),
        Op::LessThanOrEquals => x.le(y),
        Op::NotEquals => x.ne(y),
        // `&` and `|` have no branch.
        Op::And => x.truthy() & y.truthy(),
        Op::Or => x.truthy() | y.truthy(),
        _ => false,
    }
}

// ---- numbers in parts

// A result that is a Bool, of one number and of two.
pub fn number_test1(a: NumberParts) -> bool
    ensures { result ≡ not (truthy (number_in a)) }
{
    !a.is_truthy()
}

// Is one of two numbers a Float, by their kinds.
fn any_float(left: Kind, right: Kind) -> bool
    ensures { result ≡ eqb (code_of left) (code_of K.Float) || eqb (code_of right) (code_of K.Float) }
{
    match (left, right) {
        (Kind::Float, _) => true,
        (_, Kind::Float) => true,
        _ => false,
    }
}

#[tactic(auto, using(crate::proofs::Parts::test_ints))]
pub fn number_test2(op: Op, a: NumberParts, b: NumberParts) -> bool
    ensures { result ≡ test_two (op_number op) (number_in a) (number_in b) }
{
    if any_float(a.kind, b.kind) {
        return test(op, a.to_float(), b.to_float());
    }
    test(op, a.to_int(), b.to_int())
}

// A result that is an Int.
#[tactic(auto, unfolding(crate::specs::Numbers::whole_unary))]
pub fn number_whole1(op: Op, a: NumberParts) -> i32
    ensures { result ≡ whole_unary (op_number op) (number_in a) }
{
    match op {
        Op::Negate => int::wrapping_neg(a.to_int()),
        Op::Not => i32::from(!a.is_truthy()),
        Op::Floor | Op::Ceiling | Op::Int | Op::ValueOfList => a.to_int(),
        _ => 0,
    }
}

pub fn number_whole2(op: Op, a: NumberParts, b: NumberParts) -> Result<i32, Question>
    ensures { answer result ≡ arith_z (op_number op) (as_int (number_in a)) (as_int (number_in b)) }
{
    arith(op, a.to_int(), b.to_int())
}

// A result that is a Float.
#[tactic(auto, unfolding(crate::specs::Numbers::real_unary))]
pub fn number_real1(op: Op, a: NumberParts) -> f32
    ensures { result ≡ real_unary (op_number op) (number_in a) }
{
    unary_float(op, a.to_float())
}

pub fn number_real2(op: Op, a: NumberParts, b: NumberParts) -> f32
    ensures { result ≡ arith_f (op_number op) (as_float (number_in a)) (as_float (number_in b)) }
{
    arith(op, a.to_float(), b.to_float())
}
