// Operators on numbers that stand in words: the operands go to them in parts, as they stand there, without a slice.
#![tactic(auto)]

ghost use Rattle.std.specs.Prelude.{◌≡◌, Ok, ◌<◌};
ghost use Rattle.op.specs.Op.{op_number};
ghost use Rattle.word_kinds.specs.Operands.{OfNumbers};
ghost use Rattle.word_numbers.specs.Slices.{number_at, NumberGives, NumberSays};

use ink_number::question::Question;
use ink_value::number_parts::NumberParts;
use ink_value::{Kind, Value};
use op::Op;

// The number that operand k is, in parts: the Int and the Float are what its second word holds.
fn number_at(operands: &[u64; 9], k: usize) -> NumberParts
    requires { k < 3 }
    ensures { result ≡ number_at operands.now k }
{
    let held = words_in::low(operands[3 * k + 1]);
    NumberParts {
        kind: word_kinds::code_in(operands[3 * k]),
        whole: ink_number::int::signed_of(held),
        real: float_conversions::float_from_bits(held),
    }
}

// A result of one number.
#[tactic(auto, using(crate::proofs::NumbersInWords::test_one, crate::proofs::NumbersInWords::whole_one, crate::proofs::NumbersInWords::real_one))]
fn number1(op: Op, kind: Kind, operands: &[u64; 9]) -> Value
    requires { OfNumbers operands.now (op_number op) 1 kind }
    ensures { NumberGives (op_number op) 1 kind operands (Ok result) }
{
    let a = number_at(operands, 0);
    match kind {
        Kind::Bool => Value::Bool(number_operators::number_test1(a)),
        Kind::Int => Value::Int(number_operators::number_whole1(op, a)),
        Kind::Float | Kind::List | Kind::Void => {
            Value::Float(number_operators::number_real1(op, a))
        }
    }
}

// A result of two.
#[tactic(auto, using(crate::proofs::NumbersInWords::test_both, crate::proofs::NumbersInWords::whole_both, crate::proofs::NumbersInWords::real_both))]
fn number2(op: Op, kind: Kind, operands: &[u64; 9]) -> Result<Value, Question>
    requires { OfNumbers operands.now (op_number op) 2 kind }
    ensures { NumberGives (op_number op) 2 kind operands result }
{
    let a = number_at(operands, 0);
    let b = number_at(operands, 1);
    match kind {
        Kind::Bool => Ok(Value::Bool(number_operators::number_test2(op, a, b))),
        Kind::Int => {
            let z = number_operators::number_whole2(op, a, b)?;
            Ok(Value::Int(z))
        }
        Kind::Float | Kind::List | Kind::Void => {
            Ok(Value::Float(number_operators::number_real2(op, a, b)))
        }
    }
}

// A result of one number or of two.
fn computed(op: Op, kind: Kind, count: usize, operands: &[u64; 9]) -> Result<Value, Question>
    requires { OfNumbers operands.now (op_number op) count kind }
    ensures { NumberGives (op_number op) count kind operands result }
{
    if count == 1 {
        return Ok(number1(op, kind, operands));
    }
    number2(op, kind, operands)
}

// A result of numbers.
pub fn number(op: Op, kind: Kind, count: usize, operands: &[u64; 9], answer: &mut [u64; 3]) -> u32
    requires { OfNumbers operands.now (op_number op) count kind }
    ensures { NumberSays (op_number op) count kind operands result answer }
{
    let outcome = computed(op, kind, count, operands);
    value_words::outcome(outcome, answer)
}
