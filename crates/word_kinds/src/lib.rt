// The kinds of operands that stand in words, and the kind of an operator's result on numbers among them.
#![tactic(auto)]

ghost use Rattle.std.specs.Prelude.{◌≡◌};
ghost use Rattle.std.specs.Option.{option_map};
ghost use Rattle.ink_number.specs.Question.{answer};
ghost use Rattle.ink_value.specs.Val.{kind_at};
ghost use Rattle.op.specs.Op.{op_number};
ghost use Rattle.word_kinds.specs.Operands.{is_number, numbers, untaken, Held, NumberAnswer, NumberKind};

use ink_number::question::Question;
use ink_value::Kind;
use op::Op;

// The kind whose code is a value's first word; Void where it is none's. A word is wider than a byte; from 4 on it is Void, as `Kind::from` has it.
pub fn code_in(w: u64) -> Kind
    ensures { result ≡ kind_at w }
{
    if w < 4 {
        Kind::from(w as u8)
    } else {
        Kind::Void
    }
}

// Is it the kind of numbers.
fn is_number(kind: Kind) -> bool
    ensures { result ≡ is_number kind }
{
    match kind {
        Kind::Bool | Kind::Int | Kind::Float => true,
        Kind::List | Kind::Void => false,
    }
}

// Is the one operand, or are the two, numbers, by their kinds.
fn numbers(count: usize, left: Kind, right: Kind) -> bool
    ensures { result ≡ numbers count left right }
{
    match count {
        1 => is_number(left),
        2 => is_number(left) && is_number(right),
        _ => false,
    }
}

// The answer for an operator that does not have so many numbers: POW, which takes no operands, says no beside a number.
fn untaken(op: Op, left: Kind) -> Option<Result<Kind, Question>>
    ensures { option_map answer result ≡ untaken (op_number op) left }
{
    match op {
        Op::Pow if is_number(left) => Some(Err(Question::Operator)),
        _ => None,
    }
}

// The answer on the kinds of numbers: the kind of the result, or the question that says no; none where an operand is no number, or the
// operator takes none or others.
#[tactic(auto, using(crate::proofs::Operands::entry_asked))]
#[inline(always)]
pub fn number_answer(op: Op, count: usize, operands: &[u64; 9]) -> Option<Result<Kind, Question>>
    requires { Held operands.now count }
    ensures { NumberAnswer operands.now (op_number op) count (option_map answer result) }
{
    let left = code_in(operands[0]);
    let right = code_in(operands[3]);
    if operator_kinds::operands(op) != count {
        return None;
    }
    if !numbers(count, left, right) {
        return untaken(op, left);
    }
    Some(operator_kinds::number_entry(op, left, right))
}

// The kind of a result of numbers; none where an operand, or the result, is no number.
pub fn number_kind(op: Op, count: usize, operands: &[u64; 9]) -> Option<Kind>
    requires { Held operands.now count }
    ensures { NumberKind operands.now (op_number op) count result }
{
    number_answer(op, count, operands)?.ok()
}
