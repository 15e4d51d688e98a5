// The operators on kinds: what each answers, worked out, with range beside them, and how many operands an operator takes.
#![tactic(auto)]

ghost use Rattle.std.specs.Prelude.{◌≡◌, true, [], ◌∷◌, cond, ◌<◌, ◌≤◌, max, eqb, take};
ghost use Rattle.ink_number.specs.Question.{answer as answer_of};
ghost use Rattle.ink_value.specs.Val.{code_of};
ghost use Rattle.ink_value.specs.declared.Kind.TheVariants as K;
ghost use Rattle.op.specs.Op.{op_number, op_range};
ghost use Rattle.operator_kinds.specs.Kinds.{common, mixed, kind_entry, operand_count, kind_range, KindsGiven};

use ink_number::question::Question;
use ink_value::Kind;
use op::Op;

// The higher of two kind codes.
#[inline(always)]
fn higher(left: u8, right: u8) -> u8
    ensures { result ≡ max left right }
{
    if left < right { right } else { left }
}

// The code of the common kind: the highest code present, at least Int's.
#[inline(always)]
pub fn common_code(left: u8, right: u8) -> u8
    ensures { result ≡ max (code_of K.Int) (max left right) }
{
    higher(u8::from(Kind::Int), higher(left, right))
}

// The common kind: the highest kind present, at least Int.
#[inline(always)]
pub fn common(left: Kind, right: Kind) -> Kind
    ensures { result ≡ common left right }
{
    Kind::from(common_code(u8::from(left), u8::from(right)))
}

// The answer for an operator below range on numbers, of which it may take one, the left.
#[tactic(auto, unfolding(crate::specs::Kinds::kind_entry, crate::specs::Kinds::known, crate::specs::Kinds::unary, crate::specs::Kinds::arity, crate::specs::Kinds::kind_unary, crate::specs::Kinds::kind_binary, crate::specs::Kinds::operand_count))]
pub fn number_entry(op: Op, left: Kind, right: Kind) -> Result<Kind, Question>
    requires { (op_number op < op_range) × (code_of left < code_of K.List)
        × (operand_count (op_number op) ≡ 2 → code_of right < code_of K.List) }
    ensures { answer_of result ≡ kind_entry (op_number op) left right }
{
    match op {
        Op::Add | Op::Subtract | Op::Divide | Op::Multiply | Op::Mod => Ok(common(left, right)),
        Op::Min | Op::Max => Ok(common(left, right)),
        Op::Negate | Op::Floor | Op::Ceiling => Ok(common(left, left)),
        Op::Equal
        | Op::Greater
        | Op::Less
        | Op::GreaterThanOrEquals
        | Op::LessThanOrEquals
        | Op::NotEquals
        | Op::Not
        | Op::And
        | Op::Or => Ok(Kind::Bool),
        Op::Pow => Err(Question::Operator),
        Op::Int => Ok(Kind::Int),
        Op::Float => Ok(Kind::Float),
        _ => Err(Question::Kind),
    }
}

// The answer for an operator below range on Lists.
#[tactic(auto, unfolding(crate::specs::Kinds::kind_entry, crate::specs::Kinds::known, crate::specs::Kinds::unary, crate::specs::Kinds::arity, crate::specs::Kinds::kind_unary, crate::specs::Kinds::kind_binary, crate::specs::Kinds::operand_count))]
fn lists(op: Op) -> Result<Kind, Question>
    requires { (op_number op < op_range) × (1 ≤ operand_count (op_number op)) }
    ensures { answer_of result ≡ kind_entry (op_number op) K.List K.List }
{
    match op {
        Op::Add | Op::Subtract | Op::Intersect => Ok(Kind::List),
        Op::ListMin | Op::ListMax | Op::All | Op::Invert => Ok(Kind::List),
        Op::Equal | Op::NotEquals | Op::Has | Op::Hasnt => Ok(Kind::Bool),
        Op::Greater | Op::Less | Op::GreaterThanOrEquals | Op::LessThanOrEquals => Ok(Kind::Bool),
        Op::And | Op::Or => Ok(Kind::Bool),
        Op::Not | Op::Count | Op::ValueOfList => Ok(Kind::Int),
        _ => Err(Question::Kind),
    }
}

// The answer for an operator of two operands, a List and a number or a number and a List.
#[tactic(auto, unfolding(crate::specs::Kinds::kind_entry, crate::specs::Kinds::known, crate::specs::Kinds::unary, crate::specs::Kinds::arity, crate::specs::Kinds::kind_unary, crate::specs::Kinds::kind_binary, crate::specs::Kinds::operand_count))]
fn mixed(op: Op, left: Kind, right: Kind) -> Result<Kind, Question>
    requires { (op_number op < op_range) × (operand_count (op_number op) ≡ 2) × (mixed left right ≡ true)
        × (code_of left < code_of K.Void) × (code_of right < code_of K.Void) }
    ensures { answer_of result ≡ kind_entry (op_number op) left right }
{
    match op {
        Op::Add | Op::Subtract => match right {
            Kind::Int => Ok(Kind::List),
            _ => Err(Question::Mixed),
        },
        Op::And | Op::Or => Ok(Kind::Bool),
        _ => Err(Question::Mixed),
    }
}

// The answer for an operator below range and two kinds, or one twice where it takes one operand.
#[tactic(auto, using(crate::proofs::Counting::void_left, crate::proofs::Counting::void_right, crate::proofs::Counting::two_taken))]
pub fn entry(op: Op, left: Kind, right: Kind) -> Result<Kind, Question>
    requires { (op_number op < op_range) × (1 ≤ operand_count (op_number op)) × (operand_count (op_number op) ≡ 1 → left ≡ right) }
    ensures { answer_of result ≡ kind_entry (op_number op) left right }
{
    match left {
        Kind::Void => Err(Question::Void),
        Kind::List => match right {
            Kind::Void => Err(Question::Void),
            Kind::List => lists(op),
            Kind::Bool | Kind::Int | Kind::Float => mixed(op, left, right),
        },
        Kind::Bool | Kind::Int | Kind::Float => match right {
            Kind::Void => Err(Question::Void),
            Kind::List => mixed(op, left, right),
            Kind::Bool | Kind::Int | Kind::Float => number_entry(op, left, right),
        },
    }
}

// Range's answer for three kinds.
#[tactic(auto, unfolding(crate::specs::Kinds::kind_range))]
pub fn range(list: Kind, lower: Kind, upper: Kind) -> Result<Kind, Question>
    ensures { answer_of result ≡ kind_range list lower upper }
{
    match (list, lower, upper) {
        (Kind::Void, _, _) => Err(Question::Void),
        (_, Kind::Void, _) => Err(Question::Void),
        (_, _, Kind::Void) => Err(Question::Void),
        (Kind::List, _, _) => Ok(Kind::List),
        _ => Err(Question::Kind),
    }
}

// How many operands an operator takes, 0 where there is no such operator.
#[tactic(auto, unfolding(crate::specs::Kinds::operand_count, crate::specs::Kinds::known, crate::specs::Kinds::unary, crate::specs::Kinds::arity), using(crate::proofs::Counting::no_such))]
pub fn operands(op: Op) -> usize
    ensures { result ≡ operand_count (op_number op) }
{
    match op {
        Op::Negate | Op::Not | Op::Floor | Op::Ceiling | Op::Int | Op::Float => 1,
        Op::ListMin | Op::ListMax | Op::All | Op::Count | Op::ValueOfList | Op::Invert => 1,
        Op::Range => 3,
        Op::Pow | Op::Other(_) => 0,
        _ => 2,
    }
}

// The second of an operator's kinds, the first again where it takes one operand.
fn second(count: usize, left: Kind, middle: Kind) -> Kind
    ensures { result ≡ cond (eqb count 1) left middle }
{
    if count == 1 { left } else { middle }
}

// Questions 11 to 13 of an operator and as many kinds as it takes, of three: the answer.
#[inline(always)]
pub fn answer(op: Op, count: usize, left: Kind, middle: Kind, right: Kind) -> Result<Kind, Question>
    requires { (count ≡ operand_count (op_number op)) × (1 ≤ count) }
    ensures { KindsGiven (op_number op) count (take count (left ∷ middle ∷ right ∷ [])) (answer_of result) }
{
    if count == 3 {
        return range(left, middle, right);
    }
    entry(op, left, second(count, left, middle))
}

// The same of any operator and count, after questions 8 and 10.
#[tactic(auto, using(crate::proofs::Counting::none_taken, crate::proofs::Counting::miscounted))]
pub fn kinds(op: Op, count: usize, left: Kind, middle: Kind, right: Kind) -> Result<Kind, Question>
    ensures { KindsGiven (op_number op) count (take count (left ∷ middle ∷ right ∷ [])) (answer_of result) }
{
    let n = operands(op);
    if n == 0 {
        return Err(Question::Operator);
    }
    if n != count {
        return Err(Question::Operands);
    }
    answer(op, count, left, middle, right)
}
