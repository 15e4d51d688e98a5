// The operators on values: dispatch by kind and operator.
#![tactic(auto)]

ghost use Rattle.std.specs.Prelude.{◌≡◌, List, [], ◌∷◌, ℕ, ◌≤◌, ◌+◌, length};
ghost use Rattle.ink_number.specs.Question.{answer};
ghost use Rattle.op.specs.Op.{op_number};
ghost use Rattle.ink_list.specs.Entries.{item_numbers};
ghost use Rattle.ink_list.specs.Lists.{places};
ghost use Rattle.list_definitions.specs.Defs.{ListDefinitions};
ghost use Rattle.ink_value.specs.declared.Kind.TheVariants as K;
ghost use Rattle.ink_value.specs.Value.{val_of, start_of, len_of, placed};
ghost use Rattle.ink_value.specs.Held.{val_in, operands_in, operands_with, FormedIn, OperandsFormed, OperandsHeld, GivesTo};
ghost use Rattle.number_operators.specs.Numbers.{whole_unary};
ghost use Rattle.list_operators.specs.Lists.{definitions_of};
ghost use Rattle.native_function_call.specs.Apply.{of_int, test_lists, test, whole, real, compute, call};

use ink_list::entries_mut::EntriesMut;
use ink_list::lists::Lists;
use ink_number::int;
use ink_number::question::Question;
use ink_value::operands::Operands;
use ink_value::{Kind, Value};
use list_definitions::definitions::PackDefinitions;
use op::Op;

// ---- operators whose result is no List

// With a list among the operands.
#[tactic(auto, unfolding(crate::specs::Apply::test_lists))]
fn test_lists(op: Op, a: Value, b: Value, lists: Lists<'_>) -> bool
    requires { FormedIn item_numbers lists a × FormedIn item_numbers lists b }
    ensures { result ≡ test_lists (op_number op) (val_in lists.entry a) (val_in lists.entry b) }
{
    match op {
        // `&` and `|` have no branch.
        Op::And => a.is_truthy() & b.is_truthy(),
        Op::Or => a.is_truthy() | b.is_truthy(),
        _ => list_pairs::test_entries(op, a.entries_of(lists), b.entries_of(lists)),
    }
}

fn test2(op: Op, a: Value, b: Value, lists: Lists<'_>) -> bool
    requires { FormedIn item_numbers lists a × FormedIn item_numbers lists b }
    ensures { result ≡ test (op_number op) (val_in lists.entry a ∷ val_in lists.entry b ∷ []) }
{
    let values = lists.values;
    match operator_kinds::common(a.kind(), b.kind()) {
        Kind::Int => number_operators::test(op, a.to_int(values), b.to_int(values)),
        Kind::Float => number_operators::test(op, a.to_float(values), b.to_float(values)),
        Kind::List => test_lists(op, a, b, lists),
        Kind::Bool | Kind::Void => false,
    }
}

// A result that is a Bool. It and its like for Ints and Floats are compiled where they are called, as `scalar` is: as calls they would
// have the operands in memory.
#[inline(always)]
pub fn test(op: Op, operands: Operands, lists: Lists<'_>) -> bool
    requires le_count { (1 ≤ operands.count) × (operands.count ≤ 2) }
    requires formed { OperandsFormed item_numbers lists operands }
    ensures { result ≡ test (op_number op) (operands_in lists.entry operands) }
{
    if operands.count == 1 {
        return !operands.first.is_truthy();
    }
    test2(op, operands.first, operands.second, lists)
}

#[tactic(auto, unfolding(number_operators::specs::Numbers::whole_unary), using(ink_value::proofs::Reading::count_of))]
fn whole1(op: Op, a: Value, values: &[i32]) -> i32
    requires { (start_of a + len_of a ≤ length values.now) × (len_of a ≤ item_numbers) }
    ensures { (is : List ℕ) → start_of a + len_of a ≤ length is → result ≡ whole_unary (op_number op) (val_of is values.now a) }
{
    match op {
        Op::Negate => int::wrapping_neg(a.to_int(values)),
        Op::Not => i32::from(!a.is_truthy()),
        Op::Floor | Op::Ceiling | Op::Int => a.to_int(values),
        Op::Count => a.len_of() as i32,
        Op::ValueOfList => a.to_int(values),
        _ => 0,
    }
}

// A result that is an Int.
#[inline(always)]
pub fn whole(op: Op, operands: Operands, values: &[i32]) -> Result<i32, Question>
    requires le_count { (1 ≤ operands.count) × (operands.count ≤ 2) × (len_of operands.first ≤ item_numbers) }
    requires values_in { OperandsHeld operands (length values.now) }
    ensures { (is : List ℕ) → OperandsHeld operands (length is)
        → of_int (answer result) ≡ whole (op_number op) (operands_with is values.now operands) }
{
    if operands.count == 1 {
        return Ok(whole1(op, operands.first, values));
    }
    number_operators::arith(
        op,
        operands.first.to_int(values),
        operands.second.to_int(values),
    )
}

// A result that is a Float.
#[tactic(auto, unfolding(number_operators::specs::Numbers::real_unary))]
#[inline(always)]
pub fn real(op: Op, operands: Operands, values: &[i32]) -> f32
    requires le_count { (1 ≤ operands.count) × (operands.count ≤ 2) }
    requires values_in { OperandsHeld operands (length values.now) }
    ensures { (is : List ℕ) → OperandsHeld operands (length is)
        → result ≡ real (op_number op) (operands_with is values.now operands) }
{
    let x = operands.first.to_float(values);
    if operands.count == 1 {
        return number_operators::unary_float(op, x);
    }
    number_operators::arith(op, x, operands.second.to_float(values))
}

// ---- an operator, by the kind of its result

// A result that is no List: no slice is written. A run's step ends in it: as a call it would have the operands in memory.
#[inline(always)]
pub fn scalar(op: Op, kind: Kind, operands: Operands, lists: Lists<'_>) -> Result<Value, Question>
    requires fact { (kind ≡ K.List → ⊥) × (1 ≤ operands.count) × (operands.count ≤ 2) }
    requires formed { OperandsFormed item_numbers lists operands }
    ensures { (u : ListDefinitions) → answer result ≡ placed (compute u (op_number op) (operands_in lists.entry operands) kind) }
{
    match kind {
        Kind::Bool => Ok(Value::Bool(test(op, operands, lists))),
        Kind::Int => {
            let z = whole(op, operands, lists.values)?;
            Ok(Value::Int(z))
        }
        Kind::Float => Ok(Value::Float(real(op, operands, lists.values))),
        Kind::List | Kind::Void => Ok(Value::Void),
    }
}

// An operator whose operands' kinds are right, by the kind of its result.
#[tactic(auto, unfolding(crate::specs::Apply::compute), using(crate::proofs::Calling::scalar_gave))]
fn computed(
    op: Op,
    kind: Kind,
    operands: Operands,
    lists: Lists<'_>,
    pack: PackDefinitions<'_>,
    out: &mut EntriesMut<'_>,
) -> Result<Value, Question>
    requires room { pack.limit ≤ places out.old }
    requires formed { OperandsFormed pack.limit lists operands }
    requires le_count { (1 ≤ operands.count) × (operands.count ≤ 3) × (operands.count ≡ 3 → kind ≡ K.List) }
    ensures { GivesTo (compute (definitions_of pack.entry) (op_number op) (operands_in lists.entry operands) kind) result out.old out.new }
{
    match kind {
        Kind::List => Ok(list_operators::list(op, operands, lists, pack, out)),
        _ => scalar(op, kind, operands, lists),
    }
}

// An operator on its operands: questions 8, 10 to 13 and 15, and the result.
#[tactic(auto, using(crate::proofs::Calling::call_refused))]
pub fn apply(
    op: Op,
    operands: Operands,
    lists: Lists<'_>,
    pack: PackDefinitions<'_>,
    out: &mut EntriesMut<'_>,
) -> Result<Value, Question>
    requires room { pack.limit ≤ places out.old }
    requires formed { OperandsFormed pack.limit lists operands }
    ensures { GivesTo (call (definitions_of pack.entry) (op_number op) operands.count (operands_in lists.entry operands))
        result out.old out.new }
{
    let a = operands.first.kind();
    let b = operands.second.kind();
    let c = operands.third.kind();
    let kind = operator_kinds::kinds(op, operands.count, a, b, c)?;
    computed(op, kind, operands, lists, pack, out)
}
