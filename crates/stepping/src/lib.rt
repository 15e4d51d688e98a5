// One instruction of a run: a push, or an operator on the values on top of the stack.
#![tactic(auto)]

ghost use Rattle.std.specs.Prelude.{◌≡◌, List, map, ℕ, ◌<◌, ◌≤◌, ℤ};
ghost use Rattle.ink_value.specs.Val.{Val};
ghost use Rattle.ink_value.specs.Held.{val_in, FormedIn};
ghost use Rattle.ink_number.specs.Question.{answer};
ghost use Rattle.op.specs.Op.{op_number};
ghost use Rattle.ink_value.specs.declared.Kind.TheVariants as K;
ghost use Rattle.ink_value.specs.declared.Value.{Value};
ghost use Rattle.ink_value.specs.Value.{val_of, kind_in};
ghost use Rattle.operator_kinds.specs.Kinds.{operand_count};
ghost use Rattle.native_function_call.specs.Apply.{apply_op};
ghost use Rattle.list_operators.specs.Lists.{definitions_of};
ghost use Rattle.pack.specs.Contents.{literal_count};
ghost use Rattle.pack.specs.Instruction.{instr_of, Allowed};
ghost use Rattle.machine.specs.Machine.{stack_limit, step_op};
ghost use Rattle.machine.specs.Stack.{stack_of};
ghost use Rattle.stepping.specs.Steps.{IfOp, SlotIs, pushed};
ghost use Rattle.operating.specs.Stacked.{Bare, Roomy};
ghost use Rattle.operating.specs.Slices.{RoomyIn, AnsweredIn};
ghost use Rattle.stepping.specs.Slices.{OnTop, TopFormed, StepsIn, literal_in, step_in};

use ink_list::entries_mut::EntriesMut;
use ink_list::lists::Lists;
use ink_number::question::Question;
use ink_value::Value;
use ink_value::operands::Operands;
use list_definitions::definitions::PackDefinitions;
use machine::{STACK_LIMIT, Top, push};
use op::Op;
use operating::{operate, store};
use pack::instruction::Instruction;
use pack::passed::PassedPack;
use pack::sound::SoundPack;

// A push of a value that is no list, on a stack of n.
#[tactic(auto, using(crate::proofs::Pushing::push_plain))]
fn push_value(value: Value, n: usize) -> Result<Top<Value>, Question>
    requires { kind_in value ≡ K.List → ⊥ }
    ensures { (is : List ℕ) (vs : List ℤ) → Bare (pushed n (val_of is vs value)) n (answer result) }
{
    push(value, n)
}

// A push of a slot's value: question 9.
fn push_slot(
    v: Value,
    n: usize,
    lists: Lists<'_>,
    limit: usize,
    work: &mut EntriesMut<'_>,
) -> Result<Top<Value>, Question>
    requires formed { FormedIn limit lists v }
    requires roomy { RoomyIn limit work.old }
    ensures { AnsweredIn limit (pushed n (val_in lists.entry v)) n result work.old work.new }
{
    if STACK_LIMIT <= n {
        return Err(Question::Stack);
    }
    let value = store(v, lists, work, n * limit);
    Ok(Top { place: n, value })
}

// A push of a literal: question 9.
fn push_literal(
    pack: PassedPack<'_, '_>,
    l: usize,
    n: usize,
    work: &mut EntriesMut<'_>,
) -> Result<Top<Value>, Question>
    requires l_bound { l < literal_count pack.bytes.now }
    requires roomy { Roomy pack.format work.old.items.now work.old.values.now }
    ensures { AnsweredIn pack.entry.definitions.limit (pushed n (literal_in pack.entry l)) n result work.old work.new }
{
    if STACK_LIMIT <= n {
        return Err(Question::Stack);
    }
    let start = n * pack.definitions.limit;
    let sound = SoundPack {
        bytes: pack.bytes,
        format: pack.format,
    };
    let origins = pack_literals::literal_origins(pack.bytes, l, pack.format);
    let len = pack_literals::read_literal(sound, l, work, start);
    let value = Value::List {
        origins,
        start,
        len,
    };
    Ok(Top { place: n, value })
}

// An operator on a stack of n: its operands are given in order, as many as it takes.
fn run_op(
    op: Op,
    n: usize,
    operands: Operands,
    pack: PackDefinitions<'_>,
    work: &mut EntriesMut<'_>,
) -> Result<Top<Value>, Question>
    requires op_bound { n ≤ stack_limit }
    requires roomy { RoomyIn pack.limit work.old × TopFormed pack.limit work.old operands n (operand_count (op_number op)) }
    ensures { (f : ℕ → Val) → OnTop work.old operands n (operand_count (op_number op)) f
        → StepsIn pack.entry.limit n (step_op (apply_op (definitions_of pack.entry)) (op_number op) (stack_of f n)) f result
        work.old work.new }
{
    let count = operator_kinds::operands(op);
    if count == 0 {
        return Err(Question::Operator);
    }
    if n < count {
        return Err(Question::Operands);
    }
    let used = Operands { count, ..operands };
    operate(op, used, pack, n - count, work)
}

// An instruction on a stack of n: an operator's operands are given in order, and a slot's value.
pub fn run_step(
    pack: PassedPack<'_, '_>,
    slot: Value,
    slot_lists: Lists<'_>,
    i: Instruction,
    n: usize,
    operands: Operands,
    work: &mut EntriesMut<'_>,
) -> Result<Top<Value>, Question>
    requires formed { FormedIn pack.definitions.limit slot_lists slot }
    requires allowed { Allowed (literal_count pack.bytes.now) (instr_of i) × (n ≤ stack_limit) }
    requires roomy { Roomy pack.format work.old.items.now work.old.values.now
        × IfOp (instr_of i) (λ o. TopFormed pack.definitions.limit work.old operands n (operand_count o)) }
    ensures { (slots : List Value) → SlotIs slots slot (instr_of i)
        → (f : ℕ → Val) → IfOp (instr_of i) (λ o. OnTop work.old operands n (operand_count o) f)
        → StepsIn pack.entry.definitions.limit n
        (step_in pack.entry (map (val_in slot_lists.entry) slots) (instr_of i) (stack_of f n)) f result work.old work.new }
{
    match i {
        Instruction::Op(op) => run_op(op, n, operands, pack.definitions, work),
        Instruction::Bool(b) => push_value(Value::Bool(b), n),
        Instruction::Int(z) => push_value(Value::Int(z), n),
        Instruction::Float(b) => push_value(Value::Float(float_conversions::float_from_bits(b)), n),
        Instruction::List(l) => push_literal(pack, l as usize, n, work),
        Instruction::Slot(_) => push_slot(slot, n, slot_lists, pack.definitions.limit, work),
        Instruction::Void => push_value(Value::Void, n),
    }
}
