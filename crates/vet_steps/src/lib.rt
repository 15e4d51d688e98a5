// One instruction on a stack of kinds: what is put where, or which question says no.
#![tactic(auto)]

ghost use Rattle.std.specs.Prelude.{◌≡◌, ℕ, ◌≤◌, ◌-◌};
ghost use Rattle.ink_number.specs.Question.{answer as answer_of};
ghost use Rattle.ink_value.specs.declared.Kind.{Kind};
ghost use Rattle.op.specs.Op.{op_number};
ghost use Rattle.operator_kinds.specs.Kinds.{kind_apply, operand_count};
ghost use Rattle.pack.specs.Instruction.{instr_of, Allowed};
ghost use Rattle.machine.specs.Machine.{step_op, step_push, step, topped, kind_pushed};
ghost use Rattle.machine.specs.Stack.{stack_of};
ghost use Rattle.vet_steps.specs.Step.{stepped, Within};
ghost use Rattle.vet_steps.specs.Slices.{kinds_in, stepped_in};

use ink_number::question::Question;
use ink_value::Kind;
use kind_table::KindTable;
use machine::{Top, push};
use op::Op;
use pack::instruction::Instruction;

// The answer of an operator that takes `count` operands, on the top of a stack of n.
#[tactic(auto, using(operator_kinds::proofs::Counting::below_range, crate::proofs::KindSteps::step_entry, crate::proofs::KindSteps::step_range))]
fn answer(
    op: Op,
    count: usize,
    table: &KindTable,
    stack: &[Kind; 64],
    n: usize,
) -> Result<Kind, Question>
    requires { (count ≡ operand_count (op_number op)) × (1 ≤ count) × (count ≤ n) × (n ≤ 64) }
    ensures { topped (kinds_in stack (n - count)) (answer_of result) ≡ step_op kind_apply (op_number op) (kinds_in stack n) }
{
    let place = n - count;
    let left = stack[place];
    let right = stack[n - 1];
    if count == 3 {
        operator_kinds::range(left, stack[place + 1], right)
    } else {
        table.entry(op, left, right)
    }
}

// An operator on a stack of n.
#[tactic(auto, using(machine::proofs::Stack::op_unknown, machine::proofs::Stack::op_few))]
fn vet_op(op: Op, table: &KindTable, stack: &[Kind; 64], n: usize) -> Result<Top<Kind>, Question>
    requires { n ≤ 64 }
    ensures { (stepped_in (answer_of result) stack ≡ step_op kind_apply (op_number op) (kinds_in stack n)) × Within (answer_of result) n }
{
    let count = operator_kinds::operands(op);
    if count == 0 {
        return Err(Question::Operator);
    }
    if n < count {
        return Err(Question::Operands);
    }
    let value = answer(op, count, table, stack, n)?;
    Ok(Top {
        place: n - count,
        value,
    })
}

// A push of a kind on a stack of n.
#[tactic(auto, using(crate::proofs::KindSteps::pushed_kind, crate::proofs::KindSteps::pushed_within))]
fn vet_push(value: Kind, n: usize) -> Result<Top<Kind>, Question>
    requires { n ≤ 64 }
    ensures { ((f : ℕ → Kind) → stepped (answer_of result) f ≡ step_push value (stack_of f n)) × Within (answer_of result) n }
{
    push(value, n)
}

// An instruction on a stack of n.
#[tactic(auto, unfolding(machine::specs::Machine::step))]
pub fn vet_step(
    i: Instruction,
    kinds: [Kind; 16],
    table: &KindTable,
    stack: &[Kind; 64],
    n: usize,
) -> Result<Top<Kind>, Question>
    requires { ((literals : ℕ) × Allowed literals (instr_of i)) × (n ≤ 64) }
    ensures { (stepped_in (answer_of result) stack ≡ step (kind_pushed kinds) kind_apply (instr_of i) (kinds_in stack n))
        × Within (answer_of result) n }
{
    match i {
        Instruction::Op(op) => vet_op(op, table, stack, n),
        Instruction::Bool(_) => vet_push(Kind::Bool, n),
        Instruction::Int(_) => vet_push(Kind::Int, n),
        Instruction::Float(_) => vet_push(Kind::Float, n),
        Instruction::List(_) => vet_push(Kind::List, n),
        Instruction::Slot(s) => vet_push(kinds[s as usize], n),
        Instruction::Void => vet_push(Kind::Void, n),
    }
}
