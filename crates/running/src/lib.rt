// A sheet's instructions worked on values, in order. The stack's values stand in a local array, and the entries of the list at place p in
// the work slices, from p times the format's item limit on.
#![tactic(auto)]

ghost use Rattle.std.specs.Prelude.{◌≡◌, ◌<◌, ◌≤◌, ◌+◌, ◌-◌, length, replicate};
ghost use Rattle.ink_value.specs.Held.{slot_values, SlotsFormed};
ghost use Rattle.operator_kinds.specs.Kinds.{operand_count};
ghost use Rattle.pack.specs.Contents.{sheet_count};
ghost use Rattle.pack.specs.Format.{slot_limit};
ghost use Rattle.pack.specs.Instruction.{instr_of};
ghost use Rattle.machine.specs.Machine.{stack_limit};
ghost use Rattle.stepping.specs.Steps.{IfOp, IfSlot};
ghost use Rattle.operating.specs.Stacked.{Roomy};
ghost use Rattle.running.specs.Slices.{work_in, WorkedIn};
ghost use Rattle.running.specs.Work.{Longest, Topmost};

use ink_list::entries_mut::EntriesMut;
use ink_number::question::Question;
use ink_value::Value;
use ink_value::operands::Operands;
use ink_value::slots::Slots;
use machine::{STACK_LIMIT, Stop};
use pack::instruction::Instruction;
use pack::passed::PassedPack;
use pack_read::instructions::instructions_of;

// How many operands an instruction takes: a push takes none.
#[tactic(auto, using(crate::proofs::Working::op_told, crate::proofs::Working::no_op))]
fn operand_count(i: Instruction) -> usize
    ensures { IfOp (instr_of i) (λ o. result ≡ operand_count o) }
{
    match i {
        Instruction::Op(op) => operator_kinds::operands(op),
        _ => 0,
    }
}

// The last place of the stack.
const LAST_PLACE: usize = STACK_LIMIT - 1;

// The place of operand k, from 0, of the `count` topmost of a stack of n; where there is no such operand, the last place: nothing was just
// stored there, so that reading it does not wait.
fn operand_place(n: usize, count: usize, k: usize) -> usize
    requires { n ≤ stack_limit }
    ensures { (k < count → count ≤ n → result ≡ n - count + k) × (result < stack_limit) }
{
    if count <= k {
        return LAST_PLACE;
    }
    if n < count {
        return LAST_PLACE;
    }
    n - count + k
}

// The slot that an instruction pushes, or 0.
#[tactic(auto, using(crate::proofs::Working::slot_told, crate::proofs::Working::no_slot))]
fn slot_place(i: Instruction) -> usize
    requires { IfSlot (instr_of i) (λ s. s < slot_limit) }
    ensures { (result < slot_limit) × IfSlot (instr_of i) (λ s. result ≡ s) }
{
    match i {
        Instruction::Slot(s) => s as usize,
        _ => 0,
    }
}

// Keeps the greatest length at a place.
#[tactic(auto, using(crate::proofs::Working::longest_set, crate::proofs::Working::longest_same))]
fn keep_longest(used: &mut [usize], place: usize, len: usize)
    requires { place < length used.old }
    ensures { Longest used.old used.new place len }
{
    if used[place] < len {
        used[place] = len;
    }
}

// The operands of an instruction on a stack of n, in order: its `count` topmost values, where there are as many.
fn operands_on(stack: &[Value; STACK_LIMIT], n: usize, count: usize) -> Operands
    requires { n ≤ stack_limit }
    ensures { Topmost stack.now n count result }
{
    Operands {
        count,
        first: stack[operand_place(n, count, 0)],
        second: stack[operand_place(n, count, 1)],
        third: stack[operand_place(n, count, 2)],
    }
}

// Works a sheet's instructions in order. A List that is left stands in the work slices.
pub fn work(
    pack: PassedPack<'_, '_>,
    sheet: usize,
    slots: &Slots<'_>,
    used: &mut [usize],
    work: &mut EntriesMut<'_>,
) -> Result<Value, Stop>
    requires sheet_bound { (sheet < sheet_count pack.bytes.now) × (used.old ≡ replicate stack_limit 0) }
    requires formed { SlotsFormed pack.format.limit slots.now }
    requires roomy { Roomy pack.format work.old.items.now work.old.values.now }
    ensures { WorkedIn pack.entry.format (work_in pack.entry sheet (slot_values slots.now)) result used work.old work.new }
{
    let mut stack = [Value::Void; STACK_LIMIT];
    let mut n: usize = 0;
    // By hand: i is also the count after the loop, which `enumerate` does not leave.
    let mut i: usize = 0;
    for instruction in instructions_of(pack.bytes, sheet) {
        let k = slot_place(instruction);
        let slot = slots.values[k];
        let operands = operands_on(&stack, n, operand_count(instruction));
        match stepping::run_step(pack, slot, slots.lists, instruction, n, operands, work) {
            Ok(top) => {
                keep_longest(used, top.place, top.value.len_of());
                stack[top.place] = top.value;
                n = top.place + 1;
                i += 1;
            }
            Err(question) => return Err(Stop { question, index: i }),
        }
    }
    if n == 1 {
        return Ok(stack[0]);
    }
    Err(Stop {
        question: Question::Left,
        index: i,
    })
}
