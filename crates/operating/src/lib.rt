// An operator of a run: its operands are values of the stack, and its result is put at a place of the stack. The entries of the list at
// place p stand in the work slices, from p times the format's item limit on.
#![tactic(auto)]

ghost use Rattle.std.specs.Prelude.{◌≡◌, ◌<◌, ◌≤◌, ◌+◌};
ghost use Rattle.ink_number.specs.Question.{answer};
ghost use Rattle.ink_list.specs.Entries.{item_numbers};
ghost use Rattle.ink_list.specs.Lists.{places};
ghost use Rattle.op.specs.Op.{op_number};
ghost use Rattle.ink_value.specs.declared.Kind.TheVariants as K;
ghost use Rattle.ink_value.specs.Value.{len_of};
ghost use Rattle.ink_value.specs.Held.{operands_in, FormedIn, OperandsFormed};
ghost use Rattle.operator_kinds.specs.Kinds.{operand_count};
ghost use Rattle.native_function_call.specs.Apply.{call, compute};
ghost use Rattle.list_definitions.specs.Defs.{ListDefinitions};
ghost use Rattle.list_operators.specs.Lists.{list_result, definitions_of};
ghost use Rattle.machine.specs.Machine.{stack_limit};
ghost use Rattle.operating.specs.Stacked.{Bare};
ghost use Rattle.operating.specs.Slices.{stacked, StackedFormed, RoomyIn, StoredIn, PutIn, AnsweredIn};

use ink_list::entries_mut::EntriesMut;
use ink_list::lists::Lists;
use ink_number::question::Question;
use ink_value::operands::Operands;
use ink_value::{Kind, Value};
use list_definitions::definitions::PackDefinitions;
use machine::Top;
use op::Op;

// The most entries of a list, in any format that can be run; and where only small slices are made for a list.
const SCRATCH_LIMIT: usize = 1024;

const SHORT_LIMIT: usize = 256;

// A value, its list's entries copied to the places from `to` on.
pub fn store(v: Value, lists: Lists<'_>, out: &mut EntriesMut<'_>, to: usize) -> Value
    requires formed { FormedIn item_numbers lists v }
    requires room { to + len_of v ≤ places out.old }
    ensures { StoredIn lists.entry v to result out.old out.new }
{
    match v {
        Value::List { origins, len, .. } => {
            out.append(to, v.entries_of(lists));
            Value::List {
                origins,
                start: to,
                len,
            }
        }
        _ => v,
    }
}

// A result that is no List, at a place of the stack: nothing is written.
fn scalar_result(
    op: Op,
    kind: Kind,
    operands: Operands,
    lists: Lists<'_>,
    place: usize,
) -> Result<Top<Value>, Question>
    requires fact { (kind ≡ K.List → ⊥) × (1 ≤ operands.count) × (operands.count ≤ 2) × (place < stack_limit) }
    requires formed { OperandsFormed item_numbers lists operands }
    ensures { (u : ListDefinitions) → Bare (compute u (op_number op) (operands_in lists.entry operands) kind) place (answer result) }
{
    let value = native_function_call::scalar(op, kind, operands, lists)?;
    Ok(Top { place, value })
}

// A result that is a List, made in lent slices, its entries copied to its place in the work slices.
fn list_through(
    op: Op,
    operands: Operands,
    pack: PackDefinitions<'_>,
    place: usize,
    made: &mut EntriesMut<'_>,
    work: &mut EntriesMut<'_>,
) -> Value
    requires room { RoomyIn pack.limit work.old × (pack.limit ≤ places made.old) }
    requires fact { (1 ≤ operands.count) × (operands.count ≤ 3) × (place < stack_limit) }
    requires formed { StackedFormed pack.limit work.old operands }
    ensures { PutIn pack.entry.limit (list_result (definitions_of pack.entry) (op_number op) (stacked work.old operands))
        place result work.old work.new }
{
    let v = list_operators::list(op, operands, work.lists(), pack, made);
    store(v, made.lists(), work, place * pack.limit)
}

// The same, made in slices of its own: small ones where the format's lists are short.
fn list_result(
    op: Op,
    operands: Operands,
    pack: PackDefinitions<'_>,
    place: usize,
    work: &mut EntriesMut<'_>,
) -> Value
    requires room { RoomyIn pack.limit work.old }
    requires fact { (1 ≤ operands.count) × (operands.count ≤ 3) × (place < stack_limit) }
    requires formed { StackedFormed pack.limit work.old operands }
    ensures { PutIn pack.entry.limit (list_result (definitions_of pack.entry) (op_number op) (stacked work.old operands))
        place result work.old work.new }
{
    if pack.limit <= SHORT_LIMIT {
        let mut made = EntriesMut {
            items: &mut [0; SHORT_LIMIT],
            values: &mut [0; SHORT_LIMIT],
        };
        return list_through(op, operands, pack, place, &mut made, work);
    }
    let mut long = EntriesMut {
        items: &mut [0; SCRATCH_LIMIT],
        values: &mut [0; SCRATCH_LIMIT],
    };
    list_through(op, operands, pack, place, &mut long, work)
}

// An operator on as many of three operands as it takes: questions 11 to 13 and 15, and its result at a place of the stack.
pub fn operate(
    op: Op,
    operands: Operands,
    pack: PackDefinitions<'_>,
    place: usize,
    work: &mut EntriesMut<'_>,
) -> Result<Top<Value>, Question>
    requires room { RoomyIn pack.limit work.old }
    requires fact { (place < stack_limit) × (operands.count ≡ operand_count (op_number op)) × (1 ≤ operands.count) }
    requires formed { StackedFormed pack.limit work.old operands }
    ensures { AnsweredIn pack.entry.limit (call (definitions_of pack.entry) (op_number op) operands.count (stacked work.old operands))
        place result work.old work.new }
{
    let a = operands.first.kind();
    let b = operands.second.kind();
    let c = operands.third.kind();
    let kind = operator_kinds::answer(op, operands.count, a, b, c)?;
    match kind {
        Kind::List => {
            let value = list_result(op, operands, pack, place, work);
            Ok(Top { place, value })
        }
        _ => scalar_result(op, kind, operands, work.lists(), place),
    }
}
