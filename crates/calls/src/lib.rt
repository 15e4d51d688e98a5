// Direct calls: one operator, or one conversion, on operands that are lists of a pack.
#![tactic(auto)]

ghost use Rattle.std.specs.Prelude.{◌≡◌, true, ◌≤◌, length};
ghost use Rattle.ink_number.specs.Question.{answer};
ghost use Rattle.op.specs.Op.{op_number};
ghost use Rattle.ink_list.specs.Lists.{places};
ghost use Rattle.list_operators.specs.Lists.{definitions_of};
ghost use Rattle.value_conversions.specs.Convert.{coerce};
ghost use Rattle.ink_value.specs.Held.{GivesTo};
ghost use Rattle.pack.specs.Format.{format1, Runnable};
ghost use Rattle.call_memory.specs.Lent.{operands_ok, used_of, pack_definitions};
ghost use Rattle.calls.specs.Call.{ReturnedPlain};
ghost use Rattle.calls.specs.Slices.{called_in, cast_in, coerced_in, on_pack_in, Asked, ReturnedIn};

use ink_list::entries_mut::EntriesMut;
use ink_list::lists::Lists;
use ink_list::well_formed::Counts;
use ink_number::question::Question;
use ink_value::operands::Operands;
use ink_value::{Kind, Value};
use list_definitions::definitions::{Definitions, PackDefinitions};
use op::Op;
use pack::sound::SoundPack;
use pack_check::format::{DEFINITION_LIMIT, FORMAT1};

// An operator on operands of which question 7 says yes, with the definitions at hand: questions 8, 10 to 13 and 15.
#[tactic(auto, using(crate::proofs::Forms::goes_used, call_memory::proofs::UsedOperands::first_of_lem))]
pub fn call_formed(
    op: Op,
    operands: Operands,
    lists: Lists<'_>,
    pack: PackDefinitions<'_>,
    out: &mut EntriesMut<'_>,
) -> Result<Value, Question>
    requires formed { operands_ok (definitions_of pack) lists.items.now lists.values.now (used_of operands) ≡ true }
    requires room { pack.limit ≤ places out.old }
    ensures { GivesTo (called_in lists.entry out.old (op_number op) operands (definitions_of pack.entry)) result out.old out.new }
{
    native_function_call::apply(op, operands, lists, pack, out)
}

// An operator with the definitions at hand: question 7, then 8, 10 to 13 and 15.
#[tactic(auto, using(ink_value::proofs::Given::gave_plain, crate::proofs::Forms::ill_used, crate::proofs::Forms::yes_formed, crate::proofs::Forms::yes_room))]
pub fn call_with(
    op: Op,
    operands: Operands,
    lists: Lists<'_>,
    pack: PackDefinitions<'_>,
    out: &mut EntriesMut<'_>,
) -> Result<Value, Question>
    ensures { GivesTo (called_in lists.entry out.old (op_number op) operands (definitions_of pack.entry)) result out.old out.new }
{
    let counts = Counts {
        definitions: pack.tables.ends.len(),
        items: pack.tables.defined.len(),
    };
    let result_items = out.items.len();
    let result_values = out.values.len();
    if !call_memory::lent_well(
        operands,
        lists,
        counts,
        pack.limit,
        result_items,
        result_values,
    ) {
        return Err(Question::Memory);
    }
    call_formed(op, operands, lists, pack, out)
}

// A call on a pack that has passed. Its definitions' values are read into a slice that is lent for it.
#[tactic(auto, using(crate::proofs::Passed::items_fit))]
fn call_checked(
    pack: SoundPack<'_>,
    op: Op,
    operands: Operands,
    lists: Lists<'_>,
    defined: &mut [i32],
    out: &mut EntriesMut<'_>,
) -> Result<Value, Question>
    requires runnable { Runnable pack.format }
    requires room { pack.format.limit ≤ length defined.old }
    ensures { GivesTo (called_in lists.entry out.old (op_number op) operands (pack_definitions pack.entry)) result out.old out.new }
{
    let mut ends = [0u16; DEFINITION_LIMIT];
    let read = pack_read::read_definitions(pack, &mut ends, defined);
    let tables = Definitions {
        ends: &ends[..read.definitions],
        defined: &defined[..read.items],
    };
    let definitions = PackDefinitions {
        tables,
        limit: pack.format.limit,
    };
    call_with(op, operands, lists, definitions, out)
}

// An operator on operands whose entries stand in two slices.
#[tactic(auto, using(crate::proofs::Standing::pack_returned, crate::proofs::Passed::sound1, pack::proofs::Formats::runnable1))]
pub fn call(
    pack: &[u8],
    op: Op,
    operands: Operands,
    lists: Lists<'_>,
    out: &mut EntriesMut<'_>,
) -> Result<Value, Question>
    ensures { ReturnedIn (on_pack_in format1 pack (called_in lists.entry out.old (op_number op) operands)) result out.old out.new }
{
    pack_check::check(pack)?;
    let sound = SoundPack {
        bytes: pack,
        format: FORMAT1,
    };
    let mut defined = [0i32; FORMAT1.limit];
    call_checked(sound, op, operands, lists, &mut defined, out)
}

// `cast` on a pack that has passed.
#[tactic(auto, using(ink_value::proofs::Given::gave_plain, crate::proofs::Forms::cast_ill, crate::proofs::Forms::cast_no_items, crate::proofs::Forms::cast_no_values, crate::proofs::Forms::cast_goes))]
fn cast_checked(
    pack: SoundPack<'_>,
    to: Kind,
    v: Value,
    lists: Lists<'_>,
    out: &mut EntriesMut<'_>,
) -> Result<Value, Question>
    ensures { GivesTo (cast_in lists.entry out.old to v (pack_definitions pack.entry)) result out.old out.new }
{
    if !call_memory::operand_formed(pack, v, lists) {
        return Err(Question::Memory);
    }
    if out.items.len() < pack.format.limit {
        return Err(Question::Memory);
    }
    if out.values.len() < pack.format.limit {
        return Err(Question::Memory);
    }
    value_conversions::cast(to, v, lists, out)
}

// `Value::cast` to the kind `to`: any but Void.
#[tactic(auto, using(crate::proofs::Standing::pack_returned, crate::proofs::Passed::sound1, pack::proofs::Formats::runnable1))]
pub fn cast(
    pack: &[u8],
    to: Kind,
    v: Value,
    lists: Lists<'_>,
    out: &mut EntriesMut<'_>,
) -> Result<Value, Question>
    ensures { ReturnedIn (on_pack_in format1 pack (cast_in lists.entry out.old to v)) result out.old out.new }
{
    pack_check::check(pack)?;
    let sound = SoundPack {
        bytes: pack,
        format: FORMAT1,
    };
    cast_checked(sound, to, v, lists, out)
}

// Questions 1 to 5, and 7 of the operand of a conversion that has no result slices.
#[tactic(auto, using(crate::proofs::Forms::coerce_goes, crate::proofs::Forms::coerce_ill, crate::proofs::Passed::sound1, pack::proofs::Formats::runnable1))]
fn operand_asked(pack: &[u8], v: Value, lists: Lists<'_>) -> Result<(), Question>
    ensures { Asked format1 pack lists.entry v result }
{
    pack_check::check(pack)?;
    let sound = SoundPack {
        bytes: pack,
        format: FORMAT1,
    };
    if call_memory::operand_formed(sound, v, lists) {
        Ok(())
    } else {
        Err(Question::Memory)
    }
}

// `coerce_to_bool`, `coerce_to_int` or `coerce_to_float`, by the kind that it answers. There is none for a List and for Void.
#[tactic(auto, using(crate::proofs::Standing::coerced_returned, crate::proofs::Standing::coerce_plain))]
pub fn coerce(pack: &[u8], to: Kind, v: Value, lists: Lists<'_>) -> Result<Value, Question>
    ensures { ReturnedPlain (on_pack_in format1 pack (coerced_in lists.entry (coerce to) v)) (answer result) }
{
    operand_asked(pack, v, lists)?;
    value_conversions::coerce(to, v)
}
