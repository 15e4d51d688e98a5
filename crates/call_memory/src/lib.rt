// Question 7 of a direct call: its operands are formed, and its result slices long enough.
#![tactic(auto)]

ghost use Rattle.std.specs.Prelude.{◌≡◌, cond, [], ◌∷◌};
ghost use Rattle.ink_value.specs.declared.Value.TheVariants as Is;
ghost use Rattle.call_memory.specs.Lent.{used_of, formed_in, lent_well, operand_ok};

use ink_list::lists::Lists;
use ink_list::well_formed::Counts;
use ink_value::Value;
use ink_value::operands::Operands;
use pack::bytes::byte_at;
use pack::placed::PlacedPack;
use pack::sound::SoundPack;
use pack_lists::definitions::total_items;

// Question 7 of a value, with its two slices equally long.
#[tactic(auto, using(crate::proofs::UsedOperands::uneven, crate::proofs::UsedOperands::all_one))]
fn one_formed(v: Value, lists: Lists<'_>, counts: Counts) -> bool
    ensures { result ≡ formed_in counts lists.entry (v ∷ []) }
{
    if lists.items.len() != lists.values.len() {
        return false;
    }
    v.is_formed(lists, counts)
}

// The same of three.
#[tactic(auto, using(crate::proofs::UsedOperands::uneven, crate::proofs::UsedOperands::first_no, crate::proofs::UsedOperands::second_no, crate::proofs::UsedOperands::third))]
fn three_formed(a: Value, b: Value, c: Value, lists: Lists<'_>, counts: Counts) -> bool
    ensures { result ≡ formed_in counts lists.entry (a ∷ b ∷ c ∷ []) }
{
    if lists.items.len() != lists.values.len() {
        return false;
    }
    if !a.is_formed(lists, counts) {
        return false;
    }
    if !b.is_formed(lists, counts) {
        return false;
    }
    c.is_formed(lists, counts)
}

// An operand that is used, or Void in its place.
fn used(yes: bool, v: Value) -> Value
    ensures { result ≡ cond yes v Is.Void }
{
    if yes { v } else { Value::Void }
}

// Question 7 of the operands that are used.
#[tactic(auto, using(crate::proofs::UsedOperands::kept_all))]
fn used_formed(operands: Operands, lists: Lists<'_>, counts: Counts) -> bool
    ensures { result ≡ formed_in counts lists.entry (used_of operands) }
{
    let count = operands.count;
    three_formed(
        used(0 < count, operands.first),
        used(1 < count, operands.second),
        used(2 < count, operands.third),
        lists,
        counts,
    )
}

// Question 7 of the operands that are used, and of result slices of these lengths, which `limit` entries must fit.
#[tactic(auto, using(crate::proofs::Rooms::short_items, crate::proofs::Rooms::short_values, crate::proofs::Rooms::rooms))]
pub fn lent_well(
    operands: Operands,
    lists: Lists<'_>,
    counts: Counts,
    limit: usize,
    result_items: usize,
    result_values: usize,
) -> bool
    ensures { result ≡ lent_well counts lists.entry (used_of operands) limit result_items result_values }
{
    if result_items < limit {
        return false;
    }
    if result_values < limit {
        return false;
    }
    used_formed(operands, lists, counts)
}

// Question 7 of the operand of a conversion, with a pack that has passed.
pub fn operand_formed(pack: SoundPack<'_>, v: Value, lists: Lists<'_>) -> bool
    ensures { result ≡ operand_ok pack.entry lists.entry v }
{
    let definitions = byte_at(pack.bytes, 1);
    let items = total_items(PlacedPack { bytes: pack.bytes }, pack.format);
    one_formed(v, lists, Counts { definitions, items })
}
