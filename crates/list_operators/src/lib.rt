// The operators on lists whose results are Lists, written from the start of two output slices.
#![tactic(auto)]

ghost use Rattle.std.specs.Prelude.{◌≡◌, [], ◌∷◌, ℕ, ◌≤◌, length};
ghost use Rattle.ink_list.specs.Entries.{Ascends, item_numbers};
ghost use Rattle.ink_list.specs.Lists.{list_of, places, Fills};
ghost use Rattle.ink_value.specs.declared.Kind.TheVariants as K;
ghost use Rattle.ink_value.specs.Convert.{entries_of};
ghost use Rattle.ink_value.specs.Value.{kind_in};
ghost use Rattle.ink_value.specs.Held.{val_in, operands_in, FormedIn, OperandsFormed, MakesTo};
ghost use Rattle.op.specs.Op.{op_number};
ghost use Rattle.list_pairs.specs.Pairs.{merge_l};
ghost use Rattle.list_operators.specs.Lists.{unary_l, shift_l, entries_for, list_result, definitions_of};

use ink_list::entries::Entries;
use ink_list::entries_mut::EntriesMut;
use ink_list::lists::Lists;
use ink_value::operands::Operands;
use ink_value::{Kind, Value};
use list_definitions::definitions::{Definitions, PackDefinitions};
use op::Op;

#[tactic(auto, unfolding(crate::specs::Lists::unary_l), using(ink_list::proofs::Rests::items_entries))]
fn unary(
    op: Op,
    a: Entries<'_>,
    set: u64,
    definitions: Definitions<'_>,
    out: &mut EntriesMut<'_>,
) -> usize
    requires ascends { Ascends 0 item_numbers a.items.now }
    requires bound { (1 ≤ places out.old) × (length definitions.defined.now ≤ places out.old) }
    ensures { Fills (unary_l definitions.entry.ends.now definitions.entry.defined.now (op_number op) set
        (list_of a.entry)) result out.old out.new }
{
    match op {
        Op::ListMin => list_extremes::list_min(a, out),
        Op::ListMax => list_extremes::list_max(a, out),
        Op::All => list_definitions::all(set, definitions, out),
        Op::Invert => list_definitions::invert(a.items, set, definitions, out),
        _ => 0,
    }
}

#[tactic(auto, unfolding(crate::specs::Lists::shift_l))]
fn shift(
    op: Op,
    a: Entries<'_>,
    by: i32,
    set: u64,
    definitions: Definitions<'_>,
    out: &mut EntriesMut<'_>,
) -> usize
    requires ascends { Ascends 0 item_numbers a.items.now }
    requires defined_len_bound { length definitions.defined.now ≤ places out.old }
    ensures { Fills (shift_l definitions.entry.ends.now definitions.entry.defined.now (op_number op) set by
        (list_of a.entry)) result out.old out.new }
{
    match op {
        Op::Add => list_increment::increment(a, by, set, definitions, out),
        Op::Subtract => list_increment::decrement(a, by, set, definitions, out),
        _ => 0,
    }
}

// ListMin, ListMax, All, Invert.
fn list1(
    op: Op,
    a: Value,
    lists: Lists<'_>,
    pack: PackDefinitions<'_>,
    out: &mut EntriesMut<'_>,
) -> usize
    requires room { pack.limit ≤ places out.old }
    requires formed { FormedIn pack.limit lists a }
    ensures { Fills (entries_for (definitions_of pack.entry) (op_number op) (val_in lists.entry a ∷ [])) result out.old out.new }
{
    unary(op, a.entries_of(lists), a.origins_in(), pack.tables, out)
}

// Add, Subtract and Intersect of two lists.
fn list_list(op: Op, a: Value, b: Value, lists: Lists<'_>, out: &mut EntriesMut<'_>) -> usize
    requires formed_a { FormedIn (places out.old) lists a }
    requires formed_b { FormedIn (places out.old) lists b }
    ensures { (limit : ℕ) → FormedIn limit lists.entry a → FormedIn limit lists.entry b
        → Fills (merge_l limit (op_number op) (entries_of (val_in lists.entry a)) (entries_of (val_in lists.entry b)))
        result out.old out.new }
{
    list_pairs::merge(op, a.entries_of(lists), b.entries_of(lists), out)
}

// Add and Subtract of a list and an Int.
fn list_int(
    op: Op,
    a: Value,
    b: Value,
    lists: Lists<'_>,
    pack: PackDefinitions<'_>,
    out: &mut EntriesMut<'_>,
) -> usize
    requires room { pack.limit ≤ places out.old }
    requires formed { FormedIn pack.limit lists a × FormedIn pack.limit lists b }
    requires no_list { kind_in b ≡ K.List → ⊥ }
    ensures { Fills (entries_for (definitions_of pack.entry) (op_number op) (val_in lists.entry a ∷ val_in lists.entry b ∷ []))
        result out.old out.new }
{
    let by = b.to_int(lists.values);
    shift(
        op,
        a.entries_of(lists),
        by,
        a.origins_in(),
        pack.tables,
        out,
    )
}

fn list2(
    op: Op,
    a: Value,
    b: Value,
    lists: Lists<'_>,
    pack: PackDefinitions<'_>,
    out: &mut EntriesMut<'_>,
) -> usize
    requires room { pack.limit ≤ places out.old }
    requires formed { FormedIn pack.limit lists a × FormedIn pack.limit lists b }
    ensures { Fills (entries_for (definitions_of pack.entry) (op_number op) (val_in lists.entry a ∷ val_in lists.entry b ∷ []))
        result out.old out.new }
{
    match b.kind() {
        Kind::List => list_list(op, a, b, lists, out),
        _ => list_int(op, a, b, lists, pack, out),
    }
}

// The entries of a result that is a List.
fn entries_for(
    op: Op,
    operands: Operands,
    lists: Lists<'_>,
    pack: PackDefinitions<'_>,
    out: &mut EntriesMut<'_>,
) -> usize
    requires room { pack.limit ≤ places out.old }
    requires formed { OperandsFormed pack.limit lists operands }
    requires le_count { (1 ≤ operands.count) × (operands.count ≤ 3) }
    ensures { Fills (entries_for (definitions_of pack.entry) (op_number op) (operands_in lists.entry operands)) result out.old out.new }
{
    let a = operands.first;
    let b = operands.second;
    match operands.count {
        1 => list1(op, a, lists, pack, out),
        2 => list2(op, a, b, lists, pack, out),
        _ => value_range::range(a, b, operands.third, lists, out),
    }
}

// A result that is a List, written from the start of the two output slices.
pub fn list(
    op: Op,
    operands: Operands,
    lists: Lists<'_>,
    pack: PackDefinitions<'_>,
    out: &mut EntriesMut<'_>,
) -> Value
    requires room { pack.limit ≤ places out.old }
    requires formed { OperandsFormed pack.limit lists operands }
    requires le_count { (1 ≤ operands.count) × (operands.count ≤ 3) }
    ensures { MakesTo (list_result (definitions_of pack.entry) (op_number op) (operands_in lists.entry operands)) result out.old out.new }
{
    let len = entries_for(op, operands, lists, pack, out);
    let items = out.first_items(len);
    let origins = result_origins::origins_after(op, operands, items, pack.tables.ends);
    Value::List {
        origins,
        start: 0,
        len,
    }
}
