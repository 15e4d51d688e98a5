// The origin set of a result.
#![tactic(auto)]

ghost use Rattle.std.specs.Prelude.{◌≡◌, List, [], ◌∷◌, ℕ, ◌≤◌, ℤ, length};
ghost use Rattle.ink_list.specs.Entries.{item_numbers, Ascends};
ghost use Rattle.ink_value.specs.Value.{val_of, first_of};
ghost use Rattle.ink_value.specs.declared.Value.{Value};
ghost use Rattle.op.specs.Op.{op_number};
ghost use Rattle.result_origins.specs.Origins.{origins_kept, origins_after};

use ink_value::operands::Operands;
use ink_value::{Kind, Value};
use op::Op;

// The set that an empty result of two operands keeps: after Subtract of two lists the left one's. Entries are not looked
// at, so it is so wherever they stand.
#[tactic(auto, unfolding(crate::specs::Origins::origins_kept), using(ink_value::proofs::Reading::list_in))]
fn origins_kept(op: Op, a: Value, b: Value) -> u64
    ensures { (is : List ℕ) (vs : List ℤ) → result ≡ origins_kept (op_number op) (val_of is vs a ∷ val_of is vs b ∷ []) }
{
    match op {
        Op::Subtract => match b.kind() {
            Kind::List => a.origins_in(),
            Kind::Bool | Kind::Int | Kind::Float | Kind::Void => 0,
        },
        _ => 0,
    }
}

// The origin set of a result with these items, of these operands, whatever the third is.
#[tactic(auto, using(crate::proofs::Rule::some_items, crate::proofs::Rule::no_items, crate::proofs::Rule::not_two))]
pub fn origins_after(op: Op, operands: Operands, items: &[u16], ends: &[u16]) -> u64
    requires { Ascends 0 item_numbers items.now × (length ends.now ≤ 64) }
    ensures { (is : List ℕ) (vs : List ℤ) (c : Value)
        → result ≡ origins_after ends.now (op_number op) (first_of is vs operands.count operands.first operands.second c) items.now }
{
    if 0 < items.len() {
        return list_definitions::origins_of(items, ends);
    }
    if operands.count != 2 {
        return 0;
    }
    origins_kept(op, operands.first, operands.second)
}
