// An operator from words to words.
#![tactic(auto)]

ghost use Rattle.std.specs.Prelude.{◌≡◌, ◌≤◌};
ghost use Rattle.op.specs.Op.{op_number};
ghost use Rattle.ink_list.specs.Entries.{item_numbers};
ghost use Rattle.ink_list.specs.Lists.{places};
ghost use Rattle.ink_value.specs.declared.Kind.TheVariants as K;
ghost use Rattle.word_lists.specs.Operands.{FirstIn};
ghost use Rattle.word_operators.specs.Operands.{OperandsOk};
ghost use Rattle.word_operators.specs.Slices.{ScalarSays, CallSaysTo};

use ink_list::entries_mut::EntriesMut;
use ink_list::lists::Lists;
use ink_value::Kind;
use list_definitions::definitions::PackDefinitions;
use op::Op;
use word_kinds::code_in;

// A result that is no List.
fn scalar(
    op: Op,
    kind: Kind,
    count: usize,
    operands: &[u64; 9],
    lists: Lists<'_>,
    answer: &mut [u64; 3],
) -> u32
    requires fact { (kind ≡ K.List → ⊥) × (1 ≤ count) × (count ≤ 2) }
    requires first_in { FirstIn item_numbers lists count operands.now }
    ensures { ScalarSays (op_number op) count kind operands lists.entry result answer }
{
    let used = words_in::operands_at(count, operands);
    let outcome = native_function_call::scalar(op, kind, used, lists);
    value_words::outcome(outcome, answer)
}

// Questions 8, 10 to 13 and 15 of operands of which question 7 says yes, and the result.
#[tactic(auto, using(call_memory::proofs::UsedOperands::first_of_lem))]
pub fn apply(
    op: Op,
    count: usize,
    operands: &[u64; 9],
    lists: Lists<'_>,
    pack: PackDefinitions<'_>,
    out: &mut EntriesMut<'_>,
    answer: &mut [u64; 3],
) -> u32
    requires operands_ok { OperandsOk pack lists count operands.now }
    requires room { pack.limit ≤ places out.old }
    ensures { CallSaysTo pack.entry (op_number op) count operands lists.entry result answer out.old out.new }
{
    let kind = operator_kinds::kinds(
        op,
        count,
        code_in(operands[0]),
        code_in(operands[3]),
        code_in(operands[6]),
    );
    match kind {
        Err(question) => {
            words_out::put_index(answer, 0);
            value_words::number(question)
        }
        Ok(Kind::List) => word_lists::list(op, count, operands, lists, pack, out, answer),
        Ok(kind) => scalar(op, kind, count, operands, lists, answer),
    }
}
