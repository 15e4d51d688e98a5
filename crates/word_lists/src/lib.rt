// An operator from words to words where its result is a List.
#![tactic(auto)]

ghost use Rattle.std.specs.Prelude.{◌≤◌};
ghost use Rattle.ink_list.specs.Lists.{places};
ghost use Rattle.op.specs.Op.{op_number};
ghost use Rattle.word_lists.specs.Operands.{FirstIn};
ghost use Rattle.word_lists.specs.Slices.{ListSays};

use ink_list::entries_mut::EntriesMut;
use ink_list::lists::Lists;
use list_definitions::definitions::PackDefinitions;
use op::Op;

// A result that is a List.
pub fn list(
    op: Op,
    count: usize,
    operands: &[u64; 9],
    lists: Lists<'_>,
    pack: PackDefinitions<'_>,
    out: &mut EntriesMut<'_>,
    answer: &mut [u64; 3],
) -> u32
    requires room { pack.limit ≤ places out.old }
    requires le_count { (1 ≤ count) × (count ≤ 3) }
    requires first_in { FirstIn pack.limit lists count operands.now }
    ensures { ListSays pack.entry (op_number op) count operands lists.entry result answer out.old out.new }
{
    let used = words_in::operands_at(count, operands);
    let v = list_operators::list(op, used, lists, pack, out);
    words_out::put_value(answer, v);
    0
}
