// The run of a pack that has passed, in work slices that are zero and are left so: the work, the result stored, and what was used of the
// work slices zeroed.
#![tactic(auto)]

ghost use Rattle.std.specs.Prelude.{◌≡◌, ℕ, ◌+◌, ◌<◌, ◌≤◌, length, get_or};
ghost use Rattle.ink_list.specs.Lists.{places};
ghost use Rattle.ink_value.specs.Held.{SlotsFormed};
ghost use Rattle.pack.specs.Contents.{sheet_count};
ghost use Rattle.machine.specs.Machine.{stack_limit};
ghost use Rattle.operating.specs.Stacked.{Roomy};
ghost use Rattle.running.specs.Slices.{run_in, MemoryIn, RanIn, Kept};
ghost use Rattle.run_checked.specs.Clear.{Zeroed, ClearedIn};

use ink_list::entries_mut::EntriesMut;
use ink_value::Value;
use ink_value::slots::Slots;
use machine::{STACK_LIMIT, Stop};
use pack::format::Format;
use pack::passed::PassedPack;

// Zeros n entries of the work slices, from a place on.
#[tactic(auto, using(crate::proofs::Clearing::same_filled))]
pub fn zero(work: &mut EntriesMut<'_>, from: usize, n: usize)
    requires { from + n ≤ places work.old }
    ensures { Zeroed from n work.old work.new }
{
    work.items[from..from + n].fill(0);
    work.values[from..from + n].fill(0);
}

// Zeros what each place of the stack has used of the work slices.
fn clear(used: &[usize], format: Format, work: &mut EntriesMut<'_>)
    requires used_len { (length used.now ≡ stack_limit) × ((q : ℕ) → get_or used.now q 0 ≤ format.limit) }
    requires roomy { Roomy format work.old.items.now work.old.values.now }
    ensures { ClearedIn format used work.old work.new }
{
    for (q, n) in used.iter().enumerate() {
        zero(work, q * format.limit, *n);
    }
}

// Runs a sheet of a pack that has passed, its slots well formed, in work slices that are zero.
pub fn run_checked(
    pack: PassedPack<'_, '_>,
    sheet: usize,
    slots: &Slots<'_>,
    work: &mut EntriesMut<'_>,
    out: &mut EntriesMut<'_>,
) -> Result<Value, Stop>
    requires sheet_bound { sheet < sheet_count pack.bytes.now }
    requires formed { SlotsFormed pack.format.limit slots.now }
    requires memory { MemoryIn pack.format work.old out.old }
    ensures ran_in { RanIn (run_in pack.entry sheet slots.now) result out.old out.new }
    ensures kept { Kept work.old work.new }
{
    let mut used = [0usize; STACK_LIMIT];
    let ran = running::work(pack, sheet, slots, &mut used, work);
    match ran {
        Ok(v) => {
            let last = operating::store(v, work.lists(), out, 0);
            clear(&used, pack.format, work);
            Ok(last)
        }
        Err(stop) => {
            clear(&used, pack.format, work);
            Err(stop)
        }
    }
}
