// Running a sheet of a pack that has passed: question 7, the work slices cleared, and then the run.
#![tactic(auto)]

ghost use Rattle.std.specs.Prelude.{◌<◌};
ghost use Rattle.pack.specs.Contents.{sheet_count};
ghost use Rattle.pack.specs.Format.{Runnable};
ghost use Rattle.running.specs.Slices.{RunsSeven};

use ink_list::entries_mut::EntriesMut;
use ink_number::question::Question;
use ink_value::Value;
use ink_value::slots::Slots;
use machine::{STACK_LIMIT, Stop};
use pack::passed::PassedPack;
use run_checked::{run_checked, zero};
use run_memory::{all_formed, long_enough};

// Question 7, and then the run.
pub fn run_sheet(
    pack: PassedPack<'_, '_>,
    sheet: usize,
    slots: &Slots<'_>,
    work: &mut EntriesMut<'_>,
    out: &mut EntriesMut<'_>,
) -> Result<Value, Stop>
    requires { (sheet < sheet_count pack.bytes.now) × Runnable pack.format }
    ensures { RunsSeven pack.entry sheet slots.now result work.old work.new out.old out.new }
{
    if !all_formed(slots, pack.counts()) {
        return Err(Stop::from(Question::Memory));
    }
    if !long_enough(work.lists(), out.lists(), pack.format) {
        return Err(Stop::from(Question::Memory));
    }
    zero(work, 0, STACK_LIMIT * pack.format.limit);
    run_checked(pack, sheet, slots, work, out)
}
