// Running a sheet of a pack that has passed, the work slices clear: questions 6 and 7, and then the run.
#![tactic(auto)]

ghost use Rattle.pack.specs.Format.{Runnable};
ghost use Rattle.definition_tables.specs.Tables.{Passed};
ghost use Rattle.run_ready.specs.Work.{Clear};
ghost use Rattle.running.specs.Slices.{RunsAny, Kept};

use ink_list::entries_mut::EntriesMut;
use ink_number::question::Question;
use ink_value::Value;
use ink_value::slots::Slots;
use machine::Stop;
use pack::passed::PassedPack;

pub fn run_ready(
    pack: PassedPack<'_, '_>,
    sheet: usize,
    slots: &Slots<'_>,
    work: &mut EntriesMut<'_>,
    out: &mut EntriesMut<'_>,
) -> Result<Value, Stop>
    requires passed { Passed pack.format pack.bytes.now × Runnable pack.format }
    requires clear { Clear pack.format work.old.items.now work.old.values.now }
    ensures runs_any { RunsAny pack.entry.format pack.entry.bytes.now sheet slots.now result work.old work.new out.old out.new }
    ensures kept { Kept work.old work.new }
{
    if pack_read::sheet_count(pack.bytes) <= sheet {
        return Err(Stop::from(Question::Sheet));
    }
    if !run_memory::all_formed(slots, pack.counts()) {
        return Err(Stop::from(Question::Memory));
    }
    if !run_memory::long_enough(work.lists(), out.lists(), pack.format) {
        return Err(Stop::from(Question::Memory));
    }
    run_checked::run_checked(pack, sheet, slots, work, out)
}
