// Running a sheet of any bytes: questions 1 to 7, the work slices cleared, and then the run.
#![tactic(auto)]

ghost use Rattle.std.specs.Prelude.{◌≤◌, length};
ghost use Rattle.pack.specs.Format.{format1, Runnable};
ghost use Rattle.pack.specs.Judge.{Sound};
ghost use Rattle.running.specs.Slices.{RunsSix, RunsAny};

use ink_list::entries_mut::EntriesMut;
use ink_number::question::Question;
use ink_value::Value;
use ink_value::slots::Slots;
use list_definitions::definitions::{Definitions, PackDefinitions};
use machine::Stop;
use pack::format::Format;
use pack::passed::PassedPack;
use pack::sound::SoundPack;
use pack_check::format::{DEFINITION_LIMIT, FORMAT1};
use run_sheet::run_sheet;

// Question 6, and on, with a pack that has passed. Its definitions' values are read into a slice that is lent for it.
fn run_passed(
    bytes: &[u8],
    sheet: usize,
    slots: &Slots<'_>,
    format: Format,
    defined: &mut [i32],
    work: &mut EntriesMut<'_>,
    out: &mut EntriesMut<'_>,
) -> Result<Value, Stop>
    requires { Sound format bytes.now × Runnable format × (format.limit ≤ length defined.old) }
    ensures { RunsSix format bytes.now sheet slots.now result work.old work.new out.old out.new }
{
    if pack_read::sheet_count(bytes) <= sheet {
        return Err(Stop::from(Question::Sheet));
    }
    let mut ends = [0u16; DEFINITION_LIMIT];
    let read = pack_read::read_definitions(SoundPack { bytes, format }, &mut ends, defined);
    let tables = Definitions {
        ends: &ends[..read.definitions],
        defined: &defined[..read.items],
    };
    let definitions = PackDefinitions {
        tables,
        limit: format.limit,
    };
    let pack = PassedPack {
        bytes,
        definitions,
        format,
    };
    run_sheet(pack, sheet, slots, work, out)
}

// Runs a sheet of any bytes: questions 1 to 17.
pub fn run(
    pack: &[u8],
    sheet: usize,
    slots: &Slots<'_>,
    work: &mut EntriesMut<'_>,
    out: &mut EntriesMut<'_>,
) -> Result<Value, Stop>
    ensures { RunsAny format1 pack.now sheet slots.now result work.old work.new out.old out.new }
{
    pack_check::check(pack)?;
    let mut defined = [0i32; FORMAT1.limit];
    run_passed(pack, sheet, slots, FORMAT1, &mut defined, work, out)
}
