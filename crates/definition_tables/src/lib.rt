// The definitions of a pack that has passed, read into two slices of a host.
#![tactic(auto)]

ghost use Rattle.ink_number.specs.Question.{answer};
ghost use Rattle.pack.specs.Format.{Narrow};
ghost use Rattle.value_words.specs.Calls.{number_of};
ghost use Rattle.definition_tables.specs.Tables.{Passed};
ghost use Rattle.definition_tables.specs.Slices.{ReadsAny};

use ink_number::question::Question;
use pack::format::Format;
use pack::sound::SoundPack;
use pack_check::format::DEFINITION_LIMIT;

// Question 7 of the two slices, and then the tables, and how many places each takes.
pub fn read_tables(
    pack: &[u8],
    format: Format,
    ends: &mut [u16],
    defined: &mut [i32],
    counts: &mut [u64; 2],
) -> Result<(), Question>
    requires { Passed format pack.now × Narrow format }
    ensures { ReadsAny format pack (number_of (answer result)) ends defined counts }
{
    if ends.len() < DEFINITION_LIMIT {
        return Err(Question::Memory);
    }
    if defined.len() < format.limit {
        return Err(Question::Memory);
    }
    let read = pack_read::read_definitions(
        SoundPack {
            bytes: pack,
            format,
        },
        ends,
        defined,
    );
    *counts = [read.definitions as u64, read.items as u64];
    Ok(())
}
