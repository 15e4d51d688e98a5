// A sheet's instructions worked on kinds alone, one after the other.
#![tactic(auto)]

ghost use Rattle.std.specs.Prelude.{◌≡◌, true, ◌<◌, length};
ghost use Rattle.pack.specs.Contents.{sheet_count};
ghost use Rattle.pack.specs.Judge.{question5, Placed};
ghost use Rattle.pack.specs.Read.{program};
ghost use Rattle.vet_program.specs.Slices.{ForecastsIn};

use ink_number::question::Question;
use ink_value::Kind;
use kind_table::KindTable;
use machine::Stop;
use pack_read::instructions::instructions_of;

// A sheet of a pack that has passed, its forecast written to an array: how many instructions it has, or where vetting stops.
#[tactic(auto, using(crate::proofs::Going::none_left, crate::proofs::Going::ends_one, crate::proofs::Going::ends_other, crate::proofs::Going::no_stacks))]
pub fn vet_into(
    pack: &[u8],
    sheet: usize,
    kinds: [Kind; 16],
    table: &KindTable,
    out: &mut [u8; 2048],
) -> Result<usize, Stop>
    requires placed { (Placed pack.now × (question5 pack.now ≡ true)) × (sheet < sheet_count pack.now) }
    requires out_len { length out.old ≡ 2048 }
    ensures { ForecastsIn (program pack.now sheet) kinds result out }
{
    let mut stack = [Kind::Void; 64];
    let mut n: usize = 0;
    // By hand: i is also the count after the loop, which `enumerate` does not leave.
    let mut i: usize = 0;
    for instruction in instructions_of(pack, sheet) {
        let step = vet_steps::vet_step(instruction, kinds, table, &stack, n);
        match step {
            Ok(top) => {
                stack[top.place] = top.value;
                n = top.place + 1;
                out[2 * i] = n as u8;
                out[2 * i + 1] = u8::from(top.value);
                i += 1;
            }
            Err(question) => return Err(Stop { question, index: i }),
        }
    }
    if n == 1 {
        Ok(i)
    } else {
        Err(Stop {
            question: Question::Left,
            index: i,
        })
    }
}
