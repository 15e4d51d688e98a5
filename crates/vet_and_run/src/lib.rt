// Vetting and a run of one sheet, one after the other.
#![tactic(auto)]

ghost use Rattle.pack.specs.Format.{format1};
ghost use Rattle.vet_and_run.specs.Both.{BothIn};

use ink_list::entries_mut::EntriesMut;
use ink_value::Value;
use ink_value::slots::Slots;
use machine::Stop;

// The answers of the two calls.
#[derive(Clone, Copy)]
pub struct VettedRun {
    pub vetted: Result<usize, Stop>,
    pub ran: Result<Value, Stop>,
}

// Vets a sheet of any bytes for slots of these kinds, and runs it with these slots. Where the slots have those kinds, the vetting's
// answer and forecast hold of the run. The kinds come as bytes, as a host has them: vetting asks question 7 of them.
pub fn vet_and_run(
    pack: &[u8],
    sheet: usize,
    kinds: [u8; 16],
    slots: &Slots<'_>,
    forecast: &mut [u8],
    work: &mut EntriesMut<'_>,
    out: &mut EntriesMut<'_>,
) -> VettedRun
    ensures { BothIn format1 pack sheet kinds slots.now result forecast work.old work.new out.old out.new }
{
    let vetted = vetting::vet(pack, sheet, kinds, forecast);
    let ran = run_bytes::run(pack, sheet, slots, work, out);
    VettedRun { vetted, ran }
}
