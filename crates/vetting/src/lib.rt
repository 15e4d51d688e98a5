// Vetting: the questions of any bytes, and a sheet's answer and forecast.
#![tactic(auto)]

ghost use Rattle.std.specs.Prelude.{◌≡◌, true, map, ◌<◌, ◌≤◌, length};
ghost use Rattle.ink_value.specs.Val.{kind_at};
ghost use Rattle.pack.specs.Contents.{sheet_count};
ghost use Rattle.pack.specs.Format.{format1};
ghost use Rattle.pack.specs.Judge.{question5, Placed};
ghost use Rattle.pack.specs.Read.{program};
ghost use Rattle.vetting.specs.Vet.{all_codes};
ghost use Rattle.vetting.specs.Slices.{VetsProgramIn, VetsAny};

use ink_number::question::Question;
use ink_value::Kind;
use kind_table::KindTable;
use machine::Stop;

// The bytes that a forecast may take: two for each instruction.
const FORECAST_LIMIT: usize = 2048;

// Are sixteen codes kind codes; 4 is Void's, the last.
fn are_codes(codes: &[u8; 16]) -> bool
    ensures { result ≡ all_codes codes.now }
{
    codes.iter().all(|code| *code <= 4)
}

// The kinds of sixteen codes.
fn kinds_of(codes: &[u8; 16]) -> [Kind; 16]
    ensures { result ≡ map kind_at codes.now }
{
    std::array::from_fn(|k| Kind::from(codes[k]))
}

// A sheet of a pack that has passed, where question 7 says yes.
fn vet_sheet(
    pack: &[u8],
    sheet: usize,
    kinds: [Kind; 16],
    forecast: &mut [u8],
) -> Result<usize, Stop>
    requires placed { (Placed pack.now × (question5 pack.now ≡ true)) × (sheet < sheet_count pack.now) }
    requires room { 2048 ≤ length forecast.old }
    ensures { VetsProgramIn (program pack.now sheet) kinds result forecast }
{
    let mut bytes = [0u8; 2048];
    let table = KindTable::new();
    let count = vet_program::vet_into(pack, sheet, kinds, &table, &mut bytes)?;
    let n = 2 * count;
    forecast[..n].copy_from_slice(&bytes[..n]);
    Ok(count)
}

// Vets a sheet of any bytes for slots of sixteen kinds: questions 1 to 13 and 17. It answers how many instructions the sheet has, or where
// it stops. The kinds come as bytes, of which question 7 asks whether they are codes.
pub fn vet(pack: &[u8], sheet: usize, kinds: [u8; 16], forecast: &mut [u8]) -> Result<usize, Stop>
    ensures { VetsAny format1 pack sheet kinds result forecast }
{
    pack_check::check(pack)?;
    if pack_read::sheet_count(pack) <= sheet {
        return Err(Stop::from(Question::Sheet));
    }
    if !are_codes(&kinds) {
        return Err(Stop::from(Question::Memory));
    }
    if forecast.len() < FORECAST_LIMIT {
        return Err(Stop::from(Question::Memory));
    }
    vet_sheet(pack, sheet, kinds_of(&kinds), forecast)
}
