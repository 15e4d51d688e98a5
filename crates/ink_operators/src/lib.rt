// The library as C sees it: numbers, slices and words. A slice is passed as a pointer and a length, an array or a number that is written as
// a pointer. The header hosts/include/ink_operators.h says how values stand in words. Operators and kinds come as bytes, as C has them: every
// byte has an operator and a kind.
#![tactic(auto)]

ghost use Rattle.std.specs.Prelude.{◌≡◌};
ghost use Rattle.ink_number.specs.Question.{answer};
ghost use Rattle.value_conversions.specs.Convert.{coerce_bool, coerce_int, coerce_float, coerce};
ghost use Rattle.pack.specs.Format.{format1};
ghost use Rattle.pack.specs.Judge.{judge};
ghost use Rattle.pack.specs.Read.{PackLists};
ghost use Rattle.value_words.specs.Calls.{number_of};
ghost use Rattle.word_operators.specs.Slices.{CallSays};
ghost use Rattle.definition_tables.specs.Tables.{Passed, Ready};
ghost use Rattle.definition_tables.specs.Slices.{ReadsAny};
ghost use Rattle.run_ready.specs.Work.{Clear};
ghost use Rattle.ink_operators.specs.Apply.{Applies};
ghost use Rattle.ink_operators.specs.Slices.{Kept, RunSaysAny, VetSaysAny, CallSaysAny, CastSaysAny, CoercedSays, CoerceSaysAny};

use ink_list::entries_mut::EntriesMut;
use ink_list::lists::Lists;
use ink_list::well_formed::Counts;
use ink_number::question::Question;
use ink_value::Kind;
use ink_value::slots::Slots;
use list_definitions::definitions::{Definitions, PackDefinitions};
use op::Op;
use pack::passed::PassedPack;
use pack_check::format::FORMAT1;

// 0, or the number of the question that says no.
fn number_of(passed: Result<(), Question>) -> u32
    ensures { result ≡ number_of (answer passed) }
{
    match passed {
        Ok(()) => 0,
        Err(question) => value_words::number(question),
    }
}

// Questions 1 to 5 of a pack: 0, or the number of the first no.
#[unsafe(no_mangle)]
pub extern "C" fn ink_check(pack: &[u8]) -> u32
    ensures { result ≡ number_of (judge format1 pack.now) }
{
    number_of(pack_check::check(pack))
}

// Vets a sheet of any bytes for slots of sixteen kinds.
#[unsafe(no_mangle)]
pub extern "C" fn ink_vet(
    pack: &[u8],
    sheet: usize,
    kinds: &[u8; 16],
    forecast: &mut [u8],
    index: &mut u64,
) -> u32
    ensures { VetSaysAny format1 pack sheet kinds result index forecast }
{
    let codes = *kinds;
    let vetted = vetting::vet(pack, sheet, codes, forecast);
    answer_words::vetted(vetted, index)
}

// Runs a sheet of any bytes.
#[unsafe(no_mangle)]
pub extern "C" fn ink_run(
    pack: &[u8],
    sheet: usize,
    slots: &[u64; 48],
    slot_items: &[u16],
    slot_values: &[i32],
    work_items: &mut [u16],
    work_values: &mut [i32],
    result_items: &mut [u16],
    result_values: &mut [i32],
    answer: &mut [u64; 3],
) -> u32
    ensures { RunSaysAny format1 pack sheet slots slot_items slot_values
        result answer work_items work_values result_items result_values }
{
    let lists = Lists {
        items: slot_items,
        values: slot_values,
    };
    let given = Slots {
        values: words_in::slots_in(slots),
        lists,
    };
    let mut work = EntriesMut {
        items: work_items,
        values: work_values,
    };
    let mut out = EntriesMut {
        items: result_items,
        values: result_values,
    };
    let ran = run_bytes::run(pack, sheet, &given, &mut work, &mut out);
    answer_words::ran(ran, answer)
}

// An operator on the first `count` of three operands, with a pack of any bytes.
#[tactic(auto, using(crate::proofs::Small::small_call))]
#[unsafe(no_mangle)]
pub extern "C" fn ink_call(
    pack: &[u8],
    // a byte, as C has it
    op: u8,
    count: usize,
    operands: &[u64; 9],
    items: &[u16],
    values: &[i32],
    result_items: &mut [u16],
    result_values: &mut [i32],
    answer: &mut [u64; 3],
) -> u32
    ensures { CallSaysAny format1 pack op count operands items values result answer result_items result_values }
{
    let used = words_in::operands_at(count, operands);
    let lists = Lists { items, values };
    let mut out = EntriesMut {
        items: result_items,
        values: result_values,
    };
    let outcome = calls::call(pack, Op::from(op), used, lists, &mut out);
    value_words::outcome(outcome, answer)
}

// `cast` to a kind code, with a pack of any bytes.
#[tactic(auto, using(crate::proofs::Small::small_cast))]
#[unsafe(no_mangle)]
pub extern "C" fn ink_cast(
    pack: &[u8],
    // a byte, as C has it
    code: u8,
    operand: &[u64; 3],
    items: &[u16],
    values: &[i32],
    result_items: &mut [u16],
    result_values: &mut [i32],
    answer: &mut [u64; 3],
) -> u32
    ensures { CastSaysAny format1 pack code operand items values result answer result_items result_values }
{
    let v = words_in::value_in(operand);
    let lists = Lists { items, values };
    let mut out = EntriesMut {
        items: result_items,
        values: result_values,
    };
    let outcome = calls::cast(pack, Kind::from(code), v, lists, &mut out);
    value_words::outcome(outcome, answer)
}

// A `coerce_to_`, by the kind that it answers.
#[tactic(auto, using(crate::proofs::Small::small_coerced))]
fn coerced(
    pack: &[u8],
    to: Kind,
    operand: &[u64; 3],
    lists: Lists<'_>,
    answer: &mut [u64; 3],
) -> u32
    ensures { CoercedSays format1 pack (coerce to) operand lists.entry result answer }
{
    let v = words_in::value_in(operand);
    let outcome = calls::coerce(pack, to, v, lists);
    value_words::outcome(outcome, answer)
}

// The three `coerce_to_`, with a pack of any bytes. The C interface names the three.
#[tactic(auto, unfolding(value_conversions::specs::Convert::coerce))]
#[unsafe(no_mangle)]
pub extern "C" fn ink_coerce_to_bool(
    pack: &[u8],
    operand: &[u64; 3],
    items: &[u16],
    values: &[i32],
    answer: &mut [u64; 3],
) -> u32
    ensures { CoerceSaysAny format1 pack coerce_bool operand items values result answer }
{
    coerced(pack, Kind::Bool, operand, Lists { items, values }, answer)
}

#[tactic(auto, unfolding(value_conversions::specs::Convert::coerce))]
#[unsafe(no_mangle)]
pub extern "C" fn ink_coerce_to_int(
    pack: &[u8],
    operand: &[u64; 3],
    items: &[u16],
    values: &[i32],
    answer: &mut [u64; 3],
) -> u32
    ensures { CoerceSaysAny format1 pack coerce_int operand items values result answer }
{
    coerced(pack, Kind::Int, operand, Lists { items, values }, answer)
}

#[tactic(auto, unfolding(value_conversions::specs::Convert::coerce))]
#[unsafe(no_mangle)]
pub extern "C" fn ink_coerce_to_float(
    pack: &[u8],
    operand: &[u64; 3],
    items: &[u16],
    values: &[i32],
    answer: &mut [u64; 3],
) -> u32
    ensures { CoerceSaysAny format1 pack coerce_float operand items values result answer }
{
    coerced(pack, Kind::Float, operand, Lists { items, values }, answer)
}

// The definitions of a pack that has passed: how many, how many items, and the two tables from the start of their slices. The slices have
// places for the most that a pack may have, or question 7 says no and nothing is written.
#[unsafe(no_mangle)]
pub extern "C" fn ink_definitions(
    pack: &[u8],
    ends: &mut [u16],
    defined: &mut [i32],
    counts: &mut [u64; 2],
) -> u32
    requires { Passed format1 pack.now }
    ensures { ReadsAny format1 pack result ends defined counts }
{
    number_of(definition_tables::read_tables(pack, FORMAT1, ends, defined, counts))
}

// Runs a sheet of a pack that has passed, its definitions read, in work slices that are clear. It answers and leaves what `ink_run` does.
#[unsafe(no_mangle)]
pub extern "C" fn ink_run_checked(
    pack: &[u8],
    ends: &[u16],
    defined: &[i32],
    sheet: usize,
    slots: &[u64; 48],
    slot_items: &[u16],
    slot_values: &[i32],
    work_items: &mut [u16],
    work_values: &mut [i32],
    result_items: &mut [u16],
    result_values: &mut [i32],
    answer: &mut [u64; 3],
) -> u32
    requires { Ready format1 pack.now ends.now defined.now × Clear format1 work_items.old work_values.old }
    ensures run_says_any { RunSaysAny format1 pack sheet slots slot_items slot_values
        result answer work_items work_values result_items result_values }
    ensures kept { Kept work_items work_values }
{
    let tables = Definitions { ends, defined };
    let definitions = PackDefinitions {
        tables,
        limit: FORMAT1.limit,
    };
    let passed = PassedPack {
        bytes: pack,
        definitions,
        format: FORMAT1,
    };
    let lists = Lists {
        items: slot_items,
        values: slot_values,
    };
    let given = Slots {
        values: words_in::slots_in(slots),
        lists,
    };
    let mut work = EntriesMut {
        items: work_items,
        values: work_values,
    };
    let mut out = EntriesMut {
        items: result_items,
        values: result_values,
    };
    let ran = run_ready::run_ready(passed, sheet, &given, &mut work, &mut out);
    answer_words::ran(ran, answer)
}

// An operator with the definitions of a pack that has passed.
#[tactic(auto, using(calls::proofs::Forms::yes_formed, calls::proofs::Forms::yes_room))]
#[unsafe(no_mangle)]
pub extern "C" fn ink_call_checked(
    ends: &[u16],
    defined: &[i32],
    // a byte, as C has it
    op: u8,
    count: usize,
    operands: &[u64; 9],
    items: &[u16],
    values: &[i32],
    result_items: &mut [u16],
    result_values: &mut [i32],
    answer: &mut [u64; 3],
) -> u32
    requires { PackLists format1.limit ends.now defined.now }
    ensures { CallSays format1.limit ends defined op count operands items values result answer result_items result_values }
{
    let used = words_in::operands_at(count, operands);
    let lists = Lists { items, values };
    let counts = Counts {
        definitions: ends.len(),
        items: defined.len(),
    };
    if !call_memory::lent_well(
        used,
        lists,
        counts,
        FORMAT1.limit,
        result_items.len(),
        result_values.len(),
    ) {
        words_out::put_index(answer, 0);
        return value_words::number(Question::Memory);
    }
    ink_apply(
        ends,
        defined,
        op,
        count,
        operands,
        items,
        values,
        result_items,
        result_values,
        answer,
    )
}

// The same on operands and result slices of which question 7 says yes. Numbers need no slice. `ink_call_checked` ends in it: a call more
// is a third of what an Int operator takes.
#[inline(always)]
#[unsafe(no_mangle)]
pub extern "C" fn ink_apply(
    ends: &[u16],
    defined: &[i32],
    // a byte, as C has it
    op: u8,
    count: usize,
    operands: &[u64; 9],
    items: &[u16],
    values: &[i32],
    result_items: &mut [u16],
    result_values: &mut [i32],
    answer: &mut [u64; 3],
) -> u32
    requires { Applies format1 ends.now defined.now items.now values.now count operands.now
        result_items.old result_values.old }
    ensures { CallSays format1.limit ends defined op count operands items values result answer result_items result_values }
{
    let op = Op::from(op);
    match word_kinds::number_kind(op, count, operands) {
        Some(kind) => word_numbers::number(op, kind, count, operands, answer),
        None => {
            let lists = Lists { items, values };
            let pack = PackDefinitions {
                tables: Definitions { ends, defined },
                limit: FORMAT1.limit,
            };
            let mut out = EntriesMut {
                items: result_items,
                values: result_values,
            };
            word_operators::apply(op, count, operands, lists, pack, &mut out, answer)
        }
    }
}
