// What the sheets of a pack come to, as text: "sheets" and how many there are, then a line for each, which has its number and what a run
// with all slots Void answers, a refusal with its number and index. Of a pack that is turned back, "pack R" and the number. Where the
// text cannot be written, no further sheet is run.
#![tactic(auto)]

ghost use Rattle.pack.specs.Judge.{Framed};

use ink_list::entries_mut::EntriesMut;
use ink_list::lists::Lists;
use ink_value::Value;
use ink_value::slots::Slots;
use machine::{STACK_LIMIT, Stop};
use output_buffer::Writer;
use pack_check::format::FORMAT1;
use printing::{Refused, Shown};
use std::fmt;
use std::fmt::Write;

// The most entries of a list, and the places of the work slices, in format 1.
const ITEM_LIMIT: usize = FORMAT1.limit;

const WORK_LIMIT: usize = STACK_LIMIT * ITEM_LIMIT;

// What the run of a sheet answers, in work slices of its own.
fn run(
    pack: &[u8],
    sheet: usize,
    slots: &Slots<'_>,
    results: &mut EntriesMut<'_>,
) -> Result<Value, Stop> {
    let mut work = EntriesMut {
        items: &mut [0; WORK_LIMIT],
        values: &mut [0; WORK_LIMIT],
    };
    run_bytes::run(pack, sheet, slots, &mut work, results)
}

// The line of one sheet, run on these slots.
pub fn sheet_line(
    out: &mut Writer<'_>,
    pack: &[u8],
    sheet: usize,
    slots: &Slots<'_>,
) -> fmt::Result {
    let mut items = [0u16; ITEM_LIMIT];
    let mut values = [0i32; ITEM_LIMIT];
    let mut results = EntriesMut {
        items: &mut items,
        values: &mut values,
    };
    match run(pack, sheet, slots, &mut results) {
        Ok(value) => {
            let lists = Lists {
                items: &items,
                values: &values,
            };
            let shown = Shown { value, lists };
            writeln!(out, "{sheet}{shown}")
        }
        Err(stop) => {
            let refused = Refused(stop.question);
            let index = stop.index;
            writeln!(out, "{sheet}{refused} {index}")
        }
    }
}

// The same with all slots Void.
fn void_line(out: &mut Writer<'_>, pack: &[u8], sheet: usize) -> fmt::Result {
    let lists = Lists {
        items: &[],
        values: &[],
    };
    let slots = Slots {
        values: [Value::Void; 16],
        lists,
    };
    sheet_line(out, pack, sheet, &slots)
}

fn sheet_lines(out: &mut Writer<'_>, pack: &[u8]) -> fmt::Result
    requires { Framed pack.now }
{
    let count = pack_read::sheet_count(pack);
    writeln!(out, "sheets {count}")?;
    // a sheet is run by its number, which its line has too
    for sheet in 0..count {
        void_line(out, pack, sheet)?;
    }
    Ok(())
}

pub fn report(out: &mut Writer<'_>, pack: &[u8]) -> fmt::Result {
    match pack_check::check(pack) {
        Ok(()) => sheet_lines(out, pack),
        Err(question) => {
            let refused = Refused(question);
            writeln!(out, "pack{refused}")
        }
    }
}
