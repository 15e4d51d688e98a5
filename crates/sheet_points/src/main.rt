// Runs the sheets of the packs of the standard input, then those of slot_pack.rt with a List in slot 0 (make_packs.py beside this writes
// both).
#![tactic(auto)]

mod slot_pack;

use ink_list::lists::Lists;
use ink_value::Value;
use ink_value::slots::Slots;
use output_buffer::Writer;
use slot_pack::PACK;
use std::fmt;
use std::fmt::Write;

// The entries of the List in slot 0. Its origin set is wider than theirs.
const ITEMS: [u16; 2] = [0, 1];

const VALUES: [i32; 2] = [1, 2];

fn slot_line(out: &mut Writer<'_>, sheet: usize) -> fmt::Result {
    let mut values = [Value::Void; 16];
    values[0] = Value::List {
        origins: 3,
        start: 0,
        len: 2,
    };
    let lists = Lists {
        items: &ITEMS,
        values: &VALUES,
    };
    sheet_report::sheet_line(out, &PACK, sheet, &Slots { values, lists })
}

fn report_slots() -> fmt::Result {
    let mut buffer = io::large_buffer();
    let mut out = Writer::new(&mut buffer);
    writeln!(out, "a list in slot 0:")?;
    // a sheet goes by its number: there is no slice of sheets to go over
    for sheet in 0..4 {
        slot_line(&mut out, sheet)?;
    }
    out.flush()
}

fn main() {
    named_reports::report_input();
    // what could not be written is missed where the output is compared
    let _told = report_slots();
}
