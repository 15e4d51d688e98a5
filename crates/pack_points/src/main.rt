// Checks the packs of the standard input, and prints a line for each: its name, then the number of the question that said no,
// or what the readers give. That is one past each definition's last item and the last item's value; each literal's origin set,
// how many entries it has and the last one; and how many instructions each sheet has, with these where they are at most 8.
// Values and Floats are printed as their bits, in hexadecimal.
#![tactic(auto)]

ghost use Rattle.std.specs.Prelude.{◌≡◌, ◌<◌, ◌≤◌, length};
ghost use Rattle.pack.specs.Contents.{literal_count, sheet_count};
ghost use Rattle.pack.specs.Format.{format1};
ghost use Rattle.pack.specs.Read.{program, Sound-prop};
ghost use Rattle.pack_points.specs.Passed.{Passed};

use ink_list::entries_mut::EntriesMut;
use ink_list::lists::Lists;
use named_packs::NamedPacks;
use pack::format::Format;
use pack::instruction::Instruction;
use pack::sound::SoundPack;
use pack_check::format::{DEFINITION_LIMIT, FORMAT1};
use pack_literals::{literal_count, literal_len, literal_origins, read_literal};
use pack_read::instructions::instructions_of;
use pack_read::{read_definitions, sheet_count};
use test_output::{bytes, print, println};

// The format of the packs that are shown.
const SHOWN_FORMAT: Format = FORMAT1;

const SHOWN: usize = 8;

// A pack of that format to which questions 1 to 5 said yes.
#[derive(Clone, Copy)]
struct ShownPack<'a> {
    bytes: &'a [u8],
    ghost passed: { Passed bytes.now } by { Sound-prop format1 bytes.now },
}

fn numbers(ns: &[u16]) {
    for n in ns {
        print(format_args!(" {n}"));
    }
}

#[tactic(auto, using(pack::proofs::Formats::runnable1))]
fn show_definitions(pack: ShownPack<'_>) {
    let sound = SoundPack {
        bytes: pack.bytes,
        format: SHOWN_FORMAT,
    };
    let mut ends = [0u16; DEFINITION_LIMIT];
    let mut defined = [0i32; SHOWN_FORMAT.limit];
    let d = read_definitions(sound, &mut ends, &mut defined);
    print(" ends");
    numbers(&ends[..d.definitions]);
    if let Some(value) = defined[..d.items].last() {
        print(format_args!(" value {value:08x}"));
    }
}

// The last entry, if there is one.
fn show_last(list: Lists<'_>) {
    if let (Some(item), Some(value)) = (list.items.last(), list.values.last()) {
        print(format_args!(" {item} {value:08x}"));
    }
}

#[tactic(auto, using(pack::proofs::Formats::runnable1))]
fn show_literal(pack: ShownPack<'_>, l: usize)
    requires l_bound { l < literal_count pack.bytes.now }
{
    let sound = SoundPack {
        bytes: pack.bytes,
        format: SHOWN_FORMAT,
    };
    let origins = literal_origins(pack.bytes, l, SHOWN_FORMAT);
    let len = literal_len(sound, l);
    print(format_args!("; literal {origins:x} {len}"));
    let mut items = [0u16; SHOWN_FORMAT.limit];
    let mut values = [0i32; SHOWN_FORMAT.limit];
    let mut out = EntriesMut {
        items: &mut items,
        values: &mut values,
    };
    let n = read_literal(sound, l, &mut out, 0);
    show_last(Lists {
        items: &items[..n],
        values: &values[..n],
    });
}

fn show_literals(pack: ShownPack<'_>) {
    // the readers take a literal by its number, and a sheet too; one function for both would take the count and a closure
    for l in 0..literal_count(pack.bytes) {
        show_literal(pack, l);
    }
}

fn show_instruction(i: Instruction) {
    match i {
        Instruction::Op(op) => {
            let n = usize::from(op);
            print(format_args!(" op {n}"));
        }
        Instruction::Bool(b) => {
            let digit = u8::from(b);
            print(format_args!(" bool {digit}"));
        }
        Instruction::Int(n) => print(format_args!(" int {n:08x}")),
        Instruction::Float(n) => print(format_args!(" float {n:08x}")),
        Instruction::List(n) => print(format_args!(" list {n}")),
        Instruction::Slot(n) => print(format_args!(" slot {n}")),
        Instruction::Void => print(" void"),
    }
}

// How many instructions a sheet has.
fn instruction_count(pack: ShownPack<'_>, s: usize) -> usize
    requires s_bound { s < sheet_count pack.bytes.now }
    ensures { result ≡ length (program pack.entry.bytes.now s) }
{
    instructions_of(pack.bytes, s).count()
}

fn show_sheet(pack: ShownPack<'_>, s: usize)
    requires s_bound { s < sheet_count pack.bytes.now }
{
    let n = instruction_count(pack, s);
    print(format_args!("; sheet {n}"));
    if n <= SHOWN {
        for i in instructions_of(pack.bytes, s) {
            show_instruction(i);
        }
    }
}

fn show_sheets(pack: ShownPack<'_>) {
    // a sheet goes by its number: there is no slice of sheets to go over
    for s in 0..sheet_count(pack.bytes) {
        show_sheet(pack, s);
    }
}

fn show(pack: ShownPack<'_>) {
    print(" passed");
    show_definitions(pack);
    show_literals(pack);
    show_sheets(pack);
}

fn report(p: &[u8]) {
    match pack_check::check(p) {
        Ok(()) => show(ShownPack { bytes: p }),
        Err(question) => {
            let number = u8::from(question);
            print(format_args!(" {number}"));
        }
    }
    println("");
}

fn report_all(stream: &[u8]) {
    for named in (NamedPacks { rest: stream }) {
        bytes(named.name);
        print(":");
        report(named.pack);
    }
}

// As `named_reports::report_input`, over this program's report; one function for both would take the report as a closure for three lines.
fn main() {
    let mut buf = [0u8; 262144];
    let n = io::read_full(0, &mut buf);
    report_all(&buf[..n]);
}
