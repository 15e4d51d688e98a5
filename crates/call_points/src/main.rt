// Makes the calls of the standard input (make_cases.py beside this writes them), a line for each: its name, then B and 0 or 1, I and a
// decimal number, F and eight hexadecimal digits, L and its entries, V, or R and the number of the question that said no. Behind "then"
// stands the first place of the two result slices after the entries, which held 9999 before.
#![tactic(auto)]

mod cases;

use cases::{
    CASE, FIRST, LENT, PACK_LENGTH, PACK_START, RESULTS, WHAT, WHICH, byte, number, operand,
    operands,
};
use ink_list::entries_mut::EntriesMut;
use ink_list::lists::Lists;
use ink_number::question::Question;
use ink_value::{Kind, Value};
use op::Op;
use printing::{Refused, Shown};
use test_output::{bytes, entry, print, println};

// A pack of two definitions, of the values 1, 2, 3 and of 10, 20.
const PACK: [u8; 34] = [
    1, 2, 0, 0, 12, 0, 13, 0, 25, 0, 9, 0, 3, 1, 0, 0, 0, 2, 0, 0, 0, 3, 0, 0, 0, 2, 10, 0, 0, 0,
    20, 0, 0, 0,
];

// The entries of the operands.
const LISTS: Lists<'static> = Lists {
    items: &[0, 2, 2, 0, 1, 2, 5],
    values: &[1, 3, 30, -5, 1, 3, 4],
};

// What the places of the result slices hold before a call.
const UNWRITTEN_ITEM: u16 = 9999;

const UNWRITTEN_VALUE: i32 = 9999;

fn written(r: Result<Value, Question>) -> usize {
    match r {
        Ok(v) => v.len_of(),
        Err(_) => 0,
    }
}

fn show(r: Result<Value, Question>, lists: Lists<'_>) {
    match r {
        Ok(value) => print(Shown { value, lists }),
        Err(question) => print(Refused(question)),
    }
}

// The place after the first n entries.
fn place_after(n: usize, lists: Lists<'_>) {
    if let (Some(item), Some(value)) = (lists.items.get(n), lists.values.get(n)) {
        print(" then");
        entry(*item, *value);
    }
}

fn print_name(s: &[u8]) {
    let end = 1 + number(s, 0);
    if s.len() < end {
        return;
    }
    bytes(&s[1..end]);
    print(":");
}

// The line of a call that has result slices.
fn report(s: &[u8], r: Result<Value, Question>, out: Lists<'_>) {
    print_name(s);
    show(r, out);
    place_after(written(r), out);
    println("");
}

// With a result slice that is a place short, where the case says so.
fn call_lent(s: &[u8], pack: &[u8], lists: Lists<'_>) {
    let mut items = [UNWRITTEN_ITEM; 256];
    let mut values = [UNWRITTEN_VALUE; 256];
    let short = byte(s, RESULTS);
    let mut out = EntriesMut {
        items: &mut items[..256 - usize::from(short == 1)],
        values: &mut values[..256 - usize::from(1 < short)],
    };
    let op = Op::from(byte(s, WHICH));
    let r = calls::call(pack, op, operands(s), lists, &mut out);
    report(s, r, out.lists());
}

// With six values beside the seven items, where the case says so.
fn call_on(s: &[u8], pack: &[u8]) {
    let mut lists = LISTS;
    if number(s, LENT) == 6 {
        lists.values = &lists.values[..6];
    }
    call_lent(s, pack, lists);
}

// On the pack that the case brings, or on PACK.
fn call(s: &[u8]) {
    let n = number(s, PACK_LENGTH);
    let end = PACK_START + n;
    if n == 0 {
        call_on(s, &PACK);
        return;
    }
    if end <= s.len() {
        call_on(s, &s[PACK_START..end]);
    }
}

fn cast(s: &[u8]) {
    let mut items = [UNWRITTEN_ITEM; 256];
    let mut values = [UNWRITTEN_VALUE; 256];
    let mut out = EntriesMut {
        items: &mut items,
        values: &mut values,
    };
    let to = Kind::from(byte(s, WHICH));
    let r = calls::cast(&PACK, to, operand(s, FIRST), LISTS, &mut out);
    report(s, r, out.lists());
}

// A conversion that has no result slices.
fn coerce(s: &[u8]) {
    // the third for every number from 2 on
    let to = match byte(s, WHICH) {
        0 => Kind::Bool,
        1 => Kind::Int,
        _ => Kind::Float,
    };
    let r = calls::coerce(&PACK, to, operand(s, FIRST), LISTS);
    print_name(s);
    show(r, LISTS);
    println("");
}

fn work(s: &[u8]) {
    // what is called, as make_cases.py numbers it
    match byte(s, WHAT) {
        0 => call(s),
        1 => cast(s),
        _ => coerce(s),
    }
}

fn work_all(s: &[u8]) {
    for case in s.chunks_exact(CASE) {
        work(case);
    }
}

fn main() {
    let mut buf = io::large_buffer();
    let n = io::read_full(0, &mut buf);
    work_all(&buf[..n]);
}
