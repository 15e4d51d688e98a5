// What the test programs of lists share: how operands and answers are printed, and how cases are read. A list of more than 12 entries is
// shown by its length, its first and last entry, and the sums of its items and of its values.
#![tactic(auto)]

pub mod read;

ghost use Rattle.std.specs.Prelude.{◌≡◌, ◌<◌, length};
ghost use Rattle.ink_list.specs.Lists.{places};

use ink_list::entries::Entries;
use ink_list::entries_mut::EntriesMut;
use ink_list::lists::Lists;
use std::fmt;
use test_output::{bytes, print, println};

pub const ITEM_LIMIT: usize = 256;

const SHOWN: usize = 12;

// What the places of the output slices hold before a call.
pub const UNWRITTEN_ITEM: u16 = 9999;

pub const UNWRITTEN_VALUE: i32 = 9999;

// The sum of some item numbers, wrapping; each is below 65,536.
fn item_sum(items: &[u16]) -> u64 {
    items
        .iter()
        .fold(0u64, |sum, item| sum.wrapping_add(u64::from(*item)))
}

// The sum of some values, wrapping.
fn value_sum(values: &[i32]) -> i32 {
    values.iter().fold(0i32, |sum, v| sum.wrapping_add(*v))
}

// A list by how many entries it has, its first and its last, and its sums.
fn write_summary<W: fmt::Write>(f: &mut fmt::Formatter<W>, list: Entries<'_>) -> fmt::Result
    requires { 0 < length list.items.now }
{
    let items = list.items;
    let values = list.values;
    let last = items.len() - 1;
    write!(f, " {} entries", items.len())?;
    write!(f, " {}={}", items[0], values[0])?;
    write!(f, " to {}={}", items[last], values[last])?;
    write!(f, ", sums {} {}", item_sum(items), value_sum(values))
}

// A list as text: its entries, or none; of a long one how many, the first and the last, and the sums.
#[derive(Clone, Copy, Drop)]
struct Listed<'a>(Lists<'a>);

impl fmt::Display for Listed<'_> {
    fn fmt<W: fmt::Write>(&self, f: &mut fmt::Formatter<W>) -> fmt::Result {
        let Some(list) = Entries::new(self.0.items, self.0.values) else {
            return f.write_str(" not parallel");
        };
        if list.len() == 0 {
            return f.write_str(" none");
        }
        if SHOWN < list.len() {
            return write_summary(f, list);
        }
        for (item, value) in list.items.iter().zip(list.values) {
            write!(f, " {item}={value}")?;
        }
        Ok(())
    }
}

pub fn operand(name: &[u8], list: Lists<'_>) {
    bytes(name);
    println(Listed(list));
}

// What is said of the place beyond, where it was changed.
fn beyond(changed: bool, what: &str) {
    if changed {
        print(what);
    }
}

// The n entries of a list that was written, and a word where the place beyond was changed.
fn written(n: usize, out: Lists<'_>) {
    if out.items.len() <= n {
        print(" too long");
        return;
    }
    if out.values.len() <= n {
        print(" too long");
        return;
    }
    print(Listed(Lists {
        items: &out.items[..n],
        values: &out.values[..n],
    }));
    beyond(out.items[n] != UNWRITTEN_ITEM, " and an item beyond");
    beyond(out.values[n] != UNWRITTEN_VALUE, " and a value beyond");
}

// The name of an answer.
fn named(name: &[u8]) {
    print("  ");
    bytes(name);
}

pub fn result(name: &[u8], n: usize, out: Lists<'_>) {
    named(name);
    written(n, out);
    println("");
}

pub fn test(name: &[u8], yes: bool) {
    named(name);
    println(if yes { " yes" } else { " no" });
}

// A number, or a set of origins as one.
pub fn number<N: fmt::Display + Drop>(name: &[u8], n: N) {
    named(name);
    println(format_args!(" {n}"));
}

// An operator's answer, which it writes into 257 places that hold no entry.
pub fn show<F: FnOnce(&mut EntriesMut<'_>) -> usize>(name: &[u8], operator: F)
    requires { (out : _) → places out.now ≡ 257 → F.pre operator out }
{
    let mut items = [UNWRITTEN_ITEM; 257];
    let mut values = [UNWRITTEN_VALUE; 257];
    let mut out = EntriesMut {
        items: &mut items,
        values: &mut values,
    };
    let n = operator(&mut out);
    result(name, n, out.lists());
}
