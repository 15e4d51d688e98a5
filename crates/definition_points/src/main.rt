// The operators on lists that go by definitions, on empty, small, tied and full lists, which make_cases.py beside this writes: for each
// case the operands, then each operator with its answer. The second list of a case is the ends of the definitions and their values.
#![tactic(auto)]

ghost use Rattle.std.specs.Prelude.{◌≡◌, ◌≤◌, length, IfSome};
ghost use Rattle.ink_list.specs.Entries.{Ascends, item_numbers};

use ink_list::entries::Entries;
use ink_list::lists::Lists;
use ink_list::well_formed::Counts;
use list_cases::read::{
    FIRST, NUMBER, OTHER_NUMBER, SECOND, TITLE, WHAT, byte, each_case, list_of, place, title, value,
};
use list_cases::{ITEM_LIMIT, number, operand, show};
use list_definitions::definitions::Definitions;
use list_definitions::{all, invert, origins_of};
use list_increment::{decrement, increment};
use test_output::println;

// The definitions of a list's items as ends and its values, if the ends are those of definitions with so many items.
fn numbered(tables: Lists<'_>) -> Option<Definitions<'_>>
    ensures { IfSome result (λ d. d.defined.now ≡ tables.entry.values.now) }
{
    let mut low = 0;
    for end in tables.items {
        let end = usize::from(*end);
        if end <= low {
            return None;
        }
        low = end;
    }
    if low != tables.values.len() {
        return None;
    }
    Some(Definitions {
        ends: tables.items,
        defined: tables.values,
    })
}

// The operators that go by definitions.
fn answers(a: Entries<'_>, set: u64, by: i32, definitions: Definitions<'_>)
    requires ascends { Ascends 0 item_numbers a.items.now }
    requires few { (length definitions.defined.now ≤ 256) × (length definitions.ends.now ≤ 64) }
{
    show(b"all", |out| all(set, definitions, out));
    show(b"invert", |out| invert(a.items, set, definitions, out));
    number(b"origins", origins_of(a.items, definitions.ends));
    show(b"increment", |out| increment(a, by, set, definitions, out));
    show(b"decrement", |out| decrement(a, by, set, definitions, out));
}

// The same of a case, if it is well formed.
fn by_definitions(list: Lists<'_>, set: u64, by: i32, tables: Lists<'_>) {
    operand(b"a", list);
    number(b"set", set);
    number(b"by", by);
    if ITEM_LIMIT < tables.values.len() {
        println("  too many items");
        return;
    }
    let Some(definitions) = numbered(tables) else {
        println("  not numbered");
        return;
    };
    if 64 < definitions.ends.len() {
        println("  too many definitions");
        return;
    }
    let counts = Counts {
        definitions: definitions.ends.len(),
        items: definitions.defined.len(),
    };
    if !list.is_formed(set, counts) {
        println("  a is not well formed");
        return;
    }
    let a = Entries {
        items: list.items,
        values: list.values,
    };
    answers(a, set, by, definitions);
}

fn work(s: &[u8], pool: Lists<'_>) {
    if byte(s, WHAT) == TITLE {
        title(s);
        return;
    }
    by_definitions(
        list_of(s, FIRST, pool),
        place(s, OTHER_NUMBER) as u64,
        value(s, NUMBER),
        list_of(s, SECOND, pool),
    );
}

// The program's own work on each case; what such programs share stands in list_cases.
fn main() {
    each_case(work);
}
