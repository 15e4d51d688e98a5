// The operators on lists that go by no definitions, on empty, small, tied and full lists, which make_cases.py beside this writes: for
// each case the operands, then each operator with its answer.
#![tactic(auto)]

ghost use Rattle.std.specs.Prelude.{◌≡◌, ◌≤◌, ℕ, length, IfSome};
ghost use Rattle.ink_list.specs.Entries.{Ascends, item_numbers};

use extreme_values::{lower_bound, upper_bound, value_of_list};
use ink_list::entries::Entries;
use ink_list::lists::Lists;
use ink_list::well_formed::Counts;
use list_cases::read::{
    FIRST, NUMBER, OTHER_NUMBER, SECOND, TITLE, WHAT, byte, each_case, list_of, title, value,
};
use list_cases::{ITEM_LIMIT, number, operand, show, test};
use list_comparisons::{greater, greater_or_equals, less, less_or_equals};
use list_equality::{equal, not_equals};
use list_extremes::{list_max, list_min};
use list_has::{has, hasnt};
use list_merge::union;
use list_range::range;
use list_sift::{intersect, without};
use test_output::println;

// What lists of a pack without definitions are held to.
const COUNTS: Counts = Counts {
    definitions: 0,
    items: ITEM_LIMIT,
};

// A list, if it is well formed.
fn formed(list: Lists<'_>) -> Option<Entries<'_>>
    ensures rising { IfSome result (λ a. (limit : ℕ) → 256 ≤ limit → Ascends 0 limit a.items.now) }
    ensures few { IfSome result (λ a. length a.items.now ≤ 256) }
{
    if list.is_formed(0, COUNTS) {
        Some(Entries {
            items: list.items,
            values: list.values,
        })
    } else {
        None
    }
}

// The tests that go by items alone.
fn item_tests(a: &[u16], b: &[u16])
    requires rising_a { Ascends 0 item_numbers a.now }
    requires rising_b { Ascends 0 item_numbers b.now }
{
    test(b"has", has(a, b));
    test(b"hasnt", hasnt(a, b));
    test(b"equal", equal(a, b));
    test(b"not equals", not_equals(a, b));
}

// The operators of two lists.
fn pair(left: Lists<'_>, right: Lists<'_>) {
    operand(b"a", left);
    operand(b"b", right);
    let Some(a) = formed(left) else {
        println("  a is not well formed");
        return;
    };
    let Some(b) = formed(right) else {
        println("  b is not well formed");
        return;
    };
    show(b"union", |out| union(a, b, out));
    show(b"without", |out| without(a, b.items, out));
    show(b"intersect", |out| intersect(a, b.items, out));
    item_tests(a.items, b.items);
    test(b"greater", greater(a.values, b.values));
    test(b"greater or equals", greater_or_equals(a.values, b.values));
    test(b"less", less(a.values, b.values));
    test(b"less or equals", less_or_equals(a.values, b.values));
}

// The operators of one list.
fn single(list: Lists<'_>) {
    operand(b"a", list);
    let Some(a) = formed(list) else {
        println("  a is not well formed");
        return;
    };
    show(b"list min", |out| list_min(a, out));
    show(b"list max", |out| list_max(a, out));
    show(b"copy", |out| out.copy(a));
    number(b"value of list", value_of_list(a.values));
    number(b"as lower bound", lower_bound(a.values));
    number(b"as upper bound", upper_bound(a.values));
}

// Range within two bounds.
fn ranged(list: Lists<'_>, lower: i32, upper: i32) {
    operand(b"a", list);
    let Some(a) = formed(list) else {
        println("  a is not well formed");
        return;
    };
    number(b"lower", lower);
    number(b"upper", upper);
    show(b"range", |out| range(a, lower, upper, out));
}

// What a case is: two lists, one, or else a list with a range's bounds.
// What a case asks for, as make_cases.py writes it.
const PAIR: u8 = 0;

const SINGLE: u8 = 1;

fn work(s: &[u8], pool: Lists<'_>) {
    let a = list_of(s, FIRST, pool);
    match byte(s, WHAT) {
        TITLE => title(s),
        PAIR => pair(a, list_of(s, SECOND, pool)),
        SINGLE => single(a),
        _ => ranged(a, value(s, NUMBER), value(s, OTHER_NUMBER)),
    }
}

// The program's own work on each case; what such programs share stands in list_cases.
fn main() {
    each_case(work);
}
