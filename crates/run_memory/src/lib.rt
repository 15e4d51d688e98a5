// Question 7 of a run: its slots are formed, and the slices that it writes long enough.
#![tactic(auto)]

ghost use Rattle.std.specs.Prelude.{◌≡◌, length, nat_le};
ghost use Rattle.slices.specs.Every.{◌and◌};
ghost use Rattle.ink_value.specs.Value.{all_formed};
ghost use Rattle.pack.specs.Format.{Runnable};
ghost use Rattle.running.specs.Slices.{long_enough_in};

use ink_list::lists::Lists;
use ink_list::well_formed::Counts;
use ink_value::slots::Slots;
use machine::STACK_LIMIT;
use pack::format::Format;

// Question 7 of the slots.
pub fn all_formed(slots: &Slots<'_>, counts: Counts) -> bool
    ensures { result ≡ all_formed counts.items counts.definitions slots.now.lists.items.now slots.now.lists.values.now slots.now.values }
{
    let lists = slots.lists;
    lists.items.len() == lists.values.len()
        && slots.values.iter().all(|v| v.is_formed(lists, counts))
}

// Have two slices n places each.
fn have(n: usize, lists: Lists<'_>) -> bool
    ensures { result ≡ (nat_le n (length lists.entry.items.now) and nat_le n (length lists.entry.values.now)) }
{
    n <= lists.items.len() && n <= lists.values.len()
}

// Question 7 of the slices that a run writes.
pub fn long_enough(work: Lists<'_>, out: Lists<'_>, format: Format) -> bool
    requires { Runnable format }
    ensures { result ≡ long_enough_in format work.entry out.entry }
{
    have(format.limit, out) && have(STACK_LIMIT * format.limit, work)
}
