// Values as text, each after a space: B and 0 or 1, I and a decimal number, F and eight hexadecimal digits, L, how many entries and each
// as item=value, V, or R and the number of the question that said no.
#![tactic(auto)]

ghost use Rattle.std.specs.Prelude.{Some};
ghost use Rattle.std.specs.Fmt.{WritesOnOk};
ghost use Rattle.ink_number.specs.Question.{number};
ghost use Rattle.printing.specs.Text.{entries, refused, shown};

use ink_list::lists::Lists;
use ink_number::question::Question;
use ink_value::Value;
use std::fmt;

// A value. The entries of a List stand from the start of the slices.
#[derive(Clone, Copy, Drop)]
pub struct Shown<'a> {
    pub value: Value,
    pub lists: Lists<'a>,
}

// Items, each with its value, as far as there are both.
fn write_entries<W: fmt::Write>(f: &mut fmt::Formatter<W>, lists: Lists<'_>) -> fmt::Result
    ensures { WritesOnOk W.write_str_gives f.old result (entries lists.entry.items.now lists.entry.values.now) f.new }
{
    for (item, value) in lists.items.iter().zip(lists.values) {
        write!(f, " {item}={value}")?;
    }
    Ok(())
}

impl fmt::Display for Shown<'_> {
    ghost output = { λ s. Some (shown s.value s.lists.items.now s.lists.values.now) };

    fn fmt<W: fmt::Write>(&self, f: &mut fmt::Formatter<W>) -> fmt::Result {
        match self.value {
            Value::Bool(b) => write!(f, " B {}", u8::from(b)),
            Value::Int(z) => write!(f, " I {z}"),
            Value::Float(x) => {
                let bits = float_conversions::float_to_bits(x);
                write!(f, " F {bits:08x}")
            }
            Value::List { len, .. } => {
                write!(f, " L {len}")?;
                let items = &self.lists.items[..len.min(self.lists.items.len())];
                let values = self.lists.values;
                write_entries(f, Lists { items, values })
            }
            Value::Void => f.write_str(" V"),
        }
    }
}

// A refusal by its number, any byte.
#[derive(Clone, Copy, Drop)]
pub struct RefusedWith(pub u8);

impl fmt::Display for RefusedWith {
    ghost output = { λ r. Some (refused r.0) };

    fn fmt<W: fmt::Write>(&self, f: &mut fmt::Formatter<W>) -> fmt::Result {
        write!(f, " R {}", self.0)
    }
}

// The question that said no, by its number.
#[derive(Clone, Copy, Drop)]
pub struct Refused(pub Question);

impl fmt::Display for Refused {
    ghost output = { λ r. Some (refused (number r.0)) };

    fn fmt<W: fmt::Write>(&self, f: &mut fmt::Formatter<W>) -> fmt::Result {
        RefusedWith(u8::from(self.0)).fmt(f)
    }
}
