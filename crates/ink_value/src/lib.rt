// Values, and what they read as.
#![tactic(auto)]

ghost use Rattle.std.specs.Prelude.{◌≡◌, List, ℕ, ◌≤◌, ◌+◌, ℤ, length};
ghost use Rattle.ink_value.specs.Convert.{as_int, as_float, truthy};
ghost use Rattle.slices.specs.Filled.{part};
ghost use Rattle.ink_value.specs.Value.{val_of, formed_in, kind_in, start_of, len_of, set_in, whole_in, real_in, Stand};
ghost use Rattle.ink_value.specs.Val.{code_of, kind_at};
ghost use Rattle.ink_value.specs.declared.Value.{Value};

pub mod number_parts;
pub mod operands;
pub mod slots;

use ink_list::entries::Entries;
use ink_list::lists::Lists;
use ink_list::well_formed::Counts;

// A value. A list's entries stand beside it, in two parallel slices, from `start` on.
#[derive(Clone, Copy)]
pub enum Value {
    Bool(bool),
    Int(i32),
    Float(f32),
    List {
        origins: u64,
        start: usize,
        len: usize,
    },
    Void,
}

// The kinds of values.
#[derive(Clone, Copy, Debug, PartialEq, Eq)]
pub enum Kind {
    Bool,
    Int,
    Float,
    List,
    Void,
}

// The kind with this code: Void with any from its own on. Codes stand in words, in the bytes that vetting takes and in the forecast.
impl From<u8> for Kind {
    ghost from_gives = { λ code kind. kind ≡ kind_at code };

    fn from(code: u8) -> Kind {
        match code {
            0 => Kind::Bool,
            1 => Kind::Int,
            2 => Kind::Float,
            3 => Kind::List,
            _ => Kind::Void,
        }
    }
}

// Its code, as hosts see it.
impl From<Kind> for u8 {
    ghost from_gives = { λ kind code. code ≡ code_of kind };

    fn from(kind: Kind) -> u8 {
        kind as u8
    }
}

impl Value {
    // The kind of a value.
    pub fn kind(self) -> Kind
        ensures { result ≡ kind_in self }
    {
        match self {
            Value::Bool(_) => Kind::Bool,
            Value::Int(_) => Kind::Int,
            Value::Float(_) => Kind::Float,
            Value::List { .. } => Kind::List,
            Value::Void => Kind::Void,
        }
    }

    // The entries of a value's list, in the slices that hold them; none for other values.
    pub fn entries_of<'a>(self, lists: Lists<'a>) -> Entries<'a>
        requires { (start_of self + len_of self ≤ length lists.items.now) × (start_of self + len_of self ≤ length lists.values.now) }
        ensures items { result.items.now ≡ part (start_of self) (len_of self) lists.entry.items.now }
        ensures values { result.values.now ≡ part (start_of self) (len_of self) lists.entry.values.now }
    {
        lists.part(self.start_of(), self.len_of())
    }

    // Where a list's entries start, how many there are, and its origin set; 0 for other values.
    // Each reads a field of its own; a closure that picks the field would be no plainer.
    pub fn start_of(self) -> usize
        ensures { result ≡ start_of self }
    {
        match self {
            Value::List { start, .. } => start,
            _ => 0,
        }
    }

    pub fn len_of(self) -> usize
        ensures { result ≡ len_of self }
    {
        match self {
            Value::List { len, .. } => len,
            _ => 0,
        }
    }

    pub fn origins_in(self) -> u64
        ensures { result ≡ set_in self }
    {
        match self {
            Value::List { origins, .. } => origins,
            _ => 0,
        }
    }

    // A value as an Int and as a Float, its list's values in a slice, whatever items stand beside them; and as a truth.
    #[tactic(auto, using(crate::proofs::Reading::values_at, slices::proofs::Filled::cut))]
    pub fn to_int(self, values: &[i32]) -> i32
        requires { start_of self + len_of self ≤ length values.now }
        ensures { (is : List ℕ) → start_of self + len_of self ≤ length is → result ≡ as_int (val_of is values.now self) }
    {
        match self {
            Value::Bool(b) => i32::from(b),
            Value::Int(z) => z,
            Value::Float(x) => float_conversions::float_to_int(x),
            Value::List { start, len, .. } => {
                extreme_values::value_of_list(&values[start..start + len])
            }
            Value::Void => 0,
        }
    }

    #[tactic(auto, using(crate::proofs::Reading::values_at, slices::proofs::Filled::cut))]
    pub fn to_float(self, values: &[i32]) -> f32
        requires { start_of self + len_of self ≤ length values.now }
        ensures { (is : List ℕ) → start_of self + len_of self ≤ length is → result ≡ as_float (val_of is values.now self) }
    {
        match self {
            Value::Float(x) => x,
            _ => float_conversions::int_to_float(self.to_int(values)),
        }
    }

    // What a Bool or an Int holds, as an Int, and what a Float holds; 0 for other values. A list's values are not read.
    pub fn whole_in(self) -> i32
        ensures { result ≡ whole_in self }
    {
        match self {
            Value::Bool(b) => i32::from(b),
            Value::Int(z) => z,
            Value::Float(_) | Value::List { .. } | Value::Void => 0,
        }
    }

    pub fn real_in(self) -> f32
        ensures { result ≡ real_in self }
    {
        match self {
            Value::Float(r) => r,
            Value::Bool(_) | Value::Int(_) | Value::List { .. } | Value::Void =>
                float_conversions::int_to_float(0),
        }
    }

    pub fn is_truthy(self) -> bool
        ensures { (is : List ℕ) (vs : List ℤ) → Stand is vs (start_of self) (len_of self) → result ≡ truthy (val_of is vs self) }
    {
        match self {
            Value::Bool(b) => b,
            Value::Int(z) => int_comparisons::truthy(z),
            Value::Float(x) => ink_float::truthy(x),
            Value::List { len, .. } => 0 < len,
            Value::Void => false,
        }
    }

    // Question 7 of one value: a list's entries stand whole in the two slices and are formed as a literal's, in a pack with so many items and
    // definitions.
    #[tactic(auto, using(crate::proofs::Forming::past_end))]
    pub fn is_formed(self, lists: Lists<'_>, counts: Counts) -> bool
        ensures { result ≡ formed_in counts.items counts.definitions lists.entry.items.now lists.entry.values.now self }
    {
        let start = self.start_of();
        let len = self.len_of();
        if lists.items.len() < start {
            return false;
        }
        if lists.items.len() - start < len {
            return false;
        }
        let end = start + len;
        if lists.values.len() < end {
            return false;
        }
        let cut = Lists {
            items: &lists.items[start..end],
            values: &lists.values[start..end],
        };
        cut.is_formed(self.origins_in(), counts)
    }
}
