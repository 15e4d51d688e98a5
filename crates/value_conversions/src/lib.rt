// Values converted: `cast` and the three `coerce_to_`, which answer by question 18.
#![tactic(auto)]

ghost use Rattle.std.specs.Prelude.{◌≡◌, true, List, ℕ, ◌+◌, ℤ};
ghost use Rattle.ink_number.specs.Question.{answer};
ghost use Rattle.ink_list.specs.Lists.{places};
ghost use Rattle.ink_value.specs.declared.Kind.TheVariants as K;
ghost use Rattle.ink_value.specs.Value.{val_of, kind_in, placed};
ghost use Rattle.ink_value.specs.Held.{val_in, FormedIn, GivesTo, MakesTo};
ghost use Rattle.value_conversions.specs.Convert.{castable, converted, cast, coerce_bool, coerce_int, coerce_float, coerce};

use ink_list::entries_mut::EntriesMut;
use ink_list::lists::Lists;
use ink_number::question::Question;
use ink_value::{Kind, Value};

// Question 18 of `cast`.
#[tactic(auto, unfolding(crate::specs::Convert::castable))]
fn castable(to: Kind, from: Kind) -> bool
    ensures { result ≡ castable to from }
{
    match to {
        Kind::Bool => matches!(from, Kind::Bool | Kind::Int | Kind::Float),
        Kind::Int | Kind::Float => !matches!(from, Kind::Void),
        Kind::List => matches!(from, Kind::List),
        Kind::Void => false,
    }
}

// A list, copied to the output.
#[tactic(auto, using(ink_value::proofs::Reading::part_few))]
fn copied(v: Value, lists: Lists<'_>, out: &mut EntriesMut<'_>) -> Value
    requires { FormedIn (places out.old) lists v × (kind_in v ≡ K.List) }
    ensures { MakesTo (val_in lists.entry v) result out.old out.new }
{
    let len = out.copy(v.entries_of(lists));
    Value::List {
        origins: v.origins_in(),
        start: 0,
        len,
    }
}

// A value of a kind that may be cast, cast. Nothing is cast to Void.
#[tactic(auto, unfolding(crate::specs::Convert::converted), using(crate::proofs::Casting::cast_list, crate::proofs::Casting::cast_void, ink_value::proofs::Given::gave_plain))]
fn convert(to: Kind, v: Value, lists: Lists<'_>, out: &mut EntriesMut<'_>) -> Value
    requires { FormedIn (places out.old) lists v × (castable to (kind_in v) ≡ true) }
    ensures { MakesTo (converted to (val_in lists.entry v)) result out.old out.new }
{
    match to {
        Kind::Bool => Value::Bool(v.is_truthy()),
        Kind::Int => Value::Int(v.to_int(lists.values)),
        Kind::Float => Value::Float(v.to_float(lists.values)),
        Kind::List => copied(v, lists, out),
        Kind::Void => Value::Void,
    }
}

// `Value::cast` to the kind `to`.
#[tactic(auto, unfolding(crate::specs::Convert::cast), using(ink_value::proofs::Reading::kind_in_lem, ink_value::proofs::Given::gave_plain))]
pub fn cast(
    to: Kind,
    v: Value,
    lists: Lists<'_>,
    out: &mut EntriesMut<'_>,
) -> Result<Value, Question>
    requires { FormedIn (places out.old) lists v }
    ensures { GivesTo (cast to (val_in lists.entry v)) result out.old out.new }
{
    if castable(to, v.kind()) {
        return Ok(convert(to, v, lists, out));
    }
    Err(Question::Conversion)
}

// Bool and Int only, and only Int 1 is true.
#[tactic(auto, unfolding(crate::specs::Convert::coerce_bool))]
pub fn coerce_to_bool(v: Value) -> Result<Value, Question>
    ensures { (is : List ℕ) (vs : List ℤ) → answer result ≡ placed (coerce_bool (val_of is vs v)) }
{
    match v {
        Value::Bool(b) => Ok(Value::Bool(b)),
        Value::Int(z) => Ok(Value::Bool(int_comparisons::eq(z, 1))),
        Value::Float(_) | Value::List { .. } | Value::Void => Err(Question::Conversion),
    }
}

#[tactic(auto, unfolding(crate::specs::Convert::coerce_int))]
pub fn coerce_to_int(v: Value) -> Result<Value, Question>
    ensures { (is : List ℕ) (vs : List ℤ) → answer result ≡ placed (coerce_int (val_of is vs v)) }
{
    match v {
        Value::Bool(b) => Ok(Value::Int(i32::from(b))),
        Value::Int(z) => Ok(Value::Int(z)),
        Value::Float(x) => Ok(Value::Int(float_conversions::float_to_int(x))),
        Value::List { .. } | Value::Void => Err(Question::Conversion),
    }
}

#[tactic(auto, unfolding(crate::specs::Convert::coerce_float))]
pub fn coerce_to_float(v: Value) -> Result<Value, Question>
    ensures { (is : List ℕ) (vs : List ℤ) → answer result ≡ placed (coerce_float (val_of is vs v)) }
{
    match v {
        Value::Bool(b) => Ok(Value::Float(float_conversions::int_to_float(i32::from(b)))),
        Value::Int(z) => Ok(Value::Float(float_conversions::int_to_float(z))),
        Value::Float(x) => Ok(Value::Float(x)),
        Value::List { .. } | Value::Void => Err(Question::Conversion),
    }
}

// The one of the three that answers this kind: there is none for a List and for Void.
#[tactic(auto, unfolding(crate::specs::Convert::coerce))]
pub fn coerce(to: Kind, v: Value) -> Result<Value, Question>
    ensures { (is : List ℕ) (vs : List ℤ) → answer result ≡ placed (coerce to (val_of is vs v)) }
{
    match to {
        Kind::Bool => coerce_to_bool(v),
        Kind::Int => coerce_to_int(v),
        Kind::Float => coerce_to_float(v),
        Kind::List | Kind::Void => Err(Question::Conversion),
    }
}
