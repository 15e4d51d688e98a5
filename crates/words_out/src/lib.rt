// Values written as words, as `words_in` reads them.
#![tactic(auto)]

ghost use Rattle.std.specs.Prelude.{◌≡◌, [], ◌∷◌, ◌<◌, ◌+◌, ◌*◌, ◌^◌};
ghost use Rattle.words_out.specs.Words.{words_of, Small};
ghost use Rattle.ink_value.specs.Val.{code_of};

use ink_value::{Kind, Value};
use words_in::HALF;

fn put(words: &mut [u64; 3], kind: Kind, w: u64, place: u64)
    ensures { words.new ≡ code_of kind ∷ w ∷ place ∷ [] }
{
    *words = [u64::from(u8::from(kind)), w, place];
}

// An index in an answer's words.
pub fn put_index(words: &mut [u64; 3], index: usize)
    ensures { words.new ≡ index ∷ 0 ∷ 0 ∷ [] }
{
    *words = [index as u64, 0, 0];
}

// A value written as three words.
pub fn put_value(words: &mut [u64; 3], v: Value)
    requires { Small v }
    ensures { words.new ≡ words_of v }
{
    match v {
        Value::Bool(b) => put(words, Kind::Bool, u64::from(b), 0),
        Value::Int(z) => put(words, Kind::Int, u64::from(ink_number::int::pattern(z)), 0),
        Value::Float(x) => put(
            words,
            Kind::Float,
            u64::from(float_conversions::float_to_bits(x)),
            0,
        ),
        Value::List {
            origins,
            start,
            len,
        } => put(
            words,
            Kind::List,
            origins,
            place_of(start as u64, len as u64),
        ),
        Value::Void => put(words, Kind::Void, 0, 0),
    }
}

// Where a List's entries stand, in one word.
fn place_of(start: u64, len: u64) -> u64
    requires { (start < 2 ^ 32) × (len < 2 ^ 32) }
    ensures { result ≡ start + 2 ^ 32 * len }
{
    start + HALF * len
}
