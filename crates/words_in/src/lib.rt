// Words read as values: three for each, the code of its kind, what it holds, and where a List's entries stand. They are not converted by
// From or TryFrom: words that are no value's read as a value that question 7 turns away, each kind by a test of its own.
#![tactic(auto)]

ghost use Rattle.std.specs.Prelude.{◌≡◌, ◌<◌, ◌+◌, ◌*◌, ◌/◌, ◌%◌, ◌^◌};
ghost use Rattle.ink_value.specs.Val.{code_of};
ghost use Rattle.words_in.specs.Words.{Coded, unheld, bool_at, int_at, float_at, void_at, plain_at, value_of, value_at, operands_at, slots_in};

use ink_value::operands::Operands;
use ink_value::{Kind, Value};
use pack_sheets::SLOT_LIMIT;

// A start and a length stand in one word, the start in the lower half.
pub const HALF: u64 = 0x1_0000_0000;

// What words that are no value's read as: a List that no slices hold.
fn unheld() -> Value
    ensures { result ≡ unheld }
{
    Value::List {
        origins: 0,
        start: 0xffff_ffff_ffff_ffff,
        len: 1,
    }
}

#[tactic(auto, unfolding(crate::specs::Words::bool_at))]
fn bool_at(w: u64) -> Value
    ensures { result ≡ bool_at w }
{
    if w < 2 { Value::Bool(w == 1) } else { unheld() }
}

#[tactic(auto, unfolding(crate::specs::Words::int_at))]
fn int_at(w: u64) -> Value
    ensures { result ≡ int_at w }
{
    if w < HALF {
        Value::Int(ink_number::int::signed_of(w as u32))
    } else {
        unheld()
    }
}

#[tactic(auto, unfolding(crate::specs::Words::float_at))]
fn float_at(w: u64) -> Value
    ensures { result ≡ float_at w }
{
    if w < HALF {
        Value::Float(float_conversions::float_from_bits(w as u32))
    } else {
        unheld()
    }
}

#[tactic(auto, unfolding(crate::specs::Words::void_at))]
fn void_at(w: u64) -> Value
    ensures { result ≡ void_at w }
{
    if w == 0 { Value::Void } else { unheld() }
}

// The kind whose code a word is, if there is one. `Kind::from` has a kind for every byte; a word that is no code is to be refused.
fn kind_of(word: u64) -> Option<Kind>
    ensures { Coded word result }
{
    match word {
        0 => Some(Kind::Bool),
        1 => Some(Kind::Int),
        2 => Some(Kind::Float),
        3 => Some(Kind::List),
        4 => Some(Kind::Void),
        _ => None,
    }
}

// A value that is no List, by its kind.
#[tactic(auto, unfolding(crate::specs::Words::plain_at))]
fn plain_at(kind: Kind, w: u64) -> Value
    ensures { result ≡ plain_at (code_of kind) w }
{
    match kind {
        Kind::Bool => bool_at(w),
        Kind::Int => int_at(w),
        Kind::Float => float_at(w),
        Kind::List => unheld(),
        Kind::Void => void_at(w),
    }
}

// Where a List's entries start and how many there are, of its third word.
pub fn start_in(place: u64) -> usize
    ensures { result ≡ place % 2 ^ 32 }
{
    (place % HALF) as usize
}

pub fn len_in(place: u64) -> usize
    ensures { result ≡ place / 2 ^ 32 }
{
    (place / HALF) as usize
}

// The 32 lower bits of a word.
pub fn low(w: u64) -> u32
    ensures { result ≡ w % 2 ^ 32 }
{
    (w % HALF) as u32
}

// A value by its kind: of one that is no List the third word is 0.
#[tactic(auto, unfolding(crate::specs::Words::value_of))]
fn value_of_kind(kind: Kind, w: u64, place: u64) -> Value
    ensures { result ≡ value_of (code_of kind) w place }
{
    match kind {
        Kind::List => Value::List {
            origins: w,
            start: start_in(place),
            len: len_in(place),
        },
        Kind::Bool | Kind::Int | Kind::Float | Kind::Void => {
            if place == 0 {
                plain_at(kind, w)
            } else {
                unheld()
            }
        }
    }
}

// The value of three words.
fn value_of(code: u64, w: u64, place: u64) -> Value
    ensures { result ≡ value_of code w place }
{
    match kind_of(code) {
        Some(kind) => value_of_kind(kind, w, place),
        None => unheld(),
    }
}

// The one value of three words.
pub fn value_in(words: &[u64; 3]) -> Value
    ensures { result ≡ value_at words.now 0 }
{
    value_at(words, 0)
}

// The value of the three words from 3 * k on.
fn value_at<const N: usize>(words: &[u64; N], k: usize) -> Value
    requires { 3 * k + 2 < N }
    ensures { result ≡ value_at words.now k }
{
    value_of(words[3 * k], words[3 * k + 1], words[3 * k + 2])
}

// Three operands, of which the first `count` are used. As a call it would write all three to memory, of which most callers read two.
#[inline(always)]
pub fn operands_at(count: usize, words: &[u64; 9]) -> Operands
    ensures { result ≡ operands_at count words.now }
{
    Operands {
        count,
        first: value_at(words, 0),
        second: value_at(words, 1),
        third: value_at(words, 2),
    }
}

// The slots of a run.
pub fn slots_in(words: &[u64; 48]) -> [Value; 16]
    ensures { result ≡ slots_in words.now }
{
    std::array::from_fn(|k| value_at(words, k))
}
