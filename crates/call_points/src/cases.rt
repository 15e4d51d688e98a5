// A call as bytes: its name after the name's length, and from byte 48 on what is called and with what (make_cases.py writes them). A byte
// past the end is 0.
ghost use Rattle.std.specs.Prelude.{◌<◌, ◌≤◌};

use ink_value::Value;
use ink_value::operands::Operands;
pub use list_cases::read::byte;
use list_cases::read::value;

// How many bytes a call takes, and where its parts are.
pub const CASE: usize = 80;

pub const WHAT: usize = 48;

pub const WHICH: usize = 49;

const COUNT: usize = 50;

pub const FIRST: usize = 51;

const SECOND: usize = 56;

const THIRD: usize = 61;

pub const LENT: usize = 66;

pub const RESULTS: usize = 67;

pub const PACK_LENGTH: usize = 68;

pub const PACK_START: usize = 69;

pub fn number(s: &[u8], at: usize) -> usize
    ensures { result < 256 }
{
    usize::from(byte(s, at))
}

fn list(s: &[u8], at: usize) -> Value
    requires { at ≤ 80 }
{
    Value::List {
        origins: u64::from(byte(s, at)),
        start: number(s, at + 1),
        len: number(s, at + 2),
    }
}

// An operand: its kind, a byte as make_cases.py writes it, and what it holds.
pub fn operand(s: &[u8], at: usize) -> Value
    requires { at ≤ 64 }
{
    match byte(s, at) {
        0 => Value::Bool(byte(s, at + 1) == 1),
        1 => Value::Int(value(s, at + 1)),
        2 => Value::Float(float_conversions::float_from_bits(value(s, at + 1).cast_unsigned())),
        3 => list(s, at + 1),
        _ => Value::Void,
    }
}

pub fn operands(s: &[u8]) -> Operands {
    Operands {
        count: number(s, COUNT),
        first: operand(s, FIRST),
        second: operand(s, SECOND),
        third: operand(s, THIRD),
    }
}
