// Instructions, and their reader.
ghost use Rattle.std.specs.Prelude.{◌≡◌};
ghost use Rattle.pack.specs.Instruction.{instr_of, width};
ghost use Rattle.pack.specs.Read.{Whole, Reads};

use super::bytes::{i32_at, u32_at};
use op::Op;

// An operator, or a push: a Float by its bits, a List by its literal's number.
#[derive(Clone, Copy)]
pub enum Instruction {
    Op(Op),
    Bool(bool),
    Int(i32),
    Float(u32),
    List(u8),
    Slot(u8),
    Void,
}

// The codes of the pushes, as bytes of the format; what they stand for is `Instruction`. Those below are operators.
pub const BOOL: u8 = 32;

pub const INT: u8 = 33;

pub const FLOAT: u8 = 34;

pub const LIST: u8 = 35;

pub const SLOT: u8 = 36;

pub const VOID: u8 = 37;

// The bytes of an instruction with nothing after its code, with a byte, and with four.
pub const ALONE: usize = 1;

pub const WITH_BYTE: usize = 2;

pub const WITH_FOUR: usize = 5;

// The instruction at a position where a whole one stands.
pub fn read_instruction(p: &[u8], at: usize) -> Instruction
    requires { Whole p.now at }
    ensures { Reads p.now at (instr_of result) }
{
    let code = p[at];
    // Operators apart: as the last arm of the match their number would be looked at again, for one that none has.
    if code < BOOL {
        return Instruction::Op(Op::from(code));
    }
    match code {
        BOOL => Instruction::Bool(p[at + 1] == 1),
        INT => Instruction::Int(i32_at(p, at + 1)),
        FLOAT => Instruction::Float(u32_at(p, at + 1)),
        LIST => Instruction::List(p[at + 1]),
        SLOT => Instruction::Slot(p[at + 1]),
        _ => Instruction::Void,
    }
}

// The bytes that an instruction takes.
pub fn instruction_width(i: Instruction) -> usize
    ensures { result ≡ width (instr_of i) }
{
    match i {
        Instruction::Op(_) | Instruction::Void => ALONE,
        Instruction::Bool(_) | Instruction::List(_) | Instruction::Slot(_) => WITH_BYTE,
        Instruction::Int(_) | Instruction::Float(_) => WITH_FOUR,
    }
}
