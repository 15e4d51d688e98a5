// Question 5: sheets.
#![tactic(auto)]

ghost use Rattle.std.specs.Prelude.{cond, ◌≡◌, ◌+◌, ◌<◌, ◌≤◌, ltb, leb, length};
ghost use Rattle.pack.specs.Bodies.{sheet};
ghost use Rattle.pack.specs.Bytes.{byte};
ghost use Rattle.pack.specs.Contents.{body_count};
ghost use Rattle.pack.specs.Instruction.{is_some, taken, instruction};
ghost use Rattle.pack.specs.Judge.{question5};

use pack::bytes::byte_at;
use pack::contents::{offset, size};
use pack::instruction::{ALONE, BOOL, FLOAT, INT, LIST, SLOT, VOID, WITH_BYTE, WITH_FOUR};
use pack::placed::PlacedPack;

// The most instructions in a sheet, and slots.
pub const INSTRUCTION_LIMIT: usize = 1024;

pub const SLOT_LIMIT: usize = 16;

// The bytes of an instruction with a byte below limit, None where it does not end in time or the byte is not.
fn with_byte(p: &[u8], at: usize, end: usize, limit: usize) -> Option<usize>
    requires { (at < end) × (end ≤ length p.now) }
    ensures { result ≡ cond (ltb (byte p.now (at + 1)) limit) (cond (leb (at + 2) end) (Some 2) None) None }
{
    if WITH_BYTE <= end - at && byte_at(p, at + 1) < limit {
        Some(WITH_BYTE)
    } else {
        None
    }
}

// The bytes of an instruction with four bytes, None where it does not end in time.
fn with_four(at: usize, end: usize) -> Option<usize>
    requires { at < end }
    ensures { result ≡ cond (leb (at + 5) end) (Some 5) None }
{
    if WITH_FOUR <= end - at {
        Some(WITH_FOUR)
    } else {
        None
    }
}

// The bytes of the instruction at a position, None where none is well formed and ends in time.
fn checked_width(p: &[u8], at: usize, end: usize, literals: usize) -> Option<usize>
    requires { (at < end) × (end ≤ length p.now) }
    ensures { result ≡ taken at end (instruction literals p.now at) }
{
    let code = p[at];
    // Operators apart: as an arm of the match they share a test with Ints and Floats, and a check of sheets takes a third more.
    if code < BOOL {
        return Some(ALONE);
    }
    match code {
        BOOL => with_byte(p, at, end, 2),
        INT | FLOAT => with_four(at, end),
        LIST => with_byte(p, at, end, literals),
        SLOT => with_byte(p, at, end, SLOT_LIMIT),
        VOID => Some(ALONE),
        _ => None,
    }
}

// Is the sheet that is body b well formed?
fn sheet_ok(pack: PlacedPack<'_>, b: usize) -> bool
    requires b_bound { b < body_count pack.bytes.now }
    ensures { result ≡ is_some (sheet pack.entry.bytes.now b) }
{
    let literals = byte_at(pack.bytes, 2);
    let mut at = offset(pack.bytes, b);
    let end = at + size(pack.bytes, b);
    // No index: the position goes on by each instruction's width, and the limit is the number of turns.
    for _ in 0..INSTRUCTION_LIMIT {
        if at == end {
            return true;
        }
        let Some(n) = checked_width(pack.bytes, at, end, literals) else {
            return false;
        };
        at += n;
    }
    at == end
}

// Is each sheet well formed, literal number below L?
#[tactic(auto, using(slices::proofs::Every::every_more), unfolding(slices::specs::Every::every, pack::specs::Judge::question5))]
pub fn question5(pack: PlacedPack<'_>) -> bool
    ensures { result ≡ question5 pack.entry.bytes.now }
{
    let first = byte_at(pack.bytes, 1) + byte_at(pack.bytes, 2);
    (0..byte_at(pack.bytes, 3)).all(|s| sheet_ok(pack, first + s))
}
