// Questions 1 and 2, and all five in order.
ghost use Rattle.std.specs.Prelude.{◌≡◌};
ghost use Rattle.pack.specs.Bodies.{decoded};
ghost use Rattle.pack.specs.Format.{Narrow};
ghost use Rattle.pack.specs.Judge.{question1, question2, judge, checked, Framed};

use super::format::{DEFINITION_LIMIT, PACK_LIMIT};
use ink_number::question::Question;
use pack::bytes::byte_at;
use pack::contents::{body_count, offset, size};
use pack::format::Format;
use pack::placed::PlacedPack;
use pack_lists::definitions::question3;
use pack_lists::literals::question4;
use pack_sheets::question5;

// Are length, format, D and the contents table's presence right?
fn question1(p: &[u8], format: Format) -> bool
    ensures { result ≡ question1 format p.now }
{
    if p.len() < 4 {
        return false;
    }
    if PACK_LIMIT < p.len() {
        return false;
    }
    if p[0] != format.tag {
        return false;
    }
    if DEFINITION_LIMIT < byte_at(p, 1) {
        return false;
    }
    4 + 4 * body_count(p) <= p.len()
}

// Do bodies follow the contents and each other, the last ending the pack?
#[tactic(auto, using(slices::proofs::Every::every_more), unfolding(slices::specs::Every::every, pack::specs::Contents::place))]
fn question2(p: &[u8]) -> bool
    requires { Framed p.now }
    ensures { result ≡ question2 p.now }
{
    let n = body_count(p);
    let mut at = 4 + 4 * n;
    // A body has a number and no slice: its offset and size are read by the number.
    for b in 0..n {
        if offset(p, b) != at {
            return false;
        }
        at += size(p, b);
    }
    at == p.len()
}

// Asks questions 1 to 5 of a pack of a format.
#[tactic(auto, using(pack::proofs::Laid::framed), unfolding(pack::specs::Judge::judge))]
pub fn check_as(p: &[u8], format: Format) -> Result<(), Question>
    requires { Narrow format }
    ensures { checked result (decoded format p.now) ≡ judge format p.now }
{
    if !question1(p, format) {
        return Err(Question::Length);
    }
    if !question2(p) {
        return Err(Question::Contents);
    }
    let pack = PlacedPack { bytes: p };
    if !question3(pack, format) {
        return Err(Question::Definitions);
    }
    if !question4(pack, format) {
        return Err(Question::Literals);
    }
    if !question5(pack) {
        return Err(Question::Sheets);
    }
    Ok(())
}
