// Questions 1 to 5 asked of any bytes.
#![tactic(auto)]

pub mod format;
mod questions;

ghost use Rattle.std.specs.Prelude.{◌≡◌};
ghost use Rattle.pack.specs.Bodies.{decoded};
ghost use Rattle.pack.specs.Format.{format1};
ghost use Rattle.pack.specs.Judge.{checked, judge};

use format::FORMAT1;
use ink_number::question::Question;

// Asks questions 1 to 5 of any bytes.
pub fn check(p: &[u8]) -> Result<(), Question>
    ensures { checked result (decoded format1 p.now) ≡ judge format1 p.now }
{
    questions::check_as(p, FORMAT1)
}
