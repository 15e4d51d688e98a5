// The machine that a run and vetting share: its limits, and what a step and a whole run answer. What it does is in specs/, and what vetting
// foretells of a run in proofs/.
#![tactic(auto)]

ghost use Rattle.std.specs.Prelude.{◌≡◌};
ghost use Rattle.ink_number.specs.Question.{answer};
ghost use Rattle.machine.specs.Stack.{top_pushed};

use ink_number::question::Question;

// The most values on the stack.
pub const STACK_LIMIT: usize = 64;

// What an instruction puts on the stack, a value or a kind: it stands at a place, which is then the top.
#[derive(Clone, Copy)]
pub struct Top<T> {
    pub place: usize,
    pub value: T,
}

// A push on a stack of n, by a run and by vetting: question 9.
pub fn push<T: Copy>(value: T, n: usize) -> Result<Top<T>, Question>
    ensures { answer result ≡ top_pushed n value }
{
    if n < STACK_LIMIT {
        Ok(Top { place: n, value })
    } else {
        Err(Question::Stack)
    }
}

// Where a run or vetting stops: the question that says no, and the index of the instruction that asked it.
#[derive(Clone, Copy, Debug, PartialEq, Eq)]
pub struct Stop {
    pub question: Question,
    pub index: usize,
}

// A question that is asked before the first instruction stops at index 0.
impl From<Question> for Stop {
    ghost use Rattle.std.specs.Prelude.{◌≡◌};

    ghost from_gives = { λ question stop. stop ≡ record { question = question; index = 0 } };

    fn from(question: Question) -> Stop {
        Stop { question, index: 0 }
    }
}
