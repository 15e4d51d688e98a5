// The answer of a call as a number that is returned and words that are written.
#![tactic(auto)]

ghost use Rattle.std.specs.Prelude.{◌≡◌};
ghost use Rattle.ink_number.specs.Answer.{refuses};
ghost use Rattle.ink_number.specs.Question.{number, answer as answer_of};
ghost use Rattle.value_words.specs.Calls.{outcome_number, outcome_words, SmallOutcome};

use ink_number::question::Question;
use ink_value::Value;

// A refusal's number, any byte, as it is returned.
#[inline(always)]
pub fn byte_number(n: u8) -> u32
    ensures { result ≡ n }
{
    u32::from(n)
}

// A question's number, as it is returned.
pub fn number(question: Question) -> u32
    ensures { result ≡ number question }
{
    byte_number(u8::from(question))
}

// The answer of a direct call or a conversion that is refused with a number, any byte.
#[inline(always)]
pub fn refused(n: u8, answer: &mut [u64; 3]) -> u32
    ensures { (result ≡ outcome_number (refuses n)) × (answer.new ≡ outcome_words (refuses n)) }
{
    words_out::put_index(answer, 0);
    byte_number(n)
}

// A direct call's or a conversion's answer.
pub fn outcome(o: Result<Value, Question>, answer: &mut [u64; 3]) -> u32
    requires { SmallOutcome (answer_of o) }
    ensures { (result ≡ outcome_number (answer_of o)) × (answer.new ≡ outcome_words (answer_of o)) }
{
    match o {
        Ok(v) => {
            words_out::put_value(answer, v);
            0
        }
        Err(question) => refused(u8::from(question), answer),
    }
}
