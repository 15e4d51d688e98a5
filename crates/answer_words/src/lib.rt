// The answers of a run and of vetting as a number that is returned and words that are written.
#![tactic(auto)]

ghost use Rattle.std.specs.Prelude.{◌≡◌};
ghost use Rattle.machine.specs.Ended.{end_of};
ghost use Rattle.value_words.specs.Calls.{index_words};
ghost use Rattle.answer_words.specs.Answers.{end_number, ran_words, SmallRan, vetted_index};

use ink_value::Value;
use machine::Stop;

// The answer of a run that an instruction stops with a number, any byte.
#[inline(always)]
pub fn stopped(n: u8, index: usize, answer: &mut [u64; 3]) -> u32
    ensures { (result ≡ n) × (answer.new ≡ index_words index) }
{
    words_out::put_index(answer, index);
    value_words::byte_number(n)
}

// A run's answer.
pub fn ran(r: Result<Value, Stop>, answer: &mut [u64; 3]) -> u32
    requires { SmallRan (end_of r) }
    ensures { (result ≡ end_number (end_of r)) × (answer.new ≡ ran_words (end_of r)) }
{
    match r {
        Ok(v) => {
            words_out::put_value(answer, v);
            0
        }
        Err(stop) => stopped(u8::from(stop.question), stop.index, answer),
    }
}

// The answer of vetting that turns a sheet back at an instruction with a number, any byte.
#[inline(always)]
pub fn turned_back(n: u8, at: usize, index: &mut u64) -> u32
    ensures { (result ≡ n) × (index.new ≡ at) }
{
    *index = at as u64;
    value_words::byte_number(n)
}

// Vetting's answer.
pub fn vetted(v: Result<usize, Stop>, index: &mut u64) -> u32
    ensures { (result ≡ end_number (end_of v)) × (index.new ≡ vetted_index (end_of v)) }
{
    match v {
        Ok(count) => {
            *index = count as u64;
            0
        }
        Err(stop) => turned_back(u8::from(stop.question), stop.index, index),
    }
}
