// The questions that a call asks. The first that is answered no ends the call.

ghost use Rattle.std.specs.Prelude.{◌≡◌};
ghost use Rattle.ink_number.specs.Question.{number};

// Each question by what it asks of, with its number; 14 and 16 are retired.
#[derive(Clone, Copy, Debug, PartialEq, Eq)]
pub enum Question {
    Length = 1,
    Contents = 2,
    Definitions = 3,
    Literals = 4,
    Sheets = 5,
    Sheet = 6,
    Memory = 7,
    Operator = 8,
    Stack = 9,
    Operands = 10,
    Void = 11,
    Mixed = 12,
    Kind = 13,
    Divisor = 15,
    Left = 17,
    Conversion = 18,
}

// Its number, as hosts see it.
impl From<Question> for u8 {
    ghost from_gives = { λ question n. n ≡ number question };

    fn from(question: Question) -> u8 {
        question as u8
    }
}
