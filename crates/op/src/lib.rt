// The operators: the cases of `Op` in Ink's source, and range.
#![tactic(auto)]

ghost use Rattle.std.specs.Prelude.{◌≡◌};
ghost use Rattle.op.specs.Op.{op_number};

// The operators in the order of their numbers; `Other` is a number that none has, from 32 on.
#[derive(Clone, Copy, Debug, PartialEq, Eq)]
pub enum Op {
    Add,
    Subtract,
    Divide,
    Multiply,
    Mod,
    Negate,
    Equal,
    Greater,
    Less,
    GreaterThanOrEquals,
    LessThanOrEquals,
    NotEquals,
    Not,
    And,
    Or,
    Min,
    Max,
    Pow,
    Floor,
    Ceiling,
    Int,
    Float,
    Has,
    Hasnt,
    Intersect,
    ListMin,
    ListMax,
    All,
    Count,
    ValueOfList,
    Invert,
    Range,
    Other(u8),
}

// The operator with this number: each byte has one.
impl From<u8> for Op {
    ghost from_gives = { λ n op. op_number op ≡ n };

    fn from(n: u8) -> Op {
        match n {
            0 => Op::Add,
            1 => Op::Subtract,
            2 => Op::Divide,
            3 => Op::Multiply,
            4 => Op::Mod,
            5 => Op::Negate,
            6 => Op::Equal,
            7 => Op::Greater,
            8 => Op::Less,
            9 => Op::GreaterThanOrEquals,
            10 => Op::LessThanOrEquals,
            11 => Op::NotEquals,
            12 => Op::Not,
            13 => Op::And,
            14 => Op::Or,
            15 => Op::Min,
            16 => Op::Max,
            17 => Op::Pow,
            18 => Op::Floor,
            19 => Op::Ceiling,
            20 => Op::Int,
            21 => Op::Float,
            22 => Op::Has,
            23 => Op::Hasnt,
            24 => Op::Intersect,
            25 => Op::ListMin,
            26 => Op::ListMax,
            27 => Op::All,
            28 => Op::Count,
            29 => Op::ValueOfList,
            30 => Op::Invert,
            31 => Op::Range,
            _ => Op::Other(n - 32),
        }
    }
}

// Its number; no operator has one from 32 on.
impl From<Op> for usize {
    ghost from_gives = { λ op n. n ≡ op_number op };

    fn from(op: Op) -> usize {
        match op {
            Op::Add => 0,
            Op::Subtract => 1,
            Op::Divide => 2,
            Op::Multiply => 3,
            Op::Mod => 4,
            Op::Negate => 5,
            Op::Equal => 6,
            Op::Greater => 7,
            Op::Less => 8,
            Op::GreaterThanOrEquals => 9,
            Op::LessThanOrEquals => 10,
            Op::NotEquals => 11,
            Op::Not => 12,
            Op::And => 13,
            Op::Or => 14,
            Op::Min => 15,
            Op::Max => 16,
            Op::Pow => 17,
            Op::Floor => 18,
            Op::Ceiling => 19,
            Op::Int => 20,
            Op::Float => 21,
            Op::Has => 22,
            Op::Hasnt => 23,
            Op::Intersect => 24,
            Op::ListMin => 25,
            Op::ListMax => 26,
            Op::All => 27,
            Op::Count => 28,
            Op::ValueOfList => 29,
            Op::Invert => 30,
            Op::Range => 31,
            Op::Other(n) => 32 + n as usize,
        }
    }
}
