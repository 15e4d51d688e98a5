// A number in parts, as it stands in words.

ghost use Rattle.std.specs.Prelude.{◌≡◌};
ghost use Rattle.ink_value.specs.Convert.{as_int, as_float, truthy};
ghost use Rattle.ink_value.specs.Held.{number_in};

use crate::Kind;

// Its kind, the Int that a Bool or an Int holds, and what a Float holds.
#[derive(Clone, Copy)]
pub struct NumberParts {
    pub kind: Kind,
    pub whole: i32,
    pub real: f32,
}

impl NumberParts {
    // As an Int, as a Float, and as a truth.
    pub fn to_int(self) -> i32
        ensures { result ≡ as_int (number_in self) }
    {
        match self.kind {
            Kind::Float => float_conversions::float_to_int(self.real),
            Kind::Bool | Kind::Int | Kind::List | Kind::Void => self.whole,
        }
    }

    pub fn to_float(self) -> f32
        ensures { result ≡ as_float (number_in self) }
    {
        match self.kind {
            Kind::Float => self.real,
            Kind::Bool | Kind::Int | Kind::List | Kind::Void => {
                float_conversions::int_to_float(self.whole)
            }
        }
    }

    pub fn is_truthy(self) -> bool
        ensures { result ≡ truthy (number_in self) }
    {
        match self.kind {
            Kind::Float => ink_float::truthy(self.real),
            Kind::Bool | Kind::Int | Kind::List | Kind::Void => int_comparisons::truthy(self.whole),
        }
    }
}
