// The operands of an operator.

use crate::Value;

// Up to three: the first `count` are used. The slices that hold their lists stand beside them: in a run those are the work slices, which
// an operator also writes.
#[derive(Clone, Copy)]
pub struct Operands {
    pub count: usize,
    pub first: Value,
    pub second: Value,
    pub third: Value,
}
