// The slots of a run.

use crate::Value;
use ink_list::lists::Lists;

// Their values, and the two slices that the entries of their lists stand in.
#[derive(Clone, Copy)]
pub struct Slots<'a> {
    pub values: [Value; 16],
    pub lists: Lists<'a>,
}
