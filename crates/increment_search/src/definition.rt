// A definition.

ghost use Rattle.std.specs.Prelude.{◌+◌, ◌≤◌, length};
ghost use Rattle.std.specs.Coded.{le_prop};
ghost use Rattle.ink_list.specs.Entries.{item_numbers};

// Its values, and the number of its first item.
#[derive(Clone, Copy)]
pub struct Definition<'a> {
    pub first: usize,
    pub values: &'a [i32],
    pub ghost numbered: { first + length values.now ≤ item_numbers } by { le_prop },
}
