// The pack's definitions.

ghost use Rattle.list_definitions.specs.Defs.{Tables, Tables-prop, Bounded, Bounded-prop};

// Two tables of one pack: `ends` has for each definition the number one past its last item, and `defined` each item's
// value.
#[derive(Clone, Copy)]
pub struct Definitions<'a> {
    pub ends: &'a [u16],
    pub defined: &'a [i32],
    pub ghost tables: { Tables ends.now defined.now } by { Tables-prop ends.now defined.now },
}

// The definitions of a pack, and the most items that its format allows.
#[derive(Clone, Copy)]
pub struct PackDefinitions<'a> {
    pub tables: Definitions<'a>,
    pub limit: usize,
    pub ghost bounded: { Bounded tables.ends.now tables.defined.now limit } by { Bounded-prop tables.ends.now tables.defined.now limit },
}
