// A pack that has passed questions 1 to 5.

ghost use Rattle.std.specs.Prelude.{◌≡◌, length};
ghost use Rattle.pack.specs.Read.{PackRead, PackRead-prop};

use super::format::Format;
use ink_list::well_formed::Counts;
use list_definitions::definitions::PackDefinitions;

// Its bytes and its format, and its definitions, which are read of it once and may be lent for a shorter time.
#[derive(Clone, Copy)]
pub struct PassedPack<'a, 'd> {
    pub bytes: &'a [u8],
    pub definitions: PackDefinitions<'d>,
    pub format: Format,
    pub ghost read: { PackRead format bytes.now definitions.tables.ends.now definitions.tables.defined.now definitions.limit } by { PackRead-prop format bytes.now definitions.tables.ends.now definitions.tables.defined.now definitions.limit },
}

impl PassedPack<'_, '_> {
    // How many definitions, and how many items in all, it has.
    pub fn counts(self) -> Counts
        ensures definitions { result.definitions ≡ length self.entry.definitions.tables.ends.now }
        ensures items { result.items ≡ length self.entry.definitions.tables.defined.now }
    {
        Counts {
            definitions: self.definitions.tables.ends.len(),
            items: self.definitions.tables.defined.len(),
        }
    }
}
