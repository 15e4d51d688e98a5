// Format 1, and the limits of every format.
use pack::format::Format;

pub const FORMAT1: Format = Format {
    tag: 1,
    wide: 1,
    limit: 256,
};

// The most bytes, and definitions.
pub const PACK_LIMIT: usize = 65535;

pub const DEFINITION_LIMIT: usize = 64;
