// What a pack's format fixes. What the code can read of one (`Narrow`) is asked, and not held by the type: the definitions and the laws speak
// of any format.

#[derive(Clone, Copy)]
pub struct Format {
    // Byte 0.
    pub tag: u8,
    // The bytes of an item number, and of a definition's item count.
    pub wide: usize,
    // The most items in all.
    pub limit: usize,
}
