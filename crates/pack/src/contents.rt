// The contents of a pack.
ghost use Rattle.std.specs.Prelude.{◌≡◌, ◌+◌, ◌*◌, ◌<◌, length};
ghost use Rattle.pack.specs.Contents.{body_count, offset, size};

use super::bytes::{byte_at, u16_at};

// How many bodies the contents list.
pub fn body_count(p: &[u8]) -> usize
    requires { 3 < length p.now }
    ensures { (result ≡ body_count p.now) × (result < 766) }
{
    byte_at(p, 1) + byte_at(p, 2) + byte_at(p, 3)
}

// Where body b starts, by the contents.
pub fn offset(p: &[u8], b: usize) -> usize
    requires { 7 + 4 * b < length p.now }
    ensures { (result ≡ offset p.now b) × (result < 65536) }
{
    u16_at(p, 4 + 4 * b)
}

// How long body b is, by the contents.
pub fn size(p: &[u8], b: usize) -> usize
    requires { 7 + 4 * b < length p.now }
    ensures { (result ≡ size p.now b) × (result < 65536) }
{
    u16_at(p, 6 + 4 * b)
}
