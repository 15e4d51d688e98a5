// Little-endian numbers at a position of a run of bytes, read by the library: a name for each, as the definitions have one.
#![tactic(auto, unfolding(crate::specs::Bytes::number))]

ghost use Rattle.std.specs.Prelude.{◌≡◌, ◌+◌, ◌<◌, ◌≤◌, length};
ghost use Rattle.pack.specs.Bytes.{byte, u16, u32, u64, i32, number};

pub fn byte_at(p: &[u8], at: usize) -> usize
    requires { at < length p.now }
    ensures { (result ≡ byte p.now at) × (result < 256) }
{
    usize::from(p[at])
}

pub fn u16_at(p: &[u8], at: usize) -> usize
    requires { at + 1 < length p.now }
    ensures { (result ≡ u16 p.now at) × (result < 65536) }
{
    usize::from(u16::from_le_bytes([p[at], p[at + 1]]))
}

pub fn u32_at(p: &[u8], at: usize) -> u32
    requires { at + 3 < length p.now }
    ensures { result ≡ u32 p.now at }
{
    u32::from_le_bytes([p[at], p[at + 1], p[at + 2], p[at + 3]])
}

pub fn u64_at(p: &[u8], at: usize) -> u64
    requires { at + 7 < length p.now }
    ensures { result ≡ u64 p.now at }
{
    u64::from_le_bytes([
        p[at],
        p[at + 1],
        p[at + 2],
        p[at + 3],
        p[at + 4],
        p[at + 5],
        p[at + 6],
        p[at + 7],
    ])
}

#[tactic(auto, unfolding(ink_number::specs::Int::signed))]
pub fn i32_at(p: &[u8], at: usize) -> i32
    requires { at + 3 < length p.now }
    ensures { result ≡ i32 p.now at }
{
    u32_at(p, at).cast_signed()
}

// A number of one or two bytes: an item's, or how many items a definition has.
pub fn number_at(p: &[u8], at: usize, wide: usize) -> usize
    requires wide_nonzero { (0 < wide) × (wide ≤ 2) }
    requires wide_in_bounds { at + wide ≤ length p.now }
    ensures { (result ≡ number wide p.now at) × (result < 65536) }
{
    if wide == 1 {
        return byte_at(p, at);
    }
    u16_at(p, at)
}
