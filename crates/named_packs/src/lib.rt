// A stream of named packs: each pack comes after its name, the name after its length of one byte, the pack after its length of three.
#![tactic(auto)]

ghost use Rattle.std.specs.Prelude.{◌≡◌, ◌+◌, ◌<◌, length};
ghost use Rattle.std.specs.Iterator.{at_most};
ghost use Rattle.named_packs.specs.Stream.{size_at, Stands, Yields};

// A pack and its name, and the position after both.
#[derive(Clone, Copy)]
pub struct NamedPack<'a> {
    pub name: &'a [u8],
    pub pack: &'a [u8],
    pub end: usize,
}

// Three bytes: the library reads numbers of two and of four.
fn size_at(s: &[u8], at: usize) -> usize
    requires { at + 2 < length s.now }
    ensures { (result ≡ size_at s.now at) × (result < 16777216) }
{
    u32::from_le_bytes([s[at], s[at + 1], s[at + 2], 0]) as usize
}

// The pack whose name's length is at a position, or None where the stream is cut short.
pub fn read(s: &[u8], at: usize) -> Option<NamedPack<'_>>
    requires { at < length s.now }
    ensures { Stands s.now at result }
{
    let name = at + 1;
    let n = usize::from(s[at]);
    if s.len() - name < n + 3 {
        return None;
    }
    let after = name + n;
    let size = size_at(s, after);
    let start = after + 3;
    if s.len() - start < size {
        return None;
    }
    let end = start + size;
    Some(NamedPack {
        name: &s[name..after],
        pack: &s[start..end],
        end,
    })
}

// What is left of a stream, pack by pack.
#[derive(Clone, Copy)]
pub struct NamedPacks<'a> {
    pub rest: &'a [u8],
}

impl<'a> Iterator for NamedPacks<'a> {
    type Item = NamedPack<'a>;

    ghost next_gives = { λ before named after. Yields before.rest.now named after.rest.now };

    ghost remaining = { λ packs. at_most (length packs.rest.now) };

    // The next pack, None at the end and where the stream is cut short.
    fn next(&mut self) -> Option<NamedPack<'a>> {
        if self.rest.is_empty() {
            return None;
        }
        let named = read(self.rest, 0)?;
        self.rest = &self.rest[named.end..];
        Some(named)
    }
}
