// A pack whose bodies can be found.

ghost use Rattle.pack.specs.Judge.{Placed};
ghost use Rattle.pack.specs.Read.{Placed-prop};

// Bytes of which questions 1 and 2 say yes.
#[derive(Clone, Copy)]
pub struct PlacedPack<'a> {
    pub bytes: &'a [u8],
    pub ghost placed: { Placed bytes.now } by { Placed-prop bytes.now },
}
