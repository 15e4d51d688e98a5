// A pack to which questions 1 to 5 said yes.

ghost use Rattle.pack.specs.Format.{Narrow, Narrow-prop};
ghost use Rattle.pack.specs.Judge.{Sound};
ghost use Rattle.pack.specs.Read.{Sound-prop};

use super::format::Format;

// Its bytes and its format, which the code can read.
#[derive(Clone, Copy)]
pub struct SoundPack<'a> {
    pub bytes: &'a [u8],
    pub format: Format,
    pub ghost sound: { Sound format bytes.now } by { Sound-prop format bytes.now },
    pub ghost narrow: { Narrow format } by { Narrow-prop format },
}
