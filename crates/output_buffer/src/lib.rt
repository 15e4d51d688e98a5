// Text for the standard output: it gathers in a lent buffer, which is written when it is full and at the end.
#![tactic(auto)]

ghost use Rattle.std.specs.Prelude.{◌≡◌, ◌↔◌, ◌+◌, ◌≤◌, false, [], length, IsOk, IfOk, IsSome, Some, ◌++◌};
ghost use Rattle.std.specs.Option.{option_map};
ghost use Rattle.output_buffer.specs.Text.{Adds, Gathered, text_of};

use std::fmt;
use std::marker::Model;

const STDOUT: i32 = 1;

// How many bytes wait to be written, and whether a write has failed.
#[derive(Clone, Copy)]
pub struct Output {
    pub at: usize,
    pub failed: bool,
}

// A lent buffer, and how many bytes at its start wait to be written. After a failed write none wait, and no more are written.
#[derive(Drop)]
pub struct Writer<'a> {
    buffer: &'a mut [u8],
    waiting: Result<usize, fmt::Error>,
}

impl<'a> Model for Writer<'a> {
    ghost use Rattle.std.specs.Prelude.{◌≤◌, length, IfOk};
    ghost use Rattle.output_buffer.specs.Text.{Gathered, gathered};

    ghost Value = { Gathered };

    ghost view = { λ o. gathered o.buffer.now o.waiting };

    ghost invariant = { λ o. IfOk o.waiting (λ n. n ≤ length o.buffer.now) };
}

// Writes bytes. After that nothing waits.
fn hand_over(bytes: &[u8]) -> Result<usize, fmt::Error>
    ensures { IfOk result (λ n. n ≡ 0) }
{
    if io::write_all(STDOUT, bytes) {
        Ok(0)
    } else {
        Err(fmt::Error)
    }
}

impl<'a> Writer<'a> {
    pub fn new(buffer: &'a mut [u8]) -> Writer<'a>
        ensures { result ≡ record { text = Some []; room = length buffer.old } }
    {
        Writer {
            buffer,
            waiting: Ok(0),
        }
    }

    // What it has come to.
    pub fn state(&self) -> Output
        ensures at { result.at ≡ length (text_of self.now) }
        ensures failed { result.failed ≡ false ↔ IsSome self.now.text }
    {
        match self.waiting {
            Ok(at) => Output { at, failed: false },
            Err(_) => Output {
                at: 0,
                failed: true,
            },
        }
    }

    // Writes what waits.
    pub fn flush(&mut self) -> fmt::Result
        ensures emptied { text_of self.new ≡ [] }
        ensures told { IsOk result ↔ IsSome self.new.text }
        ensures failed { IsSome self.new.text → IsSome self.old.text }
        ensures room { self.new.room ≡ self.old.room }
    {
        let end = self.waiting?;
        self.waiting = hand_over(&self.buffer[..end]);
        self.waiting?;
        Ok(())
    }

    // Adds bytes at the end, where there is room.
    fn append(&mut self, bytes: &[u8]) -> fmt::Result
        requires { length (text_of self.old) + length bytes.now ≤ self.old.room }
        ensures added { self.new.text ≡ option_map (λ xs. xs ++ bytes.now) self.old.text }
        ensures told { IsOk result ↔ IsSome self.new.text }
        ensures room { self.new.room ≡ self.old.room }
    {
        let len = self.waiting?;
        let end = len + bytes.len();
        self.buffer[len..end].copy_from_slice(bytes);
        self.waiting = Ok(end);
        Ok(())
    }

    // Adds bytes, writing before what waits where there is no room for both, and the bytes themselves where there is none for them.
    #[tactic(auto, using(crate::proofs::Adding::joined, crate::proofs::Adding::all_left, crate::proofs::Adding::anew))]
    pub fn write_bytes(&mut self, bytes: &[u8]) -> fmt::Result
        ensures adds { Adds self.old bytes.now self.new }
        ensures told { IsOk result ↔ IsSome self.new.text }
    {
        if bytes.len() <= self.room_left() {
            return self.append(bytes);
        }
        self.flush()?;
        if self.buffer.len() < bytes.len() {
            self.waiting = hand_over(bytes);
            self.waiting?;
            return Ok(());
        }
        self.append(bytes)
    }

    // How many bytes can be added before what waits has to be written.
    fn room_left(&self) -> usize
        ensures { result + length (text_of self.now) ≡ self.now.room }
    {
        self.buffer.len() - self.state().at
    }
}

impl fmt::Write for Writer<'_> {
    // Text that went through is added, and nothing has failed.
    ghost write_str_gives = { λ before xs after. Adds before xs after × IsSome after.text };

    fn write_str(&mut self, s: &str) -> fmt::Result
        ensures ok { IsOk result → Adds self.old s.now self.new × IsSome self.new.text }
        ensures adds { Adds self.old s.now self.new }
        ensures told { IsOk result ↔ IsSome self.new.text }
    {
        self.write_bytes(s.as_bytes())
    }
}
