// Text of the test programs, each piece written to the standard output at once. Whether it could be written is not asked: their output is
// compared.
#![tactic(auto)]

use output_buffer::Writer;
use std::fmt;
use std::fmt::Write;

const STDOUT: i32 = 1;

fn written<D: fmt::Display + Drop>(text: D) -> fmt::Result {
    let mut buffer = [0u8; 128];
    let mut out = Writer::new(&mut buffer);
    out.write(text)?;
    out.flush()
}

pub fn print<D: fmt::Display + Drop>(text: D) {
    let _told = written(text);
}

// Text, and the end of a line.
pub fn println<D: fmt::Display + Drop>(text: D) {
    print(format_args!("{text}\n"));
}

// An entry after a space.
pub fn entry(item: u16, value: i32) {
    print(format_args!(" {item}={value}"));
}

// A name of a case, whatever its bytes are.
pub fn bytes(s: &[u8]) {
    io::write_all(STDOUT, s);
}
