// Reads a pack from the standard input and runs each of its sheets, with all slots Void. Where a line cannot be written, it says so on the
// standard error and ends.
#![tactic(auto)]

use output_buffer::Writer;
use std::fmt;

const STDERR: i32 = 2;

fn report(pack: &[u8]) -> fmt::Result {
    let mut buffer = io::large_buffer();
    let mut out = Writer::new(&mut buffer);
    sheet_report::report(&mut out, pack)?;
    out.flush()
}

fn main() {
    // one byte more than the longest pack
    let mut input = io::large_buffer();
    let n = io::read_full(0, &mut input);
    if report(&input[..n]).is_err() {
        io::write_all(STDERR, b"sheetrun: the standard output cannot be written\n");
    }
}
