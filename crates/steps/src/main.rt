// Reads a book of codes from standard input and prints their steps, or why the book is refused.
// Ends with status 1 on a refusal. Reads at most one byte more than a book may have, so that no input makes it run on.

#![tactic(auto)]

ghost use Rattle.std.specs.Prelude.{◌≤◌, length, IfOk};

use listing::listing;
use std::io;
use std::io::{Read, Write};
use std::process::ExitCode;

fn main(rt: HostRuntime) -> io::Result<ExitCode> {
    let mut text = [0u8; 4097];
    let size = read_up_to(&mut rt.stdin(), &mut text)?;
    let (lines, status) = match listing(&text[..size]) {
        Ok(lines) => (lines, ExitCode::SUCCESS),
        Err(lines) => (lines, ExitCode::FAILURE),
    };
    rt.stdout().write_all(lines.as_bytes())?;
    Ok(status)
}

// Reads until the buffer is full or the input ends, and answers how many bytes came. Not by `read_to_end`: it allocates, which
// can fail, and begins with a short read, which loses the rest of a packet.
fn read_up_to<R: Read>(input: &mut R, buffer: &mut [u8]) -> io::Result<usize>
    ensures { IfOk result (λ n. n ≤ length buffer.new) }
{
    let mut filled = 0;
    while filled < buffer.len() {
        let more = input.read(&mut buffer[filled..])?;
        if more == 0 {
            return Ok(filled);
        }
        filled += more;
    }
    Ok(filled)
}
