// Prints the case listing of standard input: K, then a site file.
#![tactic(auto)]

ghost use Rattle.std.specs.Prelude.{◌≤◌, length};

use std::io::{Read, Write};

// Reads until the buffer is full, the input ends or a read fails: how many bytes were put at the buffer's start.
fn read_full<R: Read>(input: &mut R, buffer: &mut [u8]) -> usize
    ensures { result ≤ length buffer.new }
{
    let mut done = 0;
    while done < buffer.len() {
        match input.read(&mut buffer[done..]) {
            Ok(0) | Err(_) => break,
            Ok(n) => done += n,
        }
    }
    done
}

// A listing that cannot be written in full is let go: the program ends as if it had been.
fn main(rt: HostRuntime) {
    let mut input = [0u8; 48021];
    let n = read_full(&mut rt.stdin(), &mut input);
    let mut out = [0u8; listing::ROOM];
    let length = listing::list_cases(&input[..n], &mut out);
    let _ = rt.stdout().write_all(&out[..length]);
}
