// Document 01's program: it reads a packet from standard input and prints its three finished planes, or the number of its refusal.
#![tactic(auto)]

ghost use Rattle.std.specs.Prelude.{◌≤◌, length};

use std::io;
use std::io::Read;

// Reads until `buf` is full, the input ends or a read fails; how many bytes are at the front of `buf`. By hand: `read_exact` and `io::copy` do
// not say how many bytes came before the end or a failure, and `read_to_end` needs a heap.
fn read_full(rt: &impl Input, buf: &mut [u8]) -> usize
    ensures { result ≤ length buf.new }
{
    let mut reader = rt.reader();
    let mut filled = 0;
    while filled < buf.len() {
        let n = reader.read(&mut buf[filled..]).unwrap_or(0);
        if n == 0 {
            break;
        }
        filled += n;
    }
    filled
}

// Of a longer input one byte more than is allowed is read, so that it is refused. A read that fails ends the input; a write that
// fails ends the program with its error.
fn main(rt: HostRuntime) -> io::Result<()> {
    let mut input = [0u8; 4097];
    let read = read_full(&rt, &mut input);
    let mut text = [0u8; 19456];
    let written = program::program_text(&input[..read], &mut text);
    rt.write_all(&text[..written])
}
