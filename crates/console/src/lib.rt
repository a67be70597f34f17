// A program's standard input and output. No contract can say what the system reads or takes: what holds is the count.
#![tactic(auto)]

ghost use Rattle.std.specs.Prelude.{◌≤◌, length};

use std::io::{Read, Write};

// Reads until the buffer is full or the input ends: the number of bytes that were read, which stand from the buffer's start.
// An input that fails has ended. The buffer is the caller's alone.
pub fn read_input<R: Read>(input: &mut R, buffer: &mut [u8]) -> usize
    ensures { result ≤ length buffer.new }
{
    let mut n = 0;
    while n < buffer.len() {
        let more = input.read(&mut buffer[n..]).unwrap_or(0);
        if more == 0 {
            break;
        }
        n += more;
    }
    n
}

// Writes until all is written or a write takes nothing: the number of bytes that were taken.
pub fn write_output<W: Write>(output: &mut W, text: &[u8]) -> usize
    ensures { result ≤ length text.now }
{
    let mut n = 0;
    while n < text.len() {
        let rest = &text[n..];
        let taken = output.write(rest).unwrap_or(0);
        if taken == 0 {
            break;
        }
        n += taken;
    }
    n
}
