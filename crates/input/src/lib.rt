// What programs read from their standard input.
#![tactic(auto)]

ghost use Rattle.std.specs.Prelude.{◌≤◌, length};

use std::io::Read;

// Reads until the buffer is full, the input ends or a read fails, and answers what was read. So an input that cannot be read counts as empty.
// A loop over read: std's reader of lines needs the heap, and read_exact leaves open how far it came.
pub fn read_full<'a>(rt: &impl Input, buffer: &'a mut [u8]) -> &'a [u8]
    ensures { length result.now ≤ length buffer.old }
{
    let mut from = rt.reader();
    let mut done = 0;
    while done < buffer.len() {
        match from.read(&mut buffer[done..]) {
            Ok(0) | Err(_) => break,
            Ok(n) => done += n,
        }
    }
    &buffer[..done]
}
