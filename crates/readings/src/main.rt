// Makes the calls that the rows of its standard input ask for, and prints each row with the answer behind it. The rows are the readings that the
// user gave to try and that are not proved (crates/claims has the others), and every check of every call, each check alone and before the ones
// behind it.
#![tactic(auto)]

use std::io;

mod answer;
mod buffers;
mod calls;
mod encoding;
mod frames;
mod lines;
mod numbers;
mod row;

// Bytes of input that are read: more than there are.
const ROOM: usize = 4096;

fn main(rt: HostRuntime) -> io::Result<()> {
    let mut buffer = [0; ROOM];
    run(&rt, input::read_full(&rt, &mut buffer))?;
    lines::run(&rt)
}

// A row ends with a line feed: what stands behind the last is printed, and no call.
fn run(rt: &impl Print, input: &[u8]) -> io::Result<()> {
    for line in input.split_inclusive(|&byte| byte == b'\n') {
        let Some(row) = line.strip_suffix(b"\n") else {
            return rt.write_all(line);
        };
        rt.write_all(row)?;
        calls::make(rt, row)?;
        testkit::end_row(rt)?;
    }
    Ok(())
}
