// Reads a job line of the old form from standard input and prints it in the longer one, or the number of the check that refuses it.
#![tactic(auto)]

use std::io;

// One byte more than the longest line: an input that fills it is refused, whatever follows, so the rest is not read.
const INPUT: usize = job_line::LONGEST + 1;

fn main(rt: HostRuntime) -> io::Result<()> {
    let mut buffer = [0; INPUT];
    let text = input::read_full(&rt, &mut buffer);
    let mut out = [0; job_line::LONGEST];
    let n = job_moves::lengthen_printed(text, &mut out);
    rt.write_all(&out[..n])
}
