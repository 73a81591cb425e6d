// Reads a job line from standard input and prints its row, or the number of the check that refuses it.
#![tactic(auto)]

use interleaver::Source;
use job_line::Job;
use std::io;

// One byte more than the longest line: an input that fills it is refused, whatever follows, so the rest is not read.
const INPUT: usize = job_line::LONGEST + 1;

fn main(rt: HostRuntime) -> io::Result<()> {
    let mut buffer = [0; INPUT];
    let input = input::read_full(&rt, &mut buffer);
    // A warning that cannot be written does not keep the row back.
    let _ = warn(&rt, input);
    print(&rt, input)
}

// What job makes of the input, and nothing else.
fn print(rt: &impl Print, input: &[u8]) -> io::Result<()> {
    let mut out = [0u8; job::LONGEST_OUTPUT];
    let n = job::output(input, &mut out);
    rt.write_all(&out[..n])
}

// A line on standard error if the codeword is not the standard's. crates/formats prints nearly the same: each program says what its output is.
fn warn(rt: &impl Eprint, input: &[u8]) -> io::Result<()> {
    let Ok(Job { format, .. }) = job_line::parse(input) else {
        return Ok(());
    };
    let Ok(Source::StandIn) = interleaver::provenance(format.number) else {
        return Ok(());
    };
    eprintln!(rt;
        "warning: format {}: rows of its interleaver stand in for published ones, so this codeword is not the standard's",
        format.number
    )
}
