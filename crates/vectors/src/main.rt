// Prints digests of what the calls give for known blocks: codewords, labels and frames of every ACM format.
#![tactic(auto)]

use std::io;

mod codewords;
mod frames;

fn main(rt: HostRuntime) -> io::Result<()> {
    codewords::run(&rt)?;
    frames::run(&rt)
}
