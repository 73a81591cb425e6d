// Prints the listing: a line for each ACM format, from its record. Standard error has a line for each whose codewords are not the
// standard's.
#![tactic(auto)]

use acm::{AcmFormat, Format};
use interleaver::Source;
use std::io;

fn main(rt: HostRuntime) -> io::Result<()> {
    println!(rt; "format,m,K,I,W,N")?;
    for format in AcmFormat::all() {
        print_line(&rt, format.record())?;
        // A warning that cannot be written keeps no line back.
        let _ = warn(&rt, format.number);
    }
    Ok(())
}

fn print_line(rt: &impl Print, f: Format) -> io::Result<()> {
    println!(rt; "{},{},{},{},{},{}", f.number, f.m, f.k, f.i, f.w, f.n)
}

// A line on standard error if the format's codewords are not the standard's. crates/bench prints nearly the same: each program says what its
// output is.
fn warn(rt: &impl Eprint, format: u64) -> io::Result<()> {
    let Ok(Source::StandIn) = interleaver::provenance(format) else {
        return Ok(());
    };
    eprintln!(rt;
        "warning: format {format}: rows of its interleaver stand in for published ones, so its codewords are not the standard's"
    )
}
