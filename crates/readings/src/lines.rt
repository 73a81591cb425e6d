// Job lines that are refused, each with its line feed.
use crate::answer::print_check;
use std::io;

pub(crate) fn run(rt: &impl Print) -> io::Result<()> {
    print_line(rt, "07,0\n")?;
    print_line(rt, "0,9\n")?;
    print_line(rt, "7,3\n")
}

// A row with the number, 0 if the line is not refused, and the line.
fn print_line(rt: &impl Print, line: &str) -> io::Result<()> {
    print!(rt; "job")?;
    print_check(rt, job_line::parse(line.as_bytes()).map(|_| ()))?;
    print!(rt; ",{line}")
}
