// The job line of the bench, in both of its forms.
#![tactic(auto)]

ghost use Rattle.std.specs.Prelude.{◌≡◌};
ghost use Rattle.job_line.specs.Job.{answer_of, asked};

use acm::AcmFormat;
use bits::Refusal;
use header::Pilots;
use scrambling::CodeNumber;

pub mod steps;

// Bytes of the longest well-formed line of the old form, and of the longer.
pub const LONGEST_OLD: usize = 8;

pub const LONGEST: usize = 19;

// What a job line asks for. The pattern is a number, as row::make takes it: that promises a row for any number, and an enum would take fewer.
#[derive(Clone, Copy, Debug, PartialEq, Eq)]
pub struct Job {
    pub format: AcmFormat,
    pub pattern: u64,
    pub pilots: Pilots,
    // None where nothing is scrambled.
    pub code: Option<CodeNumber>,
}

// The job that a text asks for, for any bytes. A line of the old form asks for no pilots and for nothing scrambled.
// Checks: 6, the text is a well-formed line of either form; 1; 7; 14; 16.
pub fn parse(text: &[u8]) -> Result<Job, Refusal>
    ensures { answer_of result ≡ asked text.now }
{
    let line = steps::read(text).ok_or(Refusal::Line)?;
    steps::check(line)
}
