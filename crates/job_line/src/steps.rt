// The numbers of a job line, and their checks. Opened to the job's moves alone.
ghost use Rattle.std.specs.Prelude.{◌≡◌, IfOk, option_map};
ghost use Rattle.bits.specs.Checks.{number_of};
ghost use Rattle.ascii.specs.Text.{comma};
ghost use Rattle.fields.specs.Fields.{cut_at};
ghost use Rattle.job_line.specs.Line.{line_of};
ghost use Rattle.job_line.specs.Job.{accepted, line_of_job, said_number};
ghost use Rattle.job_line.specs.Reader.{added_read, behind_format, code_read, ended_of};

use crate::Job;
use acm::AcmFormat;
use ascii::steps::{COMMA, DASH, LINE_FEED};
use bits::Refusal;
use fields::steps::{cut, number};
use header::Pilots;

// Most digits of a field, and of the code number.
const FIELD_DIGITS: usize = 3;

const CODE_DIGITS: usize = 6;

// The last of the patterns 0, 1 and 2.
const LAST_PATTERN: u64 = 2;

// The numbers of a line, which need not be those of a job that there is.
#[derive(Clone, Copy, Debug, PartialEq, Eq)]
pub struct Line {
    pub format: u64,
    pub pattern: u64,
    // What the longer form adds: None in the old one.
    pub added: Option<Added>,
}

#[derive(Clone, Copy, Debug, PartialEq, Eq)]
pub struct Added {
    pub pilots: u64,
    // None for a dash.
    pub code: Option<u64>,
}

// No pilots, and nothing scrambled: what a line of the old form stands for.
pub const PLAIN: Added = Added {
    pilots: 0,
    code: None,
};

// The numbers of a text, if it is a line of either form.
pub fn read(text: &[u8]) -> Option<Line>
    ensures { result ≡ line_of text.now }
{
    let (format, rest) = cut(text, COMMA)?;
    let format = number(format, FIELD_DIGITS)?;
    read_rest(format, rest)
}

// What stands behind the format: the pattern alone, or more where there is a comma.
fn read_rest(format: u64, rest: &[u8]) -> Option<Line>
    ensures { result ≡ behind_format format rest.now (cut_at comma rest.now) }
{
    let Some((pattern, added)) = cut(rest, COMMA) else {
        let pattern = number(ended(rest)?, FIELD_DIGITS)?;
        return Some(Line {
            format,
            pattern,
            added: None,
        });
    };
    let pattern = number(pattern, FIELD_DIGITS)?;
    let added = read_added(added)?;
    Some(Line {
        format,
        pattern,
        added: Some(added),
    })
}

// The pilot choice and the code number, and the end of the line.
fn read_added(text: &[u8]) -> Option<Added>
    ensures { result ≡ added_read text.now }
{
    let (pilots, rest) = cut(text, COMMA)?;
    let pilots = number(pilots, FIELD_DIGITS)?;
    let code = read_code(ended(rest)?)?;
    Some(Added { pilots, code })
}

#[tactic(auto, using(bits::proofs::Same::same_found))]
fn read_code(text: &[u8]) -> Option<Option<u64>>
    ensures { result ≡ code_read text.now }
{
    if text == [DASH].as_slice() {
        return Some(None);
    }
    number(text, CODE_DIGITS).map(Some)
}

// What stands before the line feed, if nothing stands behind it.
fn ended(text: &[u8]) -> Option<&[u8]>
    ensures { option_map (λ part. part.now) result ≡ ended_of text.now }
{
    let (field, behind) = cut(text, LINE_FEED)?;
    if !behind.is_empty() {
        return None;
    }
    Some(field)
}

// The job of a line's numbers, if their checks hold.
// Checks: 1; 7; 14; 16.
#[tactic(auto, unfolding(crate::specs::Job::said_number))]
pub fn check(line: Line) -> Result<Job, Refusal>
    ensures number { number_of result ≡ said_number line }
    ensures known { IfOk result (λ job. accepted (line_of_job job) ≡ accepted line) }
{
    let format = AcmFormat::try_from(line.format)?;
    let pattern = line.pattern;
    if LAST_PATTERN < pattern {
        return Err(Refusal::Pattern);
    }
    let Added { pilots, code } = line.added.unwrap_or(PLAIN);
    let pilots = Pilots::try_from(pilots)?;
    let code = scrambling::check(code)?;
    Ok(Job {
        format,
        pattern,
        pilots,
        code,
    })
}
