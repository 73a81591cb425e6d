// The job line, read and moved to its other form.
ghost use Rattle.std.specs.Prelude.{◌≡◌, length, option_map};
ghost use Rattle.job_line.specs.Job.{asked, answer_of as job_answer};
ghost use Rattle.job_moves.specs.Moves.{answer_of as move_answer, lengthen, lengthen_output, shorten, shorten_output};
ghost use Rattle.sccc.specs.Structs.{code_word, job_struct, line_struct};

use crate::{PASSED, refused};
use bits::Refusal;
use job_line::Job;
use scrambling::CodeNumber;

// For a code number: none.
pub(crate) const UNSCRAMBLED: u64 = u64::MAX;

// What a job line asks for. A line of the old form has pilots 0 and is unscrambled.
#[repr(C)]
#[derive(Debug, Default, Drop)]
pub struct JobAnswer {
    pub number: u64,
    pub format: u64,
    pub pattern: u64,
    pub pilots: u64,
    pub code: u64,
}

impl From<Result<Job, Refusal>> for JobAnswer {
    ghost from_gives = { λ answer job. job ≡ job_struct (job_answer answer) };

    fn from(answer: Result<Job, Refusal>) -> JobAnswer {
        match answer {
            Ok(job) => JobAnswer {
                number: PASSED,
                format: job.format.number,
                pattern: job.pattern,
                pilots: u64::from(job.pilots),
                code: code_word(job.code),
            },
            Err(refusal) => JobAnswer {
                number: refused(refusal),
                ..JobAnswer::default()
            },
        }
    }
}

fn code_word(code: Option<CodeNumber>) -> u64
    ensures { result ≡ code_word (option_map (λ c. c.number) code) }
{
    match code {
        Some(code) => code.number,
        None => UNSCRAMBLED,
    }
}

// The length of the line that a move wrote.
#[repr(C)]
#[derive(Debug, Default, Drop)]
pub struct LineAnswer {
    pub number: u64,
    pub length: u64,
}

impl From<Result<usize, Refusal>> for LineAnswer {
    ghost from_gives = { λ answer line. line ≡ line_struct (move_answer answer) };

    fn from(answer: Result<usize, Refusal>) -> LineAnswer {
        match answer {
            Ok(length) => LineAnswer {
                number: PASSED,
                length: length as u64,
            },
            Err(refusal) => LineAnswer {
                number: refused(refusal),
                ..LineAnswer::default()
            },
        }
    }
}

// The job that a line asks for, of either form.
// Checks: 6, the line is well formed; 1; 7; 14; 16.
#[unsafe(no_mangle)]
pub extern "C" fn sccc_job(line: &[u8]) -> JobAnswer
    ensures { result ≡ job_struct (asked line.now) }
{
    JobAnswer::from(job_line::parse(line))
}

// A line of the old form in the longer one, with pilots 0 and unscrambled.
// Checks: 6, the line is well formed and of the old form; 1; 7; 5, out has room for the line that is written.
// Afterwards the front of out is that line, and the other bytes are as they were; on refusal all are.
#[unsafe(no_mangle)]
pub extern "C" fn sccc_job_lengthen(line: &[u8], out: &mut [u8]) -> LineAnswer
    ensures answer { result ≡ line_struct (lengthen line.now (length out.old)) }
    ensures output { out.new ≡ lengthen_output line.now out.old }
{
    LineAnswer::from(job_moves::lengthen(line, out))
}

// A line of the longer form in the old one.
// Checks: 6, the line is well formed and of the longer form; 1; 7; 14; 16; 17, it has pilots 0 and is unscrambled; 5, out has room for the line that is
// written.
// Afterwards the front of out is that line, and the other bytes are as they were; on refusal all are.
#[unsafe(no_mangle)]
pub extern "C" fn sccc_job_shorten(line: &[u8], out: &mut [u8]) -> LineAnswer
    ensures answer { result ≡ line_struct (shorten line.now (length out.old)) }
    ensures output { out.new ≡ shorten_output line.now out.old }
{
    LineAnswer::from(job_moves::shorten(line, out))
}
