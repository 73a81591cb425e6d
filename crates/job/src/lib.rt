// What the bench prints.
#![tactic(auto)]

ghost use Rattle.std.specs.Prelude.{◌≡◌, ◌≤◌, length};
ghost use Rattle.ascii.specs.Text.{at_front};
ghost use Rattle.job.specs.Output.{longest_output, output as output_of, row_text};

use row::steps::Row;

// Bytes of the longest output.
pub const LONGEST_OUTPUT: usize = 45;

// What the bench prints for a text on its standard input, for any bytes: header and row, or the number of the check that failed.
// Checks: those of job_line::parse.
// Afterwards the front of out is the output, whose length is the answer, and the rest is as it was.
// The answer is not a slice of out: of a buffer that stays lent, the contract could not say what stands behind the output.
pub fn output(text: &[u8], out: &mut [u8; LONGEST_OUTPUT]) -> usize
    ensures length { result ≡ length (output_of text.now) }
    ensures printed { out.new ≡ at_front (output_of text.now) out.old }
{
    match job_line::parse(text) {
        Ok(job) => put_row(row::steps::make(job.format, job.pattern), out),
        Err(refusal) => ascii::steps::put_refusal(refusal, out),
    }
}

// The header and a row, to the front of out; answers how long they are.
fn put_row(row: Row, out: &mut [u8]) -> usize
    requires { (length (row_text row) ≤ longest_output) × (longest_output ≤ length out.old) }
    ensures value { result ≡ length (row_text row) }
    ensures out_after { out.new ≡ at_front (row_text row) out.old }
{
    let at = ascii::steps::put(b"format,K,I,N,ones\n", out, 0);
    // std has no From<usize> for u64.
    let numbers = [
        row.format,
        row.k as u64,
        row.i as u64,
        row.n as u64,
        row.ones as u64,
    ];
    ascii::steps::put_line(&numbers, out, at)
}
