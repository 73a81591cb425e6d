// The row of a job. Opened to the layers above alone.
ghost use Rattle.std.specs.Prelude.{◌≡◌, ◌≤◌, ◌<◌, ◌==◌, length, count_by};
ghost use Rattle.acm.specs.Formats.{format_of};
ghost use Rattle.encoder.specs.Codeword.{codeword as codeword_of};
ghost use Rattle.row.specs.Row.{block as block_of, ones, row_of};

use acm::AcmFormat;

// The patterns.
const ALL_ZEROS: u64 = 0;

const ALL_ONES: u64 = 1;

// A row: the format, its K, I and N, and the number of ones in the codeword.
#[derive(Clone, Copy, Debug, PartialEq, Eq)]
pub struct Row {
    pub format: u64,
    pub k: usize,
    pub i: usize,
    pub n: usize,
    pub ones: usize,
}

// The row of a format and a pattern. Any number is taken, and each above 1 as 2: which patterns there are is the job line's to check.
pub fn make(format: AcmFormat, pattern: u64) -> Row
    ensures { result ≡ row_of format.number pattern }
{
    let f = format.record();
    let ones = codeword_ones(format, pattern);
    Row {
        format: format.number,
        k: f.k,
        i: f.i,
        n: f.n,
        ones,
    }
}

// The number of ones in the codeword of a pattern's block.
#[tactic(auto, using(acm::proofs::Laws::within))]
fn codeword_ones(format: AcmFormat, pattern: u64) -> usize
    ensures { result ≡ ones (codeword_of format.number (block_of pattern (format_of format.number).k)) }
{
    let mut block = [0; acm::MOST_K];
    let mut work = [0; acm::MOST_I];
    let mut codeword = [0; acm::MOST_N];
    encoded_ones(format, pattern, &mut block, &mut work, &mut codeword)
}

// The same, with the memory for the block, the encoder's workspace and the codeword lent: where the arrays stand beside the calls, the search
// finds no proof of the slices' bounds.
fn encoded_ones(
    format: AcmFormat,
    pattern: u64,
    block: &mut [u8],
    work: &mut [u8],
    codeword: &mut [u8],
) -> usize
    requires { ((format_of format.number).k ≤ length block.old) × ((format_of format.number).i ≤ length work.old) × ((format_of format.number).n ≤ length codeword.old) }
    ensures { result ≡ ones (codeword_of format.number (block_of pattern (format_of format.number).k)) }
{
    let f = format.record();
    let block = &mut block[..f.k];
    put_block(pattern, block);
    // No check of this call fails.
    encoder::encode(format.number, block, work, codeword).unwrap();
    count_ones(&codeword[..f.n])
}

// The block of a pattern, to the whole of out. `Block` of vectors fills the same ones: the tests' blocks are written by themselves.
#[tactic(auto, unfolding(crate::specs::Row::block))]
fn put_block(pattern: u64, out: &mut [u8])
    requires { 0 < length out.old }
    ensures { out.new ≡ block_of pattern (length out.old) }
{
    match pattern {
        ALL_ZEROS => out.fill(0),
        ALL_ONES => out.fill(1),
        _ => {
            out.fill(0);
            out[0] = 1;
        }
    }
}

// The number of ones in a list of bits.
fn count_ones(bits: &[u8]) -> usize
    ensures { result ≡ count_by (λ b. b == 1) bits.now }
{
    bits.iter().filter(|&&b| b == 1).count()
}
