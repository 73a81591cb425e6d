// The SCCC encoder (4): from an information block to a codeword, and from a codeword to labels.
#![tactic(auto)]

ghost use Rattle.std.specs.Prelude.{◌≡◌, [], ◌∷◌, eqb, length, IfOk};
ghost use Rattle.bits.specs.Checks.{◌or_else◌, first_failed, number_of, bad_length, bad_element};
ghost use Rattle.bits.specs.Legal.{all_bits};
ghost use Rattle.encoder.specs.Calls.{encode_number, encode_workspace, encode_output, labels_number, labels_output};

use acm::AcmFormat;
use bits::Refusal;

pub mod steps;

// The codeword of an information block.
// Checks: 1; 2, the block has K bits; 3, each is 0 or 1; 4, the workspace has at least I bytes; 5, the output has at least N bytes.
// Afterwards the first I bytes of work are the outer kept bits before interleaving, the first N bytes of out are the codeword, and the
// others are as they were; on refusal all are.
pub fn encode(format: u64, block: &[u8], work: &mut [u8], out: &mut [u8]) -> Result<(), Refusal>
    ensures number { number_of result ≡ encode_number format block.now (length work.old) (length out.old) }
    ensures workspace { work.new ≡ encode_workspace format block.now work.old out.old }
    ensures output { out.new ≡ encode_output format block.now work.old out.old }
{
    let format = check_encode(format, block, work.len(), out.len())?;
    // The first K1 bits go through the trellises, the others stand behind them in pieces. These come first, so that nothing else has to be
    // kept while the inner trellis runs.
    steps::put_pieces(format, block, out);
    let k1 = format.record().k1;
    trellis::steps::outer(&block[..k1], work);
    inner::steps::encode(format, work, out);
    Ok(())
}

// The ACM format of a call of encode that passes its checks.
#[tactic(auto, using(std::proofs::lemmas::Bool::Decides::nat_tests), unfolding(crate::specs::Calls::encode_number))]
pub fn check_encode(
    format: u64,
    block: &[u8],
    work: usize,
    out: usize,
) -> Result<AcmFormat, Refusal>
    ensures number { number_of result ≡ encode_number format block.now work out }
    ensures known { IfOk result (λ f. f.number ≡ format) }
{
    let format = AcmFormat::try_from(format)?;
    let f = format.record();
    check_bits(block, f.k)?;
    if work < f.i {
        return Err(Refusal::Workspace);
    }
    if out < f.n {
        return Err(Refusal::Output);
    }
    Ok(format)
}

// The labels of a codeword: 8,100 numbers of m bits.
// Checks: 1; 2, the codeword has N bits; 3, each is 0 or 1; 5, the output has at least 8,100 bytes.
// Afterwards the first 8,100 bytes of out are the labels and the others as they were; on refusal all are.
pub fn labels(format: u64, codeword: &[u8], out: &mut [u8]) -> Result<(), Refusal>
    ensures number { number_of result ≡ labels_number format codeword.now (length out.old) }
    ensures output { out.new ≡ labels_output format codeword.now out.old }
{
    check_labels(format, codeword, out.len())?;
    mapping::steps::write(codeword, out);
    Ok(())
}

// The checks of labels.
#[tactic(auto, using(std::proofs::lemmas::Bool::Decides::nat_tests), unfolding(crate::specs::Calls::labels_number))]
fn check_labels(format: u64, codeword: &[u8], room: usize) -> Result<(), Refusal>
    ensures { number_of result ≡ labels_number format codeword.now room }
{
    let format = AcmFormat::try_from(format)?;
    check_bits(codeword, format.record().n)?;
    if room < acm::SYMBOLS {
        return Err(Refusal::Output);
    }
    Ok(())
}

// Whether a list is of so many bits.
// Checks: 2, its length; 3, each element is 0 or 1.
fn check_bits(list: &[u8], n: usize) -> Result<(), Refusal>
    ensures { number_of result ≡ first_failed (eqb (length list.now) n or_else bad_length ∷ all_bits list.now or_else bad_element ∷ []) }
{
    if list.len() != n {
        return Err(Refusal::Length);
    }
    if !bits::all_at_most(list, 1) {
        return Err(Refusal::Element);
    }
    Ok(())
}
