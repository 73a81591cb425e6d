// Encoding by segments (6), as the fast modulators do: the input of each trellis is cut into segments, each is run from 00, the true starting
// states are worked out from where these runs end, and each segment is run again from its own.
#![tactic(auto)]

ghost use Rattle.std.specs.Prelude.{◌≡◌, length, IfOk};
ghost use Rattle.bits.specs.Checks.{number_of};
ghost use Rattle.segments.specs.Calls.{segments_number, answer_of, segmented, segments_workspace, segments_output};

use acm::AcmFormat;
use bits::Refusal;
use cuts::States;

// The states of the segments of each trellis.
#[derive(Clone, Copy, Debug, PartialEq, Eq)]
pub struct Segmented {
    pub outer: States,
    pub inner: States,
}

// The codeword of an information block, by segments: the input of the outer trellis is cut at `outer`, that of the inner one at `inner`.
// Checks: 1, 2, 3, 4, 5, as encode's; 12, each list has at most fifteen cuts; 13, in each list no cut falls below the one before it, and
// none is above the input's length, K1 for the outer and I for the inner.
// Afterwards the buffers are as encode leaves them; on refusal all bytes are as they were.
pub fn encode_segments(
    format: u64,
    block: &[u8],
    work: &mut [u8],
    out: &mut [u8],
    outer: &[u16],
    inner: &[u16],
) -> Result<Segmented, Refusal>
    ensures answer { answer_of result ≡ segmented format block.now (length work.old) (length out.old) outer.now inner.now }
    ensures workspace { work.new ≡ segments_workspace format block.now work.old out.old outer.now inner.now }
    ensures output { out.new ≡ segments_output format block.now work.old out.old outer.now inner.now }
{
    let format = check_segments(format, block, work.len(), out.len(), outer, inner)?;
    encoder::steps::put_pieces(format, block, out);
    let k1 = format.record().k1;
    let of_outer = outer_segments::steps::encode(&block[..k1], outer, work);
    let of_inner = inner_segments::steps::encode(format, inner, work, out);
    Ok(Segmented {
        outer: of_outer,
        inner: of_inner,
    })
}

// The format of a call that encode_segments takes, or the first of its checks that fails.
#[tactic(auto, using(std::proofs::lemmas::Bool::Decides::nat_tests), unfolding(crate::specs::Calls::segments_number))]
fn check_segments(
    format: u64,
    block: &[u8],
    work: usize,
    out: usize,
    outer: &[u16],
    inner: &[u16],
) -> Result<AcmFormat, Refusal>
    ensures number { number_of result ≡ segments_number format block.now work out outer.now inner.now }
    ensures known { IfOk result (λ f. f.number ≡ format) }
{
    let format = encoder::check_encode(format, block, work, out)?;
    if !cuts::few(outer) || !cuts::few(inner) {
        return Err(Refusal::CutCount);
    }
    let f = format.record();
    if !cuts::inside(f.k1, outer) || !cuts::inside(f.i, inner) {
        return Err(Refusal::CutPlace);
    }
    Ok(format)
}
