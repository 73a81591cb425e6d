// Encoding by segments: the machine of section 6.
ghost use Rattle.std.specs.Prelude.{◌≡◌, length};
ghost use Rattle.segments.specs.Calls.{answer_of, segmented, segments_workspace, segments_output};
ghost use Rattle.sccc.specs.Structs.{states_struct, segments_struct};

use crate::{PASSED, refused};
use bits::Refusal;
use cuts::{SEGMENTS, States};
use segments::Segmented;

// For each of the sixteen segments of a trellis, as numbers 2 * x0 + x1: the state in which its run from 00 ends, and its true starting state.
#[repr(C)]
#[derive(Debug, Drop)]
pub struct SegmentStates {
    pub ended: [u8; SEGMENTS],
    pub started: [u8; SEGMENTS],
}

impl SegmentStates {
    // The states of a refusal.
    const NONE: SegmentStates = SegmentStates {
        ended: [0; SEGMENTS],
        started: [0; SEGMENTS],
    };
}

impl From<States> for SegmentStates {
    ghost from_gives = { λ below states. states ≡ states_struct below };

    fn from(states: States) -> SegmentStates {
        let States { ended, started } = states;
        SegmentStates { ended, started }
    }
}

// The states of the segments of each trellis.
#[repr(C)]
#[derive(Debug, Drop)]
pub struct SegmentsAnswer {
    pub number: u64,
    pub outer: SegmentStates,
    pub inner: SegmentStates,
}

impl From<Result<Segmented, Refusal>> for SegmentsAnswer {
    ghost from_gives = { λ answer segments. segments ≡ segments_struct (answer_of answer) };

    fn from(answer: Result<Segmented, Refusal>) -> SegmentsAnswer {
        match answer {
            Ok(states) => SegmentsAnswer {
                number: PASSED,
                outer: SegmentStates::from(states.outer),
                inner: SegmentStates::from(states.inner),
            },
            Err(refusal) => SegmentsAnswer {
                number: refused(refusal),
                outer: SegmentStates::NONE,
                inner: SegmentStates::NONE,
            },
        }
    }
}

// The codeword of an information block, by segments: the input of the outer trellis is cut at `outer`, that of the inner one at `inner`.
// Checks: 1, 2, 3, 4, 5, as encode's; 12, each list has at most fifteen cuts; 13, in each list no cut falls below the one before it, and
// none is above the input's length, K1 for the outer and I for the inner.
// Afterwards the buffers are as encode leaves them; on refusal all bytes are as they were.
#[unsafe(no_mangle)]
pub extern "C" fn sccc_encode_segments(
    format: u64,
    block: &[u8],
    work: &mut [u8],
    out: &mut [u8],
    outer: &[u16],
    inner: &[u16],
) -> SegmentsAnswer
    ensures answer { result ≡ segments_struct (segmented format block.now (length work.old) (length out.old) outer.now inner.now) }
    ensures workspace { work.new ≡ segments_workspace format block.now work.old out.old outer.now inner.now }
    ensures output { out.new ≡ segments_output format block.now work.old out.old outer.now inner.now }
{
    SegmentsAnswer::from(segments::encode_segments(format, block, work, out, outer, inner))
}
