// Opened to the segmented encoder alone: the two passes over the inner trellis.
ghost use Rattle.std.specs.Prelude.{◌≡◌, true, ◌++◌, ◌≤◌, length, drop};
ghost use Rattle.std.proofs.lemmas.List.Edits.{sets};
ghost use Rattle.bits.specs.Legal.{all_bits};
ghost use Rattle.acm.specs.Formats.{format_of, N1};
ghost use Rattle.trellis.specs.Trellis.{ends};
ghost use Rattle.interleaver.specs.Interleaver.{π};
ghost use Rattle.interleaver.specs.Walk.{Walked};
ghost use Rattle.inner.specs.Left.{starting, reads, Fits};
ghost use Rattle.inner.specs.Lent.{Lent, π_of, written};
ghost use Rattle.inner.specs.Registers.{interleaved, from_outer};
ghost use Rattle.cuts.specs.Cuts.{Cuts, end_states, start_states, padded, states_of};
ghost use Rattle.inner_segments.specs.Passes.{restarted};

use acm::AcmFormat;
use coder::steps::Coder;
use cuts::steps::Stops;
use cuts::{SEGMENTS, States};
use inner::Parameters;
use inner::steps::Progress;
use interleaver::steps::Walk;
use trellis::State;

// The codeword's trellis part, of the outer kept bits at the front of work, to the front of out, by the segments between cuts of the interleaved
// bits. Between the two passes the starting states are worked out.
// Answers the states of the segments.
// The room of work and out is a clause, as in inner, and that the interleaved bits are bits is one: they lie in work at the interleaver's places,
// and no list that a type could be of has them.
pub fn encode(format: AcmFormat, cuts: &[u16], work: &[u8], out: &mut [u8]) -> States
    requires lent { ((format_of format.number).i ≤ length work.now) × (N1 (format_of format.number) ≤ length out.old) }
    requires cuts { Cuts (format_of format.number).i cuts.now × (all_bits (interleaved (format_of format.number) (π format.number) work.now) ≡ true) }
    ensures value { result ≡ states_of cuts.now (interleaved (format_of format.number) (π format.number) work.now) }
    ensures out_after { out.new ≡ from_outer format.number work.now ++ drop (N1 (format_of format.number)) out.old }
{
    let parameters = Parameters::of(format);
    let ended = first(&parameters, work, cuts);
    let started = cuts::steps::starts(cuts, &ended);
    second(&parameters, work, out, cuts, &started);
    States { ended, started }
}

// The first pass: every segment from 00. Where each run ends. The walk over the positions goes on from segment to segment, the state does not.
fn first(parameters: &Parameters<'_>, work: &[u8], cuts: &[u16]) -> [u8; SEGMENTS]
    requires { (parameters.now.figures.i ≤ length work.now) × Cuts parameters.now.figures.i cuts.now }
    ensures { result ≡ padded (end_states cuts.now (interleaved parameters.now.figures (π_of parameters.now) work.now)) }
{
    let mut ended = [0; SEGMENTS];
    let mut walk = Walk::start();
    // By index: of what is written through `iter_mut` beside another iterator the proof knows the length alone.
    for (j, to) in Stops::of(cuts, parameters.figures.i).enumerate() {
        let from = Run {
            walk,
            state: State::ZERO,
        };
        let end = from.advance(parameters, work, to);
        ended[j] = u8::from(end.state);
        walk = end.walk;
    }
    ended
}

// A run that keeps no output: where its walk over the positions stands, and the state that it is in.
#[derive(Clone, Copy)]
struct Run {
    walk: Walk,
    state: State,
}

impl Run {
    // The run over the bits up to a later position. The walk counts the positions: a `for` would count them once more. No fold over a list, as
    // the first pass of the outer trellis is: the bits lie in work at the places that the walk makes, and the next run goes on from where it
    // stands.
    fn advance(self, parameters: &Parameters<'_>, work: &[u8], to: usize) -> Run
        requires { Walked (length parameters.now.permutation.alpha.now) self.walk × (self.walk.position.0 ≤ to) × (to ≤ parameters.now.figures.i) × (parameters.now.figures.i ≤ length work.now) }
        ensures walked { Walked (length parameters.now.permutation.alpha.now) result.walk × (result.walk.position.0 ≡ to) }
        ensures state_value { result.state ≡ ends self.state (reads (π_of parameters.now) work.now to self.walk.position.0) }
    {
        let mut walk = self.walk;
        let mut state = self.state;
        while walk.position.0 < to {
            let position = parameters
                .permutation
                .position_in(walk.column(), walk.row());
            state = state.next(work[position.number()]);
            walk = walk.down().carry(parameters.permutation.rows());
        }
        Run { walk, state }
    }
}

// The second pass: every segment from its own start. The registers' places and the counter of rate matching go on from segment to segment,
// the trellis' state does not.
fn second(parameters: &Parameters<'_>, work: &[u8], out: &mut [u8], cuts: &[u16], started: &[u8])
    requires lent { Lent parameters.now.figures work.now out.old }
    requires fits { Fits parameters.now.figures (π_of parameters.now) work.now 0 (starting parameters.now.figures) }
    requires cuts { Cuts parameters.now.figures.i cuts.now × (started.now ≡ padded (start_states cuts.now (interleaved parameters.now.figures (π_of parameters.now) work.now))) }
    ensures { out.new ≡ sets out.old 0 (written parameters.now work.now) }
{
    let mut at = Progress::start(parameters.figures);
    for (to, &start) in Stops::of(cuts, parameters.figures.i).zip(started) {
        let from = restart(at, State::from_low_bits(start));
        at = from.advance(parameters, work, out, to);
    }
    at.coder.finish(out);
}

// The inner encoder where it stands, but in another state of its trellis.
fn restart(at: Progress, state: State) -> Progress
    ensures { result ≡ restarted at state }
{
    Progress {
        walk: at.walk,
        coder: Coder { state, ..at.coder },
    }
}
