// Opened to the encoders above alone: the inner encoder reads the outer kept bits at the interleaved positions, and writes the kept bits of both
// registers.
ghost use Rattle.std.specs.Prelude.{◌≡◌, ◌++◌, ℕ, ◌+◌, ◌*◌, ◌≤◌, ◌<◌, length, drop};
ghost use Rattle.acm.specs.Formats.{format_of, N1};
ghost use Rattle.trellis.specs.Trellis.{ends};
ghost use Rattle.interleaver.specs.Walk.{Walked};
ghost use Rattle.coder.specs.Coder.{state_in};
ghost use Rattle.inner.specs.Registers.{from_outer};
ghost use Rattle.inner.specs.Lent.{Lent, Stands, completes, π_of};
ghost use Rattle.inner.specs.Left.{starting, reads};

use crate::Parameters;
use acm::{AcmFormat, Format};
use coder::steps::Coder;
use interleaver::steps::Walk;
use trellis::State;

// The codeword's trellis part, of the outer kept bits at the front of work, to the front of out. The room of work and out is a clause, here and
// below (`Lent`): they are lent side by side, one to be written, and a type of both would be made and taken apart at each call.
pub fn encode(format: AcmFormat, work: &[u8], out: &mut [u8])
    requires { ((format_of format.number).i ≤ length work.now) × (N1 (format_of format.number) ≤ length out.old) }
    ensures { out.new ≡ from_outer format.number work.now ++ drop (N1 (format_of format.number)) out.old }
{
    let parameters = Parameters::of(format);
    let f = parameters.figures;
    let end = Progress::start(f).advance(&parameters, work, out, f.i);
    end.coder.finish(out);
}

// Where a run of the inner trellis over the interleaved bits stands: systematic bits go to the front of out, parity bits from S on.
#[derive(Clone, Copy)]
pub struct Progress {
    pub walk: Walk,
    pub coder: Coder,
}

impl Progress {
    // The run at the first position.
    pub fn start(f: Format) -> Progress
        ensures { (result.coder ≡ starting f) × (result.walk.position.0 ≡ 0) × ((W : ℕ) → Walked W result.walk) }
    {
        Progress {
            walk: Walk::start(),
            coder: Coder {
                state: State::ZERO,
                upper: 0,
                lower: f.s,
                counter: f.delta,
            },
        }
    }

    // The run from any position to any later one, a column's rest at a time: inside a column nothing is carried. A `for` over columns would have
    // the first and the last of them apart, since a run begins and ends anywhere in one.
    pub fn advance(
        self,
        parameters: &Parameters<'_>,
        work: &[u8],
        out: &mut [u8],
        to: usize,
    ) -> Progress
        requires lent { Lent parameters.now.figures work.now out.old }
        requires stands { Stands parameters.now work.now self × (self.walk.position.0 ≤ to) × (to ≤ parameters.now.figures.i) }
        ensures stands_2 { Stands parameters.now work.now result × (result.walk.position.0 ≡ to) }
        ensures out_after { completes parameters.now work.now result out.new ≡ completes parameters.now work.now self out.old }
        ensures state_value { state_in result.coder ≡ ends (state_in self.coder) (reads (π_of parameters.now) work.now to self.walk.position.0) }
    {
        let mut at = self;
        while at.walk.position.0 < to {
            let end = at.walk.stop(parameters.permutation.rows(), to);
            at = at.stretch(parameters, work, out, end);
        }
        at
    }

    // The run to a later position of the same column, or to its end.
    fn stretch(
        self,
        parameters: &Parameters<'_>,
        work: &[u8],
        out: &mut [u8],
        to: usize,
    ) -> Progress
        requires lent { Lent parameters.now.figures work.now out.old }
        requires stands { Stands parameters.now work.now self × (self.walk.position.0 < to) × (to ≤ parameters.now.figures.i) × (to ≤ length parameters.now.permutation.alpha.now * (self.walk.column + 1)) }
        ensures stands_2 { Stands parameters.now work.now result × (result.walk.position.0 ≡ to) }
        ensures out_after { completes parameters.now work.now result out.new ≡ completes parameters.now work.now self out.old }
        ensures state_value { state_in result.coder ≡ ends (state_in self.coder) (reads (π_of parameters.now) work.now to self.walk.position.0) }
    {
        let rate = parameters.rate;
        let mut walk = self.walk;
        let mut coder = self.coder;
        // A `for` over the rows takes 1.1 times as long: it needs more registers than there are.
        while walk.position.0 < to {
            let place = parameters.place(walk);
            let position = parameters.permutation.position_of(place);
            let mark = parameters.mark_of(place);
            coder = coder.turn(rate, mark, work[position.number()], out);
            walk = walk.down();
        }
        Progress {
            walk: walk.carry(parameters.permutation.rows()),
            coder,
        }
    }
}
