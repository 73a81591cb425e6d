// Opened to the inner encoder alone: one bit, and the terminating steps.
ghost use Rattle.std.specs.Prelude.{◌≡◌, ◌+◌, ◌^◌, ◌≤◌, ◌<◌, length};

use puncture::steps::RateMatching;
use trellis::State;

// Where the inner encoder stands: the trellis' state, where each register goes on, and the counter of rate matching.
#[derive(Clone, Copy, Debug, PartialEq, Eq)]
pub struct Coder {
    pub state: State,
    pub upper: usize,
    pub lower: usize,
    pub counter: usize,
}

impl Coder {
    ghost use Rattle.coder.specs.Coder.{turned, stored, finished};

    // One bit: it goes to the upper register if its mark is 1, and its parity to the lower if rate matching keeps it.
    // A bit that is not kept is stored too, since another will take its place: which bits are kept is too irregular for a branch to be foreseen,
    // and the terminating bits always follow. So a mark is added and not asked for.
    pub fn turn(self, rate: RateMatching, mark: u8, u: u8, out: &mut [u8]) -> Coder
        requires { (mark ≤ 1) × (self.upper < length out.old) × (self.lower < length out.old) × (self.counter + rate.total < 2 ^ 64) }
        ensures value { result ≡ turned rate.total rate.delta mark u self }
        ensures out_after { out.new ≡ stored u self out.old }
    {
        let matching = rate.turn(self.counter);
        out[self.upper] = u;
        out[self.lower] = self.state.parity(u);
        Coder {
            state: self.state.next(u),
            upper: self.upper + usize::from(mark),
            lower: self.lower + usize::from(matching.kept),
            counter: matching.counter,
        }
    }

    // The terminating steps, whose bits are always kept.
    pub fn finish(self, out: &mut [u8])
        requires { (self.upper + 1 < length out.old) × (self.lower + 1 < length out.old) }
        ensures { out.new ≡ finished self out.old }
    {
        let end = self.state.terminate();
        out[self.upper] = end.s0;
        out[self.upper + 1] = end.s1;
        out[self.lower] = end.p0;
        out[self.lower + 1] = end.p1;
    }
}
