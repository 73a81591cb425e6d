// Opened to the encoder of two channels alone.
ghost use Rattle.std.specs.Prelude.{◌≡◌, ◌++◌, ◌≤◌, length, drop};
ghost use Rattle.acm.specs.Formats.{format_of, N1};
ghost use Rattle.interleaver.specs.Interleaver.{π};
ghost use Rattle.inner.specs.Registers.{from_outer};
ghost use Rattle.inner.specs.Left.{starting, completed, Fits};

use coder::steps::Coder;
use inner::steps::Progress;
use interleaver::UpperPosition;
use interleaver::steps::Expanded;
use puncture::Marks;
use puncture::steps::RateMatching;

// The codeword's trellis part, of the outer kept bits at the front of work, to the front of out, by an expanded interleaver. The room of work and
// out is a clause: they are lent side by side, one to be written, and a type of both would be made and taken apart at each call.
pub fn encode(expanded: &Expanded<'_>, work: &[u8], out: &mut [u8])
    requires { let f = expanded.now.format.number in ((format_of f).i ≤ length work.now) × (N1 (format_of f) ≤ length out.old) }
    ensures { let f = expanded.now.format.number in out.new ≡ from_outer f work.now ++ drop (N1 (format_of f)) out.old }
{
    let end = run(expanded, work, out);
    end.finish(out);
}

// Runs the inner trellis over the interleaved bits, up to its termination.
fn run(expanded: &Expanded<'_>, work: &[u8], out: &mut [u8]) -> Coder
    requires { let f = expanded.now.format.number in ((format_of f).i ≤ length work.now) × (N1 (format_of f) ≤ length out.old) }
    ensures fits { let f = expanded.now.format.number in Fits (format_of f) (π f) work.now (format_of f).i result }
    ensures out_after { let f = expanded.now.format.number in completed (format_of f) (π f) work.now (format_of f).i result out.new ≡ completed (format_of f) (π f) work.now 0 (starting (format_of f)) out.old }
{
    let f = expanded.format.record();
    let rate = RateMatching::of(expanded.format);
    let marks = Marks::of(f.survivors);
    let mut coder = Progress::start(f).coder;
    // By position: `position_of` alone makes an interleaved position of an entry, and an iterator over the entries would give bare numbers.
    for i in 0..f.i {
        let position = expanded.position_of(UpperPosition(i)).number();
        coder = coder.turn(rate, marks.at(position), work[position], out);
    }
    coder
}
