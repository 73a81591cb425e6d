// Opened to the layer above alone: the encoder's loops.
ghost use Rattle.std.specs.Prelude.{◌≡◌, ◌++◌, ◌*◌, ◌%◌, ◌≤◌, length, drop};
ghost use Rattle.trellis.specs.Trellis.{run as run_of, ends, outer as outer_of};

use crate::State;

// A run from a state over bits: each bit and its parity go to the front of out. Answers the state that it ends in.
pub(crate) fn run(from: State, bits: &[u8], out: &mut [u8]) -> State
    requires { 2 * length bits.now ≤ length out.old }
    ensures value { result ≡ ends from bits.now }
    ensures out_after { out.new ≡ run_of from bits.now ++ drop (2 * length bits.now) out.old }
{
    let mut state = from;
    // By index: of what is written through chunks of out the proof knows the length alone.
    for (i, &u) in bits.iter().enumerate() {
        out[2 * i] = u;
        out[2 * i + 1] = state.parity(u);
        state = state.next(u);
    }
    state
}

// The outer trellis over a block of even length, terminated: its kept bits go to the front of work.
pub fn outer(block: &[u8], work: &mut [u8])
    requires block_len { length block.now % 2 ≡ 0 }
    requires block_in_bounds { length (outer_of block.now) ≤ length work.old }
    ensures { work.new ≡ outer_of block.now ++ drop (length (outer_of block.now)) work.old }
{
    let (pairs, _) = block.as_chunks::<2>();
    let mut state = State::ZERO;
    // By index, for the same reason.
    for (i, &[u, v]) in pairs.iter().enumerate() {
        work[3 * i] = u;
        work[3 * i + 1] = state.parity(u);
        work[3 * i + 2] = v;
        state = state.next(u).next(v);
    }
    let n = 3 * pairs.len();
    let end = state.terminate();
    work[n] = end.s0;
    work[n + 1] = end.p0;
    work[n + 2] = end.s1;
}
