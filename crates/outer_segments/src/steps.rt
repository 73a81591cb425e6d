// Opened to the segmented encoder alone: the two passes over the outer trellis.
ghost use Rattle.std.specs.Prelude.{◌≡◌, true, ◌++◌, ◌+◌, ◌%◌, ◌≤◌, length, drop};
ghost use Rattle.std.proofs.lemmas.List.Edits.{sets};
ghost use Rattle.bits.specs.Legal.{all_bits};
ghost use Rattle.trellis.specs.Trellis.{zero-state, ends, termination, outer};
ghost use Rattle.cuts.specs.Cuts.{Cuts, end_states, start_states, padded, states_of};
ghost use Rattle.outer_segments.specs.Kept.{kept_from, kept_before};

use cuts::steps::Stops;
use cuts::{SEGMENTS, States};
use trellis::State;

// The outer trellis over a block of even length, terminated, by the segments between cuts: its kept bits go to the front of work.
// Answers the states of the segments.
// That the block is of bits is a clause: a type for it is no plainer, since the one caller would have to show it to be of bits as now.
pub fn encode(block: &[u8], cuts: &[u16], work: &mut [u8]) -> States
    requires block_len { (length block.now % 2 ≡ 0) × (all_bits block.now ≡ true) × Cuts (length block.now) cuts.now }
    requires block_in_bounds { length (outer block.now) ≤ length work.old }
    ensures value { result ≡ states_of cuts.now block.now }
    ensures work_after { work.new ≡ outer block.now ++ drop (length (outer block.now)) work.old }
{
    let ended = first(block, cuts);
    let started = cuts::steps::starts(cuts, &ended);
    let last = second(block, cuts, &started, work);
    finish(last, block.len(), work);
    States { ended, started }
}

// The first pass: every segment from 00. Where each run ends.
fn first(block: &[u8], cuts: &[u16]) -> [u8; SEGMENTS]
    requires { Cuts (length block.now) cuts.now }
    ensures { result ≡ padded (end_states cuts.now block.now) }
{
    let mut ended = [0; SEGMENTS];
    let mut from = 0;
    // By index: of what is written through `iter_mut` beside another iterator the proof knows the length alone.
    for (j, to) in Stops::of(cuts, block.len()).enumerate() {
        ended[j] = u8::from(end(&block[from..to]));
        from = to;
    }
    ended
}

// A segment's run from 00, of which only the end is kept.
fn end(bits: &[u8]) -> State
    ensures { result ≡ ends zero-state bits.now }
{
    bits.iter().fold(State::ZERO, |state, &bit| state.next(bit))
}

// The second pass: every segment from its own start, and no state goes over a cut. Answers the state in which the last one ends.
fn second(block: &[u8], cuts: &[u16], started: &[u8], work: &mut [u8]) -> State
    requires cuts { Cuts (length block.now) cuts.now × (started.now ≡ padded (start_states cuts.now block.now)) }
    requires block_in_bounds { kept_before (length block.now) ≤ length work.old }
    ensures value { result ≡ ends zero-state block.now }
    ensures work_after { work.new ≡ sets work.old 0 (kept_from 0 zero-state block.now) }
{
    let mut last = State::ZERO;
    let mut from = 0;
    for (to, &start) in Stops::of(cuts, block.len()).zip(started) {
        last = segment(State::from_low_bits(start), &block[from..to], from, work);
        from = to;
    }
    last
}

// The steps of a segment from a state, the first of them the i-th of the whole run: their kept bits go to their place in work.
// Answers the state in which the segment ends.
fn segment(from: State, bits: &[u8], i: usize, work: &mut [u8]) -> State
    requires { kept_before (i + length bits.now) ≤ length work.old }
    ensures value { result ≡ ends from bits.now }
    ensures work_after { work.new ≡ sets work.old (kept_before i) (kept_from i from bits.now) }
{
    let mut state = from;
    // By index: a step stores two bits or one, by its place in the whole run.
    for (k, &u) in bits.iter().enumerate() {
        let step = i + k;
        let at = step + (step + 1) / 2;
        work[at] = u;
        if step % 2 == 0 {
            work[at + 1] = state.parity(u);
        }
        state = state.next(u);
    }
    state
}

// The terminating steps, behind a run of `long` steps that ended in a state: two more, on the terminating bits.
fn finish(state: State, long: usize, work: &mut [u8])
    requires { kept_before (long + 2) ≤ length work.old }
    ensures { work.new ≡ sets work.old (kept_before long) (kept_from long state (termination state)) }
{
    let end = state.terminate();
    segment(state, &[end.s0, end.s1], long, work);
}
