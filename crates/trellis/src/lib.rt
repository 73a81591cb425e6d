// The four-state trellis of both encoders (4.2, 6): a step, a run, and the two steps that terminate one.
#![tactic(auto)]

ghost use Rattle.std.specs.Prelude.{◌≡◌, length, MatchResult};
ghost use Rattle.bits.specs.Checks.{passed, check_number};
ghost use Rattle.trellis.specs.Answers.{run_answer, step_answer};
ghost use Rattle.trellis.specs.Run.{run_number, ran, run_output};
ghost use Rattle.trellis.specs.Trellis.{stepped, state_of};

mod state;
pub mod steps;

use bits::Refusal;
pub use state::{State, Step, Termination};

// One step from the state with the number 2 * x0 + x1 on a bit.
// Checks: 3, of the state and of the bit.
pub fn step(state: u64, bit: u64) -> Result<Step, Refusal>
    ensures { step_answer result ≡ stepped state bit }
{
    let x = State::try_from(state)?;
    if 1 < bit {
        return Err(Refusal::Element);
    }
    // By `as`: std has no `From` that narrows, and a number up to 1 loses nothing.
    let u = bit as u8;
    Ok(Step {
        systematic: u,
        parity: x.parity(u),
        state: x.next(u),
    })
}

// A run from the state with the number 2 * x0 + x1 over bits, not terminated: the state that it ends in.
// Checks: 3, the state is 0 to 3 and each bit 0 or 1; 5, the output has at least two bytes for each bit.
// Afterwards the front of out is each bit and its parity in turn, and the other bytes are as they were; on refusal all are.
#[tactic(auto, unfolding(crate::specs::Run::ran, crate::specs::Run::run_output, crate::specs::Run::run_number))]
pub fn run(state: u64, bits: &[u8], out: &mut [u8]) -> Result<State, Refusal>
    ensures answer { run_answer result ≡ ran state bits.now (length out.old) }
    ensures output { out.new ≡ run_output state bits.now out.old }
{
    let from = check_run(state, bits, out.len())?;
    Ok(steps::run(from, bits, out))
}

// The checks of run, and the state that it starts in.
#[tactic(auto, unfolding(crate::specs::Run::run_number))]
fn check_run(state: u64, bits: &[u8], room: usize) -> Result<State, Refusal>
    ensures { MatchResult result (λ x. (run_number state bits.now room ≡ passed) × (x ≡ state_of state)) (λ e. check_number e ≡ run_number state bits.now room) }
{
    let from = State::try_from(state)?;
    if !bits::all_at_most(bits, 1) {
        return Err(Refusal::Element);
    }
    if room / 2 < bits.len() {
        return Err(Refusal::Output);
    }
    Ok(from)
}
