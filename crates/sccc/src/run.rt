// A trellis run from any state.
ghost use Rattle.std.specs.Prelude.{◌≡◌, length};
ghost use Rattle.trellis.specs.Answers.{run_answer};
ghost use Rattle.trellis.specs.Run.{ran, run_output};
ghost use Rattle.sccc.specs.Structs.{run_struct};

use crate::{PASSED, refused};
use bits::Refusal;
use trellis::State;

// The state 2 * x0 + x1 that a run ends in.
#[repr(C)]
#[derive(Debug, Default, Drop)]
pub struct RunAnswer {
    pub number: u64,
    pub state: u64,
}

impl From<Result<State, Refusal>> for RunAnswer {
    ghost from_gives = { λ answer run. run ≡ run_struct (run_answer answer) };

    fn from(answer: Result<State, Refusal>) -> RunAnswer {
        match answer {
            Ok(state) => RunAnswer {
                number: PASSED,
                state: u64::from(u8::from(state)),
            },
            Err(refusal) => RunAnswer {
                number: refused(refusal),
                ..RunAnswer::default()
            },
        }
    }
}

// A trellis run from the state 2 * x0 + x1 over bits, not terminated.
// Checks: 3, the state is 0 to 3 and each bit 0 or 1; 5, the output has at least two bytes for each bit.
// Afterwards the front of out is each bit and its parity in turn, and the other bytes are as they were; on refusal all are.
#[unsafe(no_mangle)]
pub extern "C" fn sccc_run(state: u64, bits: &[u8], out: &mut [u8]) -> RunAnswer
    ensures answer { result ≡ run_struct (ran state bits.now (length out.old)) }
    ensures output { out.new ≡ run_output state bits.now out.old }
{
    RunAnswer::from(trellis::run(state, bits, out))
}
