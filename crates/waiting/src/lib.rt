// Bits that wait in memory that a caller lends, a bit a byte, from byte 0 on.
#![tactic(auto)]

ghost use Rattle.std.specs.Prelude.{◌≡◌};
ghost use Rattle.bits.specs.Checks.{number_of};
ghost use Rattle.waiting.specs.Waiting.{waiting_number};

use bits::Refusal;

// The memory's least length in bytes, and the most bits that may wait.
pub const MEMORY: usize = 600000;

// The first check of waiting bits that fails, where so many wait in the memory.
// Checks: 2, they are at most 600,000; 3, each that is there is 0 or 1; 4, the memory has at least 600,000 bytes.
#[tactic(auto, unfolding(crate::specs::Waiting::waiting_number))]
pub fn check(count: usize, memory: &[u8]) -> Result<(), Refusal>
    ensures { number_of result ≡ waiting_number count memory.now }
{
    if MEMORY < count {
        return Err(Refusal::Length);
    }
    let front = memory.len().min(count);
    if !bits::all_at_most(&memory[..front], 1) {
        return Err(Refusal::Element);
    }
    if memory.len() < MEMORY {
        return Err(Refusal::Workspace);
    }
    Ok(())
}
