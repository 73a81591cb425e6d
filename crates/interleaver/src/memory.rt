// The expanded interleaver that a memory holds.
ghost use Rattle.std.specs.Prelude.{◌≡◌, true, ◌<◌};
ghost use Rattle.acm.specs.Formats.{format_of};
ghost use Rattle.interleaver.specs.Interleaver.{π};
ghost use Rattle.interleaver.specs.Expanded.{expands};

use crate::{InterleavedPosition, UpperPosition};
use acm::AcmFormat;

// A memory whose first I entries are the interleaved positions of a format: whoever holds one need not ask again whether they are.
#[derive(Clone, Copy)]
pub struct Expanded<'a> {
    pub format: AcmFormat,
    memory: &'a [u16],
    pub ghost holds: { expands format.number memory.now ≡ true },
}

impl<'a> Expanded<'a> {
    // That of a memory which was built, or whose entries were compared.
    pub fn of(format: AcmFormat, memory: &'a [u16]) -> Expanded<'a>
        requires { expands format.number memory.now ≡ true }
        ensures { result.format ≡ format }
    {
        Expanded { format, memory }
    }

    // The interleaved position of a position: its entry.
    #[tactic(auto, using(crate::proofs::Expanded::entries_held))]
    pub fn position_of(&self, position: UpperPosition) -> InterleavedPosition
        requires { position.0 < (format_of self.now.format.number).i }
        ensures { result.0 ≡ π self.now.format.number position.0 }
    {
        InterleavedPosition(usize::from(self.memory[position.0]))
    }
}
