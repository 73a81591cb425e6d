// The marks of positions, found without a division.
ghost use Rattle.std.specs.Prelude.{◌≡◌, ◌^◌, ◌≤◌, ◌<◌, eqb};
ghost use Rattle.puncture.specs.Puncture.{survives};
ghost use Rattle.puncture.specs.Slots.{slot as slot_of, Spread};

use crate::PERIOD;

// Slots of the positions' marks.
const SLOTS: usize = 512;

// 2^32 / 300, rounded up: 300 does not divide it.
const STEP: u32 = u32::MAX / PERIOD as u32 + 1;

// The marks of a pattern, each in the slot of the positions that have it.
#[derive(Clone, Copy)]
pub struct Marks {
    pub survivors: usize,
    slots: [u8; SLOTS],
    pub ghost spread: { Spread survivors slots },
}

impl Marks {
    // Those of the pattern for a survivor number.
    pub fn of(survivors: usize) -> Marks
        ensures { result.survivors ≡ survivors }
    {
        let pattern = crate::pattern(survivors);
        let mut slots = [0; SLOTS];
        for (position, &mark) in pattern.iter().enumerate() {
            slots[slot(position)] = mark;
        }
        Marks { survivors, slots }
    }

    // The mark of a position: 1 if the upper register keeps its bit, 0 if it is punctured.
    pub fn at(&self, position: usize) -> u8
        requires { position < 2 ^ 16 }
        ensures low { result ≤ 1 }
        ensures value { eqb result 1 ≡ survives self.now.survivors position }
    {
        self.slots[slot(position)]
    }
}

// The slot of a position: positions share one where they leave the same modulo 300, and only there.
fn slot(position: usize) -> usize
    requires { position < 2 ^ 16 }
    ensures { result ≡ slot_of position }
{
    ((position as u32).wrapping_mul(STEP) >> 23) as usize
}
