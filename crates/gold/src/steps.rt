// Opened to the waveform alone: how many quarter turns each symbol is given.
ghost use Rattle.std.specs.Prelude.{◌≡◌, ◌<◌};
ghost use Rattle.m_sequences.specs.MSequences.{period};
ghost use Rattle.gold.specs.Generator.{generator_at, later, turns_of};

use m_sequences::steps::PERIOD;
use m_sequences::steps::Sequence::{X, Y};
use scrambling::CodeNumber;

// How much later the symbol is that weighs 2 in a turn.
const HALF: usize = 131072;

// Where a code number's sequence stands: a word of each m-sequence at the symbol that weighs 1 in a turn, and at the one that weighs 2.
#[derive(Clone, Copy, Debug)]
pub struct Generator {
    x: u32,
    y: u32,
    half_x: u32,
    half_y: u32,
}

impl Generator {
    // The generator of a code number at a place.
    pub fn at(code: CodeNumber, place: usize) -> Generator
        requires { place < period }
        ensures { result ≡ generator_at code.number place }
    {
        // std has no `From<u64>` for `usize`
        let n = code.number as usize;
        Generator {
            x: X.word_at((place + n) % PERIOD),
            y: Y.word_at(place % PERIOD),
            half_x: X.word_at((place + HALF + n) % PERIOD),
            half_y: Y.word_at((place + HALF) % PERIOD),
        }
    }

    // The quarter turns that it gives the symbol.
    pub fn turns(self) -> u8
        ensures { result ≡ turns_of self }
    {
        // std has no `From` of a word for one of its bits; that nothing is lost is proved.
        ((self.half_x % 2 + self.half_y % 2) % 2 * 2 + (self.x % 2 + self.y % 2) % 2) as u8
    }

    // The generator at the next symbol.
    pub fn later(self) -> Generator
        ensures { result ≡ later self }
    {
        Generator {
            x: X.step(self.x),
            y: Y.step(self.y),
            half_x: X.step(self.half_x),
            half_y: Y.step(self.half_y),
        }
    }
}
