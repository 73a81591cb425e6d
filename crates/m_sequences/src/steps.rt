// Opened to the Gold sequences alone: eighteen symbols in a row of an m-sequence, the first in a word's lowest bit.
ghost use Rattle.std.specs.Prelude.{◌≡◌, ◌<◌, ◌^◌};
ghost use Rattle.m_sequences.specs.MSequences.{degree, feedback, stepped, word_at};
ghost use Rattle.m_sequences.specs.Tables.{Words, sequence};

use crate::table;

// From one word of a table to the next: fewer steps than these lead to every place.
const STRIDE: usize = 512;

// The weight of a word's last symbol.
const LAST: u32 = 1 << 17;

// The period of both sequences.
pub const PERIOD: usize = (1 << 18) - 1;

#[derive(Clone, Copy, Debug)]
pub enum Sequence {
    X,
    Y,
}

impl Sequence {
    // The word at a place.
    pub fn word_at(self, place: usize) -> u32
        requires { place < 2 ^ degree }
        ensures { result ≡ word_at (sequence self) place }
    {
        let mut word = self.words()[place / STRIDE];
        for _ in 0..place % STRIDE {
            word = self.step(word);
        }
        word
    }

    // The word a symbol later.
    pub fn step(self, word: u32) -> u32
        ensures { result ≡ stepped (sequence self).exponents word }
    {
        word / 2 + self.feedback(word) * LAST
    }

    // The sum of the symbols that the polynomial takes.
    fn feedback(self, word: u32) -> u32
        ensures { result ≡ feedback (sequence self).exponents word }
    {
        match self {
            Sequence::X => (word % 2 + (word >> 7) % 2) % 2,
            Sequence::Y => (word % 2 + (word >> 5) % 2 + (word >> 7) % 2 + (word >> 10) % 2) % 2,
        }
    }

    // The words at every 512th place.
    fn words(self) -> &'static [u32]
        ensures { Words (sequence self) result.now }
    {
        match self {
            Sequence::X => &table::X,
            Sequence::Y => &table::Y,
        }
    }
}
