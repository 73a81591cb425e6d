// Lists of cuts, which part the input of a trellis into segments (6), and the states of the segments.
#![tactic(auto)]

ghost use Rattle.std.specs.Prelude.{◌≡◌};
ghost use Rattle.cuts.specs.Cuts.{is_few, is_inside};

pub mod steps;

// The segments of one trellis, at most: one more than its cuts.
pub const SEGMENTS: usize = 16;

// For each of the sixteen segments of a trellis, as numbers 2 * x0 + x1: the state in which its run from 00 ends, and its true starting state.
// Both are 0 past the last segment. Numbers and no `State`s: the definitions `end_states`, `start_states` and `padded` are lists of numbers, and
// the bytes that C gets are these.
#[derive(Clone, Copy, Debug, PartialEq, Eq)]
pub struct States {
    pub ended: [u8; SEGMENTS],
    pub started: [u8; SEGMENTS],
}

// Whether there are at most fifteen cuts. This and the next are two tests, and no type stands for cuts that pass both: they are so for an input
// that is lent beside them. A type would carry the input's length, and every contract would say that it is that input's.
pub fn few(cuts: &[u16]) -> bool
    ensures { result ≡ is_few cuts.now }
{
    cuts.len() < SEGMENTS
}

// Whether no cut falls below the one before it, and none is above the length of the input.
pub fn inside(long: usize, cuts: &[u16]) -> bool
    ensures { result ≡ is_inside long cuts.now }
{
    cuts.is_sorted() && cuts.iter().all(|&cut| usize::from(cut) <= long)
}
