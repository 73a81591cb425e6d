// Bits as bytes, and the numbers of the checks: what more than one layer uses.
#![tactic(auto)]

ghost use Rattle.std.specs.Prelude.{◌≡◌, ℕ, leb};
ghost use Rattle.bits.specs.Sum.{◌⊕◌};
ghost use Rattle.bits.specs.Legal.{all_at_most};

pub mod checks;
pub mod steps;

pub use checks::Refusal;

// The sum of two bits modulo 2.
pub fn sum(a: u8, b: u8) -> u8
    ensures { result ≡ a ⊕ b }
{
    (a ^ b) % 2
}

// Elements of a stretch. A loop over a constant number of them is laid out without a jump.
const STRETCH: usize = 1024;

// Whether every element is at most `top`: 1 for bits, 2^m - 1 for labels.
pub fn all_at_most(list: &[u8], top: u8) -> bool
    ensures { result ≡ all_at_most top list.now }
{
    let stretches = list.chunks_exact(STRETCH);
    let rest = stretches.remainder();
    for stretch in stretches {
        if top < largest(stretch) {
            return false;
        }
    }
    largest(rest) <= top
}

// The largest element, 0 where there is none.
// No early return: a loop that only keeps the largest is one the machine runs many elements at a time. A fold takes 1.6 times as long, which the
// slicer's aim of speed does not allow.
fn largest(list: &[u8]) -> u8
    ensures { (top : ℕ) → all_at_most top list.now ≡ leb result top }
{
    let mut largest = 0;
    for &x in list {
        largest = largest.max(x);
    }
    largest
}
