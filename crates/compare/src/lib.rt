// Two label lists held against each other: the tally of the bits in which they differ.
#![tactic(auto)]

ghost use Rattle.std.specs.Prelude.{◌≡◌, ◌≤◌, ◌<◌, length, MatchOption};
ghost use Rattle.std.specs.List.{sum_by, zip};
ghost use Rattle.bits.specs.Checks.{number_of};
ghost use Rattle.acm.specs.Formats.{symbols};
ghost use Rattle.compare.specs.Comparison.{answer_of, compared, compare_number, apart, differing, first_place};

use acm::{AcmFormat, SYMBOLS};
use bits::Refusal;

// The answer of a comparison. No `Option`: that the lists are the same is an answer of its own.
#[derive(Clone, Copy, Debug, PartialEq, Eq)]
pub enum Comparison {
    Same,
    // In how many bits the labels differ, and the first place at which they do, counted from 0.
    Differ { count: usize, first: usize },
}

// Whether two lists of 8,100 labels of a format are the same, and if not, in how many bits they differ and at which place first.
// Checks: 1; 2, each list has 8,100 labels; 3, each label of either is below 2^m.
pub fn compare(format: u64, a: &[u8], b: &[u8]) -> Result<Comparison, Refusal>
    ensures { answer_of result ≡ compared format a.now b.now }
{
    check_compare(format, a, b)?;
    let Some(first) = first_differing(a, b) else {
        return Ok(Comparison::Same);
    };
    let count = count_bits(a, b);
    Ok(Comparison::Differ { count, first })
}

// Whether all checks of compare hold.
#[tactic(auto, using(std::proofs::lemmas::Bool::Decides::nat_tests), unfolding(crate::specs::Comparison::compare_number))]
fn check_compare(format: u64, a: &[u8], b: &[u8]) -> Result<(), Refusal>
    ensures { number_of result ≡ compare_number format a.now b.now }
{
    let format = AcmFormat::try_from(format)?;
    if a.len() != SYMBOLS || b.len() != SYMBOLS {
        return Err(Refusal::Length);
    }
    let top = format.top_label();
    if !bits::all_at_most(a, top) || !bits::all_at_most(b, top) {
        return Err(Refusal::Element);
    }
    Ok(())
}

// The bits in which the bytes of two lists differ, added over the places.
fn count_bits(a: &[u8], b: &[u8]) -> usize
    requires { length a.now ≤ symbols }
    ensures { result ≡ sum_by (λ p. apart 8 p.0 p.1) (zip a.now b.now) }
{
    let count: u32 = a.iter().zip(b).map(|(&x, &y)| bits_apart(x, y)).sum();
    // std has no From<u32> for usize.
    count as usize
}

// The number of bits in which two bytes differ.
fn bits_apart(x: u8, y: u8) -> u32
    ensures value { result ≡ apart 8 x y }
    ensures few { result ≤ 8 }
{
    (x ^ y).count_ones()
}

// The first place at which two lists differ. By a loop that yields it by break, the form that docs/DECISIONS.md has
// for it; `position` would do.
fn first_differing(a: &[u8], b: &[u8]) -> Option<usize>
    requires { length a.now ≡ length b.now }
    ensures { MatchOption result (differing a.now b.now ≡ 0) (λ first. (first ≡ first_place a.now b.now) × (first < length a.now)) }
{
    let mut i = 0;
    loop {
        if a.len() <= i {
            break None;
        }
        if a[i] != b[i] {
            break Some(i);
        }
        i += 1;
    }
}
