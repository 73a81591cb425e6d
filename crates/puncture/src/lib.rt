// Puncturing (4.4, with Corrigendum 1): the pattern of the upper register, and the rate matching of the lower.
#![tactic(auto)]

ghost use Rattle.std.specs.Prelude.{◌≡◌, ℕ, ◌-◌, ◌<◌, min, length, get_or};
ghost use Rattle.puncture.specs.Puncture.{period, most_punctured, pattern as pattern_of, LaidOut, zeroed};

mod marks;
pub mod steps;
mod table;

pub use marks::Marks;

// The length of the puncturing pattern.
pub const PERIOD: usize = 300;

// Three periods.
pub const LAID_OUT: usize = 3 * PERIOD;

// Positions of table 4-2: the most that a pattern punctures.
const MOST_PUNCTURED: usize = 100;

// The pattern of 300 for a survivor number: 0 where the upper register is punctured, 1 elsewhere.
pub fn pattern(survivors: usize) -> [u8; PERIOD]
    ensures { result ≡ pattern_of survivors }
{
    let mut out = [1u8; PERIOD];
    let count = zeros(survivors);
    zero_at(&table::POSITIONS[..count], &mut out);
    out
}

// The same laid out over three periods: a number below 900 need not be taken modulo 300.
pub fn laid_out(survivors: usize) -> [u8; LAID_OUT]
    ensures { LaidOut survivors result }
{
    let period = pattern(survivors);
    let mut out = [0u8; LAID_OUT];
    out[..PERIOD].copy_from_slice(&period);
    out[PERIOD..2 * PERIOD].copy_from_slice(&period);
    out[2 * PERIOD..].copy_from_slice(&period);
    out
}

// How many of the positions of table 4-2 are punctured.
fn zeros(survivors: usize) -> usize
    ensures { result ≡ min (period - survivors) most_punctured }
{
    PERIOD.saturating_sub(survivors).min(MOST_PUNCTURED)
}

// Writes 0 at each of the positions.
fn zero_at(positions: &[usize], out: &mut [u8])
    requires { (k : ℕ) → k < length positions.now → get_or positions.now k 0 < length out.old }
    ensures { out.new ≡ zeroed out.old positions.now }
{
    for &p in positions {
        out[p] = 0;
    }
}
