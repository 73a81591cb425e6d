// The samples of a capture: what a modulator was seen to send, symbol by symbol.
#![tactic(auto)]

ghost use Rattle.std.specs.Prelude.{◌≡◌};
ghost use Rattle.samples.specs.Samples.{number_in_range, sample_in_range};

pub mod steps;
mod values;

// What was seen of a symbol: nothing, or an in-phase and a quadrature coordinate.
#[derive(Clone, Copy, Debug)]
pub enum Sample {
    Lost,
    Pair(f64, f64),
}

impl Sample {
    // Whether each coordinate is a number from -2 to 2. A NaN is none.
    pub fn in_range(self) -> bool
        ensures { result ≡ sample_in_range self }
    {
        match self {
            Sample::Lost => true,
            Sample::Pair(i, q) => in_range(i) && in_range(q),
        }
    }
}

fn in_range(x: f64) -> bool
    ensures { result ≡ number_in_range x }
{
    -2.0 <= x && x <= 2.0
}
