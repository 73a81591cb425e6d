// Opened to the layer above alone: one bit of rate matching (4.4.3.2).
ghost use Rattle.std.specs.Prelude.{◌≡◌, ◌+◌, ◌^◌, ◌≤◌, ◌<◌};
ghost use Rattle.acm.specs.Formats.{format_of};
ghost use Rattle.puncture.specs.Puncture.{counted};

use acm::AcmFormat;

// Whether rate matching keeps a bit, and its counter at the next, which there is either way.
#[derive(Clone, Copy)]
pub struct Matching {
    pub kept: bool,
    pub counter: usize,
}

// Rate matching over I bits, of which Δ are deleted.
#[derive(Clone, Copy)]
pub struct RateMatching {
    pub total: usize,
    pub delta: usize,
    pub ghost deletes: { delta ≤ total },
}

impl RateMatching {
    // That of a format.
    pub fn of(format: AcmFormat) -> RateMatching
        ensures total_value { result.total ≡ (format_of format.number).i }
        ensures delta_value { result.delta ≡ (format_of format.number).delta }
    {
        let record = format.record();
        RateMatching {
            total: record.i,
            delta: record.delta,
        }
    }

    // One bit; the counter starts at Δ.
    pub fn turn(self, counter: usize) -> Matching
        requires { counter + self.total < 2 ^ 64 }
        ensures { result ≡ counted self.total self.delta counter }
    {
        if self.delta <= counter {
            Matching {
                kept: true,
                counter: counter - self.delta,
            }
        } else {
            Matching {
                kept: false,
                counter: counter + (self.total - self.delta),
            }
        }
    }
}
