// The number of an ACM format that there is.
ghost use Rattle.std.specs.Prelude.{◌≡◌, ◌+◌, ◌<◌, true, false, map, MatchResult};
ghost use Rattle.bits.specs.declared.checks.Refusal.TheVariants as refusal;
ghost use Rattle.acm.specs.Formats.{is_format, last_format, format_of, top_label};
ghost use Rattle.std.specs.List.{range_with_len};

use crate::table;
use crate::table::Format;
use bits::Refusal;
use std::array;

// An ACM format, by its number: whoever holds one need not ask again whether there is such a format.
#[derive(Clone, Copy, Debug, PartialEq, Eq)]
pub struct AcmFormat {
    pub number: u64,
    ghost listed: { is_format number ≡ true },
}

impl AcmFormat {
    // Every format, in order.
    pub fn all() -> [AcmFormat; 37]
        ensures { map (λ f. f.number) result ≡ range_with_len 1 last_format }
    {
        array::from_fn(
            |i|
                requires { i < last_format }
                ensures { result.number ≡ i + 1 }
            {
                // std has no From<usize> for u64.
                AcmFormat {
                    number: i as u64 + 1,
                }
            },
        )
    }

    // The format's record.
    pub fn record(self) -> Format
        ensures { result ≡ format_of self.number }
    {
        // std has no From<u64> for usize.
        let at = (self.number - 1) as usize;
        Format::from(table::ROWS[at])
    }

    // The largest label of the format, 2^m - 1.
    pub fn top_label(self) -> u8
        ensures { result ≡ top_label self.number }
    {
        255 >> (8 - self.record().m)
    }
}

// Checks: 1.
impl TryFrom<u64> for AcmFormat {
    type Error = Refusal;

    ghost try_from_gives = { λ format result. MatchResult result (λ f. (is_format format ≡ true) × (f.number ≡ format)) (λ e. (is_format format ≡ false) × (e ≡ refusal.Format)) };

    fn try_from(format: u64) -> Result<AcmFormat, Refusal> {
        if !(1..=crate::LAST).contains(&format) {
            return Err(Refusal::Format);
        }
        Ok(AcmFormat { number: format })
    }
}
