// The 37 ACM formats (tables 4-1 and 4-3; 28 to 37 by 004).
#![tactic(auto)]

ghost use Rattle.std.specs.Prelude.{◌≡◌};
ghost use Rattle.acm.specs.Formats.{answer_of, looked_up, top_label};

mod number;
mod table;

use bits::Refusal;
pub use number::AcmFormat;
pub use table::Format;

// The number of the last ACM format.
pub const LAST: u64 = 37;

// Labels of a codeword (4.1).
pub const SYMBOLS: usize = 8100;

// Information bits of a piece, and so of a BCH codeword (004, 4.3).
pub const PIECE_LENGTH: usize = 8048;

// The largest K, I and N: memory of so many bytes holds the block, the workspace and the codeword of any format.
pub const MOST_K: usize = 60510;

pub const MOST_I: usize = 65520;

pub const MOST_N: usize = 64800;

// The record of an ACM format, for any number.
// Checks: 1.
pub fn lookup(format: u64) -> Result<Format, Refusal>
    ensures { answer_of result ≡ looked_up format }
{
    Ok(AcmFormat::try_from(format)?.record())
}

// The largest label of an ACM format, 2^m - 1, for any number: 0 where there is no such format.
// It cannot fail; whoever has an `AcmFormat` asks that one.
#[tactic(auto, using(crate::proofs::Laws::no_record))]
pub fn top_label(format: u64) -> u8
    ensures { result ≡ top_label format }
{
    match AcmFormat::try_from(format) {
        Ok(format) => format.top_label(),
        Err(_) => 0,
    }
}
