// A capture's lines, read. Opened to the layer above alone.
ghost use Rattle.std.specs.Prelude.{◌≡◌, length, option_map, from_bits};
ghost use Rattle.std.specs.Float.{binary64};
ghost use Rattle.samples.specs.Reader.{digit_of, line_read, pair_bytes, pair_of, word_of};
ghost use Rattle.samples.specs.Text.{digits};

use crate::Sample;
use crate::values::VALUES;
use ascii::steps::{COMMA, LINE_FEED};

const LOST: &[u8] = b"LOST\n";

// Bytes of the line of a pair: the digits of two words, a comma between and the line feed.
const DIGITS: usize = 16;

const PAIR: usize = 2 * DIGITS + 2;

// A float's bits without its sign, and those of infinity. NaNs are above.
const SIZES: u64 = 0x8000_0000_0000_0000;

const INFINITY: u64 = 0x7ff0_0000_0000_0000;

// The sample of a text's first line, and the text behind it, if the text begins with a line.
pub fn read(text: &[u8]) -> Option<(Sample, &[u8])>
    ensures { option_map (λ r. (r.0, r.1.now)) result ≡ line_read text.now }
{
    if let Some(rest) = text.strip_prefix(LOST) {
        return Some((Sample::Lost, rest));
    }
    let (line, rest) = text.split_at_checked(PAIR)?;
    Some((pair(line)?, rest))
}

// The pair of a line.
fn pair(line: &[u8]) -> Option<Sample>
    requires { length line.now ≡ pair_bytes }
    ensures { result ≡ pair_of line.now }
{
    if line[DIGITS] != COMMA || line[PAIR - 1] != LINE_FEED {
        return None;
    }
    let i = word(&line[..DIGITS])?;
    let q = word(&line[DIGITS + 1..PAIR - 1])?;
    Some(Sample::Pair(float(i), float(q)))
}

// The number that sixteen digits write.
fn word(text: &[u8]) -> Option<u64>
    requires { length text.now ≡ digits }
    ensures { result ≡ word_of text.now }
{
    let mut word = 0;
    for &b in text {
        word = 16 * word + u64::from(digit(b)?);
    }
    Some(word)
}

// By a table: a branch on what kind of digit it is the machine would foresee wrongly twice in five.
fn digit(b: u8) -> Option<u8>
    ensures { result ≡ digit_of b }
{
    let value = VALUES[usize::from(b)];
    if value < 16 { Some(value) } else { None }
}

// The float of a bit pattern. Of NaNs the language knows one.
fn float(bits: u64) -> f64
    ensures { result ≡ from_bits binary64 bits }
{
    if bits % SIZES <= INFINITY {
        f64::from_bits(bits)
    } else {
        f64::NAN
    }
}
