// A line's fields, read. Opened to the layers above alone.
ghost use Rattle.std.specs.Prelude.{◌≡◌, true, ◌≤◌, ◌<◌, ◌==◌, length, position, option_map};
ghost use Rattle.fields.specs.Fields.{value as value_of, all_digits, cut_at, field_of, most_digits};

use ascii::steps::ZERO;

// What stands before the first of a byte, and behind it, if the byte is there.
// By hand: std has no `split_once` of bytes.
pub fn cut(text: &[u8], byte: u8) -> Option<(&[u8], &[u8])>
    ensures { option_map (λ parts. (parts.0.now, parts.1.now)) result ≡ cut_at byte text.now }
{
    let at = place(text, byte)?;
    Some((&text[..at], &text[at + 1..]))
}

// The number of a field: 1 to `most` digits without a leading zero.
pub fn number(text: &[u8], most: usize) -> Option<u64>
    requires { (0 < most) × (most ≤ most_digits) }
    ensures { result ≡ field_of most text.now }
{
    if text.is_empty() || most < text.len() {
        return None;
    }
    if text[0] == ZERO && text.len() != 1 {
        return None;
    }
    if !all_digits(text) {
        return None;
    }
    Some(value(text))
}

// The first place of a byte.
fn place(text: &[u8], byte: u8) -> Option<usize>
    ensures { result ≡ position (λ b. b == byte) text.now }
{
    text.iter().position(|&b| b == byte)
}

fn all_digits(text: &[u8]) -> bool
    ensures { result ≡ all_digits text.now }
{
    text.iter().all(u8::is_ascii_digit)
}

// The number that digits write.
fn value(digits: &[u8]) -> u64
    requires { (length digits.now ≤ most_digits) × (all_digits digits.now ≡ true) }
    ensures { result ≡ value_of digits.now }
{
    let mut n = 0;
    for &digit in digits {
        n = 10 * n + u64::from(digit - ZERO);
    }
    n
}
