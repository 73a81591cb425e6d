// Text in ASCII, put into a buffer. Opened to the layers above alone.
ghost use Rattle.std.specs.Prelude.{◌≡◌, [], ◌∷◌, ◌++◌, ◌+◌, ◌≤◌, ◌<◌, length};
ghost use Rattle.std.proofs.lemmas.List.Edits.{sets};
ghost use Rattle.bits.specs.Checks.{check_number};
ghost use Rattle.ascii.specs.Text.{at_front, decimal, line, longest_refusal, refusal_text};

use bits::Refusal;

pub const COMMA: u8 = b',';

pub const DASH: u8 = b'-';

pub const LINE_FEED: u8 = b'\n';

pub const ZERO: u8 = b'0';

pub const NINE: u8 = b'9';

// Words, from the place at on; answers the place behind them.
// Buffer and place stay two parameters, here and below: a struct of both has the same clauses and one fact more, that the place is inside, for
// two callers that put two texts each; and of a part of out they would have to say what one equation, `sets`, says: where the bytes go and what
// stays.
#[tactic(auto, using(bits::proofs::Parts::sets_of_front))]
pub fn put(words: &[u8], out: &mut [u8], at: usize) -> usize
    requires { at + length words.now ≤ length out.old }
    ensures value { result ≡ at + length words.now }
    ensures out_after { out.new ≡ sets out.old at words.now }
{
    let end = at + words.len();
    bits::steps::put(words, &mut out[at..end]);
    end
}

// Numbers with a comma behind each and a line feed behind the last, from the place at on; answers the place behind them.
pub fn put_line(numbers: &[u64], out: &mut [u8], at: usize) -> usize
    requires { at + length (line numbers.now) ≤ length out.old }
    ensures value { result ≡ at + length (line numbers.now) }
    ensures out_after { out.new ≡ sets out.old at (line numbers.now) }
{
    let Some((&last, others)) = numbers.split_last() else {
        return at;
    };
    let mut end = at;
    for &n in others {
        end = put_number(n, COMMA, out, end);
    }
    put_number(last, LINE_FEED, out, end)
}

// The text of a refusal, to the front of out; answers how long it is.
pub fn put_refusal(refusal: Refusal, out: &mut [u8]) -> usize
    requires { longest_refusal ≤ length out.old }
    ensures value { result ≡ length (refusal_text (check_number refusal)) }
    ensures out_after { out.new ≡ at_front (refusal_text (check_number refusal)) out.old }
{
    let at = put(b"refused,", out, 0);
    let number = u64::from(u8::from(refusal));
    put_line(&[number], out, at)
}

// A number and the byte that follows it, from the place at on; answers the place behind them.
fn put_number(n: u64, follows: u8, out: &mut [u8], at: usize) -> usize
    requires { at + length (decimal n) < length out.old }
    ensures value { result ≡ at + length (decimal n) + 1 }
    ensures out_after { out.new ≡ sets out.old at (decimal n ++ follows ∷ []) }
{
    let end = put_decimal(n, out, at);
    out[end] = follows;
    end + 1
}

// A number in decimal, from the place at on; answers the place behind it.
// By hand: what std promises of `write!` into a slice leaves open whether it succeeds, also where there is room.
fn put_decimal(n: u64, out: &mut [u8], at: usize) -> usize
    requires { at + length (decimal n) ≤ length out.old }
    ensures value { result ≡ at + length (decimal n) }
    ensures out_after { out.new ≡ sets out.old at (decimal n) }
{
    let end = at + digits(n);
    let mut rest = n;
    // By index: of what is written through a reversed `iter_mut` the proof knows the length alone.
    for i in (at..end).rev() {
        // By `as`: std has no `From` that narrows, and a digit loses nothing.
        out[i] = ZERO + (rest % 10) as u8;
        rest /= 10;
    }
    end
}

// The number of a number's digits.
fn digits(n: u64) -> usize
    ensures { result ≡ length (decimal n) }
{
    // std has no From<u32> for usize.
    n.checked_ilog10().unwrap_or(0) as usize + 1
}
