// The moves of a job line to its other form: there with no pilots and unscrambled, and only a line with these back.
#![tactic(auto)]

ghost use Rattle.std.specs.Prelude.{◌≡◌, ◌++◌, ◌+◌, ◌≤◌, length};
ghost use Rattle.bits.specs.Checks.{number_of};
ghost use Rattle.ascii.specs.Text.{at_front};
ghost use Rattle.job_moves.specs.Moves.{answer_of, lengthen, lengthen_output, moved, old_number, plain_number, room_number, shorten, shorten_output, written_over};
ghost use Rattle.job_moves.specs.Printed.{lengthen_printed, shorten_printed};

use bits::Refusal;
use job_line::steps::{PLAIN, check, read};

// How a line of the old form ends, and how one of the longer does that has no pilots and is unscrambled.
const OLD_END: &[u8; 1] = b"\n";

const LONGER_END: &[u8; 5] = b",0,-\n";

// A line of the old form in the longer one, to the front of out; answers its length.
// Checks: 6, the text is a well-formed line of the old form; 1; 7; 5, out has room for the line that is written.
// Afterwards the front of out is that line, and the rest is as it was.
pub fn lengthen(text: &[u8], out: &mut [u8]) -> Result<usize, Refusal>
    ensures answer { answer_of result ≡ lengthen text.now (length out.old) }
    ensures out_after { out.new ≡ lengthen_output text.now out.old }
{
    check_old(text)?;
    put(&text[..text.len() - OLD_END.len()], LONGER_END, out)
}

// A line of the longer form in the old one, to the front of out; answers its length.
// Checks: 6, the text is a well-formed line of the longer form; 1; 7; 14; 16; 17, it has no pilots and is unscrambled; 5, out has room for the line
// that is written.
// Afterwards the front of out is that line, and the rest is as it was.
pub fn shorten(text: &[u8], out: &mut [u8]) -> Result<usize, Refusal>
    ensures answer { answer_of result ≡ shorten text.now (length out.old) }
    ensures out_after { out.new ≡ shorten_output text.now out.old }
{
    check_plain(text)?;
    put(&text[..text.len() - LONGER_END.len()], OLD_END, out)
}

// The checks of a line that is to move there.
fn check_old(text: &[u8]) -> Result<(), Refusal>
    ensures { number_of result ≡ old_number text.now }
{
    let Some(line) = read(text) else {
        return Err(Refusal::Line);
    };
    if line.added.is_some() {
        return Err(Refusal::Line);
    }
    check(line)?;
    Ok(())
}

// The checks of a line that is to move back.
fn check_plain(text: &[u8]) -> Result<(), Refusal>
    ensures { number_of result ≡ plain_number text.now }
{
    let Some(line) = read(text) else {
        return Err(Refusal::Line);
    };
    let Some(added) = line.added else {
        return Err(Refusal::Line);
    };
    check(line)?;
    if added != PLAIN {
        return Err(Refusal::WayBack);
    }
    Ok(())
}

// The front of a line and another end, to the front of out, if there is room for both; answers how long they are.
fn put(front: &[u8], end: &[u8], out: &mut [u8]) -> Result<usize, Refusal>
    requires { length end.now ≤ 5 }
    ensures answer { answer_of result ≡ moved (room_number (front.now ++ end.now) (length out.old)) (front.now ++ end.now) }
    ensures out_after { out.new ≡ written_over (room_number (front.now ++ end.now) (length out.old)) (front.now ++ end.now) out.old }
{
    if out.len() < front.len() + end.len() {
        return Err(Refusal::Output);
    }
    let at = ascii::steps::put(front, out, 0);
    Ok(ascii::steps::put(end, out, at))
}

// What the program `lengthen` prints for a text on its standard input, for any bytes: the line, or the number of the check that failed.
// Afterwards the front of out is this, whose length is the answer, and the rest is as it was.
pub fn lengthen_printed(text: &[u8], out: &mut [u8; job_line::LONGEST]) -> usize
    ensures length { result ≡ length (lengthen_printed text.now) }
    ensures printed { out.new ≡ at_front (lengthen_printed text.now) out.old }
{
    match lengthen(text, out) {
        Ok(n) => n,
        Err(refusal) => ascii::steps::put_refusal(refusal, out),
    }
}

// What the program `shorten` prints, likewise.
pub fn shorten_printed(text: &[u8], out: &mut [u8; job_line::LONGEST]) -> usize
    ensures length { result ≡ length (shorten_printed text.now) }
    ensures printed { out.new ≡ at_front (shorten_printed text.now) out.old }
{
    match shorten(text, out) {
        Ok(n) => n,
        Err(refusal) => ascii::steps::put_refusal(refusal, out),
    }
}
