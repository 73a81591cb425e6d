// The checks of the calls. A call that is refused answers which of them failed first.
ghost use Rattle.std.specs.Prelude.{◌≡◌};
ghost use Rattle.bits.specs.Checks.{check_number, number_of};

// A check that failed: what it asks for does not hold. Each has the number that specs/Checks.antt gives it.
#[derive(Clone, Copy, Debug, PartialEq, Eq)]
pub enum Refusal {
    // The ACM format is 1 to 37.
    Format = 1,
    // Each input list is as long as the call takes.
    Length = 2,
    // Each input element is legal.
    Element = 3,
    // The workspace is long enough.
    Workspace = 4,
    // The output is long enough.
    Output = 5,
    // The job line is well formed, and of the form that the call takes.
    Line = 6,
    // The job line's pattern is known.
    Pattern = 7,
    // The place asked for is inside.
    Place = 8,
    // The transfer frame has 223 to 65,536 octets.
    FrameLength = 9,
    // The transfer frame is as long as the channel's first.
    ChannelLength = 10,
    // No whole block waits.
    BlockWaits = 11,
    // Each list has at most fifteen cuts.
    CutCount = 12,
    // No cut falls below the one before it, and none is beyond the input.
    CutPlace = 13,
    // The pilot choice is 0 or 1.
    Pilots = 14,
    // The interleaver's memory is long enough.
    Memory = 15,
    // The code number is at most 262,142.
    Code = 16,
    // The job line can go back to the old form: pilots are 0, and there is no code number.
    WayBack = 17,
    // The capture is the text of 8,100 samples.
    Capture = 18,
    // Each coordinate of the capture is a number from -2 to 2.
    Coordinate = 19,
}

// The check's number: the enum's own, which `as` reads.
impl From<Refusal> for u8 {
    ghost from_gives = { λ refusal number. number ≡ check_number refusal };

    fn from(refusal: Refusal) -> u8 {
        refusal as u8
    }
}

// The number of the first check that fails, 0 if none does.
pub fn number(answer: Result<(), Refusal>) -> u8
    ensures { result ≡ number_of answer }
{
    match answer {
        Ok(()) => 0,
        Err(refusal) => u8::from(refusal),
    }
}
