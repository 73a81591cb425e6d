// The physical layer frame (5): frame marker, frame descriptor and sixteen codeword sections.
#![tactic(auto)]

ghost use Rattle.std.specs.Prelude.{◌≡◌, ◌++◌, ◌≤◌, length, drop, IfOk};
ghost use Rattle.bits.specs.Checks.{number_of};
ghost use Rattle.header.specs.Descriptor.{choice_number};
ghost use Rattle.framing.specs.Frame.{frame_labels, frame_length, frame as frame_of};
ghost use Rattle.framing.specs.Calls.{frame_number, frame_output, section_labels, section_number};

use acm::{AcmFormat, SYMBOLS};
use bits::Refusal;
use header::Pilots;
use pilots::steps::{SUBSECTION_LABELS, SUBSECTION_PILOTS};

// Codeword sections of a frame.
const SECTIONS: usize = 16;

// The pilot choices, numbered as the C interface has them.
pub const PILOTS_OFF: u64 = 0;

pub const PILOTS_ON: u64 = 1;

// Labels of a frame, its slots without pilots, and with them.
pub const FRAME_LABELS: usize = SECTIONS * SYMBOLS;

const FRAME_LENGTH: usize = header::steps::LENGTH + FRAME_LABELS;

const PILOT_FRAME_LENGTH: usize = FRAME_LENGTH
    + FRAME_LABELS / SUBSECTION_LABELS * SUBSECTION_PILOTS;

// The frame of sixteen codewords' labels: marker and descriptor bits as 256 for 0 and 257 for 1, then the labels, and with pilots (choice 1)
// behind every 540 of them sixteen times 258.
// Checks: 1; 14, the choice is 0 or 1; 2, there are 129,600 labels; 3, each is below 2^m; 5, the output has at least 129,920 slots, with pilots
// 133,760.
// Afterwards so many slots of out, from the first, are the frame and the others as they were; on refusal all are.
#[tactic(auto, using(std::proofs::lemmas::Bool::Decides::nat_tests), unfolding(crate::specs::Calls::frame_output, crate::specs::Calls::frame_number))]
pub fn frame(format: u64, pilots: u64, labels: &[u8], out: &mut [u16]) -> Result<(), Refusal>
    ensures number { number_of result ≡ frame_number format pilots labels.now (length out.old) }
    ensures output { out.new ≡ frame_output format pilots labels.now out.old }
{
    let (format, pilots) = check_frame(format, pilots, labels, out.len())?;
    put_frame(format, pilots, labels, out);
    Ok(())
}

// The format and the pilot choice, if all checks of frame hold.
#[tactic(auto, using(std::proofs::lemmas::Bool::Decides::nat_tests), unfolding(crate::specs::Calls::frame_number))]
fn check_frame(
    format: u64,
    pilots: u64,
    labels: &[u8],
    room: usize,
) -> Result<(AcmFormat, Pilots), Refusal>
    ensures number { number_of result ≡ frame_number format pilots labels.now room }
    ensures known { IfOk result (λ known. (known.0.number ≡ format) × (choice_number known.1 ≡ pilots)) }
{
    let format = AcmFormat::try_from(format)?;
    let choice = Pilots::try_from(pilots)?;
    if labels.len() != FRAME_LABELS {
        return Err(Refusal::Length);
    }
    if !bits::all_at_most(labels, format.top_label()) {
        return Err(Refusal::Element);
    }
    if room < frame_length(pilots) {
        return Err(Refusal::Output);
    }
    Ok((format, choice))
}

// The slots of a frame with a pilot choice; of a number that is no choice, those of one without pilots.
pub fn frame_length(pilots: u64) -> usize
    ensures { result ≡ frame_length pilots }
{
    if pilots == PILOTS_ON {
        PILOT_FRAME_LENGTH
    } else {
        FRAME_LENGTH
    }
}

// The header and behind it the labels, with pilots or without, to the front of out.
fn put_frame(format: AcmFormat, pilots: Pilots, labels: &[u8], out: &mut [u16])
    requires { (length labels.now ≡ frame_labels) × (frame_length (choice_number pilots) ≤ length out.old) }
    ensures { out.new ≡ frame_of format.number (choice_number pilots) labels.now ++ drop (frame_length (choice_number pilots)) out.old }
{
    header::steps::put(format, pilots, out);
    match pilots {
        Pilots::On => pilots::steps::put(labels, &mut out[header::steps::LENGTH..]),
        Pilots::Off => pilots::steps::put_labels(labels, &mut out[header::steps::LENGTH..]),
    }
}

// The codeword section at a place from 0 to 15: 8,100 of the caller's own labels, none where a check of try_section fails.
#[tactic(auto, using(bits::proofs::Refusals::not_passed, std::proofs::lemmas::Bool::Decides::nat_tests), unfolding(crate::specs::Calls::section_labels))]
pub fn section(labels: &[u8], place: u64) -> &[u8]
    ensures { result.now ≡ section_labels labels.now place }
{
    try_section(labels, place).unwrap_or(&labels[..0])
}

// The same, or the check that fails.
// Checks: 2, there are 129,600 labels; 8, the place is 0 to 15.
#[tactic(auto, using(std::proofs::lemmas::Bool::Decides::nat_tests), unfolding(crate::specs::Calls::section_number))]
pub fn try_section(labels: &[u8], place: u64) -> Result<&[u8], Refusal>
    ensures number { number_of result ≡ section_number labels.now place }
    ensures part { IfOk result (λ part. part.now ≡ section_labels labels.now place) }
{
    if labels.len() != FRAME_LABELS {
        return Err(Refusal::Length);
    }
    // std has no From between u64 and usize.
    if SECTIONS as u64 <= place {
        return Err(Refusal::Place);
    }
    let from = place as usize * SYMBOLS;
    Ok(&labels[from..from + SYMBOLS])
}
