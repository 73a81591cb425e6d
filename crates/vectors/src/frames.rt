// For every ACM format, without pilots and with them, the digests of the frame marker, the frame descriptor, the labels of sixteen seeded
// blocks, and their frame.
use acm::AcmFormat;
use framing::{FRAME_LABELS, PILOTS_OFF, PILOTS_ON};
use std::io;
use testkit::{WHOLE, buffer, front, front_mut, print_digest};

// Bits of the frame marker, and of the frame descriptor behind it.
const MARKER: usize = 256;

const DESCRIPTOR: usize = 64;

// What counts of a slot of the header, 256 or 257: its last bit, which is the header's.
const LAST_BIT: u16 = 1;

// Blocks of a frame.
const BLOCKS: u64 = 16;

pub(crate) fn run(rt: &impl Print) -> io::Result<()> {
    println!(rt; "format,pilots,marker,descriptor,labels,frame")?;
    for format in AcmFormat::all() {
        print_frames(rt, format)?;
    }
    Ok(())
}

fn print_frames(rt: &impl Print, format: AcmFormat) -> io::Result<()> {
    let mut labels = buffer(0);
    let labels = front_mut(&mut labels, FRAME_LABELS);
    put_sections(format, labels);
    print_frame(rt, format, PILOTS_OFF, labels)?;
    print_frame(rt, format, PILOTS_ON, labels)
}

fn print_frame(rt: &impl Print, format: AcmFormat, pilots: u64, labels: &[u8]) -> io::Result<()> {
    let mut slots = buffer(0);
    // A refused call writes nothing, so the digests are others.
    let _ = framing::frame(format.number, pilots, labels, &mut slots);
    print!(rt; "{},{pilots}", format.number)?;
    print_digests(rt, labels, front(&slots, framing::frame_length(pilots)))
}

fn print_digests(rt: &impl Print, labels: &[u8], frame: &[u16]) -> io::Result<()> {
    let header = front(frame, MARKER + DESCRIPTOR);
    let (marker, descriptor) = header.split_at(MARKER.min(header.len()));
    print_digest(rt, marker, LAST_BIT)?;
    print_digest(rt, descriptor, LAST_BIT)?;
    print_digest(rt, labels, WHOLE)?;
    print_digest(rt, frame, WHOLE)?;
    testkit::end_row(rt)
}

fn put_sections(format: AcmFormat, labels: &mut [u8]) {
    let first = 2000 + BLOCKS * format.number;
    for (seed, section) in (first..first + BLOCKS).zip(labels.chunks_exact_mut(acm::SYMBOLS)) {
        put_labels(format, seed, section);
    }
}

// The labels of a seeded block, to the front of out.
fn put_labels(format: AcmFormat, seed: u64, out: &mut [u8]) {
    let f = format.record();
    let mut block = buffer(0);
    let mut work = buffer(0);
    let mut codeword = buffer(0);
    testkit::fill_seeded(seed, &mut block);
    let _ = encoder::encode(format.number, front(&block, f.k), &mut work, &mut codeword);
    let _ = encoder::labels(format.number, front(&codeword, f.n), out);
}
