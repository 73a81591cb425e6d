// The C interface of include/sccc.h, thin over the layers below.
// An exported function can return neither a slice nor an enum, so the answers are structs: the number of the check that failed, 0 if none did,
// and what was asked for: 64-bit numbers, of a point two floats, or of segments arrays of bytes. A refusal has 0 in every other field but a slicer
// and the size that a memory holds, which it gives back.
// Between C's 64-bit numbers and lengths stands `as`: std has no `From` there, and that nothing is lost is proved.
#![tactic(auto)]

ghost use Rattle.std.specs.Prelude.{◌≡◌, length};
ghost use Rattle.bits.specs.Checks.{check_number};
ghost use Rattle.acm.specs.Formats.{looked_up};
ghost use Rattle.trellis.specs.Answers.{step_answer};
ghost use Rattle.trellis.specs.Trellis.{stepped};
ghost use Rattle.interleaver.specs.Interleaver.{answer_of as position_answer_of, interleaved_at};
ghost use Rattle.interleaver.specs.Provenance.{provenance_at};
ghost use Rattle.encoder.specs.Calls.{encode_number, encode_workspace, encode_output, labels_number, labels_output};
ghost use Rattle.framing.specs.Calls.{frame_number, frame_output};
ghost use Rattle.compare.specs.Comparison.{answer_of as comparison_answer_of, compared};
ghost use Rattle.sccc.specs.Structs.{info_struct, step_struct, position_struct, range_struct, comparison_struct};

use bits::Refusal;
use bits::checks::number;
use interleaver::{InterleavedPosition, Source, UpperPosition};
use trellis::Step;

pub mod channels;
pub mod judging;
pub mod lines;
pub mod machine;
pub mod run;
pub mod stream;
pub mod symbols;

// The number in the answer of a call that fails no check.
const PASSED: u64 = 0;

// An ACM format's m, K, I, W and N, 1 where its interleaver has rows that stand in for published ones, else 0, and the soft share: K1, K2 and the
// soft bits in a label.
#[repr(C)]
#[derive(Debug, Default, Drop)]
pub struct FormatInfo {
    pub number: u64,
    pub m: u64,
    pub k: u64,
    pub i: u64,
    pub w: u64,
    pub n: u64,
    pub provisional: u64,
    pub k1: u64,
    pub k2: u64,
    pub soft: u64,
}

// The record of an ACM format.
// Checks: 1.
#[unsafe(no_mangle)]
pub extern "C" fn sccc_format(format: u64) -> FormatInfo
    ensures { result ≡ info_struct (looked_up format) (provenance_at format) }
{
    match acm::lookup(format) {
        Ok(f) => FormatInfo {
            number: PASSED,
            m: f.m as u64,
            k: f.k as u64,
            i: f.i as u64,
            w: f.w as u64,
            n: f.n as u64,
            provisional: provisional(format),
            k1: f.k1 as u64,
            k2: f.k2 as u64,
            soft: f.soft as u64,
        },
        Err(refusal) => FormatInfo {
            number: refused(refusal),
            ..FormatInfo::default()
        },
    }
}

// 1 where the interleaver of a format has stand-in rows, else 0.
fn provisional(format: u64) -> u64
    ensures { result ≡ (provenance_at format).provisional }
{
    u64::from(interleaver::provenance(format) == Ok(Source::StandIn))
}

// The number of a check that failed, as wide as in the answers.
fn refused(refusal: Refusal) -> u64
    ensures { result ≡ check_number refusal }
{
    u64::from(u8::from(refusal))
}

// The two output bits of a trellis step, and the state 2 * x0 + x1 that follows.
#[repr(C)]
#[derive(Debug, Default, Drop)]
pub struct Stepped {
    pub number: u64,
    pub systematic: u64,
    pub parity: u64,
    pub state: u64,
}

impl From<Result<Step, Refusal>> for Stepped {
    ghost from_gives = { λ answer stepped. stepped ≡ step_struct (step_answer answer) };

    fn from(answer: Result<Step, Refusal>) -> Stepped {
        match answer {
            Ok(step) => Stepped {
                number: PASSED,
                systematic: u64::from(step.systematic),
                parity: u64::from(step.parity),
                state: u64::from(u8::from(step.state)),
            },
            Err(refusal) => Stepped {
                number: refused(refusal),
                ..Stepped::default()
            },
        }
    }
}

// One trellis step from the state 2 * x0 + x1 on a bit.
// Checks: 3, of the state and of the bit.
#[unsafe(no_mangle)]
pub extern "C" fn sccc_step(state: u64, bit: u64) -> Stepped
    ensures { result ≡ step_struct (stepped state bit) }
{
    Stepped::from(trellis::step(state, bit))
}

// An interleaved position.
#[repr(C)]
#[derive(Debug, Default, Drop)]
pub struct Interleaved {
    pub number: u64,
    pub position: u64,
}

impl From<Result<InterleavedPosition, Refusal>> for Interleaved {
    ghost from_gives = { λ answer interleaved. interleaved ≡ position_struct (position_answer_of answer) };

    fn from(answer: Result<InterleavedPosition, Refusal>) -> Interleaved {
        match answer {
            Ok(position) => Interleaved {
                number: PASSED,
                position: position.number() as u64,
            },
            Err(refusal) => Interleaved {
                number: refused(refusal),
                ..Interleaved::default()
            },
        }
    }
}

// The interleaved position π(i) of position i in the upper register.
// Checks: 1; 8, the position is below I.
#[unsafe(no_mangle)]
pub extern "C" fn sccc_interleave(format: u64, position: u64) -> Interleaved
    ensures { result ≡ position_struct (interleaved_at format position) }
{
    Interleaved::from(interleaver::interleave(format, UpperPosition(position as usize)))
}

// The codeword of an information block.
// Checks: 1; 2, the block has K bits; 3, each is 0 or 1; 4, the workspace has at least I bytes; 5, the output has at least N bytes.
// Afterwards the first I bytes of work are the outer kept bits before interleaving, the first N bytes of out are the codeword, and the
// others are as they were; on refusal all are.
#[unsafe(no_mangle)]
pub extern "C" fn sccc_encode(format: u64, block: &[u8], work: &mut [u8], out: &mut [u8]) -> u8
    ensures number { result ≡ encode_number format block.now (length work.old) (length out.old) }
    ensures workspace { work.new ≡ encode_workspace format block.now work.old out.old }
    ensures output { out.new ≡ encode_output format block.now work.old out.old }
{
    number(encoder::encode(format, block, work, out))
}

// The labels of a codeword: 8,100 numbers of m bits.
// Checks: 1; 2, the codeword has N bits; 3, each is 0 or 1; 5, the output has at least 8,100 bytes.
// Afterwards the first 8,100 bytes of out are the labels and the others as they were; on refusal all are.
#[unsafe(no_mangle)]
pub extern "C" fn sccc_labels(format: u64, codeword: &[u8], out: &mut [u8]) -> u8
    ensures number { result ≡ labels_number format codeword.now (length out.old) }
    ensures output { out.new ≡ labels_output format codeword.now out.old }
{
    number(encoder::labels(format, codeword, out))
}

// The frame of sixteen codewords' labels: marker and descriptor bits as 256 for 0 and 257 for 1, then the labels, and with pilots (choice 1)
// behind every 540 of them sixteen times 258.
// Checks: 1; 14, the choice is 0 or 1; 2, there are 129,600 labels; 3, each is below 2^m; 5, the output has at least 129,920 slots, with pilots
// 133,760.
// Afterwards so many slots of out, from the first, are the frame and the others as they were; on refusal all are.
#[unsafe(no_mangle)]
pub extern "C" fn sccc_frame(format: u64, pilots: u64, labels: &[u8], out: &mut [u16]) -> u8
    ensures number { result ≡ frame_number format pilots labels.now (length out.old) }
    ensures output { out.new ≡ frame_output format pilots labels.now out.old }
{
    number(framing::frame(format, pilots, labels, out))
}

// Where a codeword section stands in the caller's labels.
#[repr(C)]
#[derive(Debug, Default, Drop)]
pub struct SectionRange {
    pub number: u64,
    pub start: u64,
    pub length: u64,
}

// The codeword section at a place from 0 to 15, 8,100 of the caller's own labels, by its start and its length.
// Checks: 2, there are 129,600 labels; 8, the place is 0 to 15.
#[unsafe(no_mangle)]
pub extern "C" fn sccc_section(labels: &[u8], place: u64) -> SectionRange
    ensures { result ≡ range_struct labels.now place }
{
    match framing::try_section(labels, place) {
        Ok(_) => SectionRange {
            number: PASSED,
            start: place * acm::SYMBOLS as u64,
            length: acm::SYMBOLS as u64,
        },
        Err(refusal) => SectionRange {
            number: refused(refusal),
            ..SectionRange::default()
        },
    }
}

// Whether two label lists are the same, 1 or 0; if they are not, in how many bits they differ, and the first place at which they do.
#[repr(C)]
#[derive(Debug, Default, Drop)]
pub struct Comparison {
    pub number: u64,
    pub same: u64,
    pub count: u64,
    pub first: u64,
}

impl From<Result<compare::Comparison, Refusal>> for Comparison {
    ghost from_gives = { λ answer comparison. comparison ≡ comparison_struct (comparison_answer_of answer) };

    fn from(answer: Result<compare::Comparison, Refusal>) -> Comparison {
        match answer {
            Ok(compare::Comparison::Same) => Comparison {
                number: PASSED,
                same: 1,
                ..Comparison::default()
            },
            Ok(compare::Comparison::Differ { count, first }) => Comparison {
                number: PASSED,
                same: 0,
                count: count as u64,
                first: first as u64,
            },
            Err(refusal) => Comparison {
                number: refused(refusal),
                ..Comparison::default()
            },
        }
    }
}

// Two lists of 8,100 labels of a format held against each other: in how many bits they differ, and where first.
// Checks: 1; 2, each list has 8,100 labels; 3, each label of either is below 2^m.
#[unsafe(no_mangle)]
pub extern "C" fn sccc_compare(format: u64, a: &[u8], b: &[u8]) -> Comparison
    ensures { result ≡ comparison_struct (compared format a.now b.now) }
{
    Comparison::from(compare::compare(format, a, b))
}
