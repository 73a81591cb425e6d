// Transfer frames in, blocks out, of one format after another: the slicer's calls.
// `as` stands between C's 64-bit numbers and lengths, for which std has no `From`; that nothing is lost is proved.
ghost use Rattle.std.specs.Prelude.{◌≡◌, length};
ghost use Rattle.slicer.specs.Calls.{answer_of, fresh, pushed, push_memory, sliced, block_memory, block_output};
ghost use Rattle.slicer.specs.Change.{look_answer_of, changed, looked};
ghost use Rattle.sccc.specs.Structs.{slicer_of, slicer_struct, answer_struct, block_struct, look_struct};

use crate::{PASSED, refused};
use bits::Refusal;
use slicer::{Ahead, Sliced};

// A channel's slicer: its format, the octets of each of its frames (0 before the first), and how many bits wait.
#[repr(C)]
#[derive(Debug, Drop)]
pub struct Slicer {
    pub format: u64,
    pub frame_length: u64,
    pub waiting: u64,
}

// The struct of a slicer of the layer below.
impl From<slicer::Slicer> for Slicer {
    ghost from_gives = { λ below s. s ≡ slicer_struct below };

    fn from(s: slicer::Slicer) -> Slicer {
        Slicer {
            format: s.format,
            frame_length: s.octets as u64,
            waiting: s.waiting as u64,
        }
    }
}

// The slicer that a struct tells of.
impl From<Slicer> for slicer::Slicer {
    ghost from_gives = { λ s below. below ≡ slicer_of s };

    fn from(s: Slicer) -> slicer::Slicer {
        slicer::Slicer {
            format: s.format,
            octets: s.frame_length as usize,
            waiting: s.waiting as usize,
        }
    }
}

// A slicer, and the number of the check that failed; then the slicer is as it came.
#[repr(C)]
#[derive(Debug, Drop)]
pub struct SlicerAnswer {
    pub number: u64,
    pub slicer: Slicer,
}

impl SlicerAnswer {
    // The answer of a call that was lent a slicer.
    fn of(before: slicer::Slicer, answer: Result<slicer::Slicer, Refusal>) -> Self
        ensures { result ≡ answer_struct (answer_of before answer) }
    {
        match answer {
            Ok(after) => SlicerAnswer {
                number: PASSED,
                slicer: Slicer::from(after),
            },
            Err(refusal) => SlicerAnswer {
                number: refused(refusal),
                slicer: Slicer::from(before),
            },
        }
    }
}

// The same of a call for a block; wait is 1 where fewer than K bits wait, else 0.
#[repr(C)]
#[derive(Debug, Drop)]
pub struct BlockAnswer {
    pub number: u64,
    pub wait: u64,
    pub slicer: Slicer,
}

// Blocks that the waiting bits would yield, and bits that would stay.
#[repr(C)]
#[derive(Debug, Default, Drop)]
pub struct LookAnswer {
    pub number: u64,
    pub blocks: u64,
    pub bits: u64,
}

impl From<Result<Ahead, Refusal>> for LookAnswer {
    ghost from_gives = { λ answer look. look ≡ look_struct (look_answer_of answer) };

    fn from(answer: Result<Ahead, Refusal>) -> LookAnswer {
        match answer {
            Ok(ahead) => LookAnswer {
                number: PASSED,
                blocks: ahead.blocks as u64,
                bits: ahead.bits as u64,
            },
            Err(refusal) => LookAnswer {
                number: refused(refusal),
                ..LookAnswer::default()
            },
        }
    }
}

// A slicer that has taken no frame. It takes any format; the calls refuse one that there is not.
#[unsafe(no_mangle)]
pub extern "C" fn sccc_slicer_new(format: u64) -> Slicer
    ensures { result ≡ slicer_struct (fresh format) }
{
    Slicer::from(slicer::Slicer::new(format))
}

// A transfer frame taken in: its marked and randomized bits stand behind those that wait.
// Checks: 1; 9, the frame has 223 to 65,536 octets; 10, they are as many as the channel's first frame has; 11, fewer than K bits wait; 2, at
// most 600,000 wait; 3, each that is there is 0 or 1; 4, the memory has at least 600,000 bytes.
// Afterwards the bytes behind the bits that now wait are as they were; on refusal all are.
#[unsafe(no_mangle)]
pub extern "C" fn sccc_slicer_push(slicer: Slicer, frame: &[u8], waiting: &mut [u8]) -> SlicerAnswer
    ensures answer { result ≡ answer_struct (pushed (slicer_of slicer) frame.now waiting.old) }
    ensures memory { waiting.new ≡ push_memory (slicer_of slicer) frame.now waiting.old }
{
    let before = slicer::Slicer::from(slicer);
    SlicerAnswer::of(before, before.push(frame, waiting))
}

// A block taken out: the first K waiting bits to the front of out, and the others to the front of the memory.
// Checks: 1; 2, at most 600,000 bits wait; 3, each that is there is 0 or 1; 4, the memory has at least 600,000 bytes; 5, the output has at least
// K bytes; and where none fails, "wait" if fewer than K bits wait.
// Afterwards the bytes behind the block, and those behind the bits that now wait, are as they were; on refusal and on "wait" all are.
#[unsafe(no_mangle)]
pub extern "C" fn sccc_slicer_block(
    slicer: Slicer,
    waiting: &mut [u8],
    out: &mut [u8],
) -> BlockAnswer
    ensures answer { result ≡ block_struct (sliced (slicer_of slicer) waiting.old (length out.old)) }
    ensures memory { waiting.new ≡ block_memory (slicer_of slicer) waiting.old (length out.old) }
    ensures output { out.new ≡ block_output (slicer_of slicer) waiting.old out.old }
{
    let before = slicer::Slicer::from(slicer);
    match before.block(waiting, out) {
        Ok(Sliced::Block(after)) => BlockAnswer {
            number: PASSED,
            wait: 0,
            slicer: Slicer::from(after),
        },
        Ok(Sliced::Wait) => BlockAnswer {
            number: PASSED,
            wait: 1,
            slicer: Slicer::from(before),
        },
        Err(refusal) => BlockAnswer {
            number: refused(refusal),
            wait: 0,
            slicer: Slicer::from(before),
        },
    }
}

// The format of the blocks that follow. The bits that wait are kept, in order, and so is the frame length.
// Checks: 1, of the slicer's format and of the commanded one; 2, at most 600,000 bits wait.
#[unsafe(no_mangle)]
pub extern "C" fn sccc_slicer_change(slicer: Slicer, format: u64) -> SlicerAnswer
    ensures { result ≡ answer_struct (changed (slicer_of slicer) format) }
{
    let before = slicer::Slicer::from(slicer);
    SlicerAnswer::of(before, before.change(format))
}

// How many blocks the waiting bits would yield in a format, if it were commanded, and how many bits would stay.
// Checks: those of sccc_slicer_change.
#[unsafe(no_mangle)]
pub extern "C" fn sccc_slicer_look(slicer: Slicer, format: u64) -> LookAnswer
    ensures { result ≡ look_struct (looked (slicer_of slicer) format) }
{
    LookAnswer::from(slicer::Slicer::from(slicer).look(format))
}
