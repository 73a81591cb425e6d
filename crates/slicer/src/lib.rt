// The slicer (000, 3.4): transfer frames in, information blocks out. Between the two the bits wait in memory that the caller lends.
// Between blocks the format may change; a look tells beforehand what that would bring.
// Each call is proved by opening the definitions that its contract names: no answer is written by hand.
#![tactic(auto, using(crate::proofs::Calls::calls), unfolding(crate::specs::Calls::push_number, crate::specs::Calls::pushed, crate::specs::Calls::push_memory, crate::specs::Calls::block_number, crate::specs::Calls::sliced, crate::specs::Calls::block_memory, crate::specs::Calls::block_output, crate::specs::Change::change_number, crate::specs::Change::changed, crate::specs::Change::looked, waiting::specs::Waiting::waiting_number))]

ghost use Rattle.std.specs.Prelude.{◌≡◌, length, IfOk};
ghost use Rattle.bits.specs.Checks.{number_of};
ghost use Rattle.slicer.specs.Calls.{fresh, fits_channel, push_number, answer_of, pushed, push_memory, block_number, block_answer_of, sliced, block_memory, block_output};
ghost use Rattle.slicer.specs.Change.{change_number, changed, look_answer_of, looked};

use acm::AcmFormat;
use bits::Refusal;
use randomizer::steps::OCTET_LENGTH;
use transfer::steps::MARKER_LENGTH;

// Octets of the shortest and of the longest transfer frame (004, 3.2.2).
const LEAST_FRAME: usize = 223;

const MOST_FRAME: usize = 65536;

// A channel's slicer, as it stands between two calls. A call that is refused leaves the caller the one it had.
#[derive(Clone, Copy, Debug, PartialEq, Eq)]
pub struct Slicer {
    pub format: u64,
    // octets of each of the channel's frames, 0 before the first: no `Option`, of which `Some(0)` would be one state more than there is, and the
    // definitions and theorems speak of 0
    pub octets: usize,
    // how many bits wait, from byte 0 of the memory on
    pub waiting: usize,
}

// The answer of a call for a block. No `Option`: that the block has to wait is an answer of its own, and no slicer that is missing.
#[derive(Clone, Copy, Debug, PartialEq, Eq)]
pub enum Sliced {
    // A block is handed out.
    Block(Slicer),
    // Fewer bits wait than a block has: the slicer is as it came.
    Wait,
}

// What a look ahead tells: blocks that the waiting bits yield, and bits that stay.
#[derive(Clone, Copy, Debug, PartialEq, Eq)]
pub struct Ahead {
    pub blocks: usize,
    pub bits: usize,
}

impl Slicer {
    // A slicer that has taken no frame. It takes any format; the calls refuse one that there is not.
    pub fn new(format: u64) -> Slicer
        ensures { result ≡ fresh format }
    {
        Slicer {
            format,
            octets: 0,
            waiting: 0,
        }
    }

    // A transfer frame taken in: its marked and randomized bits stand behind those that wait.
    // Checks: 1; 9, the frame has 223 to 65,536 octets; 10, they are as many as the channel's first frame has; 11, fewer than K bits wait; 2, at
    // most 600,000 wait; 3, each that is there is 0 or 1; 4, the memory has at least 600,000 bytes.
    // Afterwards the bytes behind the bits that now wait are as they were; on refusal all are.
    pub fn push(self, frame: &[u8], memory: &mut [u8]) -> Result<Slicer, Refusal>
        ensures answer { answer_of self result ≡ pushed self frame.now memory.old }
        ensures memory { memory.new ≡ push_memory self frame.now memory.old }
    {
        self.check_push(frame.len(), memory)?;
        transfer::steps::put(frame, memory, self.waiting);
        Ok(Slicer {
            octets: frame.len(),
            waiting: self.waiting + MARKER_LENGTH + OCTET_LENGTH * frame.len(),
            ..self
        })
    }

    // The first check of push that fails for a frame of so many octets.
    fn check_push(self, octets: usize, memory: &[u8]) -> Result<(), Refusal>
        ensures { number_of result ≡ push_number self octets memory.now }
    {
        let format = AcmFormat::try_from(self.format)?;
        if !(LEAST_FRAME..=MOST_FRAME).contains(&octets) {
            return Err(Refusal::FrameLength);
        }
        if !fits_channel(self.octets, octets) {
            return Err(Refusal::ChannelLength);
        }
        if format.record().k <= self.waiting {
            return Err(Refusal::BlockWaits);
        }
        waiting::check(self.waiting, memory)
    }

    // A block taken out: the first K waiting bits to the front of out, and the others to the front of the memory.
    // Checks: 1; 2, at most 600,000 bits wait; 3, each that is there is 0 or 1; 4, the memory has at least 600,000 bytes; 5, the output has at least
    // K bytes; and where none fails, "wait" if fewer than K bits wait.
    // Afterwards the bytes behind the block, and those behind the bits that now wait, are as they were; on refusal and on "wait" all are.
    pub fn block(self, memory: &mut [u8], out: &mut [u8]) -> Result<Sliced, Refusal>
        ensures answer { block_answer_of self result ≡ sliced self memory.old (length out.old) }
        ensures memory { memory.new ≡ block_memory self memory.old (length out.old) }
        ensures output { out.new ≡ block_output self memory.old out.old }
    {
        let k = self.check_block(memory, out.len())?.record().k;
        if self.waiting < k {
            return Ok(Sliced::Wait);
        }
        bits::steps::put(&memory[..k], out);
        memory.copy_within(k..self.waiting, 0);
        Ok(Sliced::Block(Slicer {
            waiting: self.waiting - k,
            ..self
        }))
    }

    // The slicer's format, if all checks of block hold.
    fn check_block(self, memory: &[u8], room: usize) -> Result<AcmFormat, Refusal>
        ensures number { number_of result ≡ block_number self memory.now room }
        ensures known { IfOk result (λ f. f.number ≡ self.format) }
    {
        let format = AcmFormat::try_from(self.format)?;
        waiting::check(self.waiting, memory)?;
        if room < format.record().k {
            return Err(Refusal::Output);
        }
        Ok(format)
    }

    // The format of the blocks that follow. The bits that wait are kept, in order, and so is the frame length.
    // Checks: 1, of the slicer's format and of the commanded one; 2, at most 600,000 bits wait.
    pub fn change(self, format: u64) -> Result<Slicer, Refusal>
        ensures { answer_of self result ≡ changed self format }
    {
        self.check_change(format)?;
        Ok(Slicer { format, ..self })
    }

    // How many blocks the waiting bits would yield in a format, if it were commanded, and how many bits would stay.
    // Checks: those of change.
    pub fn look(self, format: u64) -> Result<Ahead, Refusal>
        ensures { look_answer_of result ≡ looked self format }
    {
        let k = self.check_change(format)?.record().k;
        Ok(Ahead {
            blocks: self.waiting / k,
            bits: self.waiting % k,
        })
    }

    // The commanded format, if all checks of change, and of look, hold.
    fn check_change(self, format: u64) -> Result<AcmFormat, Refusal>
        ensures number { number_of result ≡ change_number self format }
        ensures known { IfOk result (λ f. f.number ≡ format) }
    {
        AcmFormat::try_from(self.format)?;
        let format = AcmFormat::try_from(format)?;
        if waiting::MEMORY < self.waiting {
            return Err(Refusal::Length);
        }
        Ok(format)
    }
}

// Whether a frame of so many octets is as long as the channel's first, if there was one.
fn fits_channel(first: usize, octets: usize) -> bool
    ensures { result ≡ fits_channel first octets }
{
    first == 0 || first == octets
}
