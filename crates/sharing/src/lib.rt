// Two channels, one interleaver memory: encoding through the expanded interleaver that a memory holds.
#![tactic(auto)]

ghost use Rattle.std.specs.Prelude.{◌≡◌, true, ◌++◌, ◌≤◌, length, drop, IfOk};
ghost use Rattle.bits.specs.Checks.{number_of};
ghost use Rattle.acm.specs.Formats.{format_of};
ghost use Rattle.interleaver.specs.Expanded.{expanded, expands};
ghost use Rattle.sharing.specs.Calls.{shared_number, answer_of, shared, shared_workspace, shared_output, shared_memory};

use acm::AcmFormat;
use bits::Refusal;
use interleaver::steps::Expanded;

// The codeword of an information block, by the expanded interleaver that a memory holds: held names its size, 0 for none, a number as C has it.
// One of another size is built anew first. Answers the size that the memory holds then.
// Checks: 1, 2, 3, 4, 5, as encode's; 15, the memory has at least I entries; 3, if held is I, each of the first I entries is its position's
// interleaved position.
// Afterwards work and out are as encode leaves them, the first I entries of memory are the expanded interleaver, the others as they were; on
// refusal all bytes and entries are as they were, and the memory holds what it held.
pub fn encode_shared(
    format: u64,
    block: &[u8],
    work: &mut [u8],
    out: &mut [u8],
    memory: &mut [u16],
    held: u64,
) -> Result<u64, Refusal>
    ensures answer { answer_of held result ≡ shared format block.now (length work.old) (length out.old) memory.old held }
    ensures workspace { work.new ≡ shared_workspace format block.now work.old out.old memory.old held }
    ensures output { out.new ≡ shared_output format block.now work.old out.old memory.old held }
    ensures interleaver { memory.new ≡ shared_memory format block.now (length work.old) (length out.old) memory.old held }
{
    let format = check_shared(format, block, work.len(), out.len(), memory, held)?;
    let size = prepare(format, memory, held);
    encoder::steps::put_pieces(format, block, out);
    let k1 = format.record().k1;
    trellis::steps::outer(&block[..k1], work);
    inner_expanded::steps::encode(&Expanded::of(format, memory), work, out);
    Ok(size)
}

// Builds the expanded interleaver of a format, unless the memory holds it. Answers the size that it holds then. That it holds what `held` says is a
// clause: an `Expanded` only lends a memory to be read, and this one is written where `held` says another size.
fn prepare(format: AcmFormat, memory: &mut [u16], held: u64) -> u64
    requires { ((format_of format.number).i ≤ length memory.old) × (held ≡ (format_of format.number).i → expands format.number memory.old ≡ true) }
    ensures value { result ≡ (format_of format.number).i }
    ensures memory_after { memory.new ≡ expanded format.number ++ drop (format_of format.number).i memory.old }
{
    // std has no `From<usize>` for `u64`
    let size = format.record().i as u64;
    if held != size {
        expansion::steps::build(format, memory);
    }
    size
}

// The format of a call that encode_shared takes, or the first of its checks that fails.
#[tactic(auto, using(std::proofs::lemmas::Bool::Decides::nat_tests), unfolding(crate::specs::Calls::shared_number))]
fn check_shared(
    format: u64,
    block: &[u8],
    work: usize,
    out: usize,
    memory: &[u16],
    held: u64,
) -> Result<AcmFormat, Refusal>
    ensures number { number_of result ≡ shared_number format block.now work out memory.now held }
    ensures known { IfOk result (λ f. f.number ≡ format) }
{
    let format = encoder::check_encode(format, block, work, out)?;
    let size = format.record().i;
    if memory.len() < size {
        return Err(Refusal::Memory);
    }
    // as above
    if held == size as u64 && !entries::steps::holds(format, memory) {
        return Err(Refusal::Element);
    }
    Ok(format)
}
