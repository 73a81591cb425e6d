// Encoding through an interleaver memory that channels share.
ghost use Rattle.std.specs.Prelude.{◌≡◌, length};
ghost use Rattle.sharing.specs.Calls.{shared, shared_memory, shared_workspace, shared_output};
ghost use Rattle.sccc.specs.Structs.{shared_struct};

use crate::{PASSED, refused};

// The size I that the memory holds, 0 for none; on refusal what it held.
#[repr(C)]
#[derive(Debug, Drop)]
pub struct SharedAnswer {
    pub number: u64,
    pub held: u64,
}

// The codeword of an information block, by the expanded interleaver that a memory holds: held names its size, 0 for none. One of another size is
// built anew first.
// Checks: 1, 2, 3, 4, 5, as encode's; 15, the memory has at least I entries; 3, if held is I, each of the first I entries is its position's
// interleaved position.
// Afterwards work and out are as encode leaves them, the first I entries of memory are the expanded interleaver, the others as they were, and
// held is I; on refusal all bytes, entries and held are as they were.
#[unsafe(no_mangle)]
pub extern "C" fn sccc_encode_shared(
    format: u64,
    block: &[u8],
    work: &mut [u8],
    out: &mut [u8],
    memory: &mut [u16],
    held: u64,
) -> SharedAnswer
    ensures answer { result ≡ shared_struct (shared format block.now (length work.old) (length out.old) memory.old held) }
    ensures workspace { work.new ≡ shared_workspace format block.now work.old out.old memory.old held }
    ensures output { out.new ≡ shared_output format block.now work.old out.old memory.old held }
    ensures interleaver { memory.new ≡ shared_memory format block.now (length work.old) (length out.old) memory.old held }
{
    match sharing::encode_shared(format, block, work, out, memory, held) {
        Ok(size) => SharedAnswer {
            number: PASSED,
            held: size,
        },
        Err(refusal) => SharedAnswer {
            number: refused(refusal),
            held,
        },
    }
}
