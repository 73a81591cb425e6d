// Opened to the encoder alone: the BCH codewords of some pieces.
ghost use Rattle.std.specs.Prelude.{◌≡◌, true, ◌++◌, ◌≤◌, length, drop};
ghost use Rattle.bits.specs.Legal.{all_bits};
ghost use Rattle.pieces.specs.Pieces.{all_coded};

use acm::{PIECE_LENGTH, SYMBOLS};

// The codewords of a list's pieces, one behind the other, to the front of out.
// That the list is of bits is a clause: a type for it is no plainer, since each piece would have to be shown to be of bits as now.
// The codewords are written by index: what is written through `chunks_exact_mut` is lost to a proof.
pub fn write(list: &[u8], out: &mut [u8])
    requires { (all_bits list.now ≡ true) × (length (all_coded list.now) ≤ length out.old) }
    ensures { out.new ≡ all_coded list.now ++ drop (length (all_coded list.now)) out.old }
{
    for (j, piece) in list.chunks_exact(PIECE_LENGTH).enumerate() {
        bch::steps::encode(piece, &mut out[j * SYMBOLS..]);
    }
}
