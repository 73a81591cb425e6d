// Opened to the encoders alone: the second part of a codeword.
ghost use Rattle.std.specs.Prelude.{◌≡◌, true, ◌≤◌, length};
ghost use Rattle.std.proofs.lemmas.List.Edits.{sets};
ghost use Rattle.bits.specs.Legal.{all_bits};
ghost use Rattle.acm.specs.Formats.{format_of, N1};
ghost use Rattle.encoder.specs.Codeword.{hard_coded};

use acm::{AcmFormat, SYMBOLS};

// The codewords of a block's pieces, behind its trellis part.
// That the block is of bits is a clause: a type for it is no plainer, since the pieces' part of it would have to be shown to be of bits as now.
pub fn put_pieces(format: AcmFormat, block: &[u8], out: &mut [u8])
    requires { (length block.now ≡ (format_of format.number).k) × (all_bits block.now ≡ true) × ((format_of format.number).n ≤ length out.old) }
    ensures { out.new ≡ sets out.old (N1 (format_of format.number)) (hard_coded format.number block.now) }
{
    let f = format.record();
    pieces::steps::write(&block[f.k1..], &mut out[f.soft * SYMBOLS..]);
}
