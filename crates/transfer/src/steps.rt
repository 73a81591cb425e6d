// Opened to the slicer alone: a transfer frame as bits, marked and randomized.
ghost use Rattle.std.specs.Prelude.{◌≡◌, ◌+◌, ◌*◌, ◌≤◌, length};
ghost use Rattle.std.proofs.lemmas.List.Edits.{sets};
ghost use Rattle.randomizer.specs.Randomizer.{octet_length};
ghost use Rattle.transfer.specs.Transfer.{marker_length, sync_marked};

use crate::tables;
use randomizer::steps;

// Bits of the marker.
pub const MARKER_LENGTH: usize = 32;

// The attached synchronization marker (table 3-1), which is not masked.
const MARKER: [u8; 4] = [0x1A, 0xCF, 0xFC, 0x1D];

const UNMASKED: [u8; 4] = [0, 0, 0, 0];

// The marked and randomized bits of a transfer frame, a bit a byte, from the byte at on. Why out and at are two parameters, `put_frame` of
// randomizer says.
pub fn put(frame: &[u8], out: &mut [u8], at: usize)
    requires { at + (marker_length + octet_length * length frame.now) ≤ length out.old }
    ensures { out.new ≡ sets out.old at (sync_marked frame.now) }
{
    // Copied once a call: lent as a `static`, from where it lies, it makes a long frame take 0.85 ns an octet, not 0.70.
    let spread = tables::SPREAD;
    steps::put_octets(&MARKER, &UNMASKED, &spread, out, at);
    steps::put_frame(frame, &tables::MASKS, &spread, out, at + MARKER_LENGTH);
}
