// Opened to the transfer frames alone: a frame's bits, randomized.
ghost use Rattle.std.specs.Prelude.{◌≡◌, ◌+◌, ◌*◌, ◌≤◌, length};
ghost use Rattle.std.proofs.lemmas.List.Edits.{sets};
ghost use Rattle.bits.specs.Words.{unpacked};
ghost use Rattle.randomizer.specs.Randomizer.{octet_length, randomized};
ghost use Rattle.randomizer.specs.Tables.{masked, Masks, Spread};

// Bits of an octet.
pub const OCTET_LENGTH: usize = 8;

// The bits of a frame, as many octets at a time as there are masks: behind the last of them the sequence begins anew.
// Buffer and place are two parameters, here and below: one equation, `sets`, says where the bits go and what stays, which a part of out would
// leave to the caller.
pub fn put_frame(frame: &[u8], masks: &[u8], spread: &[u64], out: &mut [u8], at: usize)
    requires { Masks masks.now × Spread spread.now × (at + octet_length * length frame.now ≤ length out.old) }
    ensures { out.new ≡ sets out.old at (randomized frame.now) }
{
    for (i, octets) in frame.chunks(masks.len()).enumerate() {
        let next = at + OCTET_LENGTH * (masks.len() * i);
        put_octets(octets, masks, spread, out, next);
    }
}

// The bits of octets, no more than there are masks, each masked with its own.
pub fn put_octets(octets: &[u8], masks: &[u8], spread: &[u64], out: &mut [u8], at: usize)
    requires { Spread spread.now × (length octets.now ≤ length masks.now) × (at + octet_length * length octets.now ≤ length out.old) }
    ensures { out.new ≡ sets out.old at (unpacked octet_length (masked octets.now masks.now)) }
{
    // The masks go by their place: of an octet that `zip` gives the proof does not know that it is below 256. So do the bits: of what is written
    // through chunks of out the proof knows the length alone.
    for (i, &octet) in octets.iter().enumerate() {
        let next = at + OCTET_LENGTH * i;
        let bits = spread[usize::from(octet ^ masks[i])].to_le_bytes();
        out[next..next + OCTET_LENGTH].copy_from_slice(&bits);
    }
}
