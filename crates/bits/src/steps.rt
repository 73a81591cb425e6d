// Opened to the layers above alone: bytes put into a buffer.
ghost use Rattle.std.specs.Prelude.{◌≡◌, ◌++◌, ◌≤◌, length, drop};

// The list, to the front of out.
// A loop, and by index: std's `copy_from_slice` leaves a call of the C library's memmove in the archive, which has none else, and of what is
// written through `iter_mut` beside another iterator the proof knows the length alone.
pub fn put(list: &[u8], out: &mut [u8])
    requires { length list.now ≤ length out.old }
    ensures { out.new ≡ list.now ++ drop (length list.now) out.old }
{
    for (i, &x) in list.iter().enumerate() {
        out[i] = x;
    }
}
