// What the test programs share: buffers, fields to print, and blocks to encode and digests to compare, as tests/oracle/src/digest.rs defines
// them.
#![tactic(auto)]

ghost use Rattle.std.specs.Prelude.{◌≡◌, length};

use std::fmt::Display;
use std::io;

// Elements of a buffer: more than any list that a call takes.
const ROOM: usize = 135168;

// What buffers are filled with before a call: no bit, no label and no slot of a frame.
pub const UNTOUCHED: u8 = 170;

// A buffer of one value. The contract gives its length alone: lending the array as a slice needs no more, and proofs are slow where they can
// see so long a list.
pub fn buffer<T: Copy>(value: T) -> [T; ROOM]
    ensures { 135168 ≡ length result }
{
    [value; ROOM]
}

// The next field of a row.
pub fn print_field(rt: &impl Print, field: impl Display + Drop) -> io::Result<()> {
    print!(rt; ",{field}")
}

pub fn end_row(rt: &impl Print) -> io::Result<()> {
    println!(rt)
}

// What counts of an element where the whole does.
pub const WHOLE: u16 = u16::MAX;

// The digest of a list, as a field: from 1 on, d becomes (1000003 d + x + 1) modulo 4294967291 at each element x, of which only the bits of the
// mask count.
pub fn print_digest<T: Copy + Into<u16>>(rt: &impl Print, list: &[T], mask: u16) -> io::Result<()> {
    print_field(
        rt,
        list.iter()
            .fold(1, |d, &x| mixed(d, u64::from(x.into() & mask))),
    )
}

// A digest with one element more.
pub fn mixed(d: u64, x: u64) -> u64 {
    (d % 4294967291 * 1000003 + x % 65536 + 1) % 4294967291
}

// Bits from a linear congruential generator, the seed below 2^31.
pub fn fill_seeded(seed: u64, out: &mut [u8]) {
    let mut x = seed % 2147483648;
    for bit in out.iter_mut() {
        x = (x * 1103515245 + 12345) % 2147483648;
        // By `as`: std has no `From` that narrows, and a bit loses nothing.
        *bit = (x / 65536 % 2) as u8;
    }
}

// The first n elements, or all where there are fewer.
pub fn front<T>(list: &[T], n: usize) -> &[T] {
    &list[..n.min(list.len())]
}

// The same to write to: a shared loan and one to write to take two functions, as get and get_mut do.
pub fn front_mut<T>(list: &mut [T], n: usize) -> &mut [T] {
    let n = n.min(list.len());
    &mut list[..n]
}
