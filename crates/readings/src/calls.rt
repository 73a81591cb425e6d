// Which call a row asks for: by a `match` on its word's letter, since each call reads the row in its own way and a table of closures would say
// no more.
use crate::row::{letter, numbers};
use std::io;

// A row that begins with no letter of these is a comment.
pub(crate) fn make(rt: &impl Print, row: &[u8]) -> io::Result<()> {
    match letter(row) {
        b'e' => crate::encoding::encode(rt, numbers(row)),
        b'l' => crate::encoding::labels(rt, numbers(row)),
        b'f' => crate::frames::frame(rt, numbers(row)),
        b's' => crate::frames::section(rt, numbers(row)),
        b'c' => crate::frames::compare(rt, numbers(row)),
        b't' => crate::numbers::trellis(rt, numbers(row)),
        b'i' => crate::numbers::interleaver(rt, numbers(row)),
        b'a' => crate::numbers::acm(rt, numbers(row)),
        b'p' => crate::numbers::provenance(rt, numbers(row)),
        _ => Ok(()),
    }
}
