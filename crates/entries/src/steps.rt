// Opened to the encoder of two channels alone.
ghost use Rattle.std.specs.Prelude.{◌≡◌, ◌&&◌, map, ◌+◌, ◌*◌, ◌^◌, ◌≤◌, ◌<◌, eqb, length};
ghost use Rattle.bits.specs.Same.{same};
ghost use Rattle.acm.specs.Formats.{M, format_of};
ghost use Rattle.interleaver.specs.Interleaver.{permuted};
ghost use Rattle.interleaver.specs.Expanded.{expanded_from, expands};
ghost use Rattle.entries.specs.Columns.{column_on};

use acm::AcmFormat;
use interleaver::steps::Permutation;

// Whether the first I entries of a memory are the expanded interleaver of a format.
pub fn holds(format: AcmFormat, memory: &[u16]) -> bool
    requires { (format_of format.number).i ≤ length memory.now }
    ensures { result ≡ expands format.number memory.now }
{
    let total = format.record().i;
    compare(&Permutation::of_format(format), &memory[..total])
}

// Whether I entries are an expanded interleaver. One column on an interleaved position is W more, modulo I: so only the first column has to be
// worked out.
fn compare(permutation: &Permutation<'_>, memory: &[u16]) -> bool
    requires { length memory.now ≡ M * length permutation.now.alpha.now }
    ensures { result ≡ same memory.now (expanded_from (permuted permutation.now.alpha.now permutation.now.beta.now) 0 (length memory.now)) }
{
    let w = permutation.rows();
    if !compare_first(permutation, &memory[..w]) {
        return false;
    }
    let last = memory.len() - w;
    // Both are below I, so below 2^16, which `try_from` would ask again.
    compare_columns(w as u16, last as u16, &memory[..last], &memory[w..])
}

// Whether the entries of the first column are.
fn compare_first(permutation: &Permutation<'_>, column: &[u16]) -> bool
    requires { length column.now ≡ length permutation.now.alpha.now }
    ensures { result ≡ same column.now (expanded_from (permuted permutation.now.alpha.now permutation.now.beta.now) 0 (length column.now)) }
{
    column.iter().enumerate().all(|(row, &entry)| {
        let position = permutation.position_in(0, row);
        usize::from(entry) == position.number()
    })
}

// Whether each entry is what the one a column before it says.
// No early return: a loop without one is one the machine runs many entries at a time.
fn compare_columns(w: u16, last: u16, before: &[u16], entries: &[u16]) -> bool
    requires { (w + last < 2 ^ 16) × (length before.now ≡ length entries.now) }
    ensures { result ≡ same entries.now (map (column_on w last) before.now) }
{
    entries
        .iter()
        .zip(before)
        .fold(true, |right, (&entry, &one_before)| {
            right & (entry == column_on(w, last, one_before))
        })
}

// The entry one column on.
fn column_on(w: u16, last: u16, entry: u16) -> u16
    requires { w + last < 2 ^ 16 }
    ensures { result ≡ column_on w last entry }
{
    if entry < last {
        entry + w
    } else {
        entry - last
    }
}
