// Opened to the encoder of two channels alone.
ghost use Rattle.std.specs.Prelude.{◌≡◌, ◌++◌, ◌*◌, ◌≤◌, ◌<◌, length, drop};
ghost use Rattle.std.proofs.lemmas.List.Edits.{sets};
ghost use Rattle.acm.specs.Formats.{M, format_of};
ghost use Rattle.interleaver.specs.Interleaver.{permuted};
ghost use Rattle.interleaver.specs.Expanded.{expanded_from, expanded};

use acm::AcmFormat;
use interleaver::steps::Permutation;

// Builds the expanded interleaver of a format at the front of a memory. The entries behind it stay.
pub fn build(format: AcmFormat, memory: &mut [u16])
    requires { (format_of format.number).i ≤ length memory.old }
    ensures { memory.new ≡ expanded format.number ++ drop (format_of format.number).i memory.old }
{
    write(&Permutation::of_format(format), memory);
}

// Writes the entries of all positions, a column at a time. Columns are cut out by index: what is written by way of `chunks_exact_mut` is lost to a
// proof.
fn write(permutation: &Permutation<'_>, memory: &mut [u16])
    requires { M * length permutation.now.alpha.now ≤ length memory.old }
    ensures { memory.new ≡ sets memory.old 0 (expanded_from (permuted permutation.now.alpha.now permutation.now.beta.now) 0 (M * length permutation.now.alpha.now)) }
{
    let rows = permutation.rows();
    for column in 0..interleaver::M {
        let first = rows * column;
        write_column(permutation, column, &mut memory[first..first + rows]);
    }
}

// Writes the entries of a column.
fn write_column(permutation: &Permutation<'_>, column: usize, entries: &mut [u16])
    requires { (column < M) × (length entries.old ≡ length permutation.now.alpha.now) }
    ensures { entries.new ≡ expanded_from (permuted permutation.now.alpha.now permutation.now.beta.now) (length permutation.now.alpha.now * column) (length permutation.now.alpha.now) }
{
    for (row, entry) in entries.iter_mut().enumerate() {
        // below I, so below 2^16, which `try_from` would ask again
        *entry = permutation.position_in(column, row).number() as u16;
    }
}
