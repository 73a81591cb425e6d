// Opened to the encoder alone: the labels of a codeword, a column at a time: the label so far is doubled and takes the next bit.
ghost use Rattle.std.specs.Prelude.{◌≡◌, true, ◌++◌, ℕ, ◌+◌, ◌*◌, ◌≤◌, ◌<◌, length, get_or, drop};
ghost use Rattle.bits.specs.Legal.{all_bits};
ghost use Rattle.acm.specs.Formats.{symbols};
ghost use Rattle.mapping.specs.Labels.{columns, labels};
ghost use Rattle.mapping.specs.Columns.{appended};

use acm::SYMBOLS;

// The labels of a codeword, of as many bits as it has columns, to the front of out.
// That it is of bits is a clause: a type for it is no plainer, since the one caller would have to show it to be of bits as now.
pub fn write(codeword: &[u8], out: &mut [u8])
    requires { (columns codeword.now ≤ 8) × (all_bits codeword.now ≡ true) × (symbols ≤ length out.old) }
    ensures { out.new ≡ labels (columns codeword.now) codeword.now ++ drop symbols out.old }
{
    out[..SYMBOLS].fill(0);
    for column in codeword.chunks_exact(SYMBOLS) {
        append(column, out);
    }
}

// Doubles each label so far and adds the bit of the next column. By index: what is written through `iter_mut` with `zip` is lost to a proof.
fn append(column: &[u8], out: &mut [u8])
    requires column_in_bounds { length column.now ≤ length out.old }
    requires by_index { (r : ℕ) → r < length column.now → 2 * get_or out.old r 0 + get_or column.now r 0 < 256 }
    ensures { out.new ≡ appended column.now out.old }
{
    for (r, &bit) in column.iter().enumerate() {
        out[r] = 2 * out[r] + bit;
    }
}
