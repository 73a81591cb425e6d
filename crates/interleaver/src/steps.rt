// Opened to the inner encoder and the expanded interleaver alone: a format's interleaver, a walk over its positions in order, and an expanded
// interleaver.
ghost use Rattle.std.specs.Prelude.{◌≡◌, ℕ, ◌+◌, ◌*◌, ◌%◌, ◌≤◌, ◌<◌, min, length, get_or};
ghost use Rattle.acm.specs.Formats.{M, format_of};
ghost use Rattle.annex_c.specs.AnnexC.{Vectors, widest, size_of};
ghost use Rattle.interleaver.specs.Interleaver.{permuted};
ghost use Rattle.interleaver.specs.Place.{OfRow};
ghost use Rattle.interleaver.specs.Walk.{Walked, InColumn, Multiples, down_one};

pub use crate::memory::Expanded;
pub use crate::place::Place;
use crate::{InterleavedPosition, M, UpperPosition};
use acm::AcmFormat;
use annex_c_tables::steps::SizeVectors;

// The banks of any column and any β: 0 to M - 1, twice over, so that their sum needs no modulo.
pub const BANKS: usize = 2 * M;

// The interleaver of a size: its vectors α and β, one element a row, and W × bank for each sum of a column and a β.
#[derive(Clone, Copy)]
pub struct Permutation<'a> {
    pub alpha: &'a [u16],
    pub beta: &'a [u8],
    starts: [u16; BANKS],
    pub ghost ranges: { Vectors alpha.now beta.now },
    pub ghost starts_are: { Multiples (length alpha.now) (M * length alpha.now) starts },
}

impl<'a> Permutation<'a> {
    // That of any two vectors: so their ranges are asked.
    pub fn over(alpha: &'a [u16], beta: &'a [u8]) -> Permutation<'a>
        requires { Vectors alpha.now beta.now × (0 < length alpha.now) }
        ensures alpha_value { result.alpha.now ≡ alpha.now }
        ensures beta_value { result.beta.now ≡ beta.now }
    {
        let w = alpha.len();
        Permutation {
            alpha,
            beta,
            starts: multiples(w, M * w),
        }
    }

    // That of a format.
    pub fn of_format(format: AcmFormat) -> Permutation<'a>
        ensures alpha_value { result.alpha.now ≡ (size_of (format_of format.number).w).α }
        ensures beta_value { result.beta.now ≡ (size_of (format_of format.number).w).β }
    {
        let SizeVectors { alpha, beta } = SizeVectors::of(format.record().w);
        Permutation::over(alpha, beta)
    }

    // W: the rows of a column.
    pub fn rows(&self) -> usize
        ensures { result ≡ length self.now.alpha.now }
    {
        self.alpha.len()
    }

    // The interleaved position of a row in a column.
    pub fn position_in(&self, column: usize, row: usize) -> InterleavedPosition
        requires { (column < M) × (row < length self.now.alpha.now) }
        ensures { result.0 ≡ permuted self.now.alpha.now self.now.beta.now (length self.now.alpha.now * column + row) }
    {
        self.position_of(Place {
            column,
            address: self.alpha[row],
            shift: self.beta[row],
        })
    }

    // The same of the row that a place has the elements of, by equation A-1. Nothing is divided.
    pub fn position_of(&self, place: Place) -> InterleavedPosition
        requires { (row : ℕ) × OfRow self.now.alpha.now self.now.beta.now row place }
        ensures { (row : ℕ) → OfRow self.now.alpha.now self.now.beta.now row place → result.0 ≡ permuted self.now.alpha.now self.now.beta.now (length self.now.alpha.now * place.column + row) }
    {
        InterleavedPosition(place.looked_up(&self.starts))
    }

    // A number that leaves what that position leaves when divided by P; `residues` has W × bank modulo P. It is below P + α.
    pub fn residue_of(&self, residues: &[u16; BANKS], place: Place) -> usize
        ensures low { (P : ℕ) → 0 < P → Multiples (length self.now.alpha.now) P residues.now → result < P + place.address }
        ensures leaves { (P row : ℕ) → Multiples (length self.now.alpha.now) P residues.now → OfRow self.now.alpha.now self.now.beta.now row place → result % P ≡ permuted self.now.alpha.now self.now.beta.now (length self.now.alpha.now * place.column + row) % P }
    {
        place.looked_up(residues)
    }
}

// A walk over the positions in order: where it stands, and the row and column of that position as running values. That they are those of the
// position is asked, as `Walked`, where it matters.
#[derive(Clone, Copy)]
pub struct Walk {
    pub position: UpperPosition,
    row: usize,
    column: usize,
}

impl Walk {
    // A walk at the first position, whatever W is.
    pub fn start() -> Walk
        ensures { (result.position.0 ≡ 0) × ((W : ℕ) → Walked W result) }
    {
        Walk {
            position: UpperPosition(0),
            row: 0,
            column: 0,
        }
    }

    // The row where it stands.
    pub fn row(self) -> usize
        ensures { result ≡ self.row }
    {
        self.row
    }

    // The column.
    pub fn column(self) -> usize
        ensures { result ≡ self.column }
    {
        self.column
    }

    // One row on in the column: nothing is carried.
    pub fn down(self) -> Walk
        requires { (self.row ≤ self.position.0) × (self.position.0 < M * widest) }
        ensures { result ≡ down_one self }
    {
        Walk {
            position: UpperPosition(self.position.0 + 1),
            row: self.row + 1,
            column: self.column,
        }
    }

    // Where a walk to position `to` stops next: at the end of its column of W rows, or at `to` if that comes first.
    pub fn stop(self, w: usize, to: usize) -> usize
        requires { InColumn w self × (self.position.0 < M * widest) × (w ≤ widest) }
        ensures { result ≡ min (w * (self.column + 1)) to }
    {
        let end = self.position.0 + (w - self.row);
        end.min(to)
    }

    // The carry: from below its column's last row a walk goes on at the first row of the next column. Elsewhere it stays.
    pub fn carry(self, w: usize) -> Walk
        requires { InColumn w self × (0 < w) × (self.column < M) }
        ensures { (result.position.0 ≡ self.position.0) × Walked w result }
    {
        if self.row < w {
            return self;
        }
        Walk {
            position: self.position,
            row: self.row - w,
            column: self.column + 1,
        }
    }
}

// W × bank modulo a period, for each of the banks, made by adding W.
pub fn multiples(w: usize, period: usize) -> [u16; BANKS]
    requires { (0 < period) × (period ≤ M * widest) }
    ensures { Multiples w period result }
{
    let step = w % period;
    let mut multiple = 0;
    let mut out = [0; BANKS];
    for entry in out[..M].iter_mut() {
        // below the period, so below 2^16, which `try_from` would ask again
        *entry = multiple as u16;
        multiple = reduced(multiple + step, period);
    }
    out.copy_within(..M, M);
    out
}

// A number below twice the modulus, modulo it: no division.
fn reduced(number: usize, modulus: usize) -> usize
    requires { number < 2 * modulus }
    ensures { result ≡ number % modulus }
{
    if number < modulus {
        number
    } else {
        number - modulus
    }
}
