// Opened to the interleaver alone.
ghost use Rattle.std.specs.Prelude.{◌≡◌, true, ◌^◌, ◌<◌};
ghost use Rattle.bits.specs.Place.{place};
ghost use Rattle.annex_c.specs.AnnexC.{is_size, size_of};
ghost use Rattle.annex_c_tables.specs.Flat.{Tables, rows_before};

use crate::tables;

// W of the largest size.
pub const WIDEST: usize = 546;

// The vectors of a size, lent from the tables.
#[derive(Clone, Copy)]
pub struct SizeVectors {
    pub alpha: &'static [u16],
    pub beta: &'static [u8],
}

impl SizeVectors {
    // Those of the size with W = w.
    pub fn of(w: usize) -> SizeVectors
        requires { is_size w ≡ true }
        ensures alpha_value { result.alpha.now ≡ (size_of w).α }
        ensures beta_value { result.beta.now ≡ (size_of w).β }
    {
        lend(&tables::WIDTHS, &tables::ALPHA, &tables::BETA, w)
    }
}

// The same with annex C's tables passed, so that its proof does not go over their numbers.
fn lend(widths: &[usize], alphas: &'static [u16], betas: &'static [u8], w: usize) -> SizeVectors
    requires tables { Tables widths.now alphas.now betas.now }
    requires w_value { is_size w ≡ true }
    ensures alpha_value { result.alpha.now ≡ (size_of w).α }
    ensures beta_value { result.beta.now ≡ (size_of w).β }
{
    let start = locate(widths, w).rows;
    let end = start + w;
    SizeVectors {
        alpha: &alphas[start..end],
        beta: &betas[start..end],
    }
}

// Where a size stands in the flat tables: behind so many sizes, and so many rows.
#[derive(Drop)]
struct Place {
    sizes: usize,
    rows: usize,
}

// Where the size with W = w stands. By hand: one pass gives the size's number and the rows before it. `position` and a sum over the front are two,
// and leave an `Option` of a number that both callers know to be there.
#[tactic(auto, using(bits::proofs::Places::place_here, bits::proofs::Places::place_later, bits::proofs::Places::place_end, crate::proofs::Flats::rows_next))]
fn locate(widths: &[usize], w: usize) -> Place
    requires { rows_before w widths.now < 2 ^ 64 }
    ensures sizes_value { result.sizes ≡ place w widths.now }
    ensures rows_value { result.rows ≡ rows_before w widths.now }
{
    let mut rows = 0;
    for (sizes, &width) in widths.iter().enumerate() {
        if width == w {
            return Place { sizes, rows };
        }
        rows += width;
    }
    Place {
        sizes: widths.len(),
        rows,
    }
}

// Whether the size with W = w has rows that stand in for published ones.
pub fn stand_in(w: usize) -> bool
    requires { is_size w ≡ true }
    ensures { result ≡ (size_of w).stand_in }
{
    let number = locate(&tables::WIDTHS, w).sizes;
    tables::STAND_IN[number]
}
