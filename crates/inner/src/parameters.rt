// What the inner encoder works with: a format's, or those of any record and interleaver.
ghost use Rattle.std.specs.Prelude.{◌≡◌, ℕ, ◌+◌, ◌*◌, ◌≤◌, ◌<◌, length, get_or, eqb};
ghost use Rattle.acm.specs.Formats.{M, format_of};
ghost use Rattle.annex_c.specs.AnnexC.{size_of};
ghost use Rattle.interleaver.specs.Interleaver.{permuted};
ghost use Rattle.interleaver.specs.Place.{OfRow};
ghost use Rattle.interleaver.specs.Walk.{Multiples};
ghost use Rattle.puncture.specs.Puncture.{period, survives, LaidOut};

use acm::{AcmFormat, Format};
use annex_c_tables::steps::WIDEST;
use interleaver::steps::{BANKS, Permutation, Place, Walk};
use puncture::steps::RateMatching;
use puncture::{LAID_OUT, PERIOD};

// A record, an interleaver of its I positions, its rate matching, and its puncturing pattern, laid out, in which a position is found by W × bank
// modulo 300.
// The vectors α and β are copied: the loop over the bits takes 1.1 times as long where it reaches them by pointers, for want of registers.
#[derive(Clone, Copy)]
pub struct Parameters<'a> {
    pub figures: Format,
    pub permutation: Permutation<'a>,
    pub(crate) rate: RateMatching,
    alpha: [u16; WIDEST],
    beta: [u8; WIDEST],
    residues: [u16; BANKS],
    pattern: [u8; LAID_OUT],
    ghost size: { figures.i ≡ M * length permutation.alpha.now },
    ghost deletes: { figures.delta < figures.i },
    ghost total_is: { rate.total ≡ figures.i },
    ghost delta_is: { rate.delta ≡ figures.delta },
    ghost alpha_copied: { (row : ℕ) → row < length permutation.alpha.now → get_or alpha row 0 ≡ get_or permutation.alpha.now row 0 },
    ghost beta_copied: { (row : ℕ) → row < length permutation.alpha.now → get_or beta row 0 ≡ get_or permutation.beta.now row 0 },
    ghost residues_are: { Multiples (length permutation.alpha.now) period residues },
    ghost pattern_is: { LaidOut figures.survivors pattern },
}

impl<'a> Parameters<'a> {
    // Those of a format.
    pub fn of(format: AcmFormat) -> Parameters<'a>
        ensures figures_value { result.figures ≡ format_of format.number }
        ensures alpha_value { result.permutation.alpha.now ≡ (size_of (format_of format.number).w).α }
        ensures beta_value { result.permutation.beta.now ≡ (size_of (format_of format.number).w).β }
    {
        Parameters::over(format.record(), Permutation::of_format(format))
    }

    // Those of any record and any interleaver: so it is asked that the interleaver has the record's I positions, and that Δ is below I.
    pub fn over(figures: Format, permutation: Permutation<'a>) -> Parameters<'a>
        requires { (figures.i ≡ M * length permutation.alpha.now) × (figures.delta < figures.i) }
        ensures figures_value { result.figures ≡ figures }
        ensures permutation_value { result.permutation ≡ permutation.entry }
    {
        let rows = permutation.rows();
        let mut alpha = [0; WIDEST];
        let mut beta = [0; WIDEST];
        alpha[..rows].copy_from_slice(permutation.alpha);
        beta[..rows].copy_from_slice(permutation.beta);
        Parameters {
            figures,
            permutation,
            rate: RateMatching {
                total: figures.i,
                delta: figures.delta,
            },
            alpha,
            beta,
            residues: interleaver::steps::multiples(rows, PERIOD),
            pattern: puncture::laid_out(figures.survivors),
        }
    }

    // The place where a walk stands.
    pub(crate) fn place(&self, walk: Walk) -> Place
        requires { (walk.column < M) × (walk.row < length self.now.permutation.alpha.now) }
        ensures { (result.column ≡ walk.column) × OfRow self.now.permutation.alpha.now self.now.permutation.beta.now walk.row result }
    {
        let row = walk.row();
        Place {
            column: walk.column(),
            address: self.alpha[row],
            shift: self.beta[row],
        }
    }

    // The mark of the position that is read at a place: 1 if the upper register keeps its bit, 0 if it is punctured.
    pub fn mark_of(&self, place: Place) -> u8
        requires { place.address < length self.now.permutation.alpha.now }
        ensures low { result ≤ 1 }
        ensures value { (row : ℕ) → OfRow self.now.permutation.alpha.now self.now.permutation.beta.now row place → eqb result 1 ≡ survives self.now.figures.survivors (permuted self.now.permutation.alpha.now self.now.permutation.beta.now (length self.now.permutation.alpha.now * place.column + row)) }
    {
        let residue = self.permutation.residue_of(&self.residues, place);
        self.pattern[residue]
    }
}
