// The interleaver (4.3, annex C).
#![tactic(auto)]

ghost use Rattle.std.specs.Prelude.{◌≡◌, ◌*◌, ◌<◌, length};
ghost use Rattle.acm.specs.Formats.{M};
ghost use Rattle.annex_c.specs.AnnexC.{Vectors};
ghost use Rattle.interleaver.specs.Interleaver.{permuted, answer_of, interleaved_at};
ghost use Rattle.interleaver.specs.Provenance.{provenance_of, provenance_at};

use acm::AcmFormat;
use annex_c_tables::steps::SizeVectors;
use bits::Refusal;

mod memory;
mod place;
pub mod steps;

// Banks of an interleaver, and columns of its positions.
pub const M: usize = 120;

// A position in the upper register, i of the standard.
#[derive(Clone, Copy, Debug, PartialEq, Eq)]
pub struct UpperPosition(pub usize);

// Its interleaved position, π(i). Only the interleaver can make one.
#[derive(Clone, Copy, Debug, PartialEq, Eq)]
pub struct InterleavedPosition(usize);

impl InterleavedPosition {
    // The position as a number.
    pub fn number(self) -> usize
        ensures { result ≡ self.0 }
    {
        self.0
    }
}

// The interleaved position π(i) of position i, for any format number and any i.
// Checks: 1, 8.
pub fn interleave(format: u64, position: UpperPosition) -> Result<InterleavedPosition, Refusal>
    ensures { answer_of result ≡ interleaved_at format position.0 }
{
    let record = AcmFormat::try_from(format)?.record();
    if record.i <= position.0 {
        return Err(Refusal::Place);
    }
    Ok(permute(SizeVectors::of(record.w), position))
}

// The interleaved position by equation A-1, over any two vectors: so their ranges are asked. It divides, for one position: the table of W × bank that a
// `Permutation` makes would cost the call 17 times as long.
fn permute(vectors: SizeVectors, position: UpperPosition) -> InterleavedPosition
    requires ranges { Vectors vectors.alpha.now vectors.beta.now }
    requires position_bound { position.0 < M * length vectors.alpha.now }
    ensures { result.0 ≡ permuted vectors.alpha.now vectors.beta.now position.0 }
{
    let w = vectors.alpha.len();
    let i = position.0;
    let row = i % w;
    let shift = usize::from(vectors.beta[row]);
    let address = usize::from(vectors.alpha[row]);
    InterleavedPosition(w * ((i / w + shift) % M) + address)
}

// Where the rows of a format's interleaver come from.
#[derive(Clone, Copy, Debug, PartialEq, Eq)]
pub enum Source {
    // each of them from the standard
    Published,
    // some of them stand in for published ones
    StandIn,
}

// Whether the interleaver of a format has rows that stand in for published ones, for any format number.
// Checks: 1.
pub fn provenance(format: u64) -> Result<Source, Refusal>
    ensures { provenance_of result ≡ provenance_at format }
{
    let format = AcmFormat::try_from(format)?;
    if annex_c_tables::steps::stand_in(format.record().w) {
        Ok(Source::StandIn)
    } else {
        Ok(Source::Published)
    }
}
