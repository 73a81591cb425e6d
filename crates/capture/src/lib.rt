// A captured unit, judged: what it was seen to send, against the labels of a codeword.
#![tactic(auto)]

ghost use Rattle.std.specs.Prelude.{◌≡◌, ◌<◌, length, if◌then◌else◌, IfOk};
ghost use Rattle.bits.specs.Checks.{bad_capture, number_of, passed};
ghost use Rattle.acm.specs.Formats.{symbols};
ghost use Rattle.capture.specs.Judgement.{answer_of, is_capture, judged, labels_number, samples_of};
ghost use Rattle.capture.specs.Tally.{tallied, tally_of, total, with_sample};

use acm::SYMBOLS;
use bits::Refusal;
use samples::Sample;

// How many samples agree with their labels, differ from them and are lost, and the first place that differs, counted from 0.
#[derive(Clone, Copy, Debug, PartialEq, Eq)]
pub struct Judgement {
    pub agreeing: usize,
    pub differing: usize,
    pub lost: usize,
    pub first: Option<usize>,
}

// A capture, the text of 8,100 samples, against the labels of a codeword.
// Checks: 1, the format is 33 to 37; 2, there are 8,100 labels; 3, each is below 2^m; 18, the text is a capture; 19, each coordinate is a number
// from -2 to 2. A label is a byte, and m is 8, so 3 holds of any.
pub fn judge(format: u64, labels: &[u8], capture: &[u8]) -> Result<Judgement, Refusal>
    ensures { answer_of result ≡ judged format labels.now capture.now }
{
    check_labels(format, labels)?;
    let tally = count(labels, capture)?;
    if tally.outside {
        return Err(Refusal::Coordinate);
    }
    Ok(tally.judgement)
}

// Whether the checks of the labels hold.
#[tactic(auto, using(std::proofs::lemmas::Bool::Decides::nat_tests), unfolding(crate::specs::Judgement::labels_number))]
fn check_labels(format: u64, labels: &[u8]) -> Result<(), Refusal>
    ensures { number_of result ≡ labels_number format labels.now }
{
    if !waveform::has_points(format) {
        return Err(Refusal::Format);
    }
    if labels.len() != SYMBOLS {
        return Err(Refusal::Length);
    }
    Ok(())
}

// A judgement on the way, and whether a coordinate was none from -2 to 2. A text is read once: whether it is a capture is known at its end, so the
// samples are judged before both checks of it are done.
#[derive(Clone, Copy, Debug)]
struct Tally {
    judgement: Judgement,
    outside: bool,
}

impl Tally {
    const NONE: Tally = Tally {
        judgement: Judgement {
            agreeing: 0,
            differing: 0,
            lost: 0,
            first: None,
        },
        outside: false,
    };

    // With the sample at a place, against its label.
    fn with(self, place: usize, label: u8, sample: Sample) -> Tally
        requires { (total self.judgement ≡ place) × (place < symbols) }
        ensures { result ≡ tallied self place label sample }
    {
        Tally {
            judgement: self.judgement.with(place, label, sample),
            outside: self.outside || !sample.in_range(),
        }
    }
}

impl Judgement {
    fn with(self, place: usize, label: u8, sample: Sample) -> Judgement
        requires { (total self ≡ place) × (place < symbols) }
        ensures { result ≡ with_sample self place label sample }
    {
        match sample {
            Sample::Lost => Judgement {
                lost: self.lost + 1,
                ..self
            },
            Sample::Pair(i, q) => {
                if nearest::label(i, q) == usize::from(label) {
                    Judgement {
                        agreeing: self.agreeing + 1,
                        ..self
                    }
                } else {
                    Judgement {
                        differing: self.differing + 1,
                        first: self.first.or(Some(place)),
                        ..self
                    }
                }
            }
        }
    }
}

// The tally of a text that is a capture.
fn count(labels: &[u8], text: &[u8]) -> Result<Tally, Refusal>
    requires { length labels.now ≡ symbols }
    ensures number { number_of result ≡ (if is_capture text.now then passed else bad_capture) }
    ensures value { IfOk result (λ t. t ≡ tally_of labels.now (samples_of text.now)) }
{
    let mut tally = Tally::NONE;
    let mut rest = text;
    for (place, &label) in labels.iter().enumerate() {
        let (sample, behind) = samples::steps::read(rest).ok_or(Refusal::Capture)?;
        tally = tally.with(place, label, sample);
        rest = behind;
    }
    if rest.is_empty() {
        Ok(tally)
    } else {
        Err(Refusal::Capture)
    }
}
