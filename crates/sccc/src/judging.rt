// A captured unit judged.
ghost use Rattle.std.specs.Prelude.{◌≡◌};
ghost use Rattle.capture.specs.Judgement.{answer_of, judged};
ghost use Rattle.sccc.specs.Structs.{judgement_struct};

use crate::{PASSED, refused};
use bits::Refusal;

// What comes of a capture. `none` is 1 where nothing differs, and `first` is then 0.
#[repr(C)]
#[derive(Debug, Default, Drop)]
pub struct Judgement {
    pub number: u64,
    pub agreeing: u64,
    pub differing: u64,
    pub lost: u64,
    pub none: u64,
    pub first: u64,
}

impl From<Result<capture::Judgement, Refusal>> for Judgement {
    ghost from_gives = { λ answer judgement. judgement ≡ judgement_struct (answer_of answer) };

    fn from(answer: Result<capture::Judgement, Refusal>) -> Judgement {
        match answer {
            Ok(judgement) => Judgement {
                number: PASSED,
                agreeing: judgement.agreeing as u64,
                differing: judgement.differing as u64,
                lost: judgement.lost as u64,
                none: u64::from(judgement.first.is_none()),
                first: judgement.first.unwrap_or(0) as u64,
            },
            Err(refusal) => Judgement {
                number: refused(refusal),
                ..Judgement::default()
            },
        }
    }
}

// A capture, the text of 8,100 samples, against the labels of a codeword: how many agree, differ and are lost, and the first place that differs.
// Checks: 1, the format is 33 to 37; 2, there are 8,100 labels; 3, each is below 2^m; 18, the text is a capture; 19, each coordinate is a number
// from -2 to 2.
#[unsafe(no_mangle)]
pub extern "C" fn sccc_judge(format: u64, labels: &[u8], capture: &[u8]) -> Judgement
    ensures { result ≡ judgement_struct (judged format labels.now capture.now) }
{
    Judgement::from(capture::judge(format, labels, capture))
}
