// Points for a signal generator.
ghost use Rattle.std.specs.Prelude.{◌≡◌, length};
ghost use Rattle.waveform.specs.Waveform.{answer_of, pointed, points_number, points_output};
ghost use Rattle.sccc.specs.Structs.{code_of, point_struct};

use crate::lines::UNSCRAMBLED;
use crate::{PASSED, refused};
use bits::Refusal;
use bits::checks::number;
use constellation::Point;

// The in-phase and the quadrature coordinate of a point.
#[repr(C)]
#[derive(Debug, Default, Drop)]
pub struct PointAnswer {
    pub number: u64,
    pub i: f64,
    pub q: f64,
}

impl From<Result<Point, Refusal>> for PointAnswer {
    ghost from_gives = { λ answer point. point ≡ point_struct (answer_of answer) };

    fn from(answer: Result<Point, Refusal>) -> PointAnswer {
        match answer {
            Ok(point) => PointAnswer {
                number: PASSED,
                i: point.i,
                q: point.q,
            },
            Err(refusal) => PointAnswer {
                number: refused(refusal),
                ..PointAnswer::default()
            },
        }
    }
}

fn code_of(code: u64) -> Option<u64>
    ensures { result ≡ code_of code }
{
    if code == UNSCRAMBLED {
        None
    } else {
        Some(code)
    }
}

// The point of a symbol, turned by the physical-layer randomizer where there is a code number.
// Checks: 1, the format is 33 to 37; 3, the slot is at most 255; 16; 8, the place is below 133,760.
#[unsafe(no_mangle)]
pub extern "C" fn sccc_point(format: u64, slot: u64, code: u64, place: u64) -> PointAnswer
    ensures { result ≡ point_struct (pointed format slot (code_of code) place) }
{
    PointAnswer::from(waveform::point(format, slot, code_of(code), place))
}

// The points of symbols in a row, the first at a place.
// Checks: 1, the format is 33 to 37; 3, each slot is at most 255; 16; 8, each symbol's place is below 133,760; 5, the output has at least two numbers
// for each symbol.
// Afterwards the front of out is the coordinates of each point, in-phase and quadrature, and the other numbers are as they were; on refusal all are.
#[unsafe(no_mangle)]
pub extern "C" fn sccc_points(
    format: u64,
    slots: &[u16],
    code: u64,
    place: u64,
    out: &mut [f64],
) -> u8
    ensures number { result ≡ points_number format slots.now (code_of code) place (length out.old) }
    ensures output { out.new ≡ points_output format slots.now (code_of code) place out.old }
{
    number(waveform::points(format, slots, code_of(code), place, out))
}
