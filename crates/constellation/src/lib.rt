// The points of the 256APSK constellation (004, table 5-2), and their quarter turns (000, annex E).
#![tactic(auto)]

ghost use Rattle.std.specs.Prelude.{◌≡◌};
ghost use Rattle.constellation.specs.Points.{point_of, turned};

mod table;

// In-phase and quadrature component.
#[derive(Clone, Copy, Debug)]
pub struct Point {
    pub i: f64,
    pub q: f64,
}

impl Point {
    // The point of a label.
    pub fn of(label: u8) -> Point
        ensures { result ≡ point_of label }
    {
        let at = usize::from(label);
        Point {
            i: table::IN_PHASE[at],
            q: table::QUADRATURE[at],
        }
    }

    // The point after so many quarter turns, by swapping and negating alone. What becomes of each coordinate stands in a list, in the order of the
    // turns: the machine would foresee a branch on them wrongly three times in four.
    pub fn turned(self, turns: u8) -> Point
        ensures { result ≡ turned turns self }
    {
        let turned = [self.i, -self.q, -self.i, self.q];
        let at = usize::from(turns % 4);
        Point {
            i: turned[at],
            q: turned[(at + 3) % 4],
        }
    }
}
