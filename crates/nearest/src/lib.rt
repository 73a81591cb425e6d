// The label whose point is nearest to a pair of coordinates.
#![tactic(auto)]

ghost use Rattle.std.specs.Prelude.{◌≡◌, ◌+◌, ◌≤◌};
ghost use Rattle.nearest.specs.Nearest.{distance as distance_of, distance_to, nearest_label, points};
ghost use Rattle.nearest.specs.Search.{nearest_of, row, some_nearer};

use constellation::Point;

// Labels of a row, and rows.
const ROW: usize = 16;

const ROWS: usize = 16;

// A label and its distance.
#[derive(Clone, Copy, Debug)]
struct Nearest {
    label: usize,
    distance: f64,
}

// The nearest label, and of equally near ones the lowest. Row by row: whether a row has a nearer one is asked first, since few have, and a loop
// that carries the least distance along has to wait for it at each label. It would take half as long again.
pub fn label(i: f64, q: f64) -> usize
    ensures { result ≡ nearest_label i q }
{
    let mut nearest = Nearest {
        label: 0,
        distance: distance(i, q, Point::of(0)),
    };
    for k in 0..ROWS {
        if has_nearer(i, q, ROW * k, nearest.distance) {
            nearest = with_row(i, q, ROW * k, nearest);
        }
    }
    nearest.label
}

// Whether a label of the row from a label on is nearer than so far.
fn has_nearer(i: f64, q: f64, first: usize, least: f64) -> bool
    requires { first + row ≤ points }
    ensures { result ≡ some_nearer i q first row least }
{
    let mut nearer = false;
    for label in first..first + ROW {
        // std has no `From<usize>` for `u8`; that nothing is lost is proved.
        nearer |= distance(i, q, Point::of(label as u8)) < least;
    }
    nearer
}

// The nearest label with those of a row, of the nearest before it.
fn with_row(i: f64, q: f64, first: usize, before: Nearest) -> Nearest
    requires known { before ≡ nearest_of i q first }
    requires inside { first + row ≤ points }
    ensures { result ≡ nearest_of i q (first + row) }
{
    let mut nearest = before;
    for label in first..first + ROW {
        // as above
        let distance = distance(i, q, Point::of(label as u8));
        if distance < nearest.distance {
            nearest = Nearest { label, distance };
        }
    }
    nearest
}

// The square of the distance, rounded at each operation.
#[tactic(auto, unfolding(crate::specs::Nearest::distance))]
fn distance(i: f64, q: f64, p: Point) -> f64
    ensures { result ≡ distance_of i q p }
{
    let x = i - p.i;
    let y = q - p.q;
    x * x + y * y
}
