// The points of symbols, for a signal generator: those of table 5-2 (004), turned by the physical-layer randomizer (000, annex E).
#![tactic(auto)]

ghost use Rattle.std.specs.Prelude.{◌≡◌, true, ◌++◌, ◌+◌, ◌*◌, ◌≤◌, ◌<◌, length, drop, IfOk, None, Some, option_map};
ghost use Rattle.bits.specs.Checks.{number_of};
ghost use Rattle.bits.specs.Legal.{all_at_most};
ghost use Rattle.m_sequences.specs.MSequences.{period};
ghost use Rattle.waveform.specs.Generators.{generated, generated_coordinates, generator_of};
ghost use Rattle.waveform.specs.Waveform.{answer_of, has_points, last_label, places, point_number, pointed, points_number, points_output};

use bits::Refusal;
use constellation::Point;
use gold::steps::Generator;
use scrambling::CodeNumber;

// The formats whose labels are points of the table.
const FIRST: u64 = 33;

const LAST: u64 = 37;

const LAST_LABEL: u16 = 255;

// Places behind the header.
const PLACES: u64 = 133760;

// Whether a format's labels are points of the table.
pub fn has_points(format: u64) -> bool
    ensures { result ≡ has_points format }
{
    (FIRST..=LAST).contains(&format)
}

// The point of a symbol: its slot's, a label, turned where there is a code number. The place of the first symbol behind the header is 0.
// Checks: 1, the format is 33 to 37; 3, the slot is at most 255; 16, the code number, if there is one; 8, the place is below 133,760.
pub fn point(format: u64, slot: u64, code: Option<u64>, place: u64) -> Result<Point, Refusal>
    ensures { answer_of result ≡ pointed format slot code place }
{
    let (label, code) = check_point(format, slot, code, place)?;
    // std has no `From<u64>` for `usize`
    Ok(turned(Point::of(label), generator(code, place as usize)))
}

// What `point` needs of its arguments, or the first of its checks that fails.
#[tactic(auto, using(std::proofs::lemmas::Bool::Decides::nat_tests), unfolding(crate::specs::Waveform::point_number))]
fn check_point(
    format: u64,
    slot: u64,
    code: Option<u64>,
    place: u64,
) -> Result<(u8, Option<CodeNumber>), Refusal>
    ensures number { number_of result ≡ point_number format slot code place }
    ensures known { IfOk result (λ r. (r.0 ≡ slot) × (option_map (λ c. c.number) r.1 ≡ code) × (place < places)) }
{
    if !has_points(format) {
        return Err(Refusal::Format);
    }
    let Ok(label) = u8::try_from(slot) else {
        return Err(Refusal::Element);
    };
    let code = scrambling::check(code)?;
    if PLACES <= place {
        return Err(Refusal::Place);
    }
    Ok((label, code))
}

// The points of symbols in a row, the first at a place, to the front of out: of each point its coordinates, in-phase and quadrature.
// Checks: 1, as `point`'s; 3, each slot is at most 255; 16; 8, each symbol's place is below 133,760; 5, out has room for two coordinates of each.
// Afterwards the front of out is these, and the rest is as it was; on refusal all is.
pub fn points(
    format: u64,
    slots: &[u16],
    code: Option<u64>,
    place: u64,
    out: &mut [f64],
) -> Result<(), Refusal>
    ensures number { number_of result ≡ points_number format slots.now code place (length out.old) }
    ensures out_after { out.new ≡ points_output format slots.now code place out.old }
{
    let code = check_points(format, slots, code, place, out.len())?;
    // as above
    put(slots, generator(code, place as usize), out);
    Ok(())
}

// The code number of a call that `points` takes, or the first of its checks that fails.
#[tactic(auto, using(std::proofs::lemmas::Bool::Decides::nat_tests), unfolding(crate::specs::Waveform::points_number))]
fn check_points(
    format: u64,
    slots: &[u16],
    code: Option<u64>,
    place: u64,
    room: usize,
) -> Result<Option<CodeNumber>, Refusal>
    ensures number { number_of result ≡ points_number format slots.now code place room }
    ensures known { IfOk result (λ code_of. (option_map (λ c. c.number) code_of ≡ code) × (all_at_most last_label slots.now ≡ true) × (place + length slots.now ≤ places) × (2 * length slots.now ≤ room)) }
{
    if !has_points(format) {
        return Err(Refusal::Format);
    }
    if !are_labels(slots) {
        return Err(Refusal::Element);
    }
    let code = scrambling::check(code)?;
    if PLACES < place || PLACES - place < slots.len() as u64 {
        return Err(Refusal::Place);
    }
    if room < 2 * slots.len() {
        return Err(Refusal::Output);
    }
    Ok(code)
}

fn are_labels(slots: &[u16]) -> bool
    ensures { result ≡ all_at_most last_label slots.now }
{
    slots.iter().all(|&slot| slot <= LAST_LABEL)
}

// The coordinates of symbols' points, to the front of out, by the generator of the first if there is one. Two loops, and none that asks each time
// whether there is one: that would take nearly twice as long.
fn put(slots: &[u16], first: Option<Generator>, out: &mut [f64])
    requires { (all_at_most last_label slots.now ≡ true) × (2 * length slots.now ≤ length out.old) }
    ensures { out.new ≡ generated_coordinates first slots.now ++ drop (2 * length slots.now) out.old }
{
    match first {
        Some(generator) => put_turned(slots, generator, out),
        None => put_plain(slots, out),
    }
}

fn put_turned(slots: &[u16], first: Generator, out: &mut [f64])
    requires { (all_at_most last_label slots.now ≡ true) × (2 * length slots.now ≤ length out.old) }
    ensures { out.new ≡ generated_coordinates (Some first) slots.now ++ drop (2 * length slots.now) out.old }
{
    let mut generator = first;
    for (k, &slot) in slots.iter().enumerate() {
        // std has no `From<u16>` for `u8`; that nothing is lost is proved.
        let point = Point::of(slot as u8).turned(generator.turns());
        out[2 * k] = point.i;
        out[2 * k + 1] = point.q;
        generator = generator.later();
    }
}

fn put_plain(slots: &[u16], out: &mut [f64])
    requires { (all_at_most last_label slots.now ≡ true) × (2 * length slots.now ≤ length out.old) }
    ensures { out.new ≡ generated_coordinates None slots.now ++ drop (2 * length slots.now) out.old }
{
    for (k, &slot) in slots.iter().enumerate() {
        // as above
        let point = Point::of(slot as u8);
        out[2 * k] = point.i;
        out[2 * k + 1] = point.q;
    }
}

// The generator of the turns from a place on, if there is a code number.
fn generator(code: Option<CodeNumber>, place: usize) -> Option<Generator>
    requires { place < period }
    ensures { result ≡ generator_of (option_map (λ c. c.number) code) place }
{
    match code {
        Some(code) => Some(Generator::at(code, place)),
        None => None,
    }
}

fn turned(point: Point, generator: Option<Generator>) -> Point
    ensures { result ≡ generated generator point }
{
    match generator {
        Some(generator) => point.turned(generator.turns()),
        None => point,
    }
}
