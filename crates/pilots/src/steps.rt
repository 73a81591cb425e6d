// Opened to the frame alone: labels as slots, without pilots and with them.
ghost use Rattle.std.specs.Prelude.{◌≡◌, ◌++◌, ◌≤◌, length, drop};
ghost use Rattle.pilots.specs.Pilots.{piloted_length, pilots, subsection_labels, subsection_pilots, with_pilots};

// A sub-section (table 5-2): labels, and the pilots that follow them.
pub const SUBSECTION_LABELS: usize = 540;

pub const SUBSECTION_PILOTS: usize = 16;

const SUBSECTION_LENGTH: usize = SUBSECTION_LABELS + SUBSECTION_PILOTS;

// The slot of a pilot.
const PILOT: u16 = 258;

// Labels with pilots, to the front of out.
pub fn put(labels: &[u8], out: &mut [u16])
    requires { piloted_length (length labels.now) ≤ length out.old }
    ensures { out.new ≡ with_pilots labels.now ++ drop (piloted_length (length labels.now)) out.old }
{
    // By index: of what is written through chunks of out the proof knows the length alone.
    for (i, part) in labels.chunks(SUBSECTION_LABELS).enumerate() {
        put_subsection(part, &mut out[SUBSECTION_LENGTH * i..]);
    }
}

// A sub-section's labels and their pilots, to the front of out; fewer labels have none.
#[tactic(auto, using(crate::proofs::Inserted::with_rest))]
fn put_subsection(labels: &[u8], out: &mut [u16])
    requires { (length labels.now ≤ subsection_labels) × (piloted_length (length labels.now) ≤ length out.old) }
    ensures { out.new ≡ with_pilots labels.now ++ drop (piloted_length (length labels.now)) out.old }
{
    put_labels(labels, out);
    if labels.len() == SUBSECTION_LABELS {
        put_pilots(&mut out[SUBSECTION_LABELS..]);
    }
}

// A sub-section's pilots, to the front of out.
fn put_pilots(out: &mut [u16])
    requires { subsection_pilots ≤ length out.old }
    ensures { out.new ≡ pilots ++ drop subsection_pilots out.old }
{
    out[..SUBSECTION_PILOTS].fill(PILOT);
}

// Labels as slots, to the front of out.
pub fn put_labels(labels: &[u8], out: &mut [u16])
    requires { length labels.now ≤ length out.old }
    ensures { out.new ≡ labels.now ++ drop (length labels.now) out.old }
{
    // By index: of what is written through `iter_mut` beside another iterator the proof knows the length alone.
    for (i, &label) in labels.iter().enumerate() {
        out[i] = u16::from(label);
    }
}
