// frame, section and compare; the rows are of format 1, whose labels are below 4, and a few of formats 27, 28 and 37, below 64, 128 and 256.
// A row's numbers are `usize`. By `as` where a call takes a u64: std has no `From` between the two.
use crate::answer::{print_answer, print_check};
use crate::buffers::{byte, ending_in, print_changed, set};
use compare::Comparison;
use std::io;
use testkit::{UNTOUCHED, buffer, front, front_mut};

// Labels 0 but for the last, and a buffer of so many slots.
pub(crate) fn frame(rt: &impl Print, numbers: [usize; 5]) -> io::Result<()> {
    let [format, pilots, count, last, room] = numbers;
    let mut labels = buffer(0);
    let mut slots = buffer(u16::from(UNTOUCHED));
    let answer = framing::frame(
        format as u64,
        pilots as u64,
        ending_in(&mut labels, count, last),
        front_mut(&mut slots, room),
    );
    print_check(rt, answer)?;
    print_changed(rt, &slots, framing::frame_length(pilots as u64))
}

// Labels 0 but for one place. The row has the number, the length of the part, and its first and last label.
pub(crate) fn section(rt: &impl Print, numbers: [usize; 3]) -> io::Result<()> {
    let [count, place, one] = numbers;
    let mut labels = buffer(0);
    set(&mut labels, one, 1);
    let part = framing::try_section(front(&labels, count), place as u64);
    print_answer(
        rt,
        part.map(|part| [part.len(), number(part.first()), number(part.last())]),
    )
}

// A label as a number, 0 where there is none.
fn number(label: Option<&u8>) -> usize {
    label.map_or(0, |&label| usize::from(label))
}

// Labels 0 but for the last, in the second list another value throughout. The row has the number, 1 for the same, the bits and the first place.
pub(crate) fn compare(rt: &impl Print, numbers: [usize; 6]) -> io::Result<()> {
    let [format, count_a, last_a, count_b, last_b, others] = numbers;
    let mut a = buffer(0);
    let mut b = buffer(byte(others));
    let a = ending_in(&mut a, count_a, last_a);
    let b = ending_in(&mut b, count_b, last_b);
    let answer = compare::compare(format as u64, a, b).map(|comparison| match comparison {
        Comparison::Same => [1, 0, 0],
        Comparison::Differ { count, first } => [0, count, first],
    });
    print_answer(rt, answer)
}
