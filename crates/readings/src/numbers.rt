// trellis, interleaver, acm and provenance: calls on numbers alone.
// A row's numbers are `usize`. By `as` where a call takes a u64: std has no `From` between the two.
use crate::answer::print_answer;
use interleaver::{Source, UpperPosition};
use std::io;

// State and bit. The row has the number, the two bits and the state that follows.
pub(crate) fn trellis(rt: &impl Print, numbers: [usize; 2]) -> io::Result<()> {
    let [state, bit] = numbers;
    print_answer(
        rt,
        trellis::step(state as u64, bit as u64).map(|step| [
            step.systematic,
            step.parity,
            u8::from(step.state),
        ]),
    )
}

// Format and position. The row has the number and the interleaved position.
pub(crate) fn interleaver(rt: &impl Print, numbers: [usize; 2]) -> io::Result<()> {
    let [format, position] = numbers;
    let position = UpperPosition(position);
    print_answer(
        rt,
        interleaver::interleave(format as u64, position).map(|interleaved| [interleaved.number()]),
    )
}

// A format. The row has the number and N.
pub(crate) fn acm(rt: &impl Print, numbers: [usize; 1]) -> io::Result<()> {
    let [format] = numbers;
    print_answer(rt, acm::lookup(format as u64).map(|f| [f.n]))
}

// A format. The row has the number, and 1 for stand-in rows.
pub(crate) fn provenance(rt: &impl Print, numbers: [usize; 1]) -> io::Result<()> {
    let [format] = numbers;
    let source = interleaver::provenance(format as u64);
    print_answer(
        rt,
        source.map(|source| [u8::from(source == Source::StandIn)]),
    )
}
