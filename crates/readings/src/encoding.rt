// encode and labels, most of them in format 1: K is 5,758, I 8,640, N 16,200.
// A row's numbers are `usize`. By `as` where a call takes a u64: std has no `From` between the two.
use crate::answer::print_check;
use crate::buffers::{ending_in, print_changed};
use std::io;
use testkit::{UNTOUCHED, buffer, front_mut};

const I: usize = 8640;

const N: usize = 16200;

// A block of zeros but for its last bit, and buffers of so many bytes. The row has the number, and of each buffer how many of the bytes that the
// call writes it changed, and how many behind them.
pub(crate) fn encode(rt: &impl Print, numbers: [usize; 5]) -> io::Result<()> {
    let [format, bits, last, work_length, out_length] = numbers;
    let mut block = buffer(0);
    let mut work = buffer(UNTOUCHED);
    let mut out = buffer(UNTOUCHED);
    let answer = encoder::encode(
        format as u64,
        ending_in(&mut block, bits, last),
        front_mut(&mut work, work_length),
        front_mut(&mut out, out_length),
    );
    print_check(rt, answer)?;
    print_changed(rt, &work, I)?;
    print_changed(rt, &out, N)
}

pub(crate) fn labels(rt: &impl Print, numbers: [usize; 4]) -> io::Result<()> {
    let [format, bits, last, out_length] = numbers;
    let mut codeword = buffer(0);
    let mut out = buffer(UNTOUCHED);
    let answer = encoder::labels(
        format as u64,
        ending_in(&mut codeword, bits, last),
        front_mut(&mut out, out_length),
    );
    print_check(rt, answer)?;
    print_changed(rt, &out, acm::SYMBOLS)
}
