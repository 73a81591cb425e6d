// What a call answers, as fields of a row.
use bits::{Refusal, checks};
use std::fmt::Display;
use std::io;
use testkit::print_field;

// The number of the check that refuses a call, 0 if none does.
pub(crate) fn print_check(rt: &impl Print, answer: Result<(), Refusal>) -> io::Result<()> {
    print_field(rt, checks::number(answer))
}

// The same, and the values that the call gives, each 0 where it is refused.
pub(crate) fn print_answer<T: Copy + Default + Display, const N: usize>(
    rt: &impl Print,
    answer: Result<[T; N], Refusal>,
) -> io::Result<()> {
    print_check(rt, answer.map(|_| ()))?;
    for value in answer.unwrap_or([T::default(); N]) {
        print_field(rt, value)?;
    }
    Ok(())
}
