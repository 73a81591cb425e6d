// Lists and buffers of so many elements, and what a call changed of a buffer.
use std::io;
use testkit::{UNTOUCHED, front, print_field};

// The first n bytes of a list, or all where there are fewer; the last of the n is set, if it is there.
pub(crate) fn ending_in(list: &mut [u8], n: usize, last: usize) -> &[u8] {
    if let Some(at) = n.checked_sub(1) {
        set(list, at, last);
    }
    front(list, n)
}

// Sets the element at a place, if there is one.
pub(crate) fn set(list: &mut [u8], at: usize, number: usize) {
    if let Some(element) = list.get_mut(at) {
        *element = byte(number);
    }
}

// By `as`: std has no `From` that narrows, and what is beyond a byte is left off.
pub(crate) fn byte(number: usize) -> u8 {
    (number % 256) as u8
}

// How many of the first n elements of a buffer a call has changed, and how many behind them.
pub(crate) fn print_changed<T: Copy + PartialEq + From<u8>>(
    rt: &impl Print,
    list: &[T],
    n: usize,
) -> io::Result<()> {
    let (front, behind) = list.split_at(n.min(list.len()));
    print_field(rt, changed(front))?;
    print_field(rt, changed(behind))
}

// A loop that adds is one the machine runs many elements at a time; `filter` and `count` are not.
fn changed<T: Copy + PartialEq + From<u8>>(list: &[T]) -> usize {
    let mut count: usize = 0;
    for &x in list {
        count = count.wrapping_add(usize::from(x != T::from(UNTOUCHED)));
    }
    count
}
