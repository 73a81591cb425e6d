// A row of the input: a word, whose first letter says which call to make, and the numbers for it, at most six.

// What begins the word, 0 where the row is empty: its first byte that is no comma and not 0.
pub(crate) fn letter(row: &[u8]) -> u8 {
    let begins = |&&byte: &&u8| byte != b',' && byte != 0;
    row.iter().find(begins).copied().unwrap_or(0)
}

// The last N fields as numbers, the word among them where there are fewer, and 0 where there is none.
pub(crate) fn numbers<const N: usize>(row: &[u8]) -> [usize; N] {
    let mut numbers = [0; N];
    let fields = row.rsplit(|&byte| byte == b',');
    for (number, field) in numbers.iter_mut().rev().zip(fields) {
        *number = value(field);
    }
    numbers
}

// Above a tenth of 2^64.
const TENTH: usize = 1844674407370955162;

// The number of these digits, right for every number below 2^64; each byte counts as a digit. The digits' codes are 48 to 57.
fn value(digits: &[u8]) -> usize {
    digits.iter().fold(0, |n: usize, &digit| {
        (n % TENTH * 10).wrapping_add(usize::from(digit % 16))
    })
}
