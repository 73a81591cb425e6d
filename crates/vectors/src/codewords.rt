// For every ACM format and six blocks, the digests of the outer kept bits, of the codeword and of its labels.
use acm::AcmFormat;
use std::{fmt, io};
use testkit::{UNTOUCHED, WHOLE, buffer, front, print_digest};

// A block of a format: one of the job line's patterns, which are all zeros, all ones, and a single one at place 0, or a seeded block.
#[derive(Clone, Copy, Debug, PartialEq, Eq)]
enum Block {
    Zeros,
    Ones,
    SingleOne,
    Seeded(u8),
}

impl Block {
    // Three of them are the patterns of `put_block` of row: the tests' blocks are written by themselves.
    fn fill(self, format: AcmFormat, out: &mut [u8]) {
        match self {
            Block::Zeros => out.fill(0),
            Block::Ones => out.fill(1),
            Block::SingleOne => {
                out.fill(0);
                if let Some(first) = out.first_mut() {
                    *first = 1;
                }
            }
            Block::Seeded(number) => {
                testkit::fill_seeded(u64::from(number) * 1000 + format.number, out);
            }
        }
    }
}

// The pattern's number, and of a seeded block an s and its number.
impl fmt::Display for Block {
    fn fmt<W: fmt::Write>(&self, f: &mut fmt::Formatter<W>) -> fmt::Result {
        match self {
            Block::Zeros => write!(f, "0"),
            Block::Ones => write!(f, "1"),
            Block::SingleOne => write!(f, "2"),
            Block::Seeded(number) => write!(f, "s{number}"),
        }
    }
}

pub(crate) fn run(rt: &impl Print) -> io::Result<()> {
    println!(rt; "format,block,work,codeword,labels")?;
    for format in AcmFormat::all() {
        print_row(rt, format, Block::Zeros)?;
        print_row(rt, format, Block::Ones)?;
        print_row(rt, format, Block::SingleOne)?;
        for number in 1..=3 {
            print_row(rt, format, Block::Seeded(number))?;
        }
    }
    Ok(())
}

fn print_row(rt: &impl Print, format: AcmFormat, block: Block) -> io::Result<()> {
    let mut bits = buffer(0);
    block.fill(format, &mut bits);
    print!(rt; "{},{block}", format.number)?;
    print_codeword(rt, format, front(&bits, format.record().k))
}

fn print_codeword(rt: &impl Print, format: AcmFormat, block: &[u8]) -> io::Result<()> {
    let f = format.record();
    let mut work = buffer(UNTOUCHED);
    let mut codeword = buffer(UNTOUCHED);
    let mut labels = buffer(UNTOUCHED);
    // A refused call writes nothing, so the digests are others.
    let _ = encoder::encode(format.number, block, &mut work, &mut codeword);
    let codeword = front(&codeword, f.n);
    let _ = encoder::labels(format.number, codeword, &mut labels);
    print_digest(rt, front(&work, f.i), WHOLE)?;
    print_digest(rt, codeword, WHOLE)?;
    print_digest(rt, front(&labels, acm::SYMBOLS), WHOLE)?;
    testkit::end_row(rt)
}
