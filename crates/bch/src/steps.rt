// Opened to the layers above alone: a codeword of the BCH code. The register is held in a word, its first bit weighing most, and takes eight bits
// at once, for speed: the eight that leave it, added to the eight that come, choose the entry of a table that is added to those that stay.
ghost use Rattle.std.specs.Prelude.{◌≡◌, true, ◌++◌, ◌+◌, ◌%◌, ◌^◌, ◌≤◌, ◌<◌, length, drop};
ghost use Rattle.bits.specs.Legal.{all_bits};
ghost use Rattle.bits.specs.Words.{bits_of};
ghost use Rattle.bch.specs.Bch.{check_length, zeros, lower, check_bits, coded};
ghost use Rattle.bch.specs.Register.{byte_length, Table, register_from};

use crate::table;

// The degree of g(x), and so the number of check bits.
pub const CHECK_LENGTH: usize = 52;

// Bits that the register takes at once.
const BYTE_LENGTH: usize = 8;

// The codeword of a list of bits, to the front of out: the bits, and behind them their check bits.
// That they are bits is a clause, here and below: a type for it is no plainer, since what is encoded are pieces of a list and the bytes of a piece,
// each of which would have to be shown to be bits as now.
pub fn encode(list: &[u8], out: &mut [u8])
    requires { (all_bits list.now ≡ true) × (length list.now % byte_length ≡ 0) × (length list.now + check_length ≤ length out.old) }
    ensures { out.new ≡ coded list.now ++ drop (length list.now + check_length) out.old }
{
    let n = list.len();
    bits::steps::put(list, out);
    put_bits(check_word(list), &mut out[n..n + CHECK_LENGTH]);
}

// The check bits of a list, the first weighing 2^51.
fn check_word(list: &[u8]) -> u64
    requires { (all_bits list.now ≡ true) × (length list.now % byte_length ≡ 0) }
    ensures { bits_of check_length result ≡ check_bits list.now }
{
    run(&table::BYTES, list)
}

// What a register of zeros holds once it is fed with a list.
#[tactic(auto, using(bits::proofs::Legal::legal_of_front))]
fn run(table: &[u64], list: &[u8]) -> u64
    requires { (Table table.now) × (all_bits list.now ≡ true) × (length list.now % byte_length ≡ 0) }
    ensures { bits_of check_length result ≡ register_from lower (zeros check_length) list.now }
{
    let mut word = 0;
    for bits in list.chunks_exact(BYTE_LENGTH) {
        word = feed(table, word, pack(bits));
    }
    word
}

// The register once it is fed with the eight bits of a byte.
fn feed(table: &[u64], word: u64, byte: u64) -> u64
    requires { (Table table.now) × (word < 2 ^ check_length) × (byte < 2 ^ byte_length) }
    ensures { (result < 2 ^ check_length) × (bits_of check_length result ≡ register_from lower (bits_of check_length word) (bits_of byte_length byte)) }
{
    // std has no `From` of such a word for an index; that nothing is lost is proved.
    let leaving = (byte ^ (word >> (CHECK_LENGTH - BYTE_LENGTH))) as usize;
    (word * (1 << BYTE_LENGTH) % (1 << CHECK_LENGTH)) ^ table[leaving]
}

// The byte of eight bits, the first weighing 128.
fn pack(bits: &[u8]) -> u64
    requires { (all_bits bits.now ≡ true) × (length bits.now ≡ byte_length) }
    ensures { (result < 2 ^ byte_length) × (bits_of byte_length result ≡ bits.now) }
{
    let mut byte = 0;
    for &bit in bits {
        byte = 2 * byte + u64::from(bit);
    }
    byte
}

// The check bits that a word holds, to out. `put_word` of header does so with slots: one function of both would take what a bit is written as.
fn put_bits(word: u64, out: &mut [u8])
    requires { length out.old ≡ check_length }
    ensures { out.new ≡ bits_of check_length word }
{
    // std has no `From` of a word for one of its bits; that nothing is lost is proved.
    for (k, bit) in out.iter_mut().enumerate() {
        *bit = ((word >> (CHECK_LENGTH - 1 - k)) % 2) as u8;
    }
}
