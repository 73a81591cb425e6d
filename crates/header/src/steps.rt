// Opened to the frame alone: the header's slots. Marker and descriptor are held as words of 64 bits, of which the first weighs most.
ghost use Rattle.std.specs.Prelude.{◌≡◌, ◌++◌, map, ◌*◌, ◌/◌, ◌%◌, ◌^◌, ◌≤◌, ◌<◌, length, drop};
ghost use Rattle.bits.specs.Words.{bits_of, unpacked};
ghost use Rattle.header.specs.Descriptor.{add_rows, choice_number, descriptor};
ghost use Rattle.header.specs.Header.{header, header_code, header_length, header_slots};
ghost use Rattle.header.specs.Words.{word_length};

use crate::choice::Pilots;
use acm::AcmFormat;

const WORD_LENGTH: usize = 64;

const MARKER_LENGTH: usize = 256;

const DESCRIPTOR_LENGTH: usize = 64;

// Slots of the header.
pub const LENGTH: usize = MARKER_LENGTH + DESCRIPTOR_LENGTH;

// The slots of a marker or descriptor bit.
const HEADER_ZERO: u16 = 256;

const HEADER_ONE: u16 = 257;

// The frame marker (5.1), as its generator gives it.
const MARKER: [u64; 4] = [
    0xFB441F1DBDD776F2,
    0x3479DA10B4B3AB9D,
    0x7D75BF1E70CAEECF,
    0x9485CDECE51AF141,
];

// The rows of G (004, figure 5-7), each symbol twice.
const ROWS: [u64; 7] = [
    0xC300CCF00CF3F3F3,
    0x3333333333333333,
    0x0F0F0F0F0F0F0F0F,
    0x00FF00FF00FF00FF,
    0x0000FFFF0000FFFF,
    0x00000000FFFFFFFF,
    0xFFFFFFFFFFFFFFFF,
];

// The sequence that scrambles the descriptor (5.2.1).
const SCRAMBLING: u64 = 0x719D83C953422DFA;

// The header of a format and a pilot choice, to the front of out.
pub fn put(format: AcmFormat, pilots: Pilots, out: &mut [u16])
    requires { header_length ≤ length out.old }
    ensures { out.new ≡ header format.number (choice_number pilots) ++ drop header_length out.old }
{
    put_words(&MARKER, out);
    let descriptor = descriptor_word(format, pilots);
    put_word(descriptor, &mut out[MARKER_LENGTH..LENGTH]);
}

// The frame descriptor: the pilot choice is b6, behind the format's bits.
fn descriptor_word(format: AcmFormat, pilots: Pilots) -> u64
    ensures { bits_of word_length result ≡ descriptor format.number (choice_number pilots) }
{
    add_rows(2 * format.number + u64::from(pilots), &ROWS) ^ SCRAMBLING
}

// The sum of the rows whose bits are 1: there is a bit for each row, the first weighs most.
fn add_rows(bits: u64, rows: &[u64]) -> u64
    requires { length rows.now ≤ word_length }
    ensures { bits_of word_length result ≡ add_rows (bits_of word_length 0) (bits_of (length rows.now) bits) (map (bits_of word_length) rows.now) }
{
    let mut word = 0;
    // By index: the bit's weight counts from the last row on, and a range of weights zipped with the rows says it no plainer.
    for (i, &row) in rows.iter().enumerate() {
        if bit(bits, rows.len() - 1 - i) == 1 {
            word ^= row;
        }
    }
    word
}

// The bits of several words as slots, to the front of out.
fn put_words(words: &[u64], out: &mut [u16])
    requires { word_length * length words.now ≤ length out.old }
    ensures { out.new ≡ header_slots (unpacked word_length words.now) ++ drop (word_length * length words.now) out.old }
{
    // By index: of what is written through chunks of out the proof knows the length alone.
    for (i, &word) in words.iter().enumerate() {
        put_word(word, &mut out[WORD_LENGTH * i..WORD_LENGTH * (i + 1)]);
    }
}

// The bits of a word as slots, to out.
fn put_word(word: u64, out: &mut [u16])
    requires { length out.old ≡ word_length }
    ensures { out.new ≡ header_slots (bits_of word_length word) }
{
    for (k, slot) in out.iter_mut().enumerate() {
        *slot = header_code(bit(word, WORD_LENGTH - 1 - k));
    }
}

// The bit of a word that weighs 2^weight.
fn bit(word: u64, weight: usize) -> u64
    requires { weight < word_length }
    ensures { result ≡ word / 2 ^ weight % 2 }
{
    (word >> weight) % 2
}

// The slot of a bit. No `From`: a slot and a bit are plain numbers, as the frame that callers in C get has them.
fn header_code(bit: u64) -> u16
    ensures { result ≡ header_code bit }
{
    if bit == 0 { HEADER_ZERO } else { HEADER_ONE }
}
