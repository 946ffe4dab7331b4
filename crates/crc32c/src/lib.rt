//! The checksum CRC-32C (Castagnoli) of octets, as iSCSI and SCTP have it.
#![tactic(auto)]

mod remainders;

ghost use Rattle.std.specs.Prelude.{◌≡◌, ◌<◌, ◌≤◌, ◌+◌, ◌-◌, ◌*◌, ◌/◌, ◌%◌, ◌^◌, bit_xor, length, take};
ghost use Rattle.crc32c.specs.Castagnoli.{after_bits, after_octets, crc32c};

use remainders::REMAINDERS;

// how many octets are taken at once
const WORD: usize = 8;

// what is left of one octet of a word, the first in row 7, after that octet and those behind it
#[inline(always)]
fn remainder(word: u64, row: usize) -> u32
    requires { row < 8 }
    ensures { result ≡ after_bits (8 * (row + 1)) (word / 2 ^ (8 * (7 - row)) % 256) }
{
    REMAINDERS[256 * row + (word >> (8 * (7 - row)) & 255) as usize]
}

// the register after eight octets
#[inline(always)]
fn after_word(register: u32, octets: &[u8]) -> u32
    requires { 8 ≤ length octets.now }
    ensures { result ≡ after_octets register (take 8 octets.now) }
{
    let read = u64::from_le_bytes([
        octets[0], octets[1], octets[2], octets[3], octets[4], octets[5], octets[6], octets[7],
    ]);
    let word = read ^ register as u64;
    let last = remainder(word, 0) ^ remainder(word, 1) ^ remainder(word, 2) ^ remainder(word, 3);
    last ^ remainder(word, 4) ^ remainder(word, 5) ^ remainder(word, 6) ^ remainder(word, 7)
}

// the register after as many octets as make whole words
fn after_words(register: u32, octets: &[u8]) -> u32
    ensures { result ≡ after_octets register (take (length octets.now / 8 * 8) octets.now) }
{
    let mut after = register;
    for word in 0..octets.len() / WORD {
        after = after_word(after, &octets[word * WORD..]);
    }
    after
}

// the register after one octet
#[inline(always)]
fn after_octet(register: u32, octet: u8) -> u32
    ensures { result ≡ after_bits 8 (bit_xor register octet) }
{
    REMAINDERS[((register ^ octet as u32) & 255) as usize] ^ (register >> 8)
}

// the register after octets, one by one
fn after_octets(register: u32, octets: &[u8]) -> u32
    ensures { result ≡ after_octets register octets.now }
{
    let mut after = register;
    for octet in octets {
        after = after_octet(after, *octet);
    }
    after
}

/// The CRC-32C of octets.
pub fn crc32c(octets: &[u8]) -> u32
    ensures { result ≡ crc32c octets.now }
{
    let words = after_words(u32::MAX, octets);
    after_octets(words, &octets[octets.len() / WORD * WORD..]) ^ u32::MAX
}
