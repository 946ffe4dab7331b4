//! A number for each id, by its octets.

ghost use Rattle.std.specs.Prelude.{◌≡◌};
ghost use Rattle.syslog_reading.specs.IdHashes.{hash_of, mix, tail_word, words_hash};

use syslog_fields::reading::next;

/// Mixes a word into a hash by an odd multiplier. The upper half of the product, which depends on all bits, is added to
/// the lower one.
#[inline(always)]
fn mixed(multiplier: u64, hash: u64, word: u64) -> u64
    ensures { result ≡ mix multiplier hash word }
{
    let product = hash.wrapping_add(word).wrapping_mul(multiplier);
    product.wrapping_add(product / 0x1_0000_0000)
}

/// The hash of whole words.
#[inline(always)]
fn hash_of_words(multiplier: u64, words: &[[u8; 8]]) -> u64
    ensures { result ≡ words_hash multiplier 0 words.now }
{
    let mut hash = 0;
    for i in 0..words.len() {
        hash = mixed(multiplier, hash, u64::from_le_bytes(words[i]));
    }
    hash
}

/// Fewer than eight octets as a word.
#[inline(always)]
fn word_of_tail(octets: &[u8]) -> u64
    ensures { result ≡ tail_word 1 octets.now }
{
    let mut word: u64 = 1;
    let mut rest = octets;
    while let Some((first, behind)) = next(rest) {
        word = word.wrapping_mul(256).wrapping_add(u64::from(first));
        rest = behind;
    }
    word
}

/// The hash of an id by a multiplier.
#[inline(always)]
pub fn id_hash(multiplier: u64, id: &[u8]) -> u64
    ensures { result ≡ hash_of multiplier id.now }
{
    let (words, tail) = id.as_chunks::<8>();
    mixed(
        multiplier,
        hash_of_words(multiplier, words),
        word_of_tail(tail),
    )
}
