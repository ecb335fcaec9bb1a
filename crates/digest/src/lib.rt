// The 64-bit FNV-1a hash over bytes, words and numbers, each from the hash so far.
#![tactic(auto)]

ghost use Rattle.std.specs.Prelude.{◌≡◌};
ghost use Rattle.digest.specs.Digest.{BASIS, mixed, fnv1a, word_bytes, words_bytes, numbers_bytes};

use scalar::bits;

// What each step multiplies by.
const PRIME: u64 = 0x100_0000_01b3;

// The hash of nothing.
pub fn begin() -> u64
    ensures { result ≡ BASIS }
{
    0xcbf2_9ce4_8422_2325
}

// A byte more.
fn hash_byte(h: u64, b: u8) -> u64
    ensures { result ≡ mixed h b }
{
    (h ^ b as u64).wrapping_mul(PRIME)
}

// Bytes more.
#[tactic(auto, unfolding(crate::specs::Digest::fnv1a))]
pub fn hash_bytes(h: u64, s: &[u8]) -> u64
    ensures { result ≡ fnv1a h s.now }
{
    s.iter().fold(h, |h, b| hash_byte(h, *b))
}

// A word more.
pub fn hash_word(h: u64, w: u64) -> u64
    ensures { result ≡ fnv1a h (word_bytes w) }
{
    hash_bytes(h, &w.to_le_bytes())
}

// Words more.
pub fn hash_words(h: u64, words: &[u64]) -> u64
    ensures { result ≡ fnv1a h (words_bytes words.now) }
{
    words.iter().fold(h, |h, w| hash_word(h, *w))
}

// Numbers more.
pub fn hash_numbers(h: u64, numbers: &[f64]) -> u64
    ensures { result ≡ fnv1a h (numbers_bytes numbers.now) }
{
    numbers
        .iter()
        .fold(h, |h, x| hash_word(h, bits::to_bits(*x)))
}
