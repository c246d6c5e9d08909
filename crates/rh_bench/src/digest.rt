//! A digest of bytes.

// What a digest begins with, and what each number is multiplied by: those of FNV-1a of 64 bits (Fowler, Noll and Vo).
const BEGIN: u64 = 0xcbf2_9ce4_8422_2325;

const PRIME: u64 = 0x0100_0000_01b3;

// The digest with a number more.
fn with_number(digest: u64, number: u64) -> u64 {
    let product = (digest ^ number).wrapping_mul(PRIME);
    product ^ product >> 32
}

// The digest of numbers of eight bytes each.
fn of_words(words: &[[u8; 8]]) -> u64 {
    let mut digest = BEGIN;
    for word in words {
        digest = with_number(digest, u64::from_le_bytes(*word));
    }
    digest
}

/// The digest of bytes that were written one after the other: eight at a time, and the rest one by one. It is there to tell
/// outputs apart, so that it takes next to no time beside them.
pub fn digest_of(bytes: &[u8]) -> u64 {
    let (words, rest) = bytes.as_chunks::<8>();
    let mut digest = of_words(words);
    for byte in rest {
        digest = with_number(digest, u64::from(*byte));
    }
    digest
}
