//! A number that stands for a text.

const OFFSET: u64 = 0xcbf2_9ce4_8422_2325;

const PRIME: u64 = 0x100_0000_01b3;

/// The FNV-1a hash of the text's bytes, of 64 bits.
pub fn checksum_of(text: &str) -> u64 {
    let mut sum = OFFSET;
    for byte in text.as_bytes() {
        sum = (sum ^ u64::from(*byte)).wrapping_mul(PRIME);
    }
    sum
}
