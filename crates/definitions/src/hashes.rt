/// The multiplier of hashes: 2^64 divided by the golden ratio, rounded down. It is odd, and its
/// multiples spread over the words of 64 bits.
pub const HASH_MULTIPLIER: u64 = 0x9E37_79B9_7F4A_7C15;
