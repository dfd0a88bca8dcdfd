//! Sets of high bytes. A high byte is the part of a set's mask that has its high variables.

ghost use Rattle.std.specs.Prelude.{◌≡◌, ◌≢◌, ℕ, ◌+◌, ◌*◌, ◌-◌, ◌<◌, ◌≤◌, length, slice_index, IsTrue};
ghost use Rattle.std.specs.Int.{bit_at};
ghost use Rattle.compaction.specs.HighBytes.{HasByte};

use order_model::Mask;
use order_model::packed::lower_half;

/// A set of high bytes: a bit for each of the 256.
#[derive(Clone, Copy)]
pub(crate) struct HighBytes {
    /// Bit h % 64 of word h / 64 is 1 if the high byte h is in the set.
    words: [u64; 4],
}

/// A word in which bit b is 1 if the byte `64 * i + b` lacks bit `y`.
fn bits_without(i: usize, y: u8) -> u64
    requires place { i < 4 }
    requires bit { y < 8 }
    ensures { (b : ℕ) → b < 64 → bit_at result b ≡ 1 - bit_at (64 * i + b) y }
{
    if y < 6 {
        lower_half(y)
    } else if (i >> (y - 6)) & 1 == 0 {
        u64::MAX
    } else {
        0
    }
}

impl HighBytes {
    /// The high bytes h with `needed[h]` not 0.
    pub(crate) fn wanted(needed: &[Mask]) -> HighBytes
        requires { length needed.now ≤ 256 }
        ensures { (h : ℕ) → h < length needed.now → slice_index needed.now h ≢ 0 →
            HasByte result.words h }
    {
        let mut words = [0u64; 4];
        for (h, members) in needed.iter().enumerate() {
            if *members != 0 {
                words[h / 64] |= 1u64 << (h % 64);
            }
        }
        HighBytes { words }
    }

    pub(crate) fn is_empty(&self) -> bool
        ensures { IsTrue result → (h : ℕ) → h < 256 → HasByte self.now.words h → ⊥ }
    {
        self.words == [0; 4]
    }

    /// Those high bytes in `self` that lack the variable `8 + y`.
    pub(crate) fn without(&self, y: u8) -> HighBytes
        requires { y < 8 }
        ensures { (h : ℕ) → h < 256 → HasByte self.now.words h → bit_at h y ≡ 0 →
            HasByte result.words h }
    {
        let mut words = self.words;
        for i in 0..4usize {
            words[i] &= bits_without(i, y);
        }
        HighBytes { words }
    }

    /// Those high bytes in `self` that have the variable `8 + y`.
    pub(crate) fn with(&self, y: u8) -> HighBytes
        requires { y < 8 }
        ensures { (h : ℕ) → h < 256 → HasByte self.now.words h → bit_at h y ≡ 1 →
            HasByte result.words h }
    {
        let mut words = self.words;
        for i in 0..4usize {
            words[i] ^= words[i] & bits_without(i, y);
        }
        HighBytes { words }
    }

    pub(crate) fn count(&self) -> u32 {
        self.words
            .iter()
            .fold(0, |count, word| count.wrapping_add(word.count_ones()))
    }
}
