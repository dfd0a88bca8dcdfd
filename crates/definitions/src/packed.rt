//! Truth tables packed in words of 64 points.

ghost use Rattle.std.specs.Prelude.{◌≡◌, ◌+◌, ◌-◌, ◌*◌, ◌<◌, ◌≤◌, ◌^◌, ◌/◌, ◌%◌, ◌==◌, ℕ, length, slice_index, false, IsTrue};
ghost use Rattle.std.specs.Int.{bit_at};
ghost use Rattle.definitions.specs.Functions.{depends, from_table};
ghost use Rattle.definitions.specs.Problems.{IsClean, packed_bit, table_in, words_of, words_per_table as size_of};

use crate::variables::VarIx;

/// The number of words in the packed truth table of a function of n variables: `2^n / 64`, but at
/// least 1.
pub fn words_per_table(n: u8) -> usize
    requires { n ≤ 16 }
    ensures value { result ≡ size_of n }
    ensures some { 1 ≤ result }
    ensures few { result ≤ 1024 }
{
    ((1usize << n) + 63) / 64
}

/// Table number `table` of the packed truth tables that stand one after the other in `words`.
pub fn block(words: &[u64], size: usize, table: usize) -> &[u64]
    requires { table * size + size ≤ length words.now }
    ensures { result.now ≡ words_of size words.now table }
{
    let (_, behind) = words.split_at(table * size);
    let (block, _) = behind.split_at(size);
    block
}

/// The value at `point`: bit `point % 64` of word `point / 64`. Bit x of `point` is variable x.
pub fn bit_of(words: &[u64], point: usize) -> bool
    requires { point / 64 < length words.now }
    ensures { result ≡ packed_bit words.now point }
{
    (words[point / 64] >> (point % 64)) & 1 == 1
}

/// The word that marks those of 64 points at which variable x is 0.
pub fn lower_half(x: VarIx) -> u64
    requires { x < 6 }
    ensures { (b : ℕ) → b < 64 → bit_at result b ≡ 1 - bit_at b x }
{
    match x {
        0 => 0x5555_5555_5555_5555,
        1 => 0x3333_3333_3333_3333,
        2 => 0x0f0f_0f0f_0f0f_0f0f,
        3 => 0x00ff_00ff_00ff_00ff,
        4 => 0x0000_ffff_0000_ffff,
        _ => 0x0000_0000_ffff_ffff,
    }
}

/// Whether the function of six variables with the truth table `word` depends on variable x.
fn halves_differ(word: u64, x: VarIx) -> bool
    requires { x < 6 }
    ensures differ { IsTrue result →
        (b : ℕ) × (b + 2 ^ x < 64) × (bit_at b x ≡ 0)
        × (bit_at word b ≡ bit_at word (b + 2 ^ x) → ⊥) }
    ensures alike { result ≡ false → (b : ℕ) → b + 2 ^ x < 64 → bit_at b x ≡ 0 →
        bit_at word b ≡ bit_at word (b + 2 ^ x) }
{
    ((word >> (1u32 << x)) ^ word) & lower_half(x) != 0
}

/// Whether the function with the packed truth table `words` depends on variable r + 6, which is bit
/// `r` of a word's index.
fn rows_differ(words: &[u64], r: u8) -> bool
    requires few { length words.now ≤ 1024 }
    requires small { r < 10 }
    requires room { (i : ℕ) → i < length words.now → bit_at i r ≡ 0 → i + 2 ^ r < length words.now }
    ensures differ { IsTrue result →
        (i : ℕ) × (i + 2 ^ r < length words.now) × (bit_at i r ≡ 0)
        × (slice_index words.now i ≡ slice_index words.now (i + 2 ^ r) → ⊥) }
    ensures alike { result ≡ false → (i : ℕ) → i + 2 ^ r < length words.now → bit_at i r ≡ 0 →
        slice_index words.now i ≡ slice_index words.now (i + 2 ^ r) }
{
    let step = 1usize << r;
    for i in 0..words.len() {
        if (i >> r) & 1 == 0 && words[i] != words[i + step] {
            return true;
        }
    }
    false
}

/// Whether the function of n variables with the packed truth table `words` depends on variable x.
pub fn depends_on(n: u8, words: &[u64], x: VarIx) -> bool
    requires few { n ≤ 16 }
    requires variable { x < n }
    requires long { length words.now ≡ size_of n }
    requires clean { IsClean n words.now }
    ensures { result ≡ depends n (from_table (table_in n words.now)) x }
{
    if x >= 6 {
        return rows_differ(words, x - 6);
    }
    for word in words {
        if halves_differ(*word, x) {
            return true;
        }
    }
    false
}
