//! Tests whether a truth table is symmetric in two variables, on words of 64 points. The value at
//! point p is bit p % 64 of word p / 64, and variable v is bit v of the point.

ghost use Rattle.std.specs.Prelude.{◌≡◌, ℕ, ◌+◌, ◌-◌, ◌^◌, ◌<◌, ◌≤◌, length, slice_index, false, IsTrue};
ghost use Rattle.std.specs.Int.{bit_at};
ghost use Rattle.definitions.specs.Problems.{packed_bit, words_per_table};

use order_model::VarIx;
use order_model::packed::lower_half;

/// Whether exchanging `a` and `b` changes the function of six variables with the truth table
/// `word`.
#[inline(always)]
fn changes_inside(word: u64, a: VarIx, b: VarIx) -> bool
    requires first { a < b }
    requires low { b < 6 }
    ensures { result ≡ false → (k : ℕ) → k < 64 → bit_at k a ≡ 1 → bit_at k b ≡ 0 →
        bit_at word k ≡ bit_at word ((k - 2 ^ a) + 2 ^ b) }
{
    let without_b = lower_half(b);
    let with_a = without_b ^ (without_b & lower_half(a));
    let apart = (1u32 << b) - (1u32 << a);
    ((word >> apart) ^ word) & with_a != 0
}

/// Whether exchanging variable `a` with a variable v changes the function of seven variables with
/// the truth tables `lower` for v = 0 and `upper` for v = 1.
#[inline(always)]
fn changes_across(lower: u64, upper: u64, a: VarIx) -> bool
    requires { a < 6 }
    ensures { result ≡ false → (k : ℕ) → k < 64 → bit_at k a ≡ 1 →
        bit_at lower k ≡ bit_at upper (k - 2 ^ a) }
{
    ((lower >> (1u32 << a)) ^ upper) & lower_half(a) != 0
}

/// Whether the function is symmetric in `a` and `b`, both below 6.
fn is_symmetric_inside(words: &[u64], a: VarIx, b: VarIx) -> bool
    requires first { a < b }
    requires low { b < 6 }
    ensures { IsTrue result → (i k : ℕ) → i < length words.now → k < 64 → bit_at k a ≡ 1 →
        bit_at k b ≡ 0 →
        bit_at (slice_index words.now i) k
        ≡ bit_at (slice_index words.now i) ((k - 2 ^ a) + 2 ^ b) }
{
    for word in words {
        if changes_inside(*word, a, b) {
            return false;
        }
    }
    true
}

/// Whether the function is symmetric in `a`, below 6, and `s` + 6.
fn is_symmetric_across(words: &[u64], a: VarIx, s: u8) -> bool
    requires few { length words.now ≤ 1024 }
    requires low { a < 6 }
    requires high { s < 10 }
    requires room { (i : ℕ) → i < length words.now → bit_at i s ≡ 0 → i + 2 ^ s < length words.now }
    ensures { IsTrue result → (i k : ℕ) → i < length words.now → bit_at i s ≡ 0 → k < 64 →
        bit_at k a ≡ 1 →
        bit_at (slice_index words.now i) k
        ≡ bit_at (slice_index words.now (i + 2 ^ s)) (k - 2 ^ a) }
{
    let step = 1usize << s;
    for i in 0..words.len() {
        if (i >> s) & 1 == 0 && changes_across(words[i], words[i + step], a) {
            return false;
        }
    }
    true
}

/// Whether the function is symmetric in `r` + 6 and `s` + 6.
fn is_symmetric_between(words: &[u64], r: u8, s: u8) -> bool
    requires few { length words.now ≤ 1024 }
    requires first { r < s }
    requires high { s < 10 }
    requires room { (i : ℕ) → i < length words.now → bit_at i s ≡ 0 → i + 2 ^ s < length words.now }
    ensures { IsTrue result → (i : ℕ) → i < length words.now → bit_at i r ≡ 1 → bit_at i s ≡ 0 →
        slice_index words.now i ≡ slice_index words.now ((i - 2 ^ r) + 2 ^ s) }
{
    for i in 0..words.len() {
        if (i >> r) & 1 == 1 && (i >> s) & 1 == 0 {
            let other = i - (1usize << r) + (1usize << s);
            if words[i] != words[other] {
                return false;
            }
        }
    }
    true
}

/// Whether the function with the packed truth table `words` is symmetric in `a` and `b`.
pub(crate) fn is_symmetric_in(words: &[u64], inputs: u8, a: VarIx, b: VarIx) -> bool
    requires few { inputs ≤ 16 }
    requires long { length words.now ≡ words_per_table inputs }
    requires first { a < b }
    requires inside { b < inputs }
    ensures { IsTrue result → (p : ℕ) → p < 2 ^ inputs → bit_at p a ≡ 1 → bit_at p b ≡ 0 →
        packed_bit words.now p ≡ packed_bit words.now ((p - 2 ^ a) + 2 ^ b) }
{
    if b < 6 {
        is_symmetric_inside(words, a, b)
    } else if a < 6 {
        is_symmetric_across(words, a, b - 6)
    } else {
        is_symmetric_between(words, a - 6, b - 6)
    }
}
