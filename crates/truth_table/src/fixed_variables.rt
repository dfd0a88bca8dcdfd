ghost use Rattle.std.specs.Prelude.{◌≡◌, ◌+◌, ◌-◌, ◌<◌, ◌≤◌, ℕ, length, slice_index};
ghost use Rattle.std.specs.Int.{bit_at};
ghost use Rattle.definitions.specs.Functions.{from_table, restrict, table};
ghost use Rattle.definitions.specs.Problems.{IsClean, table_in, words_per_table};
ghost use Rattle.truth_table.specs.Fixing.{fixed_bit};

use order_model::VarIx;
use order_model::packed::lower_half;

/// A word of a packed truth table after variable x is fixed to 1 if `upper`, else to 0.
fn fixed_word(word: u64, x: VarIx, upper: bool) -> u64
    requires { x < 6 }
    ensures { (k : ℕ) → k < 64 → bit_at result k ≡ bit_at word (fixed_bit x upper k) }
{
    let step = 1u32 << x;
    let half = if upper { word >> step } else { word } & lower_half(x);
    half | (half << step)
}

/// Fixes variable x in each word.
fn fix_halves(words: &mut [u64], x: VarIx, upper: bool)
    requires { x < 6 }
    ensures { (i k : ℕ) → i < length words.new → k < 64 →
        bit_at (slice_index words.new i) k ≡ bit_at (slice_index words.old i)
        (fixed_bit x upper k) }
{
    for word in words.iter_mut() {
        *word = fixed_word(*word, x, upper);
    }
}

/// The index `i` with its bit r set to 1 if `upper`, else to 0.
fn fixed_place(i: usize, r: u8, upper: bool) -> usize
    requires place { i < 1024 }
    requires small { r < 10 }
    ensures { result ≡ fixed_bit r upper i }
{
    let bit = (i >> r) & 1;
    if upper {
        i + ((1 - bit) << r)
    } else {
        i - (bit << r)
    }
}

/// Fixes variable r + 6: word i becomes the old word at `fixed_place(i, r, upper)`.
fn fix_rows(words: &mut [u64], r: u8, upper: bool)
    requires few { length words.old ≤ 1024 }
    requires small { r < 10 }
    requires room { (i : ℕ) → i < length words.old → fixed_bit r upper i < length words.old }
    ensures { (i : ℕ) → i < length words.old →
        slice_index words.new i ≡ slice_index words.old (fixed_bit r upper i) }
{
    for i in 0..words.len() {
        words[i] = words[fixed_place(i, r, upper)];
    }
}

/// Fixes variable x, to 1 if `upper`, else to 0, in the packed truth table of a function of n
/// variables. The bits past the last point stay 0.
pub(crate) fn fix_variable(n: u8, words: &mut [u64], x: VarIx, upper: bool)
    requires few { n ≤ 16 }
    requires variable { x < n }
    requires long { length words.old ≡ words_per_table n }
    requires clean { IsClean n words.old }
    ensures table { table_in n words.new ≡ table n
        (restrict x upper (from_table (table_in n words.old))) }
    ensures long { length words.new ≡ words_per_table n }
    ensures clean { IsClean n words.new }
{
    if x >= 6 {
        fix_rows(words, x - 6, upper);
    } else {
        fix_halves(words, x, upper);
    }
}
