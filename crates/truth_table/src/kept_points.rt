ghost use Rattle.std.specs.Prelude.{◌≡◌, ◌<◌, ℕ, bit_and, length, slice_index, IfOk};

use std::alloc::{AllocError, Global};

/// A copy of `words` with `mask` applied to each word.
pub(crate) fn kept_points(alloc: Global, words: &[u64], mask: u64) -> Result<Vec<u64>, AllocError>
    ensures long { IfOk result (λ v. length v.items ≡ length words.now) }
    ensures words { IfOk result
        (λ v. (i : ℕ) → i < length words.now →
        slice_index v.items i ≡ bit_and (slice_index words.now i) mask) }
{
    let mut kept = Vec::with_capacity(alloc, words.len())?;
    for i in 0..words.len() {
        kept.push(words[i] & mask)?;
    }
    Ok(kept)
}
