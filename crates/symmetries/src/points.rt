//! The values of all functions at each point.

ghost use Rattle.std.specs.Prelude.{◌≡◌, ℕ, ◌+◌, ◌*◌, ◌<◌, ◌≤◌, ◌^◌, length, slice_index, IfOk};
ghost use Rattle.definitions.specs.Functions.{weight};
ghost use Rattle.definitions.specs.Problems.{packed_bit};
ghost use Rattle.symmetries.specs.Images.{TellValues};

use order_model::Problem;
use order_model::packed::bit_of;
use std::alloc::{AllocError, Global};

/// Adds a function's values to `values`: that at point p becomes the lowest bit of entry p, and the
/// other bits move up by one.
fn append_bits(values: &mut Vec<u16>, words: &[u64], before: u8)
    requires few { before < 16 }
    requires long { length values.old.items ≤ 64 * length words.now }
    requires below { (p : ℕ) → slice_index values.old.items p < 2 ^ before }
    ensures long { length values.new.items ≡ length values.old.items }
    ensures each { (p : ℕ) → p < length values.old.items →
        slice_index values.new.items p ≡ 2 * slice_index values.old.items p
        + weight (packed_bit words.now p) }
{
    for point in 0..values.len() {
        values[point] = 2 * values[point] + u16::from(bit_of(words, point));
    }
}

/// The values of all functions at each point, as one number: the last one's is its lowest bit.
pub(crate) fn values_by_point(alloc: Global, problem: &Problem) -> Result<Vec<u16>, AllocError>
    ensures long { IfOk result (λ v. length v.items ≡ 2 ^ problem.now.inputs) }
    ensures labels { IfOk result (λ v. TellValues problem.now v.items) }
{
    let mut values = vec![in alloc; 0u16; 1usize << problem.inputs()]?;
    for output in 0..problem.outputs() {
        append_bits(&mut values, problem.words(output), output);
    }
    Ok(values)
}
