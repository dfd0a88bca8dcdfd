ghost use Rattle.std.specs.Prelude.{◌≡◌, ◌++◌, ◌+◌, ◌/◌, ◌<◌, ◌≤◌, ◌^◌, drop, if◌then◌else◌, length, map, take, OnOk};
ghost use Rattle.definitions.specs.Orders.{IsOrder};
ghost use Rattle.definitions.specs.Problems.{packed_bit, packed_tables};
ghost use Rattle.std.specs.List.{All};
ghost use Rattle.truth_table.specs.Assignments.{AreValuesUnder};
ghost use Rattle.truth_table.specs.PackedTables.{ArePacked};

use crate::level_classes::{evaluate, write_points};
use order_model::VarIx;
use order_model::packed::{block, words_per_table};
use std::alloc::AllocError;

/// Writes the values, 0 or 1, of the packed truth table `words` at `points` to `values`, from index
/// `start` on.
fn put_values(words: &[u64], points: &[u32], values: &mut [u32], start: usize)
    requires within { All (λ k. k / 64 < length words.now) points.now }
    requires room { start + length points.now ≤ length values.old }
    ensures { values.new ≡ take start values.old
        ++ map (λ k. if packed_bit words.now k then 1 else 0) points.now
        ++ drop (start + length points.now) values.old }
{
    let (_, others) = values.split_at_mut(start);
    let (own, _) = others.split_at_mut(points.len());
    own.copy_from_slice(points);
    evaluate(words, own);
}

/// Overwrites `values` with the values of m functions of n variables at all points: first those of
/// function 0, with the top variable of `order` changing slowest. If memory is refused, `values`
/// has no meaning.
pub(crate) fn write_packed_values(
    n: u8,
    m: u8,
    words: &[u64],
    order: &[VarIx],
    values: &mut Vec<u32>,
) -> Result<(), AllocError>
    requires packed { ArePacked n m words.now }
    requires order { IsOrder n order.now }
    ensures values { OnOk result
        (AreValuesUnder (packed_tables n m words.now) order.now values.new.items) }
    ensures few { OnOk result (length values.new.items ≤ 2 ^ 20) }
{
    let size = words_per_table(n);
    let last = m - 1;
    values.resize((m as usize) << n, 0)?;
    // The last function's values take the place of the points.
    let (others, points) = values.split_at_mut((last as usize) << n);
    write_points(points, order);
    for output in 0..last {
        let own = block(words, size, output as usize);
        put_values(own, points, others, (output as usize) << n);
    }
    evaluate(block(words, size, last as usize), points);
    Ok(())
}
