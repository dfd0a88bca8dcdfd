//! For each set of variables, the costs of its orders that can matter.

ghost use Rattle.std.specs.Prelude.{◌≡◌, ℕ, ◌+◌, ◌-◌, ◌^◌, ◌<◌, ◌≤◌, length, get_or, slice_index, IfOk};
ghost use Rattle.std.specs.Int.{bit_at};
ghost use Rattle.definitions.specs.Problems.{functions};
ghost use Rattle.definitions.specs.AllOrders.{AreAllWidths};
ghost use Rattle.order_counts.specs.Sizes.{AreLimits};

use order_model::{Mask, Pairs, Problem, WidthRow, contains};
use std::alloc::{AllocError, Global};

/// Raises the limit of `set` without each of its members x to that of `set`, less the width of x in
/// `row`.
fn pass_on(limits: &mut [u32], row: &WidthRow, set: Mask, inputs: u8)
    requires few { inputs ≤ 16 }
    requires within { set < length limits.old }
    ensures long { length limits.new ≡ length limits.old }
    ensures rise { (x : ℕ) → x < inputs → bit_at set x ≡ 1 →
        get_or limits.old set 0 ≤ get_or limits.new (set - 2 ^ x) 0 + slice_index row.now x }
    ensures more { (m : ℕ) → get_or limits.old m 0 ≤ get_or limits.new m 0 }
    ensures above { (m : ℕ) → set ≤ m → get_or limits.new m 0 ≡ get_or limits.old m 0 }
    ensures small { (limit : ℕ) → ((m : ℕ) → get_or limits.old m 0 ≤ limit) →
        (m : ℕ) → get_or limits.new m 0 ≤ limit }
{
    let limit = limits[set as usize];
    for x in 0..inputs {
        if contains(set, x) {
            let below = (set - (1 << x)) as usize;
            limits[below] = limits[below].max(limit.saturating_sub(row[x as usize]));
        }
    }
}

/// A limit for each set, at its mask. It is `limit` for the set of all variables. For a set with
/// one member less it is at least that limit less the width of the member. So an order of a set's
/// members whose cost isn't below the set's limit has `limit` nodes or more with any variables on
/// top.
pub(crate) fn limits_of_sets(
    alloc: Global,
    problem: &Problem,
    pairs: &Pairs,
    widths: &[WidthRow],
    limit: u32,
) -> Result<Vec<u32>, AllocError>
    requires { AreAllWidths pairs.now.inputs (functions problem.now) widths.now }
    ensures { IfOk result
        (λ limits. AreLimits pairs.now.inputs (functions problem.now) limit limits.items) }
{
    let inputs = pairs.inputs();
    let last = (1usize << inputs) - 1;
    let mut limits = vec![in alloc; 0u32; last + 1]?;
    limits[last] = limit;
    for place in 0..last {
        let set = last - place;
        pass_on(&mut limits, &widths[set], set as Mask, inputs);
    }
    Ok(limits)
}
