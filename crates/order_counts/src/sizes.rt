//! How many of all orders have each size.

ghost use Rattle.std.specs.Prelude.{◌≡◌, ℕ, ◌+◌, ◌^◌, ◌<◌, ◌≤◌, length, get_or, IfOk};
ghost use Rattle.definitions.specs.Problems.{functions};
ghost use Rattle.definitions.specs.AllOrders.{AreAllWidths};
ghost use Rattle.order_counts.specs.Sizes.{AreSizesOfOrders, AreTrimmed, counts_at};

use crate::cost_counts::CostCounts;
use crate::layer_counts::{Counter, counts_of_nothing};
use crate::limits::limits_of_sets;
use crate::set_counts::Recurrence;
use order_model::{Pairs, Problem, WidthRow};
use std::alloc::{AllocError, Global};

/// No problem of at most 16 functions has an order of more nodes.
const MOST_NODES: u32 = 262_148;

/// The place of the first entry that isn't 0, or the length.
fn first_some(counts: &[u64]) -> usize
    ensures within { result ≤ length counts.now }
    ensures before { (i : ℕ) → i < result → get_or counts.now i 0 ≡ 0 }
    ensures some { result < length counts.now → 0 < get_or counts.now result 0 }
{
    for i in 0..counts.len() {
        if counts[i] > 0 {
            return i;
        }
    }
    counts.len()
}

/// The place after the last entry that isn't 0, or 0.
fn after_last_some(counts: &[u64]) -> usize
    ensures within { result ≤ length counts.now }
    ensures after { (i : ℕ) → result ≤ i → get_or counts.now i 0 ≡ 0 }
    ensures some { (i : ℕ) → i + 1 ≡ result → 0 < get_or counts.now i 0 }
{
    let mut end = counts.len();
    while end > 0 {
        if counts[end - 1] > 0 {
            return end;
        }
        end -= 1;
    }
    0
}

/// `counts` without entries for costs below the first or above the last that some order has.
fn trimmed(alloc: Global, counts: &CostCounts) -> Result<CostCounts, AllocError>
    requires { counts.now.least + length counts.now.orders.items < 2 ^ 32 }
    ensures trimmed { IfOk result (λ s. AreTrimmed s.least s.orders.items) }
    ensures counts { IfOk result (λ s. (c : ℕ) → counts_at s c ≡ counts_at counts.now c) }
    ensures within { IfOk result
        (λ s. s.least + length s.orders.items ≤ counts.now.least + length counts.now.orders.items) }
{
    let start = first_some(&counts.orders);
    let end = after_last_some(&counts.orders);
    if end <= start {
        return Ok(CostCounts::none(alloc));
    }
    let orders = counts.orders[start..end].to_vec(alloc)?;
    Ok(CostCounts {
        least: counts.least + start as u32,
        orders,
    })
}

/// How many of the orders that keep `pairs` have each size, counted by `counter`. The first entry
/// is of the fewest nodes, the last one of the most nodes, up to `most`, that an order has. Entry m
/// of `widths` is the row of the set with the mask m. Sets whose orders all lead to more than
/// `most` nodes cost next to nothing. Takes 8 bytes for each cost that some order of a set has, of
/// the sets of two layers.
pub fn sizes_of_orders<C: Counter>(
    counter: &C,
    alloc: Global,
    problem: &Problem,
    pairs: &Pairs,
    widths: &[WidthRow],
    most: u32,
) -> Result<CostCounts, AllocError>
    requires ready { C.ready counter.now }
    requires few { length (functions problem.now) ≤ 16 }
    requires widths { AreAllWidths pairs.now.inputs (functions problem.now) widths.now }
    ensures { IfOk result
        (λ s. AreSizesOfOrders pairs.now.inputs (functions problem.now) pairs.now.pairs most s.least
        s.orders.items) }
{
    let inputs = pairs.inputs();
    let limits = limits_of_sets(alloc, problem, pairs, widths, most.min(MOST_NODES) + 1)?;
    let given = Recurrence {
        problem,
        pairs,
        widths,
        limits: &limits,
    };
    let mut counts = counts_of_nothing(alloc, given)?;
    for size in 0..inputs {
        counts = counter.counts_of_layer(alloc, given, &counts, u32::from(size) + 1)?;
    }
    trimmed(alloc, &counts[(1usize << inputs) - 1])
}
