//! How many of all orders have fewer nodes than a given one.

ghost use Rattle.std.specs.Prelude.{◌≡◌, ◌≤◌, ◌^◌, ◌<◌, length, sum, IfOk};
ghost use Rattle.definitions.specs.Problems.{functions};
ghost use Rattle.definitions.specs.AllOrders.{AreAllWidths};
ghost use Rattle.order_counts.specs.Sizes.{orders_below as number_below};

use crate::layer_counts::Counter;
use crate::sizes::sizes_of_orders;
use order_model::{Pairs, Problem, WidthRow};
use std::alloc::{AllocError, Global};

/// The sum of `counts`.
fn sum_of(counts: &[u64]) -> u64
    requires { sum counts.now < 2 ^ 64 }
    ensures { result ≡ sum counts.now }
{
    counts.iter().copied().sum()
}

/// How many of the orders that keep `pairs` have fewer than `nodes` nodes. Entry m of `widths` is
/// the row of the set with the mask m: at each member x the width of x over the other members.
/// Costs what `sizes_of_orders` costs up to so many nodes.
pub fn orders_below<C: Counter>(
    counter: &C,
    alloc: Global,
    problem: &Problem,
    pairs: &Pairs,
    widths: &[WidthRow],
    nodes: u32,
) -> Result<u64, AllocError>
    requires ready { C.ready counter.now }
    requires few { length (functions problem.now) ≤ 16 }
    requires widths { AreAllWidths pairs.now.inputs (functions problem.now) widths.now }
    ensures { IfOk result (λ count. count ≡
        number_below pairs.now.inputs (functions problem.now) pairs.now.pairs nodes) }
{
    prove!(pairs.inputs() <= 16);
    let Some(most) = nodes.checked_sub(1) else {
        return Ok(0);
    };
    let counts = sizes_of_orders(counter, alloc, problem, pairs, widths, most)?;
    Ok(sum_of(&counts.orders))
}
