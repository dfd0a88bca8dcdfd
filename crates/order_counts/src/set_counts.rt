//! How many orders of a set's variables have each cost, from the sets with one member less.

ghost use Rattle.std.specs.Prelude.{◌≡◌, ℕ, ◌+◌, ◌-◌, ◌^◌, ◌<◌, ◌≤◌, [], length, get_or, slice_index, slice_index_or, IfOk, IsTrue};
ghost use Rattle.std.specs.Int.{bit_at};
ghost use Rattle.definitions.specs.Problems.{functions};
ghost use Rattle.definitions.specs.Orders.{members};
ghost use Rattle.definitions.specs.Pairs.{is_lawful};
ghost use Rattle.definitions.specs.AllOrders.{ways};
ghost use Rattle.order_counts.specs.Sizes.{AreCountsBelow, AreCountsOf, AreLimited, CanTakeOrders, CoversAll, counts_at};

use crate::cost_counts::{CostCounts, Span};
use order_model::{Mask, Pairs, Problem, WidthRow, contains};
use std::alloc::{AllocError, Global};

/// What the counts of each set are found from, beside those of the sets with one member less.
#[derive(Clone, Copy)]
pub struct Recurrence<'a> {
    /// The functions.
    pub problem: &'a Problem,
    /// The pairs that the orders keep.
    pub pairs: &'a Pairs,
    /// For each set, at its mask, the width of each member over the others.
    pub widths: &'a [WidthRow],
    /// For each set, at its mask, the cost from which on orders don't matter.
    pub limits: &'a [u32],
}

/// The costs of the orders of the members of `set`, by those in `smaller` of the sets with one
/// member less.
fn span_of_set(given: Recurrence, smaller: &[CostCounts], set: Mask) -> Span
    requires given { AreLimited given }
    requires within { set < 2 ^ given.pairs.now.inputs }
    requires smaller { AreCountsBelow given smaller.now set }
    ensures { CoversAll given.entry smaller.now set given.entry.pairs.now.inputs result }
{
    let row = &given.widths[set as usize];
    let mut span = Span {
        start: u32::MAX,
        end: 0,
    };
    for x in 0..given.pairs.inputs() {
        if contains(set, x) {
            span = span.cover(&smaller[(set - (1 << x)) as usize], row[x as usize]);
        }
    }
    span
}

/// Adds to `counts`, which has none, at each cost that it has an entry for, how many orders of the
/// members of `set` have this cost.
fn add_orders(given: Recurrence, smaller: &[CostCounts], set: Mask, counts: &mut CostCounts)
    requires { CanTakeOrders given smaller.now set counts.old }
    ensures least { counts.new.least ≡ counts.old.least }
    ensures long { length counts.new.orders.items ≡ length counts.old.orders.items }
    ensures counts { (c : ℕ) → counts.old.least ≤ c → c < counts.old.least + length counts.old.orders.items →
        counts_at counts.new c ≡ ways given.entry.pairs.now.inputs (functions given.entry.problem.now)
        given.entry.pairs.now.pairs (members given.entry.pairs.now.inputs set) c }
{
    let row = &given.widths[set as usize];
    for x in 0..given.pairs.inputs() {
        if contains(set, x) {
            counts.add(&smaller[(set - (1 << x)) as usize], row[x as usize]);
        }
    }
}

/// How many orders of the members of `set` have each cost below the set's limit, if the bottom
/// parts of the orders are all lawful. The members have the lowest levels. Entry m of `smaller` has
/// the counts of the set with the mask m, if that has one member less.
pub(crate) fn counts_of_set(
    alloc: Global,
    given: Recurrence,
    smaller: &[CostCounts],
    set: Mask,
) -> Result<CostCounts, AllocError>
    requires given { AreLimited given }
    requires some { 0 < set }
    requires within { set < 2 ^ given.pairs.now.inputs }
    requires smaller { AreCountsBelow given smaller.now set }
    ensures { IfOk result
        (AreCountsOf given.entry.pairs.now.inputs (functions given.entry.problem.now)
        given.entry.pairs.now.pairs (members given.entry.pairs.now.inputs set)
        (get_or given.entry.limits.now set 0)) }
{
    if !given.pairs.lawful(set) {
        return Ok(CostCounts::none(alloc));
    }
    let span = span_of_set(given, smaller, set);
    let end = span.end.min(given.limits[set as usize]);
    if end <= span.start {
        return Ok(CostCounts::none(alloc));
    }
    let mut counts = CostCounts {
        least: span.start,
        orders: vec![in alloc; 0; (end - span.start) as usize]?,
    };
    add_orders(given, smaller, set, &mut counts);
    Ok(counts)
}
