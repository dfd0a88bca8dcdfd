//! Estimates of what a search needs: they decide how the layers (the sets of one size) are
//! searched, and not what is found.

ghost use Rattle.std.specs.Prelude.{◌≤◌, length};

use layer_core::Instance;
use order_model::{Limit, LowerBound, Pairs, Problem, Workers};
use subset_layers::{Costs, Layer};

/// Most diagrams have about one node for this many entries of their truth tables.
const ENTRIES_A_NODE: u64 = 16;

/// The size up to which a search that bounds by variables needs the widths of nearly all sets.
const LAYERS_BY_VARIABLES: u8 = 6;

/// The size up to which a search that bounds by widths needs the widths of nearly all sets.
const LAYERS_BY_WIDTHS: u8 = 5;

/// The size up to which a search needs the widths of nearly all sets, before costs are known: all
/// sizes if `limit.bound` is at least one node for each `ENTRIES_A_NODE` entries of the truth
/// tables.
fn first_layers(problem: &Problem, limit: Limit) -> u8 {
    let entries = u64::from(problem.outputs()) << problem.inputs();
    if u64::from(limit.bound) >= entries / ENTRIES_A_NODE {
        return problem.inputs();
    }
    match limit.lower_bound {
        LowerBound::Variables => LAYERS_BY_VARIABLES,
        LowerBound::Widths => LAYERS_BY_WIDTHS,
    }
}

/// The size up to which rows are found before the bound is known: 0 if the search keeps pairs that
/// the caller did not ask for, because few sets are left then.
pub(crate) fn layers_to_prepare(
    problem: &Problem,
    asked: &Pairs,
    kept: &Pairs,
    limit: Limit,
) -> u8 {
    if asked.count() == 0 && kept.count() > 0 {
        return 0;
    }
    first_layers(problem, limit)
}

const STEP: u32 = 7;

/// The mean cost of the sets of `size` variables, of those alone whose masks are multiples of
/// `STEP`; `u32::MAX` if there is none.
fn mean_cost(costs: &Costs, size: usize) -> u64 {
    let mut sum = 0u64;
    let mut sets = 0u64;
    for i in 0..(1u32 << costs.inputs()) / STEP {
        let mask = (i * STEP) as u16;
        if mask.count_ones() as usize == size
            && let Some(cost) = costs.cost_of(mask)
        {
            sum = sum.wrapping_add(u64::from(cost));
            sets = sets.wrapping_add(1);
        }
    }
    if sets == 0 {
        u64::from(u32::MAX)
    } else {
        sum / sets
    }
}

/// The lower bound on the nodes above a set, by the rule of `instance`. `outside` variables are not
/// in the set, and `width` is about a member's width over the other members.
fn likely_above(instance: &Instance<'_>, outside: usize, width: u64) -> u64 {
    let asked = match instance.limit().lower_bound {
        LowerBound::Variables => 0,
        LowerBound::Widths => width.saturating_sub(u64::from(instance.problem().outputs())),
    };
    asked.max(outside as u64)
}

/// The size of the largest sets of which the search needs widths, if the mean cost goes on to rise
/// by what it rose in the last layer, but by no more than a class table has entries.
fn end_by_costs(instance: &Instance<'_>, done: &[Costs]) -> usize
    requires { 2 ≤ length done.now }
{
    let inputs = usize::from(instance.inputs());
    let outputs = u64::from(instance.problem().outputs());
    let next = done.len();
    let mut cost = mean_cost(&done[next - 1], next - 1);
    let rise = cost.saturating_sub(mean_cost(&done[next - 2], next - 2));
    let mut end = next;
    for size in next..inputs + 1 {
        let outside = inputs - size;
        let width = rise.min(outputs << (outside + 1));
        let above = likely_above(instance, outside + 1, width);
        if cost.saturating_add(above) > u64::from(instance.limit().bound) {
            break;
        }
        end = size;
        cost = cost.saturating_add(rise.min(outputs << outside));
    }
    end
}

/// The size of the largest sets of which the search needs widths. `done[k]` has the costs of the
/// sets of k variables.
pub(crate) fn likely_end(instance: &Instance<'_>, done: &[Costs]) -> u8
    requires { 1 ≤ length done.now }
{
    if done.len() == 1 {
        first_layers(instance.problem(), instance.limit())
    } else {
        end_by_costs(instance, done).min(16) as u8
    }
}

/// This many entries of truth tables are worth one more worker.
const ENTRIES_A_WORKER: usize = 1 << 18;

/// The number of lawful sets of the layer, or `most` if there are more.
fn count_lawful(pairs: &Pairs, layer: &Layer, most: usize) -> usize
    ensures { result ≤ most }
{
    let mut count = 0;
    for i in 0..layer.len() {
        if count < most && pairs.lawful(layer.mask_at(i)) {
            count += 1;
        }
    }
    count
}

/// How many workers the layer keeps busy: 1 + s * e / `ENTRIES_A_WORKER`, but at most `workers`,
/// with e entries in all truth tables, and s the least of 256 and the numbers of its blocks and of
/// its lawful sets.
pub(crate) fn busy_workers(instance: &Instance<'_>, layer: &Layer, workers: Workers) -> Workers
    ensures { result ≤ workers }
{
    let tables = count_lawful(instance.pairs(), layer, layer.blocks().min(256));
    let entries = (usize::from(instance.problem().outputs()) << instance.inputs()) * tables;
    let busy = entries / ENTRIES_A_WORKER + 1;
    match Workers::new(busy.min(usize::from(workers.count())) as u8) {
        Some(fewer) => fewer,
        None => workers,
    }
}
