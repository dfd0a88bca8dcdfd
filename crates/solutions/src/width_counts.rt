//! How many widths the cells of all sets take: those from which a search computes the cells.

ghost use Rattle.std.specs.Prelude.{◌≡◌, ◌^◌, ◌<◌, count_ones};
ghost use Rattle.definitions.specs.Cells.{candidates};
ghost use Rattle.definitions.specs.Orders.{mask_of};
ghost use Rattle.layer_core.specs.Needs.{needed};
ghost use Rattle.solutions.specs.Solutions.{cost_for_without, widths_for_all};

use crate::all_cells::AllCells;
use layer_core::asked_members;
use order_model::{Mask, contains};

/// The members x of the set `mask`, as a mask, for which the set without x costs at most the bound.
fn affordable_members(cells: &AllCells<'_>, mask: Mask) -> Mask
    requires { mask < 2 ^ cells.now.problem.inputs }
    ensures { result ≡ mask_of
        (candidates cells.now.problem.inputs cells.now.bound mask (cost_for_without cells.now mask)) }
{
    let bound = cells.instance().limit().bound;
    let mut found: Mask = 0;
    for x in 0..cells.inputs() {
        if contains(mask, x) && cells.cost(mask - (1 << x)) <= bound {
            found |= 1 << x;
        }
    }
    found
}

/// The members of the set `mask` whose widths its cell takes; none if it is not lawful.
fn needed_members(cells: &AllCells<'_>, mask: Mask) -> Mask
    requires { mask < 2 ^ cells.now.problem.inputs }
    ensures { result ≡ needed cells.now mask }
{
    let instance = cells.instance();
    if instance.lawful(mask) {
        let known = affordable_members(cells, mask);
        asked_members(instance.limit().lower_bound, mask, known)
    } else {
        0
    }
}

/// The number of widths from which a search computes `cells`.
pub fn count_widths(cells: &AllCells<'_>) -> u64
    ensures { result ≡ widths_for_all cells.now }
{
    let mut count = 0;
    for number in 1..1u32 << cells.inputs() {
        count += u64::from(needed_members(cells, number as Mask).count_ones());
    }
    count
}
