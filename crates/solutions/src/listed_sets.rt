//! Which sets a certificate lists.

ghost use Rattle.std.specs.Prelude.{◌≡◌, ◌<◌, ◌≤◌, ℕ, count_ones, IfOk, List};
ghost use Rattle.definitions.specs.Functions.{Function};
ghost use Rattle.definitions.specs.Orders.{members};
ghost use Rattle.definitions.specs.Widths.{essential_mask, essentials_outside};
ghost use Rattle.definitions.specs.declared.limits.LowerBound.TheVariants.{Variables};
ghost use Rattle.solutions.specs.Solutions.{AreListedFor};

use crate::all_cells::AllCells;
use order_model::{ListedCell, Mask};
use std::alloc::{AllocError, Global};

fn count_outside(essential: Mask, mask: Mask) -> u32
    ensures few { result ≤ 16 }
    ensures exact { (n : ℕ) (F : List Function) → essential ≡ essential_mask n F →
        result ≡ essentials_outside n F (members n mask) }
{
    (essential & !mask).count_ones()
}

/// The sets that a certificate of an order of `total` nodes lists, by rising mask, with their
/// costs. Pruned and unlawful sets cost more than any total, so they aren't listed.
pub(crate) fn listed_cells(
    alloc: Global,
    cells: &AllCells<'_>,
    total: u32,
) -> Result<Vec<ListedCell>, AllocError>
    requires within { total ≤ cells.now.bound }
    requires lower_bound { cells.now.lower_bound ≡ Variables }
    ensures { IfOk result (λ v. AreListedFor cells.now total v.items) }
{
    let essential = cells.instance().essential();
    let mut found = Vec::new(alloc);
    for number in 0..(1u32 << cells.inputs()) - 1 {
        let mask = number as Mask;
        let cost = cells.cost(mask);
        if u64::from(cost) + u64::from(count_outside(essential, mask)) < u64::from(total) {
            found.push(ListedCell { mask, cost })?;
        }
    }
    Ok(found)
}
