ghost use Rattle.std.specs.Prelude.{◌≡◌, ◌≢◌, length, IfOk, IfErr, OnOk};
ghost use Rattle.definitions.specs.Levels.{level_counts};
ghost use Rattle.definitions.specs.Orders.{IsOrder};
ghost use Rattle.minorder_c.specs.Answers.{HasCallShape, functions_in, given};
ghost use Rattle.minorder_c.specs.Statuses.{IsOrderStatus, RefusesOrder, ShowsOrder, ShowsShape};

use crate::arguments::{GivenTables, arguments_of};
use crate::status::Refusal;
use std::alloc::Global;

/// The level counts under `order`, top first, if a slice of `counts` entries fits.
fn level_counts_of(
    alloc: Global,
    given: &GivenTables,
    order: &[u8],
    counts: usize,
) -> Result<Vec<u32>, Refusal>
    ensures shape { OnOk result (HasCallShape given.now (length order.now) counts) }
    ensures order { OnOk result (IsOrder given.now.inputs order.now) }
    ensures levels { IfOk result
        (λ v. v.items ≡ level_counts given.now.inputs (functions_in given.now) order.now) }
    ensures counts { IfOk result (λ v. length v.items ≡ counts) }
    ensures refused { IfErr result
        (RefusesOrder (HasCallShape given.now (length order.now) counts)
        (IsOrder given.now.inputs order.now)) }
{
    let arguments = arguments_of(alloc, given, order, counts)?;
    let levels = arguments.tables.widths_of(alloc, &arguments.order)?;
    Ok(levels)
}

/// Writes the level counts under `order`, top first. A refused call writes nothing.
#[unsafe(no_mangle)]
pub extern "C" fn minorder_levels_with_lengths(
    alloc: Global,
    tables: &[u64],
    inputs: u32,
    outputs: u32,
    order: &[u8],
    levels: &mut [u32],
) -> u32
    ensures status { IsOrderStatus result }
    ensures shape { ShowsShape (HasCallShape (given tables.entry inputs outputs)
        (length order.now) (length levels.old)) result }
    ensures order { ShowsOrder (IsOrder inputs order.now) result }
    ensures levels { result ≡ 0 →
        levels.new ≡ level_counts inputs (functions_in (given tables.entry inputs outputs))
        order.now }
    ensures refused { result ≢ 0 → levels.new ≡ levels.old }
{
    let given = GivenTables::of(tables, inputs, outputs);
    match level_counts_of(alloc, &given, order, levels.len()) {
        Ok(counts) => {
            levels.copy_from_slice(&counts);
            0
        }
        Err(refusal) => refusal.status(),
    }
}
