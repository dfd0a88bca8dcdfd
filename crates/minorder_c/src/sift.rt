ghost use Rattle.std.specs.Prelude.{◌≡◌, ◌≢◌, length, IfOk, IfErr, OnOk};
ghost use Rattle.definitions.specs.Orders.{IsOrder};
ghost use Rattle.order_model.specs.SizedOrders.{HasItsSize};
ghost use Rattle.minorder_c.specs.Answers.{AllStay, HasCallShape, HasLengths, IsSiftedFrom, given};
ghost use Rattle.minorder_c.specs.Statuses.{IsOrderStatus, RefusesOrder, ShowsOrder, ShowsShape};

use crate::arguments::{GivenTables, arguments_of};
use crate::sifting_from::sifted_from;
use crate::status::Refusal;
use order_model::{Pairs, SizedOrder};
use sifting::Sifted;
use std::alloc::{AllocError, Global};

/// The order that sifting found, with its level counts and its size.
fn sized_order(alloc: Global, sifted: &Sifted) -> Result<SizedOrder, AllocError>
    ensures order { IfOk result (λ s. s.order ≡ sifted.now.order) }
    ensures sized { IfOk result (HasItsSize sifted.now.problem) }
{
    let order = sifted.order().try_clone(alloc)?;
    let counts = sifted.levels();
    Ok(SizedOrder {
        levels: counts[..order.len()].to_vec(alloc)?,
        total: sifted.size(),
        order,
    })
}

/// The order after one pass of sifting from `order`, if a slice of `counts` entries fits.
fn sifted_order(
    alloc: Global,
    given: &GivenTables,
    order: &[u8],
    counts: usize,
) -> Result<SizedOrder, Refusal>
    ensures shape { OnOk result (HasCallShape given.now (length order.now) counts) }
    ensures order { OnOk result (IsOrder given.now.inputs order.now) }
    ensures sifted { IfOk result
        (λ f. IsSiftedFrom given.now order.now f.order f.levels.items f.total) }
    ensures long { IfOk result (HasLengths given.now.inputs) }
    ensures refused { IfErr result
        (RefusesOrder (HasCallShape given.now (length order.now) counts)
        (IsOrder given.now.inputs order.now)) }
{
    let arguments = arguments_of(alloc, given, order, counts)?;
    let pairs = Pairs::none(given.inputs as u8);
    let sifted = sifted_from(alloc, &arguments.tables, &arguments.order, pairs)?;
    Ok(sized_order(alloc, &sifted)?)
}

/// Replaces `order` by the order after one pass of sifting from it, and writes its level counts and
/// size. A refused call writes nothing.
#[unsafe(no_mangle)]
pub extern "C" fn minorder_sift_with_lengths(
    alloc: Global,
    tables: &[u64],
    inputs: u32,
    outputs: u32,
    order: &mut [u8],
    levels: &mut [u32],
    total: &mut u32,
) -> u32
    ensures status { IsOrderStatus result }
    ensures shape { ShowsShape (HasCallShape (given tables.entry inputs outputs)
        (length order.old) (length levels.old)) result }
    ensures order { ShowsOrder (IsOrder inputs order.old) result }
    ensures sifted { result ≡ 0 →
        IsSiftedFrom (given tables.entry inputs outputs) order.old order.new levels.new total.new }
    ensures refused { result ≢ 0 →
        AllStay order.old order.new levels.old levels.new total.old total.new }
{
    let given = GivenTables::of(tables, inputs, outputs);
    match sifted_order(alloc, &given, order, levels.len()) {
        Ok(found) => {
            order.copy_from_slice(found.order.variables());
            levels.copy_from_slice(&found.levels);
            *total = found.total;
            0
        }
        Err(refusal) => refusal.status(),
    }
}
