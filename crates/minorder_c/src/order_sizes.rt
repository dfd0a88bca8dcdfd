ghost use Rattle.std.specs.Prelude.{◌≡◌, ◌≢◌};
ghost use Rattle.definitions.specs.KeptPairs.{CanBeKept};
ghost use Rattle.minorder_c.specs.Answers.{AreTables, given, pairs_given};
ghost use Rattle.minorder_c.specs.Certified.{IsCertifyStatus};
ghost use Rattle.minorder_c.specs.OrderFigures.{AreSizesFor};
ghost use Rattle.minorder_c.specs.Rooms.{Holds, IsShort};
ghost use Rattle.minorder_c.specs.Statuses.{ShowsPairs, ShowsShape};

use crate::above::AbovePair;
use crate::all_orders::AllOrders;
use crate::arguments::GivenTables;
use crate::rooms::{SHORT_ROOM, put_front};
use crate::status::Refusal;
use order_counts::{CallingThread, sizes_of_orders};
use std::alloc::Global;

/// Writes how many orders that keep the pairs `above` have each size up to `most`, from the fewest
/// nodes on, which it writes to `fewest`; `sizes` gets the number of entries, 0 if no order has so
/// few as `most`. The first and the last entry aren't 0. Returns 7 if `orders` is too short; then
/// it stays.
#[unsafe(no_mangle)]
pub extern "C" fn minorder_sizes_with_pairs(
    alloc: Global,
    tables: &[u64],
    inputs: u32,
    outputs: u32,
    above: &[AbovePair],
    most: u32,
    orders: &mut [u64],
    fewest: &mut u32,
    sizes: &mut usize,
) -> u32
    ensures status { IsCertifyStatus result }
    ensures shape { ShowsShape (AreTables (given tables.entry inputs outputs)) result }
    ensures kept { ShowsPairs (CanBeKept inputs (pairs_given above.now)) result }
    ensures written { result ≡ 0 → Holds (AreSizesFor (given tables.entry inputs outputs)
        above.now most fewest.new) orders.old orders.new sizes.new }
    ensures short { result ≡ 7 → IsShort (AreSizesFor (given tables.entry inputs outputs)
        above.now most fewest.new) orders.old sizes.new }
    ensures stays { result ≢ 0 → (orders.new ≡ orders.old)
        × (result ≢ 7 → (fewest.new ≡ fewest.old) × (sizes.new ≡ sizes.old)) }
{
    let given = GivenTables::of(tables, inputs, outputs);
    let all = match AllOrders::of(alloc, &given, above) {
        Ok(all) => all,
        Err(refusal) => return refusal.status(),
    };
    match sizes_of_orders(
        &CallingThread,
        alloc,
        all.tables.problem(),
        &all.pairs,
        &all.widths,
        most,
    ) {
        Ok(found) => {
            *fewest = found.least;
            *sizes = found.orders.len();
            if orders.len() < found.orders.len() {
                return SHORT_ROOM;
            }
            put_front(orders, &found.orders);
            0
        }
        Err(_) => Refusal::OutOfMemory.status(),
    }
}
