ghost use Rattle.std.specs.Prelude.{◌≡◌, ◌≢◌, ◌⊎◌, [], length, IfOk, IfErr, OnOk, OnErr};
ghost use Rattle.definitions.specs.KeptPairs.{CanBeKept};
ghost use Rattle.definitions.specs.Pairs.{sorted_pairs};
ghost use Rattle.minorder_c.specs.Answers.{AllStay, AreTables, HasCallShape, HasLengths, IsFirstFewestOf, given, pairs_given, tables_in};
ghost use Rattle.solutions.specs.Solutions.{IsOptimumFor};
ghost use Rattle.minorder_c.specs.Statuses.{IsPlainStatus, RefusesShape, RefusesPairs, ShowsPairs, ShowsShape};

use crate::above::{AbovePair, kept_pairs};
use crate::arguments::{GivenTables, has_call_shape};
use crate::sifting_from::bound_of;
use crate::status::Refusal;
use order_model::{Pairs, SizedOrder};
use order_solve::find_optimum_alone;
use small_search::{SmallSearch, Workspace, are_few, write_optimum};
use std::alloc::{AllocError, Global};
use truth_table::Tables;

/// The first order of the fewest nodes, found by a search by layers that a sifted order bounds.
fn searched(alloc: Global, given: &GivenTables, pairs: Pairs) -> Result<SizedOrder, AllocError>
    requires tables { AreTables given.now }
    requires pairs { pairs.inputs ≡ given.now.inputs }
    ensures optimum { IfOk result (IsOptimumFor (tables_in given.now) pairs.pairs) }
    ensures long { IfOk result (HasLengths given.now.inputs) }
{
    let tables = Tables::of_words(alloc, given.inputs as u8, given.outputs as u8, given.words)?;
    let bound = bound_of(alloc, &tables, pairs)?;
    find_optimum_alone(alloc, tables.problem(), bound)
}

/// Writes the first order of the fewest nodes and its level counts, and returns its size. If memory
/// is refused, `order` and `levels` stay.
pub(crate) fn optimum(
    alloc: Global,
    given: &GivenTables,
    pairs: Pairs,
    workspace: &mut Workspace,
    order: &mut [u8],
    levels: &mut [u32],
) -> Result<u32, AllocError>
    requires shape { HasCallShape given.now (length order.old) (length levels.old) }
    requires pairs { pairs.inputs ≡ given.now.inputs }
    ensures optimum { IfOk result (IsFirstFewestOf given.now pairs.pairs order.new levels.new) }
    ensures places { length order.new ≡ length order.old }
    ensures counts { length levels.new ≡ length levels.old }
    ensures order_stays { OnErr result (order.new ≡ order.old) }
    ensures levels_stay { OnErr result (levels.new ≡ levels.old) }
{
    let inputs = given.inputs as u8;
    let outputs = given.outputs as u8;
    if are_few(inputs, outputs) {
        let search = SmallSearch::new(inputs, outputs, given.words, &pairs);
        return write_optimum(alloc, &search, workspace, order, levels);
    }
    let best = searched(alloc, given, pairs)?;
    order.copy_from_slice(best.order.variables());
    levels.copy_from_slice(&best.levels);
    Ok(best.total)
}

/// Writes the first order of the fewest nodes and its level counts, and returns its size. An error
/// writes nothing.
fn exact(
    alloc: Global,
    given: &GivenTables,
    order: &mut [u8],
    levels: &mut [u32],
) -> Result<u32, Refusal>
    ensures shape { OnOk result (HasCallShape given.now (length order.old) (length levels.old)) }
    ensures optimum { IfOk result (IsFirstFewestOf given.now [] order.new levels.new) }
    ensures refused { IfErr result
        (RefusesShape (HasCallShape given.now (length order.old) (length levels.old))) }
    ensures order_stays { OnErr result (order.new ≡ order.old) }
    ensures levels_stay { OnErr result (levels.new ≡ levels.old) }
{
    if !has_call_shape(given, order.len(), levels.len()) {
        return Err(Refusal::Shape);
    }
    let mut workspace = Workspace::new(alloc);
    let pairs = Pairs::none(given.inputs as u8);
    let total = optimum(alloc, given, pairs, &mut workspace, order, levels)?;
    Ok(total)
}

/// Writes the first order of the fewest nodes among those that keep the pairs `above` and its level
/// counts, and returns its size. An error writes nothing.
fn exact_above(
    alloc: Global,
    given: &GivenTables,
    above: &[AbovePair],
    order: &mut [u8],
    levels: &mut [u32],
) -> Result<u32, Refusal>
    ensures shape { OnOk result (HasCallShape given.now (length order.old) (length levels.old)) }
    ensures kept { OnOk result (CanBeKept given.now.inputs (pairs_given above.now)) }
    ensures optimum { IfOk result
        (IsFirstFewestOf given.now (sorted_pairs given.now.inputs (pairs_given above.now))
        order.new levels.new) }
    ensures refused { IfErr result
        (RefusesPairs (HasCallShape given.now (length order.old) (length levels.old))
        (CanBeKept given.now.inputs (pairs_given above.now))) }
    ensures order_stays { OnErr result (order.new ≡ order.old) }
    ensures levels_stay { OnErr result (levels.new ≡ levels.old) }
{
    if !has_call_shape(given, order.len(), levels.len()) {
        return Err(Refusal::Shape);
    }
    let pairs = kept_pairs(alloc, above, given.inputs as u8)?;
    let mut workspace = Workspace::new(alloc);
    let total = optimum(alloc, given, pairs, &mut workspace, order, levels)?;
    Ok(total)
}

/// Writes the first order of the fewest nodes, its level counts and its size. A refused call writes
/// nothing.
#[unsafe(no_mangle)]
pub extern "C" fn minorder_exact_with_lengths(
    alloc: Global,
    tables: &[u64],
    inputs: u32,
    outputs: u32,
    order: &mut [u8],
    levels: &mut [u32],
    total: &mut u32,
) -> u32
    ensures status { IsPlainStatus result }
    ensures shape { ShowsShape (HasCallShape (given tables.entry inputs outputs)
        (length order.old) (length levels.old)) result }
    ensures optimum { result ≡ 0 →
        IsFirstFewestOf (given tables.entry inputs outputs) [] order.new levels.new total.new }
    ensures refused { result ≢ 0 →
        AllStay order.old order.new levels.old levels.new total.old total.new }
{
    let given = GivenTables::of(tables, inputs, outputs);
    match exact(alloc, &given, order, levels) {
        Ok(size) => {
            *total = size;
            0
        }
        Err(refusal) => refusal.status(),
    }
}

/// Writes the first order of the fewest nodes among those that keep the pairs `above`, its level
/// counts and its size. A refused call writes nothing.
#[unsafe(no_mangle)]
pub extern "C" fn minorder_exact_above_with_lengths(
    alloc: Global,
    tables: &[u64],
    inputs: u32,
    outputs: u32,
    above: &[AbovePair],
    order: &mut [u8],
    levels: &mut [u32],
    total: &mut u32,
) -> u32
    ensures status { (result ≡ 8) ⊎ IsPlainStatus result }
    ensures shape { ShowsShape (HasCallShape (given tables.entry inputs outputs)
        (length order.old) (length levels.old)) result }
    ensures kept { ShowsPairs (CanBeKept inputs (pairs_given above.now)) result }
    ensures optimum { result ≡ 0 →
        IsFirstFewestOf (given tables.entry inputs outputs)
        (sorted_pairs inputs (pairs_given above.now)) order.new levels.new total.new }
    ensures refused { result ≢ 0 →
        AllStay order.old order.new levels.old levels.new total.old total.new }
{
    let given = GivenTables::of(tables, inputs, outputs);
    match exact_above(alloc, &given, above, order, levels) {
        Ok(size) => {
            *total = size;
            0
        }
        Err(refusal) => refusal.status(),
    }
}
