//! The figures of all orders, and the widths from which they are found.

ghost use Rattle.std.specs.Prelude.{◌≡◌, ◌≢◌, ◌^◌, ◌⊎◌, ◌↔◌, length, IsTrue, IfOk};
ghost use Rattle.std.specs.List.{range_with_len};
ghost use Rattle.definitions.specs.AllOrders.{AreAllWidths};
ghost use Rattle.definitions.specs.KeptPairs.{CanBeKept};
ghost use Rattle.definitions.specs.Pairs.{sorted_pairs};
ghost use Rattle.definitions.specs.Problems.{functions};
ghost use Rattle.minorder_c.specs.Answers.{AreTables, functions_in, given, pairs_given};
ghost use Rattle.minorder_c.specs.OrderFigures.{AreFiguresReturned, HasWidthsShape, widths_listed};
ghost use Rattle.minorder_c.specs.Statuses.{IsPlainStatus, ShowsPairs, ShowsShape};

use crate::above::AbovePair;
use crate::all_orders::{AllOrders, rows_of_all_sets};
use crate::arguments::{GivenTables, are_tables};
use crate::status::Refusal;
use order_counts::figures_of_orders;
use order_model::{Problem, WidthRow};
use std::alloc::{AllocError, Global};
use truth_table::Tables;

/// The figures of all orders in C. There is at least one order.
#[repr(C)]
#[derive(Clone, Copy, Debug)]
pub(crate) struct ReturnedFigures {
    pub orders: u64,
    /// How many have the fewest nodes.
    pub optimal_orders: u64,
    /// How many have the most nodes.
    pub worst_orders: u64,
    /// The sum of the nodes of all orders.
    pub total_nodes: u64,
    pub fewest_nodes: u32,
    pub most_nodes: u32,
}

/// Writes the figures of the orders that keep the pairs `above`. A refused call writes nothing.
#[unsafe(no_mangle)]
pub extern "C" fn minorder_orders_with_pairs(
    alloc: Global,
    tables: &[u64],
    inputs: u32,
    outputs: u32,
    above: &[AbovePair],
    figures: &mut ReturnedFigures,
) -> u32
    ensures status { (result ≡ 8) ⊎ IsPlainStatus result }
    ensures shape { ShowsShape (AreTables (given tables.entry inputs outputs)) result }
    ensures kept { ShowsPairs (CanBeKept inputs (pairs_given above.now)) result }
    ensures figures { result ≡ 0 →
        AreFiguresReturned inputs (functions_in (given tables.entry inputs outputs))
        (sorted_pairs inputs (pairs_given above.now)) figures.new }
    ensures refused { result ≢ 0 → figures.new ≡ figures.old }
{
    let given = GivenTables::of(tables, inputs, outputs);
    let all = match AllOrders::of(alloc, &given, above) {
        Ok(all) => all,
        Err(refusal) => return refusal.status(),
    };
    match figures_of_orders(alloc, all.tables.problem(), &all.pairs, &all.widths) {
        Ok(found) => {
            *figures = ReturnedFigures {
                orders: found.count,
                optimal_orders: found.fewest.orders,
                worst_orders: found.most.orders,
                total_nodes: found.total,
                fewest_nodes: found.fewest.nodes,
                most_nodes: found.most.nodes,
            };
            0
        }
        Err(_) => Refusal::OutOfMemory.status(),
    }
}

/// The widths of all sets, those of one mask behind those of the other.
fn listed(alloc: Global, problem: &Problem, rows: &[WidthRow]) -> Result<Vec<u32>, AllocError>
    requires { AreAllWidths problem.now.inputs (functions problem.now) rows.now }
    ensures { IfOk result
        (λ v. v.items ≡ widths_listed problem.now.inputs (functions problem.now)
        (range_with_len 0 (2 ^ problem.now.inputs))) }
{
    let n = usize::from(problem.inputs());
    let mut widths = Vec::with_capacity(alloc, rows.len() * n)?;
    for i in 0..rows.len() {
        widths.extend_from_slice(&rows[i][..n])?;
    }
    Ok(widths)
}

fn has_widths_shape(given: &GivenTables, places: usize) -> bool
    ensures { IsTrue result ↔ HasWidthsShape given.now places }
{
    are_tables(given) && places == (1usize << given.inputs) * given.inputs as usize
}

/// The widths of all sets, by rising mask: at each member that over the other members, and 0
/// elsewhere.
fn all_widths(alloc: Global, given: &GivenTables) -> Result<Vec<u32>, AllocError>
    requires { AreTables given.now }
    ensures { IfOk result
        (λ v. v.items ≡ widths_listed given.now.inputs (functions_in given.now)
        (range_with_len 0 (2 ^ given.now.inputs))) }
{
    let tables = Tables::of_words(alloc, given.inputs as u8, given.outputs as u8, given.words)?;
    let rows = rows_of_all_sets(alloc, tables.problem())?;
    listed(alloc, tables.problem(), &rows)
}

/// Writes the widths of all sets: at `mask * inputs + x` that of the member x over the other
/// members, or 0.
#[unsafe(no_mangle)]
pub extern "C" fn minorder_widths_with_lengths(
    alloc: Global,
    tables: &[u64],
    inputs: u32,
    outputs: u32,
    widths: &mut [u32],
) -> u32
    ensures status { IsPlainStatus result }
    ensures shape { ShowsShape
        (HasWidthsShape (given tables.entry inputs outputs) (length widths.old)) result }
    ensures widths { result ≡ 0 →
        widths.new ≡ widths_listed inputs (functions_in (given tables.entry inputs outputs))
        (range_with_len 0 (2 ^ inputs)) }
    ensures refused { result ≢ 0 → widths.new ≡ widths.old }
{
    let given = GivenTables::of(tables, inputs, outputs);
    if !has_widths_shape(&given, widths.len()) {
        return Refusal::Shape.status();
    }
    match all_widths(alloc, &given) {
        Ok(found) => {
            widths.copy_from_slice(&found);
            0
        }
        Err(_) => Refusal::OutOfMemory.status(),
    }
}
