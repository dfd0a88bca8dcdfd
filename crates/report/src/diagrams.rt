//! The diagrams under the starting order, from which sifting begins, and under the file order.

ghost use Rattle.std.specs.Prelude.{◌≡◌, ◌≤◌, ◌<◌, ℕ, IfOk, length, slice_index};
ghost use Rattle.definitions.specs.Diagrams.{nodes_at};
ghost use Rattle.definitions.specs.Orders.{IsOrder};
ghost use Rattle.dd_builder.specs.Building.{HasLevelCounts, IsDiagramOf};
ghost use Rattle.pla_reader.specs.Covers.{functions_of};
ghost use Rattle.report.specs.StartingDiagrams.{IsStartingDiagram};
ghost use Rattle.report_texts.specs.Texts.{file_order_levels};

use crate::search_input::SearchInput;
use dd_builder::build;
use order_model::laws::{some_diagram_has_the_level_counts, truth_tables_keep_functions};
use order_model::{Diagram, NoGate, Order};
use small_search::is_small;
use std::alloc::{AllocError, Global};
use std::thread::Threads;
use truth_table::reduced_diagram;

/// The level counts of a diagram, top first: one for each variable of its order. Requires at most
/// 16 variables.
fn levels_of(alloc: Global, diagram: &Diagram) -> Result<Vec<u32>, AllocError>
    requires { length diagram.now.order ≤ 16 }
    ensures long { IfOk result (λ v. length v.items ≡ length diagram.now.order) }
    ensures few { IfOk result (λ v. length v.items ≤ 16) }
    ensures counts { IfOk result
        (λ v. (i : ℕ) → i < length diagram.now.order →
        slice_index v.items i ≡ nodes_at diagram.now.graph (slice_index diagram.now.order i)) }
{
    let counts = diagram.level_counts();
    counts[..diagram.order().len()].to_vec(alloc)
}

/// The reduced diagram of the cover's functions under `order`, an order of the cover's inputs. It
/// is made level by level from the truth tables if there are at most 10 inputs and the tables have
/// at most 8,192 entries together (`is_small`), else by workers in a store of nodes.
fn diagram_under<R: Threads + Sync>(
    rt: &R,
    alloc: Global,
    input: &SearchInput<'_>,
    order: &Order,
) -> Result<Diagram, AllocError>
    requires order { IsOrder input.now.cover.now.inputs order.now }
    ensures { IfOk result
        (IsDiagramOf input.now.cover.now.inputs (functions_of input.now.cover.now) order.now) }
{
    if is_small(input.tables.problem()) {
        some_diagram_has_the_level_counts();
        truth_tables_keep_functions();
        return reduced_diagram(alloc, input.tables, order);
    }
    build(
        rt,
        alloc,
        input.cover,
        input.tables,
        order,
        input.busy_workers(),
        &NoGate,
    )
}

/// The reduced diagram of the cover's functions under the starting order: the lexicographically
/// first of the orders that keep the pairs of `input`.
pub(crate) fn starting_diagram<R: Threads + Sync>(
    rt: &R,
    alloc: Global,
    input: &SearchInput<'_>,
) -> Result<Diagram, AllocError>
    ensures { IfOk result (IsStartingDiagram input.now.cover.now input.now.pairs.now.pairs) }
{
    let order = input.pairs.first_order(alloc)?;
    let diagram = diagram_under(rt, alloc, input, &order)?;
    Ok(diagram)
}

/// The level counts of the cover's functions under the file order, top first. They are read off
/// `starting` if that diagram's order is the file order, else off a new diagram. Requires
/// `starting` to be the reduced diagram of the cover's functions under its order.
pub(crate) fn file_order_levels_of<R: Threads + Sync>(
    rt: &R,
    alloc: Global,
    input: &SearchInput<'_>,
    starting: &Diagram,
) -> Result<Vec<u32>, AllocError>
    requires starting { HasLevelCounts input.now.cover.now.inputs
        (functions_of input.now.cover.now) starting.now.order starting.now.graph }
    requires long { length starting.now.order ≡ input.now.cover.now.inputs }
    ensures counts { IfOk result (λ v. v.items ≡ file_order_levels input.now.cover.now) }
    ensures few { IfOk result (λ v. length v.items ≤ 16) }
{
    let order = Order::file_order(alloc, input.cover.inputs())?;
    if starting.order().variables() == order.variables() {
        let levels = levels_of(alloc, starting)?;
        return Ok(levels);
    }
    let diagram = diagram_under(rt, alloc, input, &order)?;
    let levels = levels_of(alloc, &diagram)?;
    Ok(levels)
}
