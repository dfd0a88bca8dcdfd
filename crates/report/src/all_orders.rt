//! What `--orders` and `--sizes` print: figures of all orders that keep the pairs.

ghost use Rattle.std.specs.Prelude.{◌≡◌, ◌<◌, ◌≤◌, ℕ, List, IfOk, length, string_bytes};
ghost use Rattle.definitions.specs.AllOrders.{AreAllWidths};
ghost use Rattle.definitions.specs.Problems.{functions};
ghost use Rattle.order_counts.specs.Figures.{AreFiguresOfOrders};
ghost use Rattle.order_counts.specs.Sizes.{orders_below as number_below};
ghost use Rattle.report.specs.Found.{IsSiftedFromFirst};
ghost use Rattle.report_texts.specs.Answers.{IsOrdersAnswer};
ghost use Rattle.report_texts.specs.OrderTexts.{sizes_text as sizes_text_of};

use crate::diagrams::starting_diagram;
use crate::search::manager_of;
use crate::search_input::SearchInput;
use compaction::widths_of_all_sets_by_workers;
use order_counts::{ByWorkers, Counter, figures_of_orders, orders_below, sizes_of_orders};
use order_model::{Pairs, Problem, WidthRow, Workers};
use pla_reader::Cover;
use report_texts::{OrdersReport, orders_text, sizes_text};
use small_search::{is_small, widths_of_all_sets};
use std::alloc::{AllocError, Global};
use std::thread::Threads;
use truth_table::Tables;

/// More nodes than any order of 16 functions of 16 variables has.
const MOST_NODES: u32 = 1 << 20;

/// A row for each set of variables, at its mask: at each member x the width of x over the other
/// members, and 0 elsewhere.
fn widths_of<R: Threads + Sync>(
    rt: &R,
    alloc: Global,
    tables: &Tables,
    workers: Workers,
) -> Result<Vec<WidthRow>, AllocError>
    ensures { IfOk result
        (λ rows. AreAllWidths tables.now.inputs (functions tables.now) rows.items) }
{
    let problem = tables.problem();
    if is_small(problem) {
        widths_of_all_sets(alloc, problem)
    } else {
        widths_of_all_sets_by_workers(rt, alloc, problem, workers)
    }
}

/// The number of nodes after one pass of sifting, which begins with the lexicographically first
/// order that keeps the pairs.
fn sifted_size_of<R: Threads + Sync>(
    rt: &R,
    alloc: Global,
    input: &SearchInput<'_>,
) -> Result<u32, AllocError>
    ensures { IfOk result (λ size. (order : List ℕ) × IsSiftedFromFirst input.now.cover.now
        input.now.tables.now input.now.pairs.now.pairs order size) }
{
    let starting = starting_diagram(rt, alloc, input)?;
    let manager = manager_of(alloc, input, starting)?;
    let sifted = manager.sift(alloc)?;
    Ok(sifted.size())
}

/// The figures of all orders that keep `pairs`, beside a sifted order of `sifted_size` nodes.
/// `counter` counts the orders that have fewer nodes.
fn orders_report<C: Counter>(
    counter: &C,
    alloc: Global,
    problem: &Problem,
    pairs: &Pairs,
    widths: &[WidthRow],
    sifted_size: u32,
) -> Result<OrdersReport, AllocError>
    requires ready { C.ready counter.now }
    requires inputs { pairs.now.inputs ≡ problem.now.inputs }
    requires widths { AreAllWidths problem.now.inputs (functions problem.now) widths.now }
    ensures figures { IfOk result (λ r.
        AreFiguresOfOrders problem.now.inputs (functions problem.now) pairs.now.pairs r.figures) }
    ensures some { IfOk result (λ r. 0 < r.figures.count) }
    ensures size { IfOk result (λ r. r.sifted_size ≡ sifted_size) }
    ensures better { IfOk result (λ r. r.better ≡
        number_below problem.now.inputs (functions problem.now) pairs.now.pairs sifted_size) }
{
    prove!(problem.outputs() <= 16);
    prove!(pairs.inputs() <= 16);
    Ok(OrdersReport {
        figures: figures_of_orders(alloc, problem, pairs, widths)?,
        sifted_size,
        better: orders_below(counter, alloc, problem, pairs, widths, sifted_size)?,
    })
}

/// The text of `--orders` for the orders of the cover's inputs that keep `pairs`, found by
/// `workers` workers, whose threads `rt` starts.
pub(crate) fn orders_answer<R: Threads + Sync>(
    rt: &R,
    alloc: Global,
    cover: &Cover,
    pairs: &Pairs,
    workers: Workers,
) -> Result<String, AllocError>
    requires { pairs.now.inputs ≡ cover.now.inputs }
    ensures { IfOk result (λ text. IsOrdersAnswer cover.now pairs.now.pairs (string_bytes text)) }
{
    let tables = Tables::of_cover(rt, alloc, cover)?;
    let input = SearchInput {
        cover,
        tables: &tables,
        pairs,
        certify: false,
        workers,
    };
    let sifted_size = sifted_size_of(rt, alloc, &input)?;
    let widths = widths_of(rt, alloc, &tables, workers)?;
    let counter = ByWorkers { rt, workers };
    let report = orders_report(
        &counter,
        alloc,
        tables.problem(),
        pairs,
        &widths,
        sifted_size,
    )?;
    let text = orders_text(alloc, &report)?;
    Ok(text)
}

/// The text of `--sizes` for the orders of the cover's inputs that keep `pairs`, found by the
/// workers of `counter`.
pub(crate) fn sizes_answer<R: Threads + Sync>(
    counter: &ByWorkers<'_, R>,
    alloc: Global,
    cover: &Cover,
    pairs: &Pairs,
) -> Result<String, AllocError>
    requires { pairs.now.inputs ≡ cover.now.inputs }
    ensures { IfOk result (λ text. string_bytes text ≡ sizes_text_of cover.now pairs.now.pairs) }
{
    prove!(pairs.inputs() <= 16);
    let tables = Tables::of_cover(counter.rt, alloc, cover)?;
    let problem = tables.problem();
    prove!(problem.outputs() <= 16);
    let widths = widths_of(counter.rt, alloc, &tables, counter.workers)?;
    let counts = sizes_of_orders(counter, alloc, problem, pairs, &widths, MOST_NODES)?;
    let text = sizes_text(alloc, &counts)?;
    Ok(text)
}
