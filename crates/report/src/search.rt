//! The search for the first order of the fewest nodes of a cover's functions: sifting finds the
//! bound of the search, while workers prepare it. Sifting starts from the diagram under the
//! starting order, the lexicographically first that keeps the pairs.

ghost use Rattle.std.specs.Prelude.{◌≡◌, IfOk, Ok, sum};
ghost use Rattle.std.specs.Thread.{IsSync};
ghost use Rattle.order_solve.specs.SearchStarts.{IsStartFor};
ghost use Rattle.report.specs.Found.{IsStartingManager, IsFound, IsSiftedOnce, IsSiftingFor, IsSiftingOf};
ghost use Rattle.report.specs.StartingDiagrams.{IsStartingDiagram};
ghost use Rattle.report_texts.specs.Texts.{file_order_levels};

use crate::best::{Best, small_best};
use crate::diagrams::{file_order_levels_of, starting_diagram};
use crate::search_input::SearchInput;
use order_model::{Diagram, Limit, LowerBound, NoGate, Order, Workers, total};
use order_solve::{Renaming, SearchStart, find_optimum, prepare, renaming_of, solve};
use sifting::laws::diagrams_have_their_functions_tables;
use sifting::{Manager, Sifted};
use small_search::is_small;
use std::alloc::{AllocError, Global};
use std::thread;
use std::thread::Threads;

/// What sifting found.
#[derive(Drop)]
pub(crate) struct Sifting {
    /// The order after one pass.
    pub(crate) sifted: Order,
    /// The number of nodes under the order after one pass.
    pub(crate) size: u32,
    /// The order that further sifting found, whose size bounds the search.
    pub(crate) bound: Sifted,
}

/// Sifts the diagram of `manager`, and sifts on for the bound of the search.
fn sift<R: Threads + Sync>(
    rt: &R,
    alloc: Global,
    manager: Manager,
    workers: Workers,
) -> Result<Sifting, AllocError>
    ensures { IfOk result (IsSiftingOf manager) }
{
    let found = manager.sift(alloc)?;
    let sifted = found.order().try_clone(alloc)?;
    let size = found.size();
    let bound = found.search_bound_by_threads(rt, alloc, workers)?;
    Ok(Sifting {
        sifted,
        size,
        bound,
    })
}

/// Makes the manager by which `starting` is sifted among the orders that keep the pairs of
/// `input`.
pub(crate) fn manager_of(
    alloc: Global,
    input: &SearchInput<'_>,
    starting: Diagram,
) -> Result<Manager, AllocError>
    requires { IsStartingDiagram input.now.cover.now input.now.pairs.now.pairs starting }
    ensures { IfOk result (IsStartingManager input.now) }
{
    prove!(input.cover.outputs() <= 16);
    diagrams_have_their_functions_tables();
    let manager = Manager::with_pairs(alloc, starting, input.pairs.copied())?;
    Ok(manager)
}

/// Prepares the search before sifting has found its bound: takes `size`, the number of nodes under
/// the starting order, for it.
fn prepare_below<'a, R: Threads + Sync>(
    rt: &R,
    alloc: Global,
    input: &SearchInput<'_>,
    renaming: &'a Renaming<'a>,
    size: u32,
) -> Result<SearchStart<'a>, AllocError>
    requires { renaming.now.problem ≡ input.now.tables.now }
    ensures { IfOk result (IsStartFor input.now.tables.now input.now.pairs.now.pairs) }
{
    let limit = Limit {
        bound: size,
        lower_bound: if input.certify {
            LowerBound::Variables
        } else {
            LowerBound::Widths
        },
    };
    let workers = input.busy_workers();
    let start = prepare(rt, alloc, renaming, input.pairs, limit, workers)?;
    Ok(start)
}

/// The two results; Err if memory was refused to one of them.
fn both<'a>(
    sifting: Result<Sifting, AllocError>,
    start: Result<SearchStart<'a>, AllocError>,
) -> Result<(Sifting, SearchStart<'a>), AllocError>
    ensures sifting { IfOk result (λ r. sifting ≡ Ok r.0) }
    ensures start { IfOk result (λ r. start.entry ≡ Ok r.1) }
{
    let sifting = sifting?;
    let start = start?;
    Ok((sifting, start))
}

/// Sifts the diagram of `manager` and prepares the search, at the same time if there is more than
/// one busy worker.
fn sift_and_prepare<'a, R: Threads + Sync>(
    rt: &R,
    alloc: Global,
    input: &SearchInput<'_>,
    renaming: &'a Renaming<'a>,
    manager: Manager,
) -> Result<(Sifting, SearchStart<'a>), AllocError>
    requires manager { IsStartingManager input.now manager }
    requires renaming { renaming.now.problem ≡ input.now.tables.now }
    ensures sifting { IfOk result (λ r. IsSiftingFor input.now r.0) }
    ensures start { IfOk result
        (λ r. IsStartFor input.now.tables.now input.now.pairs.now.pairs r.1) }
{
    let size = manager.size();
    let workers = input.workers;
    if input.busy_workers().count() == 1 {
        let start = prepare_below(rt, alloc, input, renaming, size);
        return both(sift(rt, alloc, manager, workers), start);
    }
    // The closures own what they take (`move`): `join` ensures nothing of a closure that owns one
    // value and borrows another.
    let sifting = move || -> Result<Sifting, AllocError>
        requires { IsSync R.row }
        ensures { IfOk result (IsSiftingOf manager) }
    { sift(rt, alloc, manager, workers) };
    let preparing = move || -> Result<SearchStart<'_>, AllocError>
        requires { IsSync R.row × (renaming.now.problem ≡ input.now.tables.now) }
        ensures { IfOk result
            (IsStartFor input.entry.now.tables.now input.entry.now.pairs.now.pairs) }
    { prepare_below(rt, alloc, input, renaming, size) };
    let (sifting, start) = thread::join(rt, sifting, preparing);
    both(sifting, start)
}

/// The number of nodes of the cover's functions under the file order.
fn file_size_of<R: Threads + Sync>(
    rt: &R,
    alloc: Global,
    input: &SearchInput<'_>,
    starting: &Diagram,
) -> Result<u64, AllocError>
    requires { IsStartingDiagram input.now.cover.now input.now.pairs.now.pairs starting.now }
    ensures { IfOk result (λ size. size ≡ sum (file_order_levels input.now.cover.now)) }
{
    let levels = file_order_levels_of(rt, alloc, input, starting)?;
    Ok(total(&levels))
}

/// The result of a search.
#[derive(Drop)]
pub(crate) struct Found {
    /// The first order of the fewest nodes, with the cells of its certificate if the run makes one.
    pub best: Best,
    /// The order after one pass of sifting.
    pub sifted: Order,
    /// The number of nodes under the sifted order.
    pub sifted_size: u32,
    /// The number of nodes under the file order.
    pub file_size: u64,
}

/// The order and the number of nodes after one pass of sifting.
fn sift_once(alloc: Global, manager: Manager) -> Result<(Order, u32), AllocError>
    ensures { IfOk result (IsSiftedOnce manager) }
{
    let sifted = manager.sift(alloc)?;
    let order = sifted.order().try_clone(alloc)?;
    Ok((order, sifted.size()))
}

/// Finds the sifted order and the best one by a search that is fast for small truth tables.
fn search_small(
    alloc: Global,
    input: &SearchInput<'_>,
    manager: Manager,
    file_size: u64,
) -> Result<Found, AllocError>
    requires manager { IsStartingManager input.now manager }
    requires file { file_size ≡ sum (file_order_levels input.now.cover.now) }
    ensures { IfOk result (IsFound input.now) }
{
    let (sifted, sifted_size) = sift_once(alloc, manager)?;
    let best = small_best(alloc, input.tables.problem(), input.pairs, input.certify)?;
    Ok(Found {
        best,
        sifted,
        sifted_size,
        file_size,
    })
}

/// Finds the first order of the fewest nodes, the sifted order, and the size under the file order.
pub(crate) fn search<R: Threads + Sync>(
    rt: &R,
    alloc: Global,
    input: &SearchInput<'_>,
) -> Result<Found, AllocError>
    ensures { IfOk result (IsFound input.now) }
{
    let starting = starting_diagram(rt, alloc, input)?;
    let file_size = file_size_of(rt, alloc, input, &starting)?;
    let manager = manager_of(alloc, input, starting)?;
    if is_small(input.tables.problem()) {
        return search_small(alloc, input, manager, file_size);
    }
    let renaming = renaming_of(alloc, input.tables.problem())?;
    let (sifting, start) = sift_and_prepare(rt, alloc, input, &renaming, manager)?;
    let Sifting {
        sifted,
        size,
        bound,
    } = sifting;
    let workers = input.workers;
    let best = if input.certify {
        Best::of(solve(rt, alloc, start, bound, workers, &NoGate)?)
    } else {
        Best::without_cells(find_optimum(rt, alloc, start, bound, workers, &NoGate)?)
    };
    Ok(Found {
        best,
        sifted,
        sifted_size: size,
        file_size,
    })
}
