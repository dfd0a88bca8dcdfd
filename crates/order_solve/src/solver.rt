//! The solver: the first order of the fewest nodes, found by workers or by the calling thread. Of
//! the orders of the fewest nodes the first is the lexicographically smallest, top first.

ghost use Rattle.std.specs.Prelude.{◌≡◌, IfOk};
ghost use Rattle.definitions.specs.Problems.{functions};
ghost use Rattle.definitions.specs.declared.limits.LowerBound.TheVariants.{Variables};
ghost use Rattle.definitions.specs.Cells.{widths_taken};
ghost use Rattle.layer_core.specs.LayerCosts.{AreCells};
ghost use Rattle.order_solve.specs.SearchStarts.{IsStartFor};
ghost use Rattle.subset_layers.specs.Layers.{masks_of};
ghost use Rattle.symmetries.specs.SymmetricPairs.{IsHarmless};
ghost use Rattle.solutions.specs.Bounded.{IsBounded};
ghost use Rattle.solutions.specs.Solutions.{IsOptimumFor, IsSolution};

use crate::alone::all_cells_alone;
use crate::crews::cells_of_layer;
use crate::layers::all_cells;
use crate::preparation::SearchStart;
use layer_core::Instance;
use layer_work::LayerContext;
use order_model::{Crew, Gate, Limit, LowerBound, Pairs, Problem, SizedOrder, Workers};
use sifting::Sifted;
use solutions::{Solution, optimum_of, solution_of};
use std::alloc::{AllocError, Global};
use std::thread::Threads;
use subset_layers::Cell;
use symmetries::pairs_to_keep;

/// The problem instance of a search among the orders that keep `pairs`, with the size of the sifted
/// order as its bound.
fn instance_of<'a>(
    problem: &'a Problem,
    sifted: &'a Sifted,
    pairs: &'a Pairs,
    lower_bound: LowerBound,
) -> Instance<'a>
    requires problem { sifted.now.problem ≡ problem.now }
    requires inputs { pairs.now.inputs ≡ problem.now.inputs }
    requires harmless { IsHarmless problem.now.inputs (functions problem.now) sifted.now.pairs
        pairs.now.pairs }
    ensures problem { result.problem ≡ problem.now }
    ensures pairs { result.pairs ≡ pairs.now }
    ensures lower_bound { result.lower_bound ≡ lower_bound }
    ensures bound { result.bound ≡ sifted.now.size }
    ensures bounded { IsBounded result }
{
    prove!(problem.outputs() <= 16);
    prove!(problem.inputs() <= 16);
    let limit = Limit {
        bound: sifted.size(),
        lower_bound,
    };
    Instance::new(problem, pairs, limit)
}

/// The first order of the fewest nodes among those that keep the pairs of `sifted`, whose size
/// bounds the search. It uses the lower bound by widths. A worker calls `gate` before it posts the
/// cell of a set. The only error is that memory is refused; nothing is then computed anew.
pub fn find_optimum<R: Threads + Sync, G: Gate>(
    rt: &R,
    alloc: Global,
    start: SearchStart<'_>,
    sifted: Sifted,
    workers: Workers,
    gate: &G,
) -> Result<SizedOrder, AllocError>
    requires { IsStartFor sifted.problem sifted.pairs start }
    ensures { IfOk result (IsOptimumFor sifted.problem sifted.pairs) }
{
    let SearchStart { prepared, kept } = start;
    let mut prepared = prepared;
    let instance = instance_of(prepared.problem(), &sifted, &kept, LowerBound::Widths);
    let crew = Crew::new(rt, workers, gate);
    let cells_of = |context: &LayerContext<'_>| -> Result<Vec<Cell>, AllocError>
        ensures { IfOk result (λ v.
            AreCells context.entry.now.instance (masks_of context.entry.now.layer) v.items) }
    { cells_of_layer(&crew, alloc, context) };
    let cells = all_cells(&crew, &cells_of, alloc, &instance, &mut prepared)?;
    optimum_of(alloc, &cells)
}

/// The first order of the fewest nodes among those that keep the pairs of `sifted`, whose size
/// bounds the search, found on the calling thread.
pub fn find_optimum_alone(
    alloc: Global,
    problem: &Problem,
    sifted: Sifted,
) -> Result<SizedOrder, AllocError>
    requires { sifted.problem ≡ problem.now }
    ensures { IfOk result (IsOptimumFor problem.now sifted.pairs) }
{
    let pairs = pairs_to_keep(alloc, problem, sifted.pairs())?;
    let instance = instance_of(problem, &sifted, &pairs, LowerBound::Widths);
    let cells = all_cells_alone(alloc, &instance)?;
    optimum_of(alloc, &cells)
}

/// The first order of the fewest nodes among those that keep the pairs of `sifted`, whose size
/// bounds the search, and the sets and costs that its certificate lists. It uses the lower bound by
/// variables.
#[tactic(auto, using(crate::proofs::Harmless::harmless_kept))]
pub fn solve<R: Threads + Sync, G: Gate>(
    rt: &R,
    alloc: Global,
    start: SearchStart<'_>,
    sifted: Sifted,
    workers: Workers,
    gate: &G,
) -> Result<Solution, AllocError>
    requires { sifted.problem ≡ start.problem }
    ensures { IfOk result (IsSolution sifted.problem sifted.pairs) }
{
    let mut start = start;
    let problem = start.prepared.problem();
    let instance = instance_of(problem, &sifted, sifted.pairs(), LowerBound::Variables);
    let crew = Crew::new(rt, workers, gate);
    let cells_of = |context: &LayerContext<'_>| -> Result<Vec<Cell>, AllocError>
        ensures { IfOk result (λ v.
            AreCells context.entry.now.instance (masks_of context.entry.now.layer) v.items) }
    { cells_of_layer(&crew, alloc, context) };
    let cells = all_cells(&crew, &cells_of, alloc, &instance, &mut start.prepared)?;
    solution_of(alloc, &cells)
}

/// The first order of the fewest nodes among those that keep the pairs of `sifted`, and the sets
/// and costs that its certificate lists, found on the calling thread.
#[tactic(auto, using(crate::proofs::Harmless::harmless_kept))]
pub fn solve_alone(alloc: Global, problem: &Problem, sifted: Sifted) -> Result<Solution, AllocError>
    requires { sifted.problem ≡ problem.now }
    ensures { IfOk result (IsSolution problem.now sifted.pairs) }
{
    let instance = instance_of(problem, &sifted, sifted.pairs(), LowerBound::Variables);
    let cells = all_cells_alone(alloc, &instance)?;
    solution_of(alloc, &cells)
}

/// The number of widths that the cells of all sets take in a search as that of `solve`.
#[tactic(auto, using(crate::proofs::Harmless::harmless_kept))]
pub fn count_widths(alloc: Global, problem: &Problem, sifted: Sifted) -> Result<u64, AllocError>
    requires { sifted.problem ≡ problem.now }
    ensures { IfOk result
        (λ count. count ≡ widths_taken problem.now.inputs (functions problem.now) sifted.pairs
        Variables sifted.size) }
{
    let instance = instance_of(problem, &sifted, sifted.pairs(), LowerBound::Variables);
    let cells = all_cells_alone(alloc, &instance)?;
    Ok(solutions::count_widths(&cells))
}
