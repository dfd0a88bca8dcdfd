//! Finds the first order of the fewest nodes, and the sets and costs that its certificate lists.

ghost use Rattle.std.specs.Prelude.{◌≡◌, IfOk, None, Some};
ghost use Rattle.report.specs.Bests.{IsBestFor};

use order_model::{ListedCell, Pairs, Problem, SizedOrder};
use order_solve::Solution;
use std::alloc::{AllocError, Global};

/// The first order of the fewest nodes, and the cells that its certificate lists, if one is
/// written.
#[derive(Drop)]
pub(crate) struct Best {
    pub optimum: SizedOrder,
    pub cells: Option<Vec<ListedCell>>,
}

impl Best {
    pub(crate) fn without_cells(optimum: SizedOrder) -> Best
        ensures optimum { result.optimum ≡ optimum }
        ensures cells { result.cells ≡ None }
    {
        Best {
            optimum,
            cells: None,
        }
    }

    pub(crate) fn of(solution: Solution) -> Best
        ensures optimum { result.optimum ≡ solution.optimum }
        ensures cells { result.cells ≡ Some solution.cells }
    {
        Best {
            optimum: solution.optimum,
            cells: Some(solution.cells),
        }
    }
}

/// Finds the first order of the fewest nodes among those that keep `pairs`, by a search on the
/// calling thread that is fast for small truth tables. The cells are None unless `certify` is true.
pub(crate) fn small_best(
    alloc: Global,
    problem: &Problem,
    pairs: &Pairs,
    certify: bool,
) -> Result<Best, AllocError>
    requires { pairs.now.inputs ≡ problem.now.inputs }
    ensures { IfOk result (IsBestFor problem.now pairs.now.pairs certify) }
{
    if certify {
        let solution = small_search::solve(alloc, problem, pairs)?;
        return Ok(Best::of(solution));
    }
    let optimum = small_search::find_optimum(alloc, problem, pairs)?;
    Ok(Best::without_cells(optimum))
}
