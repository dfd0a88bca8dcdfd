//! Reads the first order of the fewest nodes, and the sets and costs that its certificate lists,
//! off the cells of all sets.

ghost use Rattle.std.specs.Prelude.{◌≡◌, ◌≤◌, IfOk};
ghost use Rattle.definitions.specs.declared.limits.LowerBound.TheVariants.{Variables};
ghost use Rattle.solutions.specs.Solutions.{IsOptimumFor, IsSolution};

use crate::all_cells::AllCells;
use crate::listed_sets::listed_cells;
use crate::reading::read_optimum;
use crate::solution::Solution;
use order_model::{Order, SizedOrder};
use std::alloc::{AllocError, Global};

/// The first order of the fewest nodes among those that keep the instance's pairs.
pub fn optimum_of(alloc: Global, cells: &AllCells<'_>) -> Result<SizedOrder, AllocError>
    ensures optimum { IfOk result (IsOptimumFor cells.now.problem cells.now.pairs.pairs) }
    ensures bounded { IfOk result (λ o. o.total ≤ cells.now.bound) }
{
    prove!(cells.inputs() <= 16);
    let mut variables = vec![in alloc; 0; usize::from(cells.inputs())]?;
    let mut levels = vec![in alloc; 0; usize::from(cells.inputs())]?;
    let total = read_optimum(&cells.cells, &mut variables, &mut levels);
    Ok(SizedOrder {
        order: Order::from_variables(variables),
        total,
        levels,
    })
}

/// The first order of the fewest nodes that `cells` give, and the sets and costs that its
/// certificate lists.
pub fn solution_of(alloc: Global, cells: &AllCells<'_>) -> Result<Solution, AllocError>
    requires { cells.now.lower_bound ≡ Variables }
    ensures { IfOk result (IsSolution cells.now.problem cells.now.pairs.pairs) }
{
    let optimum = optimum_of(alloc, cells)?;
    let listed = listed_cells(alloc, cells, optimum.total)?;
    Ok(Solution {
        optimum,
        cells: listed,
    })
}
