//! The search for a small problem's first order of the fewest nodes.

ghost use Rattle.std.specs.Prelude.{◌≡◌, ◌*◌, ◌+◌, ◌-◌, ◌^◌, ◌<◌, ◌≤◌, ◌↔◌, [], length, IfOk, IsTrue, OnOk, OnErr};
ghost use Rattle.definitions.specs.Problems.{functions, outputs_of};
ghost use Rattle.small_search.specs.Occurrences.{AreOf};
ghost use Rattle.small_search.specs.Paths.{HoldPath};
ghost use Rattle.subfunction_classes.specs.Table.{classes_of};
ghost use Rattle.small_search.specs.Searches.{plain_instance};
ghost use Rattle.solutions.specs.Bounded.{AreFlatCells, IsBounded};
ghost use Rattle.solutions.specs.Solutions.{IsFirstFewest, IsOptimumFor, IsSolution};

use crate::cells::cell_of_set;
use crate::instance::{NO_BOUND, SmallSearch};
use crate::tables::{MOST_VALUE_VARIABLES, PathTables, values_over};
use crate::values::occurring;
use crate::width_counts::Subfunctions;
use layer_core::Instance;
use order_model::{Limit, LowerBound, Mask, Pairs, Problem, SizedOrder, VarIx};
use solutions::{AllCells, Solution, optimum_of, read_optimum, solution_of};
use std::alloc::{AllocError, Global};
use subset_layers::Cell;

/// How many variables a small problem has at most. With more of them the search by layers
/// (`order_solve`) leaves out sets, by its bound and by symmetric variables.
const MOST_INPUTS: u8 = 10;

/// How many entries the truth tables of a small problem have together at most. With more of them
/// the search by layers (`order_solve`) is faster.
const MOST_ENTRIES: usize = 1 << 13;

/// Whether the search of this crate is faster for `problem` than the search by layers
/// (`order_solve`).
pub fn is_small(problem: &Problem) -> bool
    ensures { IsTrue result ↔ ((problem.now.inputs ≤ 10)
        × (outputs_of problem.now * 2 ^ problem.now.inputs ≤ 2 ^ 13)) }
{
    are_few(problem.inputs(), problem.outputs())
}

/// Whether the search of this crate is faster than the search by layers for so many variables and
/// functions.
pub fn are_few(inputs: u8, outputs: u8) -> bool
    requires inputs { inputs ≤ 16 }
    ensures { IsTrue result ↔ ((inputs ≤ 10) × (outputs * 2 ^ inputs ≤ 2 ^ 13)) }
{
    inputs <= MOST_INPUTS && (outputs as usize) << inputs <= MOST_ENTRIES
}

/// Memory for searches of small problems: each search uses again what earlier ones took.
#[derive(Drop)]
pub struct Workspace {
    tables: PathTables,
    cells: Vec<Cell>,
}

impl Workspace {
    /// No memory yet: each search enlarges it if it needs more.
    pub fn new(alloc: Global) -> Workspace {
        Workspace {
            tables: PathTables::new(alloc),
            cells: Vec::new(alloc),
        }
    }
}

/// The distinct subfunctions over `set`, read from `tables`.
#[inline(always)]
pub(crate) fn subfunctions_in<'a>(
    search: &SmallSearch<'_>,
    tables: &'a PathTables,
    set: Mask,
) -> Subfunctions<'a>
    requires within { set < 2 ^ search.now.problem.inputs }
    requires path { HoldPath search.now.problem set tables.now }
    ensures { AreOf (classes_of search.now.problem set) result }
{
    prove!(search.inputs() <= 16);
    prove!(search.outputs() <= 16);
    let size = set.count_ones();
    if size <= MOST_VALUE_VARIABLES {
        let values = values_over(&tables.values, tables.entries, size);
        Subfunctions::Values(occurring(values, size))
    } else {
        Subfunctions::Classes(&tables.classes[size as usize - 4].masks)
    }
}

/// Overwrites `cells` with the cells of all sets, each at its mask. `tables` is working memory.
fn find_cells(
    alloc: Global,
    search: &SmallSearch<'_>,
    tables: &mut PathTables,
    cells: &mut Vec<Cell>,
) -> Result<(), AllocError>
    ensures { OnOk result (AreFlatCells search.now cells.new.items) }
{
    let all_lawful = search.has_no_pairs();
    tables.restart(alloc, search)?;
    let sets = 1u32 << search.inputs();
    cells.clear();
    cells.reserve(sets as usize)?;
    cells.push(Cell {
        cost: 0,
        variable: 0,
    })?;
    for number in 1..sets {
        let set = number as Mask;
        tables.add_lowest(search, set)?;
        let lawful = all_lawful || search.lawful(set);
        let subfunctions = subfunctions_in(search, tables, set);
        let cell = cell_of_set(search, cells, &subfunctions, set, lawful);
        cells.push(cell)?;
    }
    Ok(())
}

/// Writes the first order of the fewest nodes among those that keep the pairs of `search` to
/// `order`, top first, and its level counts to `levels`. Returns its size. Takes a step for each
/// entry of the class tables of all sets.
pub fn write_optimum(
    alloc: Global,
    search: &SmallSearch<'_>,
    workspace: &mut Workspace,
    order: &mut [VarIx],
    levels: &mut [u32],
) -> Result<u32, AllocError>
    requires places { length order.old ≡ search.now.problem.inputs }
    requires counts { length levels.old ≡ search.now.problem.inputs }
    ensures optimum { IfOk result
        (IsFirstFewest search.now.problem.inputs (functions search.now.problem)
        search.now.pairs.pairs order.new levels.new) }
    ensures places { length order.new ≡ length order.old }
    ensures counts { length levels.new ≡ length levels.old }
    ensures order_stays { OnErr result (order.new ≡ order.old) }
    ensures levels_stay { OnErr result (levels.new ≡ levels.old) }
{
    prove!(search.inputs() <= 16);
    find_cells(alloc, search, &mut workspace.tables, &mut workspace.cells)?;
    Ok(read_optimum(&workspace.cells, order, levels))
}

/// The cells of all sets, each at its mask.
fn all_cells(alloc: Global, problem: &Problem, pairs: &Pairs) -> Result<Vec<Cell>, AllocError>
    requires { pairs.now.inputs ≡ problem.now.inputs }
    ensures { IfOk result (λ v. AreFlatCells (plain_instance problem.now pairs.now) v.items) }
{
    let search = SmallSearch::of_problem(problem, pairs);
    let mut path = PathTables::new(alloc);
    let mut cells = Vec::new(alloc);
    find_cells(alloc, &search, &mut path, &mut cells)?;
    Ok(cells)
}

/// The problem instance of a search that prunes nothing, because its bound exceeds all costs.
fn instance_of<'a>(problem: &'a Problem, pairs: &'a Pairs) -> Instance<'a>
    requires { pairs.now.inputs ≡ problem.now.inputs }
    ensures instance { result ≡ plain_instance problem.now pairs.now }
    ensures bounded { IsBounded result }
{
    prove!(problem.inputs() <= 16);
    prove!(problem.outputs() <= 16);
    prove!(pairs.inputs() <= 16);
    let limit = Limit {
        bound: NO_BOUND,
        lower_bound: LowerBound::Variables,
    };
    Instance::new(problem, pairs, limit)
}

/// The first order of the fewest nodes among those that keep `pairs`. Takes a step for each entry
/// of the class tables of all sets.
pub fn find_optimum(
    alloc: Global,
    problem: &Problem,
    pairs: &Pairs,
) -> Result<SizedOrder, AllocError>
    requires { pairs.now.inputs ≡ problem.now.inputs }
    ensures { IfOk result (IsOptimumFor problem.now pairs.now.pairs) }
{
    let cells = all_cells(alloc, problem, pairs)?;
    let instance = instance_of(problem, pairs);
    optimum_of(alloc, &AllCells::of_cells(&instance, cells))
}

/// The first order of the fewest nodes among those that keep `pairs`, and the sets and costs that
/// its certificate lists. Takes as long as `find_optimum`.
pub fn solve(alloc: Global, problem: &Problem, pairs: &Pairs) -> Result<Solution, AllocError>
    requires { pairs.now.inputs ≡ problem.now.inputs }
    ensures { IfOk result (IsSolution problem.now pairs.now.pairs) }
{
    let cells = all_cells(alloc, problem, pairs)?;
    let instance = instance_of(problem, pairs);
    solution_of(alloc, &AllCells::of_cells(&instance, cells))
}
