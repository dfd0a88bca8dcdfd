//! The widths of all sets of a small problem's variables.

ghost use Rattle.std.specs.Prelude.{◌≡◌, ◌^◌, ◌<◌, [], replicate, IfOk, OnOk};
ghost use Rattle.definitions.specs.AllOrders.{AreAllWidths, AreWidthsIn};
ghost use Rattle.definitions.specs.Problems.{functions};
ghost use Rattle.subfunction_classes.specs.Table.{classes_of};
ghost use Rattle.small_search.specs.Occurrences.{AreOf};

use crate::instance::SmallSearch;
use crate::search::subfunctions_in;
use crate::tables::PathTables;
use crate::width_counts::Subfunctions;
use order_model::{Mask, Pairs, Problem, WidthRow, next_member};
use std::alloc::{AllocError, Global};

/// Writes the widths of the members of `set` over the other members to `row`, which has zeros.
#[inline(always)]
fn write_row(
    search: &SmallSearch<'_>,
    subfunctions: &Subfunctions<'_>,
    set: Mask,
    row: &mut WidthRow,
)
    requires within { set < 2 ^ search.now.problem.inputs }
    requires subfunctions { AreOf (classes_of search.now.problem set) subfunctions.now }
    requires zeros { row.old ≡ replicate 16 0 }
    ensures { AreWidthsIn search.now.problem.inputs (functions search.now.problem) set row.new }
{
    prove!(search.inputs() <= 16);
    let mut place = set.count_ones();
    let mut from = 0;
    while let Some(x) = next_member(set, from) {
        place -= 1;
        row[x as usize] = subfunctions.width(x, place);
        from = x + 1;
    }
}

/// Appends the row of each set of the search's variables, by rising mask, to `rows`, which has
/// none. `tables` is working memory. If memory is refused, `rows` may have a part.
fn push_rows(
    alloc: Global,
    search: &SmallSearch<'_>,
    tables: &mut PathTables,
    rows: &mut Vec<WidthRow>,
) -> Result<(), AllocError>
    requires { rows.old.items ≡ [] }
    ensures { OnOk result
        (AreAllWidths search.now.problem.inputs (functions search.now.problem) rows.new.items) }
{
    tables.restart(alloc, search)?;
    let sets = 1u32 << search.inputs();
    rows.reserve(sets as usize)?;
    rows.push([0; 16])?;
    for number in 1..sets {
        let set = number as Mask;
        tables.add_lowest(search, set)?;
        let subfunctions = subfunctions_in(search, tables, set);
        rows.push([0; 16])?;
        write_row(search, &subfunctions, set, &mut rows[number as usize]);
    }
    Ok(())
}

/// A row for each set of variables, at its mask: at each member x the width of x over the other
/// members, and 0 elsewhere. For small problems: takes a step for each entry of the class tables.
pub fn widths_of_all_sets(alloc: Global, problem: &Problem) -> Result<Vec<WidthRow>, AllocError>
    ensures { IfOk result
        (λ rows. AreAllWidths problem.now.inputs (functions problem.now) rows.items) }
{
    let pairs = Pairs::none(problem.inputs());
    let search = SmallSearch::of_problem(problem, &pairs);
    let mut tables = PathTables::new(alloc);
    let mut rows = Vec::new(alloc);
    push_rows(alloc, &search, &mut tables, &mut rows)?;
    Ok(rows)
}
