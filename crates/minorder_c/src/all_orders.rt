ghost use Rattle.std.specs.Prelude.{IfOk, IfErr, OnOk};
ghost use Rattle.definitions.specs.AllOrders.{AreAllWidths};
ghost use Rattle.definitions.specs.KeptPairs.{CanBeKept};
ghost use Rattle.definitions.specs.Problems.{functions};
ghost use Rattle.minorder_c.specs.Answers.{AreTables, pairs_given};
ghost use Rattle.minorder_c.specs.OrderFigures.{IsForOrders};
ghost use Rattle.minorder_c.specs.Statuses.{RefusesPairs};

use crate::above::{AbovePair, kept_pairs};
use crate::arguments::{GivenTables, tables_of};
use crate::status::Refusal;
use order_model::{Pairs, Problem, WidthRow};
use small_search::is_small;
use std::alloc::{AllocError, Global};
use truth_table::Tables;

/// For each set, at its mask and each member x: the width of x over the other members, 0 elsewhere.
pub(crate) fn rows_of_all_sets(
    alloc: Global,
    problem: &Problem,
) -> Result<Vec<WidthRow>, AllocError>
    ensures { IfOk result
        (λ rows. AreAllWidths problem.now.inputs (functions problem.now) rows.items) }
{
    if is_small(problem) {
        small_search::widths_of_all_sets(alloc, problem)
    } else {
        compaction::widths_of_all_sets(alloc, problem)
    }
}

/// Truth tables, the pairs that orders keep, and the widths of all sets.
#[derive(Drop)]
pub(crate) struct AllOrders {
    pub tables: Tables,
    pub pairs: Pairs,
    /// At each mask and member x: the width of x over the other members.
    pub widths: Vec<WidthRow>,
}

impl AllOrders {
    /// The widths of all sets of the tables `given`, for the orders that keep the pairs `above`.
    pub(crate) fn of(
        alloc: Global,
        given: &GivenTables,
        above: &[AbovePair],
    ) -> Result<AllOrders, Refusal>
        ensures shape { OnOk result (AreTables given.now) }
        ensures kept { OnOk result (CanBeKept given.now.inputs (pairs_given above.now)) }
        ensures all { IfOk result (IsForOrders given.now above.now) }
        ensures refused { IfErr result
            (RefusesPairs (AreTables given.now)
            (CanBeKept given.now.inputs (pairs_given above.now))) }
    {
        let tables = tables_of(alloc, given)?;
        let pairs = kept_pairs(alloc, above, given.inputs as u8)?;
        let widths = rows_of_all_sets(alloc, tables.problem())?;
        Ok(AllOrders {
            tables,
            pairs,
            widths,
        })
    }
}
