//! The widths of all sets of variables.

ghost use Rattle.std.specs.Prelude.{◌≤◌, IfOk};
ghost use Rattle.definitions.specs.AllOrders.{AreAllWidths};
ghost use Rattle.definitions.specs.Problems.{functions};

use crate::low_choice::renaming_of;
use crate::preparation::Preparation;
use order_model::{Mask, Pairs, Problem, WidthRow, Workers};
use std::alloc::{AllocError, Global};
use std::thread::Threads;

impl<'a> Preparation<'a> {
    /// A row for each set of variables, at its mask: at each member x the width of x over the other
    /// members, and 0 elsewhere. A row that wasn't found ahead takes a walk of its own.
    fn all_rows(&self, alloc: Global) -> Result<Vec<WidthRow>, AllocError>
        ensures { IfOk result
            (λ rows. AreAllWidths self.now.problem.inputs (functions self.now.problem) rows.items) }
    {
        prove!(self.problem().inputs() <= 16);
        let sets = 1u32 << self.problem().inputs();
        let mut rows = Vec::with_capacity(alloc, sets as usize)?;
        for number in 0..sets {
            let set = number as Mask;
            let image = self.image_of(set);
            rows.push(self.row(alloc, set, set, &image)?)?;
        }
        Ok(rows)
    }
}

/// A row for each set of variables, at its mask: at each member x the width of x over the other
/// members, and 0 elsewhere. Takes 64 bytes for each set beside the memory in which widths are
/// found.
pub fn widths_of_all_sets(alloc: Global, problem: &Problem) -> Result<Vec<WidthRow>, AllocError>
    ensures { IfOk result
        (λ rows. AreAllWidths problem.now.inputs (functions problem.now) rows.items) }
{
    let renaming = renaming_of(alloc, problem)?;
    let mut prepared = Preparation::of(alloc, &renaming, &Pairs::none(problem.inputs()))?;
    prepared.find_all(alloc)?;
    prepared.all_rows(alloc)
}

/// A row for each set of variables, at its mask, found by the threads of `workers` workers: at each
/// member x the width of x over the other members, and 0 elsewhere.
pub fn widths_of_all_sets_by_workers<R: Threads + Sync>(
    rt: &R,
    alloc: Global,
    problem: &Problem,
    workers: Workers,
) -> Result<Vec<WidthRow>, AllocError>
    ensures { IfOk result
        (λ rows. AreAllWidths problem.now.inputs (functions problem.now) rows.items) }
{
    let renaming = renaming_of(alloc, problem)?;
    let inputs = problem.inputs();
    let none = Pairs::none(inputs);
    let prepared = Preparation::by_workers(rt, alloc, &renaming, &none, inputs, workers)?;
    prepared.all_rows(alloc)
}
