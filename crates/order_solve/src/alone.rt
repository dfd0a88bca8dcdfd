//! Computes the cells of all sets on the calling thread.

ghost use Rattle.std.specs.Prelude.{◌≡◌, IfOk};
ghost use Rattle.subset_layers.specs.Layers.{masks_of};
ghost use Rattle.layer_core.specs.LayerCosts.{AreCells};
ghost use Rattle.solutions.specs.Bounded.{IsBounded};

use crate::layers::all_cells;
use crate::row_finders::CallingThread;
use compaction::{Preparation, renaming_of};
use layer_core::Instance;
use layer_work::{LayerContext, cells_alone};
use solutions::AllCells;
use std::alloc::{AllocError, Global};
use subset_layers::Cell;

/// Prepares the search, and computes the cells of all sets, on the calling thread.
pub(crate) fn all_cells_alone<'a>(
    alloc: Global,
    instance: &'a Instance<'a>,
) -> Result<AllCells<'a>, AllocError>
    requires { IsBounded instance.now }
    ensures { IfOk result (λ a. a ≡ instance.now) }
{
    let renaming = renaming_of(alloc, instance.problem())?;
    let mut prepared = Preparation::of(alloc, &renaming, instance.pairs())?;
    let cells_of = |context: &LayerContext<'_>| -> Result<Vec<Cell>, AllocError>
        ensures { IfOk result (λ v.
            AreCells context.entry.now.instance (masks_of context.entry.now.layer) v.items) }
    { cells_alone(alloc, context) };
    all_cells(&CallingThread, &cells_of, alloc, instance, &mut prepared)
}
