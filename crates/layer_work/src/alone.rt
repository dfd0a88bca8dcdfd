//! The cells of a layer, computed on the calling thread.

ghost use Rattle.std.specs.Prelude.{IfOk};
ghost use Rattle.subset_layers.specs.Layers.{masks_of};
ghost use Rattle.layer_core.specs.LayerCosts.{AreCells};

use crate::cells::cell_at;
use crate::context::LayerContext;
use compaction::Tally;
use std::alloc::{AllocError, Global};
use subset_layers::Cell;

/// Computes the cells of the sets of the layer of `context`, by rising mask, on the calling thread.
pub fn cells_alone(alloc: Global, context: &LayerContext<'_>) -> Result<Vec<Cell>, AllocError>
    ensures { IfOk result (λ v.
        AreCells context.entry.now.instance (masks_of context.entry.now.layer) v.items) }
{
    prove!(context.instance.inputs() <= 16);
    let layer = context.layer;
    let mut cells = Vec::with_capacity(alloc, layer.len())?;
    for place in 0..layer.len() {
        let mut tally = Tally::new();
        cells.push(cell_at(alloc, context, place, &mut tally)?)?;
    }
    Ok(cells)
}
