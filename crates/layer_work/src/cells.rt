//! The cell of a set: the least cost, and the smallest top variable that gives it.

ghost use Rattle.std.specs.Prelude.{◌≡◌, ◌+◌, ◌^◌, ◌<◌, ◌≤◌, length, slice_index, IfOk, OnOk, IsTrue};
ghost use Rattle.definitions.specs.Orders.{has};
ghost use Rattle.subset_layers.specs.Layers.{masks_of};
ghost use Rattle.layer_core.specs.Instances.{cell_for};
ghost use Rattle.layer_core.specs.Needs.{width_count};
ghost use Rattle.layer_core.specs.Pairing.{pair_of};

use crate::context::LayerContext;
use compaction::Tally;
use order_model::Mask;
use std::alloc::{AllocError, Global};
use subset_layers::Cell;

/// The cell of the set at `place` of the layer of `context`. Adds the number of widths that it
/// takes to `tally`.
pub(crate) fn cell_at(
    alloc: Global,
    context: &LayerContext<'_>,
    place: usize,
    tally: &mut Tally,
) -> Result<Cell, AllocError>
    requires there { place < length (masks_of context.now.layer) }
    requires room { tally.old
        + width_count context.now.instance (slice_index (masks_of context.now.layer) place)
        ≤ 2 ^ 32 }
    ensures cell { IfOk result (λ c. pair_of c ≡
        cell_for context.now.instance (slice_index (masks_of context.now.layer) place)) }
    ensures counts { OnOk result (tally.new ≡ tally.old
        + width_count context.now.instance (slice_index (masks_of context.now.layer) place)) }
{
    let instance = context.instance;
    let mask = context.layer.mask_at(place);
    let Some(image) = &context.images[place] else {
        return Ok(instance.pruned_cell(mask));
    };
    prove!(instance.inputs() <= 16);
    let needs = &context.needs[place];
    let row = context.prepared.row(alloc, mask, needs.members, image)?;
    tally.add(u64::from(needs.members.count_ones()));
    Ok(instance.cell(mask, needs, &row))
}

/// The cell of the set `mask` of the layer of `context`. Adds the number of widths that it takes to
/// `tally`.
pub(crate) fn cell_of_set(
    alloc: Global,
    context: &LayerContext<'_>,
    mask: Mask,
    tally: &mut Tally,
) -> Result<Cell, AllocError>
    requires there { IsTrue (has (masks_of context.now.layer) mask) }
    requires room { tally.old + width_count context.now.instance mask ≤ 2 ^ 32 }
    ensures cell { IfOk result (λ c. pair_of c ≡ cell_for context.now.instance mask) }
    ensures counts { OnOk result (tally.new ≡ tally.old + width_count context.now.instance mask) }
{
    let place = context.layer.position(mask).unwrap();
    cell_at(alloc, context, place, tally)
}
