//! What the cells of the next layer need.

ghost use Rattle.std.specs.Prelude.{◌≡◌, IfOk, length};
ghost use Rattle.subset_layers.specs.Layers.{layer_with, masks_of};
ghost use Rattle.layer_core.specs.LayerCosts.{AreDone};
ghost use Rattle.layer_core.specs.Needs.{AreNeedsOf, AreOfSets};
ghost use Rattle.layer_work.specs.LayerContexts.{IsImageFor};

use compaction::Preparation;
use layer_core::{Instance, SetNeeds, needs_of_layer};
use layer_work::images_of_layer;
use std::alloc::{AllocError, Global};
use subset_layers::{Costs, Layer};
use symmetries::Image;

/// A layer, and for each of its sets, by rising mask, what its cell needs.
#[derive(Drop)]
pub(crate) struct LayerNeeds {
    pub(crate) layer: Layer,
    pub(crate) sets: Vec<SetNeeds>,
    /// The images of the sets whose cells take widths.
    pub(crate) images: Vec<Option<Image>>,
}

impl LayerNeeds {
    /// The layer that comes after those in `done`, and its needs. `done[k]` has the costs of the
    /// sets of k variables, from k = 0 on; the layer of all variables must not be there yet.
    pub(crate) fn after(
        alloc: Global,
        instance: &Instance<'_>,
        prepared: &Preparation<'_>,
        done: &[Costs],
    ) -> Result<LayerNeeds, AllocError>
        requires done { AreDone instance.now done.now }
        requires prepared { prepared.now.problem ≡ instance.now.problem }
        ensures layer { IfOk result
            (λ n. n.layer ≡ layer_with instance.now.problem.inputs (length done.now)) }
        ensures sets { IfOk result
            (λ n. AreOfSets (AreNeedsOf instance.now) (masks_of n.layer) n.sets.items) }
        ensures images { IfOk result (λ n.
            AreOfSets (IsImageFor instance.now prepared.now) (masks_of n.layer) n.images.items) }
    {
        let layer = Layer::of(alloc, instance.inputs(), done.len() as u8)?;
        let sets = needs_of_layer(alloc, instance, &done[done.len() - 1], &layer)?;
        let images = images_of_layer(alloc, prepared, &layer, &sets)?;
        Ok(LayerNeeds {
            layer,
            sets,
            images,
        })
    }
}
