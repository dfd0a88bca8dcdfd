//! The images of a layer's sets: the sets of the renamed problem whose rows have their widths.

ghost use Rattle.std.specs.Prelude.{◌≡◌, ◌^◌, ◌<◌, length, IfOk};
ghost use Rattle.subset_layers.specs.Layers.{masks_of};
ghost use Rattle.layer_core.specs.Instances.{InstanceOf};
ghost use Rattle.layer_core.specs.Needs.{AreNeedsOf, AreOfSets};
ghost use Rattle.layer_work.specs.LayerContexts.{IsImageFor};

use compaction::Preparation;
use layer_core::SetNeeds;
use order_model::Mask;
use std::alloc::{AllocError, Global};
use subset_layers::Layer;
use symmetries::Image;

/// The image of the set `mask`; None if the set's cell takes no widths.
fn image_for(prepared: &Preparation<'_>, mask: Mask, needs: &SetNeeds) -> Option<Image>
    requires { mask < 2 ^ prepared.now.problem.inputs }
    ensures { (t : InstanceOf) → AreNeedsOf t mask needs.now →
        IsImageFor t prepared.now mask result }
{
    if needs.members == 0 {
        None
    } else {
        Some(prepared.image_of(mask))
    }
}

/// The images of the sets of `layer`, by rising mask; None for sets whose cells take no widths.
/// `needs` has for each set what its cell needs.
pub fn images_of_layer(
    alloc: Global,
    prepared: &Preparation<'_>,
    layer: &Layer,
    needs: &[SetNeeds],
) -> Result<Vec<Option<Image>>, AllocError>
    requires inputs { layer.now.inputs ≡ prepared.now.problem.inputs }
    requires each { length needs.now ≡ length (masks_of layer.now) }
    ensures { (t : InstanceOf) → AreOfSets (AreNeedsOf t) (masks_of layer.now) needs.now →
        IfOk result (λ v. AreOfSets (IsImageFor t prepared.now) (masks_of layer.now) v.items) }
{
    let mut images = Vec::with_capacity(alloc, layer.len())?;
    for place in 0..layer.len() {
        images.push(image_for(prepared, layer.mask_at(place), &needs[place]))?;
    }
    Ok(images)
}
