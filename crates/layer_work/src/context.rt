//! What the workers of a layer read.

ghost use Rattle.std.specs.Prelude.{◌≡◌};

use compaction::Preparation;
use layer_core::{Instance, SetNeeds};
use std::marker::Model;
use subset_layers::Layer;
use symmetries::Image;

/// What the workers of a layer read.
#[derive(Drop)]
pub struct LayerContext<'a> {
    pub(crate) instance: &'a Instance<'a>,
    pub(crate) layer: &'a Layer,
    /// For each set of the layer what its cell needs.
    pub(crate) needs: &'a [SetNeeds],
    /// The images of the sets whose cells take widths.
    pub(crate) images: &'a [Option<Image>],
    /// Gives widths.
    pub(crate) prepared: &'a Preparation<'a>,
}

impl<'a> Model for LayerContext<'a> {
    ghost use Rattle.layer_work.specs.LayerContexts.{ContextOf, context_with, HoldsContext};

    ghost Value = { ContextOf };

    ghost view = { λ c. context_with c.instance.now c.layer.now };

    ghost invariant = { λ c. HoldsContext
        (context_with c.instance.now c.layer.now) c.needs.now c.images.now c.prepared.now };
}

impl<'a> LayerContext<'a> {
    ghost use Rattle.subset_layers.specs.Layers.{masks_of};
    ghost use Rattle.layer_core.specs.Needs.{AreNeedsOf, AreOfSets};
    ghost use Rattle.layer_work.specs.LayerContexts.{context_with, IsContext, IsImageFor};

    /// What the workers of `layer` read. `needs` has for each set of the layer what its cell needs,
    /// `images` the images of the sets whose cells take widths, and `prepared` gives widths.
    pub fn new(
        instance: &'a Instance<'a>,
        layer: &'a Layer,
        needs: &'a [SetNeeds],
        images: &'a [Option<Image>],
        prepared: &'a Preparation<'a>,
    ) -> LayerContext<'a>
        requires context { IsContext (context_with instance.now layer.now) }
        requires prepared { prepared.now.problem ≡ instance.now.problem }
        requires needs { AreOfSets (AreNeedsOf instance.now) (masks_of layer.now) needs.now }
        requires images { AreOfSets (IsImageFor instance.now prepared.now) (masks_of layer.now)
            images.now }
        ensures { result ≡ context_with instance.now layer.now }
    {
        LayerContext {
            instance,
            layer,
            needs,
            images,
            prepared,
        }
    }

    /// The problem instance.
    pub fn instance(&self) -> &'a Instance<'a>
        ensures value { result.now ≡ self.now.instance }
        ensures context { IsContext self.now }
    {
        self.instance
    }

    /// The layer.
    pub fn layer(&self) -> &'a Layer
        ensures { result.now ≡ self.now.layer }
    {
        self.layer
    }
}
