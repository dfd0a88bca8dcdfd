//! Computes the cells of all sets, one layer (the sets of one size) after another.

ghost use Rattle.std.specs.Prelude.{◌≡◌, IfOk, length};
ghost use Rattle.std.specs.Fn.{FnReturnsAt};
ghost use Rattle.subset_layers.specs.Layers.{masks_of};
ghost use Rattle.layer_core.specs.LayerCosts.{AreDone, AreLayersFor, IsLayerFor};
ghost use Rattle.layer_core.specs.Needs.{AreNeedsOf, AreOfSets};
ghost use Rattle.layer_work.specs.LayerContexts.{context_with, IsContext, IsImageFor};
ghost use Rattle.order_solve.specs.CellFinders.{FindsCells};
ghost use Rattle.solutions.specs.Bounded.{IsBounded};

use crate::layer_needs::LayerNeeds;
use crate::look_ahead::look_ahead;
use crate::row_finders::RowFinder;
use compaction::Preparation;
use layer_core::Instance;
use layer_work::LayerContext;
use solutions::AllCells;
use std::alloc::{AllocError, Global};
use subset_layers::{Cell, Costs};

/// A list of one layer: that of the empty set, with its cost 0.
fn first_layer(alloc: Global, instance: &Instance<'_>) -> Result<Vec<Costs>, AllocError>
    ensures one { IfOk result (λ v. length v.items ≡ 1) }
    ensures layers { IfOk result (λ v. AreLayersFor instance.now v.items) }
{
    let mut layers = Vec::new(alloc);
    layers.push(Costs::start(alloc, instance.inputs())?)?;
    Ok(layers)
}

/// Finds the rows of widths that the layer after those in `done` needs and `prepared` lacks.
fn find_rows<S: RowFinder>(
    finder: &S,
    alloc: Global,
    instance: &Instance<'_>,
    prepared: &mut Preparation<'_>,
    done: &[Costs],
    needs: &LayerNeeds,
) -> Result<(), AllocError>
    requires ready { S.ready finder.now }
    requires done { AreDone instance.now done.now }
    ensures problem { prepared.new.problem ≡ prepared.old.problem }
    ensures renamed { prepared.new.renamed ≡ prepared.old.renamed }
{
    if let Some(ahead) = look_ahead(alloc, instance, prepared, done, needs)? {
        finder.find_rows(alloc, prepared, &ahead)?;
    }
    Ok(())
}

/// Computes the layer of `needs`. `cells_of` gives the cells of a layer.
fn next_layer<C: Fn(&LayerContext<'_>) -> Result<Vec<Cell>, AllocError>>(
    cells_of: &C,
    instance: &Instance<'_>,
    prepared: &Preparation<'_>,
    needs: LayerNeeds,
) -> Result<Costs, AllocError>
    requires callable { C.IsAlwaysCallable cells_of.now }
    requires cells { FindsCells (FnReturnsAt C.Fn cells_of.now) }
    requires prepared { prepared.now.problem ≡ instance.now.problem }
    requires context { IsContext (context_with instance.now needs.layer) }
    requires sets { AreOfSets (AreNeedsOf instance.now) (masks_of needs.layer) needs.sets.items }
    requires images { AreOfSets (IsImageFor instance.now prepared.now) (masks_of needs.layer)
        needs.images.items }
    ensures { IfOk result (IsLayerFor instance.now needs.layer.size) }
{
    let LayerNeeds {
        layer,
        sets,
        images,
    } = needs;
    let context = LayerContext::new(instance, &layer, &sets, &images, prepared);
    let cells = cells_of(&context)?;
    Ok(Costs::of(layer, cells))
}

/// Computes the cells of all sets, and adds to `prepared` the rows of widths that it lacks, found
/// by `finder`. `cells_of` gives the cells of a layer.
pub(crate) fn all_cells<
    'a,
    S: RowFinder,
    C: Fn(&LayerContext<'_>) -> Result<Vec<Cell>, AllocError>,
>(
    finder: &S,
    cells_of: &C,
    alloc: Global,
    instance: &'a Instance<'a>,
    prepared: &mut Preparation<'_>,
) -> Result<AllCells<'a>, AllocError>
    requires ready { S.ready finder.now }
    requires callable { C.IsAlwaysCallable cells_of.now }
    requires cells { FindsCells (FnReturnsAt C.Fn cells_of.now) }
    requires prepared { prepared.old.problem ≡ instance.now.problem }
    requires bounded { IsBounded instance.now }
    ensures { IfOk result (λ a. a ≡ instance.now) }
{
    let mut layers = first_layer(alloc, instance)?;
    for _size in 0..instance.inputs() {
        let needs = LayerNeeds::after(alloc, instance, &*prepared, &layers)?;
        find_rows(finder, alloc, instance, prepared, &layers, &needs)?;
        let next = next_layer(cells_of, instance, &*prepared, needs)?;
        layers.push(next)?;
    }
    AllCells::of_layers(alloc, instance, &layers)
}
