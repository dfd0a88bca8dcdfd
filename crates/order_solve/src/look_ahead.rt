//! Which rows of widths are computed before the cells of a layer need them. A row has the widths of
//! a set's members.

ghost use Rattle.layer_core.specs.LayerCosts.{AreDone};

use crate::guesses::likely_end;
use crate::layer_needs::LayerNeeds;
use compaction::{Preparation, Requests};
use layer_core::Instance;
use std::alloc::{AllocError, Global};
use subset_layers::Costs;

/// The rows of widths to compute next: `requests` has the sets and those members whose widths are
/// wanted, and `end` is the size up to which sets may have been added.
#[derive(Drop)]
pub(crate) struct LookAhead {
    pub(crate) requests: Requests,
    pub(crate) end: u8,
}

/// Requests for the widths that the cells of a layer take, as widths of the sets' images. Leaves
/// out images with a whole row in `prepared`.
fn requests_of_layer(
    alloc: Global,
    prepared: &Preparation<'_>,
    needs: &LayerNeeds,
) -> Result<Requests, AllocError> {
    let mut requests = prepared.requests(alloc)?;
    for (set, image) in needs.sets.iter().zip(&needs.images) {
        if let Some(image) = image
            && !prepared.is_found(image.set)
        {
            requests.add_image(image, set.members);
        }
    }
    Ok(requests)
}

/// The rows of widths to compute before the cells of the layer that comes after those in `done`;
/// None if `prepared` has them. Adds rows of larger sets with the same low bytes, as far as the
/// search is likely to need them.
pub(crate) fn look_ahead(
    alloc: Global,
    instance: &Instance<'_>,
    prepared: &Preparation<'_>,
    done: &[Costs],
    needs: &LayerNeeds,
) -> Result<Option<LookAhead>, AllocError>
    requires { AreDone instance.now done.now }
{
    let mut requests = requests_of_layer(alloc, prepared, needs)?;
    if requests.is_empty() {
        return Ok(None);
    }
    prove!(instance.inputs() <= 16);
    let size = done.len() as u8;
    let end = if size > prepared.end() {
        likely_end(instance, done).max(size)
    } else {
        prepared.end()
    };
    prepared.add_larger(&mut requests, size + 1, end);
    Ok(Some(LookAhead { requests, end }))
}
