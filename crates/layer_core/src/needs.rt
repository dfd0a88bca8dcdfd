//! What the cell of a set needs: the costs of the sets without one member, and widths.

ghost use Rattle.std.specs.Prelude.{◌≡◌, ◌+◌, ◌^◌, ◌<◌, ◌≤◌, ℕ, slice_index, IfOk};
ghost use Rattle.definitions.specs.Orders.{mask_of};
ghost use Rattle.definitions.specs.Cells.{asked, candidates};
ghost use Rattle.subset_layers.specs.Layers.{layer_with, masks_of};
ghost use Rattle.layer_core.specs.LayerCosts.{AreCostsFor};
ghost use Rattle.layer_core.specs.Needs.{AreNeedsOf, AreOfSets, IsInNextLayer};

use crate::instance::Instance;
use order_model::{LowerBound, Mask, next_member};
use std::alloc::{AllocError, Global};
use subset_layers::{Costs, Layer};

/// What the cell of a set needs.
#[derive(Clone, Copy, Debug, PartialEq, Eq)]
pub struct SetNeeds {
    /// The members whose widths the cell takes. If there is none the set is pruned.
    pub members: Mask,
    /// If the set is lawful, at each member x the cost of the set without x.
    pub below: [u32; 16],
}

/// The members of the lawful set `mask` whose widths its cell takes. `known` has the members x for
/// which the set without x costs at most the search's bound.
pub fn asked_members(lower_bound: LowerBound, mask: Mask, known: Mask) -> Mask
    ensures { (n bound : ℕ) (costs : ℕ → ℕ) →
        known ≡ mask_of (candidates n bound mask costs) → mask < 2 ^ n →
        result ≡ mask_of (asked n lower_bound bound mask costs) }
{
    match lower_bound {
        LowerBound::Variables => known,
        LowerBound::Widths => { if known == 0 { 0 } else { mask } }
    }
}

/// The members x of the set `mask`, as a mask, for which `below[x]` is at most `bound`.
fn affordable_members(mask: Mask, inputs: u8, below: &[u32; 16], bound: u32) -> Mask
    requires few { inputs ≤ 16 }
    requires within { mask < 2 ^ inputs }
    ensures { result ≡ mask_of (candidates inputs bound mask (slice_index below.now)) }
{
    let mut found: Mask = 0;
    let mut from = 0;
    while let Some(x) = next_member(mask, from) {
        if below[x as usize] <= bound {
            found |= 1 << x;
        }
        from = x + 1;
    }
    found
}

/// What the cell of the set `mask` needs. `before` has the costs of the sets with one variable
/// fewer.
fn needs_of_set(instance: &Instance<'_>, before: &Costs, mask: Mask) -> SetNeeds
    requires next { IsInNextLayer before.now mask }
    requires inputs { before.now.inputs ≡ instance.now.problem.inputs }
    requires costs { AreCostsFor instance.now before.now }
    ensures { AreNeedsOf instance.now mask result }
{
    if instance.lawful(mask) {
        let below = before.below(mask);
        let limit = instance.limit();
        let known = affordable_members(mask, instance.inputs(), &below, limit.bound);
        let members = asked_members(limit.lower_bound, mask, known);
        SetNeeds { members, below }
    } else {
        let below = [0; 16];
        SetNeeds { members: 0, below }
    }
}

/// For each set of `layer`, by rising mask, what its cell needs. `before` has the costs of the sets
/// with one variable fewer.
pub fn needs_of_layer(
    alloc: Global,
    instance: &Instance<'_>,
    before: &Costs,
    layer: &Layer,
) -> Result<Vec<SetNeeds>, AllocError>
    requires next { layer.now ≡ layer_with before.now.inputs (before.now.size + 1) }
    requires inputs { before.now.inputs ≡ instance.now.problem.inputs }
    requires costs { AreCostsFor instance.now before.now }
    ensures { IfOk result (λ v. AreOfSets (AreNeedsOf instance.now) (masks_of layer.now) v.items) }
{
    let mut needs = Vec::with_capacity(alloc, layer.len())?;
    for place in 0..layer.len() {
        needs.push(needs_of_set(instance, before, layer.mask_at(place)))?;
    }
    Ok(needs)
}
