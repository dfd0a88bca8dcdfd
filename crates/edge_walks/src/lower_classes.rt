//! Lower bounds on the widths after adding a variable x to a set. A class of the larger set is a
//! pair of classes of the smaller one: the lower class, where x is 0, and the class where x is 1.
//! There are at least as many pairs as lower classes, so pairs need not be numbered.

ghost use Rattle.std.specs.Prelude.{◌≡◌, ℕ, ◌<◌, ◌≤◌, ◌^◌, length, slice_index, IfOk, IsTrue};
ghost use Rattle.subfunction_classes.specs.PairTables.{IsPairTable};
ghost use Rattle.subfunction_classes.specs.Places as places;
ghost use Rattle.edge_walks.specs.LowerClasses.{AreLowerMasks, pairs_with};

use order_model::{Mask, VarIx};
use pair_numbering::EntryPairs;
use std::alloc::{AllocError, Global};
use subfunction_classes::{count_with, join_mask};

/// For each class, the variables on which some function with this lower class depends; 0 if there
/// is none. `masks[k]` is the mask of class k.
fn lower_masks(
    alloc: Global,
    numbers: &[u32],
    x: VarIx,
    masks: &[Mask],
) -> Result<Vec<Mask>, AllocError>
    requires { IsPairTable numbers.now x (length masks.now) }
    ensures long { IfOk result (λ v. length v.items ≡ length masks.now) }
    ensures labels { IfOk result
        (λ v. AreLowerMasks masks.now x (places.pairs numbers.now (2 ^ x)) v.items) }
{
    let mut labels = vec![in alloc; 0u16; masks.len()]?;
    let pairs = EntryPairs::of_table(numbers, u32::from(x));
    for j in 0..pairs.len() {
        let pair = pairs.pair(j);
        labels[pair.0 as usize] |= join_mask(masks, x, pair);
    }
    Ok(labels)
}

/// Whether a lower bound shows for each variable y that at least `needed[y]` distinct functions
/// depend on y, or 0 behind the end of `needed`. If false, there may be as many nevertheless.
pub(crate) fn are_wide(
    alloc: Global,
    numbers: &[u32],
    masks: &[Mask],
    x: VarIx,
    needed: &[u32],
) -> Result<bool, AllocError>
    requires table { IsPairTable numbers.now x (length masks.now) }
    requires few { length masks.now ≤ 2 ^ 20 }
    requires variables { length needed.now ≤ 16 }
    ensures { IfOk result
        (λ wide. IsTrue wide → (y : ℕ) → slice_index needed.now y ≤ pairs_with masks.now x y
        (places.pairs numbers.now (2 ^ x))) }
{
    let labels = lower_masks(alloc, numbers, x, masks)?;
    for y in 0..needed.len() {
        if needed[y] > 0 && count_with(&labels, y as VarIx) < needed[y] {
            return Ok(false);
        }
    }
    Ok(true)
}
