ghost use Rattle.std.specs.Prelude.{◌≡◌, ◌^◌, ◌<◌, ◌≤◌, map, length, OnOk};
ghost use Rattle.subfunction_classes.specs.Dependence.{joined_mask};
ghost use Rattle.subfunction_classes.specs.PairTables.{AllBelow};
ghost use Rattle.pair_numbering.specs.Numbers.{ArePairsBelow};

use crate::entries::EntryPairs;
use definitions::{Mask, VarIx};
use std::alloc::AllocError;
use subfunction_classes::join_mask;

/// The pairs of a class table's entries that differ in variable `x`, with the mask of each class.
#[derive(Drop)]
pub struct MaskedPairs<'e> {
    pub entries: EntryPairs<'e>,
    pub masks: &'e [Mask],
    pub x: VarIx,
    ghost few_entries: { length entries.numbers ≤ 2 ^ 20 },
    ghost below: { AllBelow entries.numbers (length masks.now) },
    ghost few: { length masks.now ≤ 2 ^ 20 },
    ghost variable: { x < 16 },
}

/// Overwrites `joined` with the mask of each pair's function, where `masks` has those of the
/// classes. If memory is refused, `joined` has no meaning.
pub fn join_masks(
    pairs: &[(u32, u32)],
    x: VarIx,
    masks: &[Mask],
    joined: &mut Vec<Mask>,
) -> Result<(), AllocError>
    requires variable { x < 16 }
    requires classes { ArePairsBelow pairs.now (length masks.now) }
    ensures { OnOk result (joined.new.items ≡ map (joined_mask masks.now x) pairs.now) }
{
    joined.resize(pairs.len(), 0)?;
    for k in 0..pairs.len() {
        joined[k] = join_mask(masks, x, pairs[k]);
    }
    Ok(())
}
