//! Numbers of pairs of class numbers by first occurrence, and their masks.

ghost use Rattle.std.specs.Prelude.{◌≡◌, ◌*◌, ◌^◌, ◌<◌, ◌≤◌, length, IfOk};
ghost use Rattle.pair_numbering.specs.MaskedNumbers.{NumbersMasked};

use pair_numbering::{MaskedNumbers, MaskedPairs, NumberedPairs, index_entries, join_masks};
use std::alloc::{AllocError, Global};

/// The number of each pair of classes, and the mask of each number, found by an `IndexSet`.
pub(crate) fn number_pairs_by_index(
    alloc: Global,
    pairs: &MaskedPairs<'_>,
) -> Result<MaskedNumbers, AllocError>
    ensures { IfOk result (λ v. NumbersMasked pairs.now v.numbers.items v.masks.items) }
{
    prove!(pairs.entries.rank() < 16);
    let indexed = index_entries(alloc, &pairs.entries)?;
    let NumberedPairs {
        numbers,
        pairs: distinct,
    } = indexed;
    let mut masks = Vec::new(alloc);
    join_masks(&distinct, pairs.x, pairs.masks, &mut masks)?;
    Ok(MaskedNumbers { numbers, masks })
}
