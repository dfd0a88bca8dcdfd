ghost use Rattle.std.specs.Prelude.{◌≡◌, ◌<◌, ◌^◌, ◌≤◌, ℕ, length, slice_index, IfOk, IsTrue, OnOk};
ghost use Rattle.subfunction_classes.specs.PairTables.{AreOwn, IsPairTable};
ghost use Rattle.pair_numbering.specs.Numbers.{ArePairsNumbered};
ghost use Rattle.pair_numbering.specs.MaskedNumbers.{NumbersMasked};

use crate::entries::EntryPairs;
use crate::masks::MaskedPairs;
use crate::memory::PairMemory;
use definitions::Mask;
use std::alloc::{AllocError, Global};
use subfunction_classes::join_mask;

/// The number of each pair, and the mask of each number. For the pairs of a set's class table these
/// are the class table of the set with one more variable.
#[derive(Drop)]
pub struct MaskedNumbers {
    pub numbers: Vec<u32>,
    pub masks: Vec<Mask>,
}

impl MaskedNumbers {
    /// Empty lists, with room for the numbers and the masks of `pairs` pairs.
    pub fn with_room(alloc: Global, pairs: usize) -> Result<MaskedNumbers, AllocError> {
        Ok(MaskedNumbers {
            numbers: Vec::with_capacity(alloc, pairs)?,
            masks: Vec::with_capacity(alloc, pairs)?,
        })
    }
}

/// The number of each pair, and the pair of each number.
#[derive(Drop)]
pub struct NumberedPairs {
    pub numbers: Vec<u32>,
    pub pairs: Vec<(u32, u32)>,
}

/// Numbers the pairs by first occurrence, with their masks. `memory` is working memory.
pub fn number_with_masks(
    memory: &mut PairMemory,
    pairs: &MaskedPairs<'_>,
) -> Result<MaskedNumbers, AllocError>
    ensures { IfOk result (λ v. NumbersMasked pairs.now v.numbers.items v.masks.items) }
{
    let mut to = MaskedNumbers::with_room(memory.alloc, 0)?;
    memory.write_numbers(pairs, &mut to)?;
    Ok(to)
}

/// Overwrites `to` with the numbers 0, 1, 2 and so on and the masks of the pairs of a table whose
/// entries are 0, 1, 2 and so on: no two of these pairs are equal, and no entry is read. If memory
/// is refused, `to` has no meaning.
pub(crate) fn number_distinct_pairs(
    pairs: &MaskedPairs<'_>,
    to: &mut MaskedNumbers,
) -> Result<(), AllocError>
    requires { AreOwn pairs.now.entries.numbers }
    ensures { OnOk result (NumbersMasked pairs.now to.new.numbers.items to.new.masks.items) }
{
    let masks = pairs.masks;
    let x = pairs.x;
    let step = 1usize << pairs.entries.rank();
    let half = pairs.entries.len();
    to.numbers.resize(half, 0)?;
    to.masks.resize(half, 0)?;
    for j in 0..half {
        let low = 2 * j - (j & (step - 1));
        let pair = (low as u32, (low + step) as u32);
        to.numbers[j] = j as u32;
        to.masks[j] = join_mask(masks, x, pair);
    }
    Ok(())
}

/// Whether the numbers are 0, 1, 2 and so on. A class table of such numbers has no equal entries.
pub fn are_in_order(numbers: &[u32]) -> bool
    ensures up { IsTrue result → AreOwn numbers.now }
    ensures all { AreOwn numbers.now → IsTrue result }
{
    for (i, number) in numbers.iter().enumerate() {
        if *number as usize != i {
            return false;
        }
    }
    true
}
