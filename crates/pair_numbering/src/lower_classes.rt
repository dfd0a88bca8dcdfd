//! How many pairs have each class as their lower class, the class where the variable is 0. A pair
//! whose lower class no other pair has is equal to no other pair.

ghost use Rattle.std.specs.Prelude.{◌≡◌, ℕ, ◌^◌, ◌<◌, length, slice_index};
ghost use Rattle.subfunction_classes.specs.PairTables.{AllBelow, IsPairTable};
ghost use Rattle.subfunction_classes.specs.Places as places;
ghost use Rattle.pair_numbering.specs.LowerClasses.{AreLone};

use crate::entries::EntryPairs;

#[derive(Drop)]
pub(crate) struct CountedPairs<'e> {
    pub(crate) entries: &'e EntryPairs<'e>,
    /// How many pairs have the lower class c: 0, 1, or 2 for more. All are 0 if they weren't
    /// counted.
    pub(crate) counts: &'e [u8],
    ghost classes: { AllBelow entries.now.numbers (length counts.now) },
    ghost lone: { AreLone (places.pairs entries.now.numbers (2 ^ entries.now.rank)) counts.now },
}

/// Counts the pairs by lower class, unless there are no more classes than pairs.
pub(crate) fn count_lowers(entries: &EntryPairs<'_>, counts: &mut [u8])
    requires table { IsPairTable entries.now.numbers entries.now.rank (length counts.old) }
    requires none { (c : ℕ) → c < length counts.old → slice_index counts.old c ≡ 0 }
    ensures long { length counts.new ≡ length counts.old }
    ensures lone { AreLone (places.pairs entries.now.numbers (2 ^ entries.now.rank)) counts.new }
{
    if counts.len() <= entries.len() {
        return;
    }
    let rank = entries.rank();
    for block in 0..entries.len() >> rank {
        let low = entries.block(block).low;
        for i in 0..low.len() {
            let lower = low[i] as usize;
            counts[lower] = if counts[lower] == 0 { 1 } else { 2 };
        }
    }
}
