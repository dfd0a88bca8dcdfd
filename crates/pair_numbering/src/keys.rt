//! Numbers of pairs, equal for equal pairs and no others, in any order. The joined number of a
//! pair, low + base * high, costs less than a number by first occurrence.

ghost use Rattle.std.specs.Prelude.{◌≡◌, ◌*◌, ◌^◌, ◌<◌, ◌≤◌, map, length, IfOk, IsTrue};
ghost use Rattle.std.specs.List.{range_with_len};
ghost use Rattle.subfunction_classes.specs.Places as places;
ghost use Rattle.pair_numbering.specs.Keys.{AreUsed, TellsPairs, joined_key, joined_key_mask};
ghost use Rattle.subfunction_classes.specs.PairTables.{AllBelow};

use crate::entries::{BlockHalves, EntryPairs};
use crate::masks::MaskedPairs;
use crate::memory::PairMemory;
use crate::numbers::number_with_masks;
use definitions::{Mask, VarIx};
use std::alloc::{AllocError, Global};
use subfunction_classes::join_mask;

/// The most classes whose pairs get joined numbers.
const MOST_JOINED: usize = 16;

/// Numbers of entries, or of pairs of them: equal for equal ones and no others. `masks[k]` is the
/// mask of number k. Unless `all_used` is true, some masks may be of numbers that don't occur.
#[derive(Drop)]
pub struct PairKeys {
    pub numbers: Vec<u32>,
    pub masks: Vec<Mask>,
    pub all_used: bool,
    ghost used: { IsTrue all_used → AreUsed numbers.items masks.items },
}

fn join_keys(alloc: Global, entries: &EntryPairs<'_>, base: u32) -> Result<Vec<u32>, AllocError>
    requires below { AllBelow entries.now.numbers base }
    requires base { base ≤ 256 }
    ensures { IfOk result (λ v. v.items ≡
        map (joined_key base) (places.pairs entries.now.numbers (2 ^ entries.now.rank))) }
{
    let half = entries.len();
    let rank = entries.rank();
    let step = 1usize << rank;
    let mut joined = vec![in alloc; 0u32; half]?;
    for block in 0..half >> rank {
        let BlockHalves { low, high } = entries.block(block);
        for i in 0..low.len() {
            joined[block * step + i] = low[i] + high[i] * base;
        }
    }
    Ok(joined)
}

/// The mask for each joined number, by rising number. `masks[c]` has the variables on which class c
/// depends.
fn join_key_masks(alloc: Global, masks: &[Mask], x: VarIx) -> Result<Vec<Mask>, AllocError>
    requires variable { x < 16 }
    requires few { length masks.now ≤ 256 }
    ensures { IfOk result
        (λ v. v.items ≡ map (joined_key_mask masks.now x)
        (range_with_len 0 (length masks.now * length masks.now))) }
{
    let base = masks.len();
    let mut joined = Vec::with_capacity(alloc, base * base)?;
    for upper in 0..base {
        for lower in 0..base {
            joined.push(join_mask(masks, x, (lower as u32, upper as u32)))?;
        }
    }
    Ok(joined)
}

/// Numbers the pairs and finds the mask of each number: joined numbers if there are at most
/// `MOST_JOINED` classes and no more pairs of classes than table entries, else by first occurrence.
/// `memory` is working memory.
pub fn label_pairs(memory: &mut PairMemory, pairs: &MaskedPairs<'_>) -> Result<PairKeys, AllocError>
    ensures { IfOk result
        (λ v. TellsPairs pairs.now.masks.now pairs.now.x
        (places.pairs pairs.now.entries.numbers (2 ^ pairs.now.entries.rank)) v.numbers.items
        v.masks.items) }
{
    prove!(pairs.entries.rank() < 16);
    let base = pairs.masks.len();
    if base <= MOST_JOINED && base * base <= 2 * pairs.entries.len() {
        let keys = join_keys(memory.alloc, &pairs.entries, base as u32)?;
        let joined = join_key_masks(memory.alloc, pairs.masks, pairs.x)?;
        return Ok(PairKeys {
            numbers: keys,
            masks: joined,
            all_used: false,
        });
    }
    let numbered = number_with_masks(memory, pairs)?;
    Ok(PairKeys {
        numbers: numbered.numbers,
        masks: numbered.masks,
        all_used: true,
    })
}
