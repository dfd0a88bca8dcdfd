//! Numbers of pairs by first occurrence, with a cell of 16 bits for each possible pair of classes:
//! an entry of an array, not the cell of a set.

ghost use Rattle.std.specs.Prelude.{◌≡◌, ℕ, ◌+◌, ◌*◌, ◌/◌, ◌^◌, ◌<◌, ◌≤◌, length, slice_index, take, IfOk, IfSome, IsTrue};
ghost use Rattle.pair_numbering.specs.Cells.{AreCelled};
ghost use Rattle.pair_numbering.specs.MaskedNumbers.{NumbersMasked};

use crate::entries::BlockHalves;
use crate::masks::MaskedPairs;
use crate::numbers::MaskedNumbers;
use definitions::Mask;
use std::alloc::AllocError;
use subfunction_classes::join_mask;

/// A cell is 0 or one more than a number.
const MOST_NUMBERS: usize = 65_535;

/// If more than one in this many pairs was new so far, a branch on whether a pair is new would
/// often be mispredicted.
const MANY_NEW: usize = 4;

/// Numbers the pairs of block `block` after those of the blocks before it, which have `from`
/// numbers, and returns how many there are then. If pair j, counted over all blocks, gets a new
/// number k, `joined[k]` is its mask. `cells[c * n + d]`, for n classes, is 0 or one more than the
/// number of pair (c, d). `EVENLY` affects speed only.
#[inline(always)]
fn number_block<const EVENLY: bool>(
    pairs: &MaskedPairs<'_>,
    block: usize,
    cells: &mut [u16],
    out: &mut [u32],
    joined: &mut [Mask],
    from: u32,
) -> u32
    requires block { block <
        length pairs.now.entries.numbers / 2 / 2 ^ pairs.now.entries.rank }
    requires before { AreCelled pairs.now block cells.old out.old joined.old from }
    requires room { from + 2 ^ pairs.now.entries.rank < 2 ^ 16 }
    ensures { AreCelled pairs.now (block + 1) cells.new out.new joined.new result }
{
    let masks = pairs.masks;
    let x = pairs.x;
    let classes = masks.len();
    let step = 1usize << pairs.entries.rank();
    let BlockHalves { low, high } = pairs.entries.block(block);
    let mut count = from;
    for i in 0..low.len() {
        let pair = (low[i], high[i]);
        let cell = pair.0 as usize * classes + pair.1 as usize;
        let next = u32::from(cells[cell]);
        if EVENLY || next == 0 {
            let number = if next == 0 { count } else { next - 1 };
            cells[cell] = (number + 1) as u16;
            joined[count as usize] = join_mask(masks, x, pair);
            out[block * step + i] = number;
            if next == 0 {
                count += 1;
            }
        } else {
            out[block * step + i] = next - 1;
        }
    }
    count
}

// The loops of `number_blocks` need all registers, so it isn't inlined.
/// Numbers the pairs by first occurrence: `out[j]` of pair j, with the mask `joined[k]` for number
/// k. None if the numbers could exceed `MOST_NUMBERS`: `out` and `joined` are then unfinished.
/// `cells` is not cleared after.
#[inline(never)]
fn number_blocks(
    pairs: &MaskedPairs<'_>,
    cells: &mut [u16],
    out: &mut [u32],
    joined: &mut [Mask],
) -> Option<u32>
    requires cells { length cells.old ≡ length pairs.now.masks.now * length pairs.now.masks.now }
    requires empty { (k : ℕ) → k < length cells.old → slice_index cells.old k ≡ 0 }
    requires out { length out.old ≡ length pairs.now.entries.numbers / 2 }
    requires joined { length joined.old ≡ length pairs.now.entries.numbers / 2 }
    ensures { IfSome result (λ count. NumbersMasked pairs.now out.new (take count joined.new)) }
{
    let rank = pairs.entries.rank();
    let step = 1usize << rank;
    let mut count = 0u32;
    for block in 0..pairs.entries.len() >> rank {
        if count as usize + step > MOST_NUMBERS {
            return None;
        }
        count = if MANY_NEW * count as usize > block * step {
            number_block::<true>(pairs, block, cells, out, joined, count)
        } else {
            number_block::<false>(pairs, block, cells, out, joined, count)
        };
    }
    Some(count)
}

/// Overwrites `to` with the number of each pair and the mask of each number. `cells` becomes
/// working memory of n * n entries for n classes. False if there may be more than `MOST_NUMBERS`
/// numbers: then, and if memory is refused, `to` has no meaning.
pub(crate) fn number_pairs_by_cells(
    pairs: &MaskedPairs<'_>,
    cells: &mut Vec<u16>,
    to: &mut MaskedNumbers,
) -> Result<bool, AllocError>
    ensures { IfOk result (λ done. IsTrue done →
        NumbersMasked pairs.now to.new.numbers.items to.new.masks.items) }
{
    let half = pairs.entries.len();
    let classes = pairs.masks.len();
    cells.clear();
    cells.resize(classes * classes, 0)?;
    to.masks.resize(half, 0)?;
    to.numbers.resize(half, 0)?;
    match number_blocks(pairs, cells, &mut to.numbers, &mut to.masks) {
        Some(count) => {
            to.masks.truncate(count as usize);
            Ok(true)
        }
        None => Ok(false),
    }
}
