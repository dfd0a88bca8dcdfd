//! Numbers of pairs by first occurrence, found in hash slots. A pair whose lower class no other
//! pair has is new, and takes no slot.

ghost use Rattle.std.specs.Prelude.{◌≡◌, ℕ, ◌+◌, ◌*◌, ◌/◌, ◌^◌, ◌<◌, ◌≤◌, length, slice_index, take, IfOk, IfSome, IsTrue};
ghost use Rattle.pair_numbering.specs.Slots.{IsSlot, home_of};
ghost use Rattle.subfunction_classes.specs.PairTables.{IsPairTable};
ghost use Rattle.pair_numbering.specs.Numbers.{ArePairsNumbered};

use crate::entries::{BlockHalves, EntryPairs};
use crate::lower_classes::{CountedPairs, count_lowers};
use crate::memory::PairMemory;
use definitions::HASH_MULTIPLIER;
use std::alloc::AllocError;

/// The most slots that are tried for a pair.
const TRIES: usize = 64;

/// Beside the `TRIES` slots at the end.
const SLOTS_PER_PAIR: usize = 4;

/// The slot at which the search for a pair begins.
#[inline(always)]
fn home(homes: usize, pair: (u32, u32)) -> usize
    requires some { 0 < homes }
    requires few { homes ≤ 2 ^ 21 }
    ensures place { result ≡ home_of homes pair }
    ensures within { result < homes }
{
    let key = (u64::from(pair.0) << 20) + u64::from(pair.1);
    let high = key.wrapping_mul(HASH_MULTIPLIER) >> 32;
    ((high * homes as u64) >> 32) as usize
}

/// The first slot, of the `TRIES` from `home` on, that is free or has the number of `pair`.
/// `keys[k]` is the pair with the number k; a slot with `count`, the number of pairs so far, or
/// more is free.
#[inline(always)]
fn find_slot(
    slots: &[u16],
    keys: &[(u32, u32)],
    count: u32,
    pair: (u32, u32),
    home: usize,
) -> Option<usize>
    requires room { home + 64 ≤ length slots.now }
    requires keys { count < length keys.now }
    ensures { IfSome result (λ at. IsSlot slots.now keys.now count pair home at) }
{
    for at in home..home + TRIES {
        let number = u32::from(slots[at]).min(count) as usize;
        if keys[number].0 == pair.0 && keys[number].1 == pair.1 {
            return Some(at);
        }
    }
    None
}

/// Numbers the pairs by first occurrence: the number of pair j in `out[j]`, the pair of number k in
/// `keys[k]`. Returns how many numbers there are. None if all `TRIES` slots tried for a pair are
/// taken by others; then `out` and `keys` have no meaning.
#[inline(always)]
fn number_blocks(
    pairs: &CountedPairs<'_>,
    slots: &mut [u16],
    keys: &mut [(u32, u32)],
    out: &mut [u32],
) -> Option<u32>
    requires few { length pairs.now.entries.now.numbers ≤ 2 ^ 16 }
    requires slots { length slots.old ≡ 4 * (length pairs.now.entries.now.numbers / 2) + 64 }
    requires free { (t : ℕ) → t < length slots.old →
        slice_index slots.old t ≡ length pairs.now.entries.now.numbers / 2 }
    requires keys { length keys.old ≡ length pairs.now.entries.now.numbers / 2 }
    requires out { length out.old ≡ length pairs.now.entries.now.numbers / 2 }
    ensures { IfSome result (λ count. ArePairsNumbered pairs.now.entries.now.numbers
        pairs.now.entries.now.rank out.new (take count keys.new)) }
{
    let homes = slots.len() - TRIES;
    let rank = pairs.entries.rank();
    let step = 1usize << rank;
    let mut count = 0u32;
    for block in 0..pairs.entries.len() >> rank {
        let BlockHalves { low, high } = pairs.entries.block(block);
        for i in 0..low.len() {
            let pair = (low[i], high[i]);
            keys[count as usize] = pair;
            let mut number = count;
            if pairs.counts[pair.0 as usize] != 1 {
                let at = find_slot(slots, keys, count, pair, home(homes, pair))?;
                number = u32::from(slots[at]).min(count);
                slots[at] = number as u16;
            }
            out[block * step + i] = number;
            if number == count {
                count += 1;
            }
        }
    }
    Some(count)
}

const MOST_PAIRS: usize = 1 << 15;

/// Overwrites `numbers` with the number of each pair, and `memory.pairs` with the pair of each
/// number. False if there are more than `MOST_PAIRS` pairs, or if other pairs hold all slots that
/// are tried for one: then, and if memory is refused, the two have no meaning.
pub(crate) fn number_pairs_by_slots(
    entries: &EntryPairs<'_>,
    classes: usize,
    memory: &mut PairMemory,
    numbers: &mut Vec<u32>,
) -> Result<bool, AllocError>
    requires { IsPairTable entries.now.numbers entries.now.rank classes }
    ensures { IfOk result (λ done. IsTrue done →
        ArePairsNumbered entries.now.numbers entries.now.rank numbers.new.items
        memory.new.pairs.items) }
{
    let half = entries.len();
    if half > MOST_PAIRS {
        return Ok(false);
    }
    memory.counts.clear();
    memory.counts.resize(classes, 0)?;
    count_lowers(entries, &mut memory.counts);
    memory.slots.clear();
    memory
        .slots
        .resize(SLOTS_PER_PAIR * half + TRIES, half as u16)?;
    memory.pairs.resize(half, (0, 0))?;
    numbers.resize(half, 0)?;
    let pairs = CountedPairs {
        entries,
        counts: &memory.counts,
    };
    match number_blocks(&pairs, &mut memory.slots, &mut memory.pairs, numbers) {
        Some(count) => {
            memory.pairs.truncate(count as usize);
            Ok(true)
        }
        None => Ok(false),
    }
}
