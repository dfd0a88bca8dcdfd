//! Takes repeated rows out of a class table's entries. A row is 2^y entries that stand one behind
//! the other, from a multiple of 2^y on.

ghost use Rattle.std.specs.Prelude.{◌≡◌, ℕ, ◌+◌, ◌*◌, ◌^◌, ◌<◌, ◌≤◌, ◌++◌, List, [], length, take, drop, IfOk, IfSome, IsTrue, OnOk};
ghost use Rattle.edge_walks.specs.Rows.{AreWholeRows, IsShortened};

use order_model::{HASH_MULTIPLIER, VarIx};
use std::alloc::{AllocError, Global};

/// Row `number` of `numbers`, of rows of `width` entries.
#[inline(always)]
fn row_at(numbers: &[u32], width: usize, number: usize) -> &[u32]
    requires some { 0 < width }
    requires inside { (number + 1) * width ≤ length numbers.now }
    ensures row { result.now ≡ take width (drop (number * width) numbers.now) }
    ensures long { length result.now ≡ width }
{
    &numbers[number * width..(number + 1) * width]
}

/// The bucket of `row`: a hash of the entries in whole groups of four. If `buckets` is no power of
/// two, some stay empty.
fn bucket_of(row: &[u32], buckets: usize) -> usize
    requires some { 0 < buckets }
    ensures within { result < buckets }
{
    let mut even = 0u64;
    let mut odd = 0u64;
    let (fours, _) = row.as_chunks::<4>();
    for four in fours {
        let [a, b, c, d] = *four;
        let first = u64::from(a) | u64::from(b) << 32;
        let second = u64::from(c) | u64::from(d) << 32;
        even = (even ^ first).wrapping_mul(HASH_MULTIPLIER);
        odd = (odd ^ second).wrapping_mul(HASH_MULTIPLIER);
    }
    let key = (even ^ (odd >> 32)).wrapping_mul(HASH_MULTIPLIER);
    (key >> 40) as usize & (buckets - 1)
}

/// Whether `row` is row number `place` of `kept`, counted from 1.
fn is_kept(kept: &[u32], place: usize, row: &[u32]) -> bool
    requires some { 0 < length row.now }
    ensures { IsTrue result → (front : List ℕ) × (between : List ℕ) × (rows : ℕ)
        × (kept.now ≡ front ++ (row.now ++ between)) × (length front ≡ rows * length row.now) }
{
    let width = row.len();
    if place == 0 || kept.len() / width < place {
        return false;
    }
    let start = (place - 1) * width;
    let before = &kept[start..start + width];
    before == row
}

/// Whether two equal rows are found in the first half of `numbers`. Some may be missed, which costs
/// time or memory only.
fn has_repeat(alloc: Global, numbers: &[u32], y: VarIx) -> Result<bool, AllocError>
    requires variable { y ≤ 16 }
    requires few { length numbers.now ≤ 2 ^ 20 }
    requires rows { AreWholeRows (2 ^ y) numbers.now }
{
    let width = 1usize << y;
    let rows = numbers.len() / width / 2;
    let mut places = vec![in alloc; 0u32; (2 * rows).next_power_of_two()]?;
    for number in 0..rows {
        let row = row_at(numbers, width, number);
        let home = bucket_of(row, places.len());
        if is_kept(numbers, places[home] as usize, row) {
            return Ok(true);
        }
        places[home] = number as u32 + 1;
    }
    Ok(false)
}

/// Appends rows of `numbers` to `kept`, without those that equal the last row kept of their bucket
/// b, whose number, counted from 1, is `places[b]`. If memory is refused, only some rows are kept.
fn keep_rows(
    numbers: &[u32],
    y: VarIx,
    places: &mut [u32],
    kept: &mut Vec<u32>,
) -> Result<(), AllocError>
    requires variable { y ≤ 16 }
    requires few { length numbers.now ≤ 2 ^ 20 }
    requires rows { AreWholeRows (2 ^ y) numbers.now }
    requires buckets { 0 < length places.old }
    requires empty { kept.old.items ≡ [] }
    ensures { OnOk result ((steps : ℕ) × IsShortened (2 ^ y) steps numbers.now kept.new.items) }
{
    let width = 1usize << y;
    for number in 0..numbers.len() / width {
        let row = row_at(numbers, width, number);
        let home = bucket_of(row, places.len());
        if !is_kept(kept, places[home] as usize, row) {
            kept.extend_from_slice(row)?;
            places[home] = (kept.len() / width) as u32;
        }
    }
    Ok(())
}

/// The entries of `numbers` without rows that repeat an earlier row; some repeats may stay. None if
/// no repeat is found in the first half.
pub(crate) fn without_repeats(
    alloc: Global,
    numbers: &[u32],
    y: VarIx,
) -> Result<Option<Vec<u32>>, AllocError>
    requires variable { y ≤ 16 }
    requires few { length numbers.now ≤ 2 ^ 20 }
    requires rows { AreWholeRows (2 ^ y) numbers.now }
    ensures { IfOk result
        (λ o. IfSome o (λ v. (steps : ℕ) × IsShortened (2 ^ y) steps numbers.now v.items)) }
{
    if !has_repeat(alloc, numbers, y)? {
        return Ok(None);
    }
    let buckets = (2 * (numbers.len() >> y)).next_power_of_two();
    let mut places = vec![in alloc; 0u32; buckets]?;
    let mut kept = Vec::with_capacity(alloc, numbers.len())?;
    keep_rows(numbers, y, &mut places, &mut kept)?;
    Ok(Some(kept))
}
