//! Class tables of sets of four variables, from the values over three of them. A value is the truth
//! table of a subfunction as a number. The variables of a set have places, from 0 on: the highest
//! variable has place 0, and the lowest one the highest place.

ghost use Rattle.std.specs.Prelude.{◌≡◌, ◌<◌, ◌+◌, ◌*◌, ◌^◌, ◌≤◌, count_ones, get_or, length, map, slice_index, ℕ, OnOk};
ghost use Rattle.definitions.specs.Orders.{members};
ghost use Rattle.subfunction_classes.specs.PairTables.{AllBelow, IsPaired};
ghost use Rattle.small_search.specs.ClassesOfValues.{NumbersValues};
ghost use Rattle.small_search.specs.Values.{mask_at, mask_over, places};

use order_model::{Mask, VarIx};
use pair_numbering::{EntryPairs, MaskedNumbers, PairMemory};
use std::alloc::AllocError;

/// Working memory in which class tables are made.
#[derive(Drop)]
pub(crate) struct ClassMemory {
    /// Memory in which pairs are numbered.
    pub(crate) pairs: PairMemory,
    /// The values over three variables, as 32-bit numbers.
    pub(crate) values: Vec<u32>,
}

/// `PLACES[v]`, for each value v over three variables, has the places of the variables that v
/// depends on, as a mask.
const PLACES: [u8; 256] = [
    0, 7, 7, 6, 7, 5, 7, 7, 7, 7, 5, 7, 6, 7, 7, 4, 7, 3, 7, 7, 7, 7, 7, 7, 7, 7, 7, 7, 7, 7, 7, 7,
    7, 7, 3, 7, 7, 7, 7, 7, 7, 7, 7, 7, 7, 7, 7, 7, 6, 7, 7, 2, 7, 7, 7, 7, 7, 7, 7, 7, 6, 7, 7, 6,
    7, 7, 7, 7, 3, 7, 7, 7, 7, 7, 7, 7, 7, 7, 7, 7, 5, 7, 7, 7, 7, 1, 7, 7, 7, 7, 5, 7, 7, 7, 7, 5,
    7, 7, 7, 7, 7, 7, 3, 7, 7, 7, 7, 7, 7, 7, 7, 7, 7, 7, 7, 7, 7, 7, 7, 3, 7, 7, 7, 7, 7, 7, 7, 7,
    7, 7, 7, 7, 7, 7, 7, 7, 3, 7, 7, 7, 7, 7, 7, 7, 7, 7, 7, 7, 7, 7, 7, 7, 7, 3, 7, 7, 7, 7, 7, 7,
    5, 7, 7, 7, 7, 5, 7, 7, 7, 7, 1, 7, 7, 7, 7, 5, 7, 7, 7, 7, 7, 7, 7, 7, 7, 7, 7, 3, 7, 7, 7, 7,
    6, 7, 7, 6, 7, 7, 7, 7, 7, 7, 7, 7, 2, 7, 7, 6, 7, 7, 7, 7, 7, 7, 7, 7, 7, 7, 7, 7, 7, 3, 7, 7,
    7, 7, 7, 7, 7, 7, 7, 7, 7, 7, 7, 7, 7, 7, 3, 7, 4, 7, 7, 6, 7, 5, 7, 7, 7, 7, 5, 7, 6, 7, 7, 0,
];

/// The places of the variables that a function of three variables depends on, as a mask. The
/// highest variable has place 0.
#[inline(always)]
fn places_of(value: u32) -> u8
    requires { value < 256 }
    ensures places { result ≡ places 3 value }
    ensures few { result < 8 }
{
    PLACES[value as usize]
}

/// The places of the variables that a function of four variables depends on, as a mask. `pair` has
/// the truth tables where the lowest variable is 0, and where it is 1.
#[inline(always)]
fn joined_places(pair: (u32, u32)) -> u8
    requires lower { pair.0 < 256 }
    requires upper { pair.1 < 256 }
    ensures places { result ≡ places 4 (pair.0 + pair.1 * 256) }
    ensures few { result < 16 }
{
    let halves = places_of(pair.0) | places_of(pair.1);
    if pair.0 == pair.1 { halves } else { halves | 8 }
}

/// For each mask q of places, from 0 to 15, the mask of the variables at these places of `set`, a
/// set of four variables. Place 0 has the highest of them.
fn masks_by_places(set: Mask) -> [Mask; 16]
    requires { count_ones set ≡ 4 }
    ensures { (q : ℕ) → q < 16 → slice_index result q ≡ mask_at (members 16 set) q }
{
    let mut masks = [0; 16];
    let mut rest = set;
    for i in 0..4u32 {
        let x = rest.trailing_zeros();
        for q in 0..16u16 {
            masks[q as usize] |= ((q >> (3 - i)) & 1) << x;
        }
        rest -= 1 << x;
    }
    masks
}

/// Entry k of `masks` becomes the mask of those variables of `set` on which the function of pair k
/// depends: the truth tables where the lowest variable is 0, and where it is 1.
fn write_masks(pairs: &[(u32, u32)], set: Mask, masks: &mut Vec<Mask>) -> Result<(), AllocError>
    requires four { count_ones set ≡ 4 }
    requires lower { (k : ℕ) → k < length pairs.now → (get_or pairs.now k (0, 0)).0 < 256 }
    requires upper { (k : ℕ) → k < length pairs.now → (get_or pairs.now k (0, 0)).1 < 256 }
    ensures { OnOk result (masks.new.items
        ≡ map (λ p. mask_at (members 16 set) (places 4 (p.0 + p.1 * 256))) pairs.now) }
{
    let by_places = masks_by_places(set);
    let count = pairs.len();
    masks.resize(count, 0)?;
    for k in 0..count {
        masks[k] = by_places[joined_places(pairs[k]) as usize];
    }
    Ok(())
}

/// Overwrites `wide` with `values`.
fn widen(values: &[u8], wide: &mut Vec<u32>) -> Result<(), AllocError>
    ensures { OnOk result (wide.new.items ≡ values.now) }
{
    wide.resize(values.len(), 0)?;
    for i in 0..values.len() {
        wide[i] = u32::from(values[i]);
    }
    Ok(())
}

/// Overwrites `to` with the class table of `set`, four variables with x as the lowest. `values` has
/// the truth tables, below 256, of all subfunctions over the set without x.
pub(crate) fn number_values(
    values: &[u8],
    x: VarIx,
    set: Mask,
    memory: &mut ClassMemory,
    to: &mut MaskedNumbers,
) -> Result<(), AllocError>
    requires paired { IsPaired values.now x }
    requires few { length values.now ≤ 2 ^ 20 }
    requires below { AllBelow values.now 256 }
    requires four { count_ones set ≡ 4 }
    ensures { OnOk result
        (NumbersValues (members 16 set) values.now x to.new.numbers.items to.new.masks.items) }
{
    widen(values, &mut memory.values)?;
    let entries = EntryPairs::of_table(&memory.values, u32::from(x));
    memory.pairs.number(&entries, 256, &mut to.numbers)?;
    write_masks(&memory.pairs.pairs, set, &mut to.masks)?;
    Ok(())
}
