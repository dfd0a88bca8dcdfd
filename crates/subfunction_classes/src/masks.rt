//! The masks of classes: the variables that a class's subfunctions depend on.

ghost use Rattle.std.specs.Prelude.{◌≡◌, ◌^◌, ◌<◌, ◌≤◌, ◌==◌, length};
ghost use Rattle.std.specs.Int.{bit_at};
ghost use Rattle.std.specs.List.{filter};
ghost use Rattle.subfunction_classes.specs.Dependence.{joined_mask};

use definitions::{Mask, VarIx, contains};

/// The mask of a function whose cofactors are class `pair.0` by x = 0 and `pair.1` by x = 1.
#[inline(always)]
pub fn join_mask(masks: &[Mask], x: VarIx, pair: (u32, u32)) -> Mask
    requires variable { x < 16 }
    requires lower { pair.0 < length masks.now }
    requires upper { pair.1 < length masks.now }
    ensures { result ≡ joined_mask masks.now x pair }
{
    let (lower, upper) = pair;
    let halves = masks[lower as usize] | masks[upper as usize];
    if lower == upper {
        halves
    } else {
        halves | 1 << x
    }
}

/// How many of `masks` contain variable x.
pub fn count_with(masks: &[Mask], x: VarIx) -> u32
    requires variable { x < 16 }
    requires few { length masks.now ≤ 2 ^ 20 }
    ensures { result ≡ length (filter (λ m. bit_at m x == 1) masks.now) }
{
    let mut count = 0;
    for mask in masks {
        count += u32::from(contains(*mask, x));
    }
    count
}
