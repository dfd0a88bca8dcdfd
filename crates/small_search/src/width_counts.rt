//! The width of each member of a set over the set without it, from the distinct subfunctions over
//! the set.

ghost use Rattle.std.specs.Prelude.{◌≡◌, ◌^◌, ◌<◌, ◌≤◌};
ghost use Rattle.definitions.specs.Orders.{without};
ghost use Rattle.definitions.specs.Problems.{functions};
ghost use Rattle.definitions.specs.Widths.{width};
ghost use Rattle.subfunction_classes.specs.Table.{ClassesOf, set_of};
ghost use Rattle.small_search.specs.Counting.{dependents_in};
ghost use Rattle.small_search.specs.Occurrences.{AreOf, CanBeCounted, IsAtPlace};

use order_model::{Mask, VarIx};
use subfunction_classes::count_with;

/// The distinct subfunctions over a set.
#[derive(Drop)]
pub(crate) enum Subfunctions<'a> {
    /// Over up to three variables: which values occur. Bit v % 64 of word v / 64 is 1 if v does.
    Values([u64; 4]),
    /// Over more variables: for each class the mask of the variables that it depends on.
    Classes(&'a [Mask]),
}

/// At index p the values over three variables that depend on the variable at place p. A value over
/// fewer variables depends on the same ones if it is read as one over three.
const DEPENDENT: [[u64; 4]; 3] = [
    [
        0x6ff6ffffffff6ff6,
        0xffffffffffffffff,
        0xffffffffffffffff,
        0x6ff6ffffffff6ff6,
    ],
    [
        0xffffffffffff7bde,
        0xffffffff7bdeffff,
        0xffff7bdeffffffff,
        0x7bdeffffffffffff,
    ],
    [
        0xfff7fffbfffdfffe,
        0xff7fffbfffdfffef,
        0xf7fffbfffdfffeff,
        0x7fffbfffdfffefff,
    ],
];

/// How many of the truth tables in `occurring` depend on the variable at `place`.
#[inline(always)]
pub(crate) fn count_dependent(occurring: &[u64; 4], place: u32) -> u32
    requires { place < 3 }
    ensures dependents { result ≡ dependents_in occurring.now place }
    ensures few { result ≤ 256 }
{
    let dependent = &DEPENDENT[place as usize];
    let mut count = 0;
    for i in 0..4 {
        count += (occurring[i] & dependent[i]).count_ones();
    }
    count
}

impl<'a> Subfunctions<'a> {
    /// How many of the subfunctions depend on x: the width of x over their set without x. `place`
    /// is the number of greater members.
    #[inline(always)]
    pub(crate) fn width(&self, x: VarIx, place: u32) -> u32
        requires variable { x < 16 }
        requires counted { CanBeCounted self.now place }
        ensures width { (t : ClassesOf) → AreOf t self.now → IsAtPlace t x place →
            result ≡ width t.problem.inputs (functions t.problem) (without x (set_of t)) x }
        ensures few { result ≤ 2 ^ 20 }
    {
        match self {
            Subfunctions::Values(occurring) => count_dependent(occurring, place),
            Subfunctions::Classes(masks) => count_with(masks, x),
        }
    }
}
