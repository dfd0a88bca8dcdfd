ghost use Rattle.std.specs.Prelude.{◌≡◌, ◌<◌, ◌≤◌, ℕ, ◌↔◌, IsTrue, IsNone, IsSome, IfSome};
ghost use Rattle.std.specs.Int.{bit_at};

use std::marker::Model;

/// The number of a variable in the file's order: 0 to 15.
pub type VarIx = u8;

/// A set of variables: bit x stands for variable x.
pub type Mask = u16;

/// The widths of a set's members: entry x is the width of member x over the set without x. All
/// other entries may have any value.
pub type WidthRow = [u32; 16];

/// Whether variable x, from 0 to 15, is in `set`.
#[inline(always)]
pub fn contains(set: Mask, x: VarIx) -> bool
    requires { x < 16 }
    ensures { IsTrue result ↔ (bit_at set x ≡ 1) }
{
    (set >> x) & 1 == 1
}

/// The smallest member of `set` that is at least `from`. None if there is none.
#[inline(always)]
pub fn next_member(set: Mask, from: VarIx) -> Option<VarIx>
    requires { from ≤ 16 }
    ensures member { IfSome result (λ x. (from ≤ x) × (x < 16) × (bit_at set x ≡ 1)) }
    ensures first { IfSome result (λ x. (y : ℕ) → from ≤ y → y < x → bit_at set y ≡ 0) }
    ensures none { IsNone result → (y : ℕ) → from ≤ y → bit_at set y ≡ 0 }
{
    let rest = u32::from(set) >> from;
    if rest == 0 {
        None
    } else {
        Some(from + rest.trailing_zeros() as u8)
    }
}

/// A number of workers: 1 to 64.
#[derive(Clone, Copy, Debug, PartialEq, Eq)]
pub struct Workers {
    count: u8,
}

impl Model for Workers {
    ghost Value = { ℕ };

    ghost view = { λ w. w.count };

    ghost invariant = { λ w. (1 ≤ w.count) × (w.count ≤ 64) };

    ghost inverse = { λ n. record { count = n } };
}

impl Workers {
    /// `count` as a number of workers. None if it is not from 1 to 64.
    pub fn new(count: u8) -> Option<Workers>
        ensures some { IsSome result ↔ ((1 ≤ count) × (count ≤ 64)) }
        ensures value { IfSome result (λ w. w ≡ count) }
    {
        if 1 <= count && count <= 64 {
            Some(Workers { count })
        } else {
            None
        }
    }

    /// The number of workers, 1 to 64.
    pub fn count(self) -> u8
        ensures value { result ≡ self }
        ensures some { 1 ≤ result }
        ensures most { result ≤ 64 }
    {
        self.count
    }
}
