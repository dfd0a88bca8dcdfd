//! Guesses of exchanges of variables under which no function changes, from marks. A mark is a hash,
//! of one variable or of two, that any such exchange keeps (see `marks.rt`). A guess may be wrong:
//! each exchange is tested on all points.

ghost use Rattle.std.specs.Prelude.{◌≡◌, ◌<◌, ◌≤◌, ℕ, IfSome, length, slice_index};

use crate::marks::Marks;
use order_model::{Mask, VarIx, contains};

/// An exchange of variables in the making: the partners that were found so far.
#[derive(Clone, Copy)]
struct Matching {
    inputs: u8,
    /// The variables that have a partner, as a mask.
    placed: Mask,
    /// `of[x]` is the partner of x if x is in `placed`; else it has no meaning.
    of: [VarIx; 16],
    ghost few: { inputs ≤ 16 },
    ghost variables: { (x : ℕ) → x < 16 → slice_index of x < 16 },
}

impl Matching {
    fn none(inputs: u8) -> Matching
        requires { inputs ≤ 16 }
    {
        Matching {
            inputs,
            placed: 0,
            of: [0; 16],
        }
    }

    /// Makes x and y, which have no partner yet, each other's partner.
    fn place(&mut self, x: VarIx, y: VarIx)
        requires first { x < 16 }
        requires second { y < 16 }
    {
        self.of[x as usize] = y;
        self.of[y as usize] = x;
        self.placed |= 1 << x | 1 << y;
    }

    /// Whether x and y may be partners: they have equal marks, and for each z that has a partner,
    /// the pair (x, z) has the same mark as the pair (y, partner of z).
    fn keep_marks(&self, marks: &Marks, x: VarIx, y: VarIx) -> bool
        requires first { x < 16 }
        requires second { y < 16 }
    {
        if marks.of_pair(x, x) != marks.of_pair(y, y) {
            return false;
        }
        for z in 0..self.inputs {
            let partner = self.of[z as usize];
            if contains(self.placed, z) && marks.of_pair(x, z) != marks.of_pair(y, partner) {
                return false;
            }
        }
        true
    }

    /// The possible partners of x by `keep_marks`, maybe x itself, as a mask.
    fn candidates(&self, marks: &Marks, x: VarIx) -> Mask
        requires { x < 16 }
    {
        let mut found = 0;
        for y in 0..self.inputs {
            if !contains(self.placed, y) && self.keep_marks(marks, x, y) {
                found |= 1 << y;
            }
        }
        found
    }

    /// The variable without a partner that has the fewest possible partners, the lowest of several,
    /// and these partners. None if each variable has a partner.
    fn next(&self, marks: &Marks) -> Option<(VarIx, Mask)>
        ensures { IfSome result (λ r. r.0 < 16) }
    {
        let mut next = None;
        let mut fewest = 17;
        for x in 0..self.inputs {
            if !contains(self.placed, x) {
                let candidates = self.candidates(marks, x);
                if candidates.count_ones() < fewest {
                    fewest = candidates.count_ones();
                    next = Some((x, candidates));
                }
            }
        }
        next
    }
}

/// The partner for x among `candidates`: x itself if it is there, else the smallest.
fn chosen(x: VarIx, candidates: Mask) -> Option<VarIx>
    requires { x < 16 }
    ensures { IfSome result (λ y. y < 16) }
{
    if contains(candidates, x) {
        return Some(x);
    }
    if candidates == 0 {
        return None;
    }
    Some(candidates.trailing_zeros() as VarIx)
}

/// Guesses an exchange with x and y as partners: entry z is the partner of z. None if the marks of
/// x and y differ, or a variable is left without a possible partner.
pub(crate) fn partners_of(marks: &Marks, inputs: u8, x: VarIx, y: VarIx) -> Option<[VarIx; 16]>
    requires few { inputs ≤ 16 }
    requires first { x < 16 }
    requires second { y < 16 }
{
    let mut matching = Matching::none(inputs);
    if !matching.keep_marks(marks, x, y) {
        return None;
    }
    matching.place(x, y);
    for _variable in 0..inputs {
        let Some((z, candidates)) = matching.next(marks) else {
            break;
        };
        matching.place(z, chosen(z, candidates)?);
    }
    Some(matching.of)
}
