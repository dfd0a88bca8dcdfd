ghost use Rattle.std.specs.Prelude.{◌≡◌, bit_and};

use crate::variables::Mask;

/// A product term: bit i of `care` is 1 if it has a literal of variable i, and bit i of `value` is
/// then the variable's value in it. Bit j of `outs` is 1 if it belongs to the ON-set of output j.
#[derive(Clone, Copy, Debug, PartialEq, Eq)]
pub struct Term {
    pub care: Mask,
    pub value: Mask,
    pub outs: Mask,
    pub ghost within: { bit_and value care ≡ value },
}
