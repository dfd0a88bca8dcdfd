//! Laws of class numbers, each the contract of a function that does nothing.

ghost use Rattle.std.specs.Prelude.{◌≡◌, ◌==◌, ℕ, ◌<◌, IsTrue, List, length};
ghost use Rattle.std.specs.Int.{bit_at};
ghost use Rattle.std.specs.List.{filter};
ghost use Rattle.definitions.specs.Functions.{Function};
ghost use Rattle.definitions.specs.Orders.{has, without};
ghost use Rattle.definitions.specs.Widths.{width};
ghost use Rattle.subfunction_classes.specs.Dependence.{AreMasks};

/// Law: the width of a member x over the others is the number of classes over the set that depend
/// on x. So one class table gives the widths of all members.
pub fn one_numbering_gives_all_widths()
    ensures { (n : ℕ) (F : List Function) (S masks : List ℕ) (x : ℕ) → x < n → IsTrue (has S x) →
        AreMasks n F S masks →
        width n F (without x S) x ≡ length (filter (λ m. bit_at m x == 1) masks) }
{}
