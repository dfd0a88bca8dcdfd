//! The laws of exchanges and of pairs of symmetric variables: contracts of functions that do
//! nothing.

ghost use Rattle.std.specs.Prelude.{◌≡◌, ℕ, ◌<◌, ◌≤◌, List, slice_index};
ghost use Rattle.definitions.specs.Functions.{Function};
ghost use Rattle.definitions.specs.Diagrams.{IsFirst, IsFirstKeeping};
ghost use Rattle.definitions.specs.Orders.{has};
ghost use Rattle.definitions.specs.Pairs.{Pair};
ghost use Rattle.definitions.specs.Widths.{width};
ghost use Rattle.symmetries.specs.Exchanges.{AreSymmetric, IsExchange};
ghost use Rattle.symmetries.specs.SymmetricPairs.{AreSymmetricPairs};

/// Law: under an exchange that changes no function, the width of x's partner over the image T of a
/// set S is at most the width of x over S. Because an exchange is its own inverse, the two are
/// equal.
pub fn exchanges_keep_widths()
    ensures { (n : ℕ) (F : List Function) (partners : List ℕ) → IsExchange n partners →
        AreSymmetric n F partners → (S T : List ℕ) (x : ℕ) → x < n →
        ((y : ℕ) → y < n → has T (slice_index partners y) ≡ has S y) →
        width n F T (slice_index partners x) ≤ width n F S x }
{}

/// Law: let P have pairs of variables in which all functions are symmetric, the smaller variable
/// first. Then the first order of the fewest nodes among those that keep P is also the first one of
/// the fewest nodes among all orders.
pub fn symmetric_pairs_may_be_kept()
    ensures { (n : ℕ) (F : List Function) (P : List Pair) (order : List ℕ) →
        AreSymmetricPairs n F P → IsFirstKeeping n F P order → IsFirst n F order }
{}
