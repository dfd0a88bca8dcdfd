//! Laws of all orders and their sizes, each the contract of a function that does nothing.

ghost use Rattle.std.specs.Prelude.{◌≡◌, ◌≢◌, ◌↔◌, ℕ, ◌+◌, ◌*◌, ◌-◌, ◌^◌, ◌<◌, ◌≤◌, if◌then◌else◌, IsTrue, IsFalse, List, [], map, length, nat_eq};
ghost use Rattle.std.specs.List.{AllPairs, Contains, IsDistinct, range_with_len, sum_by};
ghost use Rattle.definitions.specs.Functions.{Function};
ghost use Rattle.definitions.specs.Orders.{IsOrder, has, variables, members, without};
ghost use Rattle.definitions.specs.Pairs.{Pair, Keeps, is_lawful, tops};
ghost use Rattle.definitions.specs.Widths.{width, least};
ghost use Rattle.definitions.specs.AllOrders.{all_orders, orders_of_size, size_total, most, most_of, lawful_lists, ways, ways_above, ways_with_top, cost_total, cost_total_with_top, most_cost, most_cost_with_top, factorial};

/// Law: the list of all orders that keep the pairs has just these orders, each once. So its length
/// is their number.
pub fn all_orders_are_listed_once()
    ensures listed { (n : ℕ) (P : List Pair) (order : List ℕ) →
        Contains (all_orders n P) order ↔ (IsOrder n order × Keeps P order) }
    ensures once { (n : ℕ) (P : List Pair) → AllPairs (λ xs ys. xs ≢ ys) (all_orders n P) }
{}

/// Law: if some order keeps the pairs, the orders that keep them are the lists of all variables
/// whose bottom parts are all lawful, and the size of each is its cost. So as many orders have size
/// s as lists have cost s, and the sum of all sizes and the greatest size are those of the costs.
pub fn sizes_are_costs_of_all_variables()
    ensures orders { (n : ℕ) (P : List Pair) (order : List ℕ) → IsOrder n order → Keeps P order →
        all_orders n P ≡ lawful_lists P (variables n) }
    ensures sizes { (n : ℕ) (F : List Function) (P : List Pair) (order : List ℕ) (s : ℕ) →
        IsOrder n order → Keeps P order → orders_of_size n F P s ≡ ways n F P (variables n) s }
    ensures total { (n : ℕ) (F : List Function) (P : List Pair) (order : List ℕ) →
        IsOrder n order → Keeps P order → size_total n F P ≡ cost_total n F P (variables n) }
    ensures most { (n : ℕ) (F : List Function) (P : List Pair) (order : List ℕ) →
        IsOrder n order → Keeps P order → most n F P ≡ most_cost n F P (variables n) }
{}

/// Law: how many lists of a set's members have cost c follows from the sets with one member less.
/// The empty set has one list, of cost 0. For another lawful set it is the sum, over the members x
/// without which the set stays lawful, of how many lists of the others have cost c - w, or 0 if c
/// is less than w. Here w is the width of x over the others. A set that isn't lawful has no such
/// lists.
pub fn ways_recur()
    ensures empty { (n : ℕ) (F : List Function) (P : List Pair) → ways n F P [] 0 ≡ 1 }
    ensures empty_more { (n : ℕ) (F : List Function) (P : List Pair) (c : ℕ) → 0 < c →
        ways n F P [] c ≡ 0 }
    ensures step { (n : ℕ) (F : List Function) (P : List Pair) (S : List ℕ) (z c : ℕ) →
        IsDistinct nat_eq S → IsTrue (is_lawful P S) → IsTrue (has S z) →
        ways n F P S c ≡ sum_by (ways_with_top n F P S c) (tops P S) }
    ensures unlawful { (n : ℕ) (F : List Function) (P : List Pair) (S : List ℕ) (c : ℕ) →
        IsDistinct nat_eq S → IsFalse (is_lawful P S) → ways n F P S c ≡ 0 }
{}

/// Law: the number of lists of a set's members, and the sum of their costs, follow from the sets
/// with one member less. The empty set has one list, of cost 0. For another lawful set, take each
/// member x without which the set stays lawful. The number is the sum of the numbers of lists of
/// the others. The sum of the costs is the sum, over x, of the sum for the others plus the width of
/// x times their number.
pub fn numbers_and_totals_recur()
    ensures empty_number { (P : List Pair) → length (lawful_lists P []) ≡ 1 }
    ensures empty_total { (n : ℕ) (F : List Function) (P : List Pair) → cost_total n F P [] ≡ 0 }
    ensures number { (P : List Pair) (S : List ℕ) (z : ℕ) →
        IsDistinct nat_eq S → IsTrue (is_lawful P S) → IsTrue (has S z) →
        length (lawful_lists P S) ≡ sum_by (λ x. length (lawful_lists P (without x S))) (tops P S) }
    ensures total { (n : ℕ) (F : List Function) (P : List Pair) (S : List ℕ) (z : ℕ) →
        IsDistinct nat_eq S → IsTrue (is_lawful P S) → IsTrue (has S z) →
        cost_total n F P S ≡ sum_by (cost_total_with_top n F P S) (tops P S) }
{}

/// Law: a set that isn't lawful has no lists whose bottom parts are all lawful.
pub fn unlawful_sets_have_no_lists()
    ensures { (P : List Pair) (S : List ℕ) → IsDistinct nat_eq S → IsFalse (is_lawful P S) →
        lawful_lists P S ≡ [] }
{}

/// Law: the greatest cost of a list of a set's members follows from the sets with one member less,
/// if some order keeps the pairs. For the empty set it is 0. For another lawful set it is the
/// maximum, over the members x without which the set stays lawful, of the greatest cost of the
/// others plus the width of x over them.
pub fn greatest_costs_recur()
    ensures empty { (n : ℕ) (F : List Function) (P : List Pair) → most_cost n F P [] ≡ 0 }
    ensures step { (n : ℕ) (F : List Function) (P : List Pair) (order S : List ℕ) (z : ℕ) →
        IsOrder n order → Keeps P order → IsDistinct nat_eq S →
        ((y : ℕ) → IsTrue (has S y) → y < n) → IsTrue (is_lawful P S) → IsTrue (has S z) →
        most_cost n F P S ≡ most_of (map (most_cost_with_top n F P S) (tops P S)) }
{}

/// Law: a set of k members has at most 1 * 2 * .. * k lists, and so at most as many of each cost.
/// For at most 16 variables these numbers are below 2^45, and for at most 16 functions the sums of
/// the costs, and of all sizes, are below 2^63.
pub fn counts_are_small()
    ensures lists { (P : List Pair) (S : List ℕ) → IsDistinct nat_eq S →
        length (lawful_lists P S) ≤ factorial (length S) }
    ensures ways { (n : ℕ) (F : List Function) (P : List Pair) (S : List ℕ) (c : ℕ) →
        ways n F P S c ≤ length (lawful_lists P S) }
    ensures factorials { (k : ℕ) → k ≤ 16 → factorial k < 2 ^ 45 }
    ensures totals { (n : ℕ) (F : List Function) (P : List Pair) (mask : ℕ) → n ≤ 16 →
        length F ≤ 16 → cost_total n F P (members n mask) < 2 ^ 63 }
    ensures sizes { (n : ℕ) (F : List Function) (P : List Pair) (order : List ℕ) → IsOrder n order →
        Keeps P order → n ≤ 16 → length F ≤ 16 → size_total n F P < 2 ^ 63 }
{}

/// Law: no list of a set's members has a cost below the set's least cost or above its greatest. So
/// the counts of a set need room for the costs between these two alone.
pub fn counts_lie_between_least_and_greatest()
    ensures below { (n : ℕ) (F : List Function) (P : List Pair) (S : List ℕ) (c : ℕ) →
        c < least n F P S → ways n F P S c ≡ 0 }
    ensures above { (n : ℕ) (F : List Function) (P : List Pair) (S : List ℕ) (c : ℕ) →
        most_cost n F P S < c → ways n F P S c ≡ 0 }
{}
