ghost use Rattle.std.specs.Prelude.{◌≡◌, ℕ, List, length};
ghost use Rattle.definitions.specs.Functions.{Function};
ghost use Rattle.definitions.specs.Orders.{IsOrder};
ghost use Rattle.node_words.specs.Nodes.{AreNodeWords, AreUnequal, Grows};
ghost use Rattle.node_words.specs.Meaning.{Denotes};

/// Law: in a store without equal words, ids that denote the same function are equal.
pub fn equal_functions_have_equal_ids()
    ensures { (order ws : List ℕ) → IsOrder (length order) order → AreNodeWords (length order) ws →
        AreUnequal ws → (a b : ℕ) (f : Function) → Denotes order ws a f →
        Denotes order ws b f → a ≡ b }
{}

/// Law: words added in empty places (0) change no function that an id denotes.
pub fn growth_keeps_functions()
    ensures { (order ws later : List ℕ) → AreNodeWords (length order) ws → Grows ws later →
        (id : ℕ) (f : Function) → Denotes order ws id f → Denotes order later id f }
{}
