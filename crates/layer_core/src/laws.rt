//! Laws of the machine after every list of events, as contracts of functions that do nothing.

ghost use Rattle.std.specs.Prelude.{◌≡◌, ℕ, ◌<◌, List, length, slice_index};
ghost use Rattle.definitions.specs.Functions.{Function};
ghost use Rattle.definitions.specs.Pairs.{Pair};
ghost use Rattle.definitions.specs.declared.limits.LowerBound.{LowerBound};
ghost use Rattle.layer_core.specs.Machine.{Layout, Event, opening, run};
ghost use Rattle.layer_core.specs.Rights.{IsLayout, RightFor, ArePosted, IsFilled, claimants, all_cells};

/// Law: after events in which each posted cell is the definition's, the machine is in a right
/// state: each filled cell is the definition's, each block before the next one to be claimed is
/// claimed by exactly one worker, and the others by none.
pub fn events_keep_it_right()
    ensures { (n : ℕ) (F : List Function) (P : List Pair) (r : LowerBound) (bound : ℕ)
        (l : Layout) (workers : ℕ)
        (events : List Event) →
        IsLayout l → ArePosted n F P r bound events →
        RightFor n F P r bound (run (opening l workers) events) }
{}

/// Law: after events in which each posted cell is the definition's, each nonempty block before the
/// next one to be claimed is claimed by exactly one worker.
pub fn each_claim_is_one_workers()
    ensures { (n : ℕ) (F : List Function) (P : List Pair) (r : LowerBound) (bound : ℕ)
        (l : Layout) (workers : ℕ)
        (events : List Event) →
        IsLayout l → ArePosted n F P r bound events → (p : ℕ) → p < length l.masks →
        slice_index l.block_of p < (run (opening l workers) events).counter →
        claimants (slice_index l.block_of p) (run (opening l workers) events).workers ≡ 1 }
{}

/// Law: if each posted cell is the definition's and all cells of the layer are filled, they are
/// those that the definition gives.
pub fn filled_cells_are_the_definitions()
    ensures { (n : ℕ) (F : List Function) (P : List Pair) (r : LowerBound) (bound : ℕ)
        (l : Layout) (workers : ℕ)
        (events : List Event) →
        IsLayout l → ArePosted n F P r bound events → IsFilled (run (opening l workers) events) →
        (run (opening l workers) events).cells ≡ all_cells n F P r bound l.masks }
{}
