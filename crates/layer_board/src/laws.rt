//! Laws of the words of a board: each atomic step on them is a step of the layer's machine. Each
//! law is the contract of a function that does nothing.

ghost use Rattle.std.specs.Prelude.{◌≡◌, ℕ, ◌+◌, ◌%◌, ◌^◌, ◌==◌, true, false, [], Some, length, slice_index};
ghost use mathlib.Core.Option.{some, none};
ghost use lib.ListN.{get_elem?};
ghost use prog.Atomic.{either};
ghost use Rattle.atomic_table.specs.Table.{State, step as table_step, stepped, keeps};
ghost use Rattle.subset_layers.specs.Layers.{blocks_of};
ghost use Rattle.layer_core.specs.Machine.{Claim, Post, Read, step, place_of, claimed};
ghost use Rattle.layer_core.specs.Rights.{Right};
ghost use Rattle.layer_core.specs.Instances.{layout_of};
ghost use Rattle.layer_board.specs.Views.{BriefOf, SeatView};
ghost use Rattle.layer_board.specs.Closing.{OneMissesTheLeast};
ghost use Rattle.layer_board.specs.Refusals.{SeatsLackWhatIsEmpty};
ghost use Rattle.layer_board.specs.Invariant.{Kept, IsCellAt, Sat, cell_in, shows, claims, posts, reads, claim_reply, post_reply, read_reply};

/// Law: between any two atomic steps on a board, its words and its seats show a right state of the
/// layer's machine: each filled cell is the definition's, each block before the next one to be
/// claimed is claimed by exactly one worker, and the others by none.
pub fn tables_show_right_states()
    ensures { (b : BriefOf) (s : State (Unit {0}) SeatView) → Kept b s →
        Right (IsCellAt b.instance) (shows b s) }
{}

/// Law: the atomic step by which a seat claims a block is a claim at the layer's machine: the seat
/// gets its reply, and the board then shows its next state.
pub fn claims_are_events()
    ensures { (b : BriefOf) (s : State (Unit {0}) SeatView) (id : ℕ) (v : SeatView) (slots : ℕ)
        (m : Sat) →
        Kept b s → get_elem? s.views id ≡ some v → v.worker.ended ≡ false →
        claims (table_step slots 0 1 0 none) (v, []) (slice_index s.words 0) m → (
          claim_reply (length (blocks_of b.layer)) (slice_index s.words 0),
          shows b (stepped s 0 ((slice_index s.words 0 + 1) % 2 ^ 64) id [] m.0 keeps),
        ) ≡
        step (shows b s) (Claim id) }
{}

/// Law: the atomic step by which a seat posts a cell is a post at the layer's machine.
pub fn posts_are_events()
    ensures { (b : BriefOf) (s : State (Unit {0}) SeatView) (id : ℕ) (v : SeatView)
        (slots p mask new : ℕ) (cell : ℕ × ℕ) (m : Sat) →
        Kept b s → get_elem? s.views id ≡ some v → place_of (layout_of b.layer) mask ≡ Some p →
        claimed v.worker (slice_index (layout_of b.layer).block_of p) ≡ true →
        cell_in new ≡ Some cell →
        posts (table_step slots (p + 1) 0 new none) (v, []) (slice_index s.words (p + 1)) m → (
          post_reply (slice_index s.words (p + 1)),
          shows b (stepped s (p + 1)
              (either (slice_index s.words (p + 1) == 0) new (slice_index s.words (p + 1))) id []
              m.0 keeps),
        ) ≡
        step (shows b s) (Post id mask cell) }
{}

/// Law: the atomic step by which a seat reads a cell of the layer is a read at its machine.
pub fn reads_are_events()
    ensures { (b : BriefOf) (s : State (Unit {0}) SeatView) (id : ℕ) (v : SeatView)
        (slots p mask : ℕ) (m : Sat) →
        Kept b s → get_elem? s.views id ≡ some v → place_of (layout_of b.layer) mask ≡ Some p →
        reads (table_step slots (p + 1) 0 0 none) (v, []) (slice_index s.words (p + 1)) m → (
          read_reply (slice_index s.words (p + 1)),
          shows b (stepped s (p + 1) (slice_index s.words (p + 1)) id [] m.0 keeps),
        ) ≡
        step (shows b s) (Read id mask) }
{}

/// Law: if a board of one worker is closed while a cell is empty, the error names the least mask
/// whose cell the worker's seat doesn't know to be filled.
pub fn one_worker_misses_the_least()
    ensures { OneMissesTheLeast }
{}

/// Law: let m be the least mask whose cell is empty in a closed board. Then the seat that closed
/// the board doesn't know the cell of m to be filled.
pub fn seats_lack_what_is_empty()
    ensures { SeatsLackWhatIsEmpty }
{}
