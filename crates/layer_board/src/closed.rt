//! A closed board.

ghost use Rattle.std.specs.Prelude.{◌≡◌, ◌<◌, Some, None, IfOk, IfErr, IfSome, IfNone, length, map, slice_index_or};
ghost use Rattle.subset_layers.specs.Layers.{masks_of};
ghost use Rattle.layer_core.specs.Instances.{cell_for};
ghost use Rattle.layer_core.specs.Pairing.{pair_of};
ghost use Rattle.layer_board.specs.Refusals.{LacksCell};

use crate::boards::Board;
use crate::cell_words::cell_of_word;
use atomic_table::Closed;
use order_model::Mask;
use std::alloc::Global;
use std::marker::Model;
use std::snapshot::Snapshot;
use subset_layers::{Cell, Layer};

#[derive(Clone, Copy, Debug, PartialEq, Eq)]
pub enum CloseError {
    /// The cell of this mask is empty. It is the least such mask.
    Missing(Mask),
    OutOfMemory,
}

/// A board that was closed: the words that it ended with. No seat writes to them any more.
pub struct ClosedBoard {
    pub(crate) closed: Closed<(), Global>,
    pub(crate) layer: Layer,
    /// The board that was closed, which only contracts see.
    pub(crate) board: Snapshot<Board>,
}

impl Model for ClosedBoard {
    ghost use Rattle.layer_board.specs.Views.{ClosedBoardOf};

    ghost Value = { ClosedBoardOf };

    ghost use Rattle.layer_board.specs.Closed.{closed_board, IsClosedBoard};

    ghost view = { closed_board };

    ghost invariant = { IsClosedBoard };
}

impl Drop for ClosedBoard {
    /// Frees the memory of the closed board's words.
    fn drop(self) {
        let ClosedBoard {
            closed,
            layer: _,
            board: _,
        } = self;
        closed.free();
    }
}

impl ClosedBoard {
    /// The cells of all masks, in the layer's order.
    pub fn cells(&self, alloc: Global) -> Result<Vec<Cell>, CloseError>
        ensures all { IfOk result (λ v. map (λ c. Some (pair_of c)) v.items ≡ self.now.cells) }
        ensures cells { IfOk result
            (λ v. map pair_of v.items ≡ map (cell_for self.now.brief.instance)
            (masks_of self.now.brief.layer)) }
        ensures lacks { IfErr result (LacksCell self.now) }
    {
        let Ok(mut cells) = Vec::with_capacity(alloc, self.layer.len()) else {
            return Err(CloseError::OutOfMemory);
        };
        for place in 0..self.layer.len() {
            let Some(cell) = self.cell_at(place) else {
                return Err(CloseError::Missing(self.layer.mask_at(place)));
            };
            let Ok(()) = cells.push(cell) else {
                return Err(CloseError::OutOfMemory);
            };
        }
        Ok(cells)
    }

    /// The cell of the mask at place `place`; None if it is empty.
    fn cell_at(&self, place: usize) -> Option<Cell>
        requires { place < length (masks_of self.now.brief.layer) }
        ensures some { IfSome result
            (λ c. slice_index_or self.now.cells place None ≡ Some (pair_of c)) }
        ensures none { IfNone result (slice_index_or self.now.cells place None ≡ None) }
    {
        let word = self.closed.word(place + 1);
        if word == 0 {
            return None;
        }
        Some(cell_of_word(word))
    }
}
