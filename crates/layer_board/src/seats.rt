//! The seats of a board's workers, and the blocks that they claim.

ghost use Rattle.std.specs.Prelude.{◌≡◌, [], IfOk, length};
ghost use Rattle.subset_layers.specs.Layers.{blocks_of};
ghost use Rattle.layer_board.specs.Views.{first_seat, fresh};

use crate::views::Knowledge;
use atomic_table::Seat;
use std::alloc::{AllocError, Global};
use std::marker::Model;
use subset_layers::Block;

/// A worker's seat at a board: its own view of the board.
#[derive(Drop)]
pub struct BoardSeat {
    /// The seat at the board's words.
    pub(crate) seat: Seat<(), Knowledge>,
    /// For each block of the layer, by its place, whether the worker claimed it.
    pub(crate) claims: Vec<bool>,
    /// Whether a claim of the worker found no block left.
    pub(crate) ended: bool,
}

impl Model for BoardSeat {
    ghost use Rattle.layer_board.specs.Views.{SeatOf};

    ghost Value = { SeatOf };

    ghost use Rattle.layer_board.specs.Held.{seat_shown, IsBoardSeat};

    ghost view = { seat_shown };

    ghost invariant = { IsBoardSeat };
}

impl BoardSeat {
    /// The seat of a worker that has made no step.
    pub(crate) fn first(
        alloc: Global,
        seat: Seat<(), Knowledge>,
        blocks: usize,
    ) -> Result<BoardSeat, AllocError>
        requires view { seat.me ≡ (fresh (seat.me.0).brief 1, []) }
        requires blocks { blocks ≡ length (blocks_of (seat.me.0).brief.layer) }
        ensures { IfOk result
            (λ s. s ≡ first_seat record { table = seat.table_id; brief = (seat.me.0).brief }) }
    {
        let claims = vec![in alloc; false; blocks]?;
        Ok(BoardSeat {
            seat,
            claims,
            ended: false,
        })
    }
}

/// A block that a worker claimed.
#[derive(Drop)]
pub struct Claim {
    /// The block's place among the layer's blocks, from 0.
    place: usize,
    block: Block,
}

impl Model for Claim {
    ghost use Rattle.layer_board.specs.Views.{ClaimOf};

    ghost Value = { ClaimOf };

    ghost view = { λ c. record { place = c.place; block = c.block } };
}

impl Claim {
    pub(crate) fn new(place: usize, block: Block) -> Claim
        ensures { result ≡ record { place = place; block = block } }
    {
        Claim { place, block }
    }

    /// The block's place among the layer's blocks, counted from 0.
    pub fn place(&self) -> usize
        ensures { result ≡ self.now.place }
    {
        self.place
    }

    pub fn block(&self) -> &Block
        ensures { result.now ≡ self.now.block }
    {
        &self.block
    }
}
