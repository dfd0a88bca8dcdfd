//! A worker's part of a layer: it claims blocks of the layer's board and posts the cells of their
//! sets.

ghost use Rattle.std.specs.Prelude.{◌≡◌, ℕ, IfOk, IsTrue};
ghost use Rattle.layer_board.specs.Views.{has_claimed, knows_filled};
ghost use Rattle.layer_core.specs.Needs.{widths_for};
ghost use Rattle.layer_work.specs.Gains.{gains, gained, IsPosted, StaysClaimed};

use crate::cells::cell_of_set;
use crate::context::LayerContext;
use compaction::Tally;
use layer_board::{Board, BoardSeat};
use layer_core::CellResult;
use order_model::Gate;
use std::alloc::{AllocError, Global};

/// What a worker returns: its seat, which is its view of the board, and a tally of the widths that
/// its cells took.
#[derive(Drop)]
pub struct WorkerResult {
    pub seat: BoardSeat,
    pub tally: Tally,
}

/// Posts a cell to the board. If `seat` has claimed the block of its set, it then knows the cell
/// to be filled; a cell that was filled before stays as it was.
fn post_cell(board: &Board, seat: &mut BoardSeat, posted: CellResult)
    requires seat { seat.old.board ≡ board.now }
    requires instance { posted.instance ≡ board.now.brief.instance }
    ensures stays { StaysClaimed seat.old seat.new }
    ensures posted { IsPosted seat.new posted.mask }
{
    let _ = board.post(seat, posted);
}

/// Claims blocks of `board` with `seat` until none is left, and posts the cell of each of their
/// sets, after a call of `gate`. `worker` is the worker's number, counted from 1. If memory is
/// refused the seat is lost, and what was posted stays.
pub fn work_layer<G: Gate>(
    alloc: Global,
    board: &Board,
    mut seat: BoardSeat,
    worker: u8,
    context: &LayerContext<'_>,
    gate: &G,
) -> Result<WorkerResult, AllocError>
    requires seat { seat.board ≡ board.now }
    requires instance { board.now.brief.instance ≡ context.now.instance }
    requires layer { board.now.brief.layer ≡ context.now.layer }
    ensures board { IfOk result (λ e. e.seat.board ≡ board.now) }
    ensures ended { IfOk result (λ e. IsTrue e.seat.worker.ended) }
    ensures kept { IfOk result
        (λ e. (mask : ℕ) → IsTrue (has_claimed seat mask) → IsTrue (has_claimed e.seat mask)) }
    ensures known { IfOk result
        (λ e. (mask : ℕ) → IsTrue (knows_filled seat mask) → IsTrue (knows_filled e.seat mask)) }
    ensures posted { IfOk result
        (λ e. (mask : ℕ) → IsTrue (gains seat e.seat mask) → IsTrue (knows_filled e.seat mask)) }
    ensures tally { IfOk result (λ e. e.tally ≡ widths_for context.now.instance (gained seat e.seat)) }
{
    prove!(context.instance.inputs() <= 16);
    let mut tally = Tally::new();
    while let Some(claim) = board.claim(&mut seat) {
        for mask in claim.block().masks() {
            let cell = cell_of_set(alloc, context, *mask, &mut tally)?;
            gate.between(worker, u32::from(*mask));
            post_cell(board, &mut seat, context.instance.result(*mask, cell));
        }
    }
    Ok(WorkerResult { seat, tally })
}
