//! The cells of a layer, computed by several workers.

ghost use Rattle.std.specs.Prelude.{◌≡◌, ◌≤◌, All, IfOk, vec_len};
ghost use Rattle.std.specs.Thread.{IsSync};
ghost use Rattle.subset_layers.specs.Layers.{masks_of};
ghost use Rattle.layer_core.specs.LayerCosts.{AreCells};

use crate::guesses::busy_workers;
use layer_board::{Board, BoardSeat, CloseError};
use layer_core::Instance;
use layer_work::{LayerContext, WorkerResult, cells_alone, work_layer};
use order_model::{Crew, Gate};
use std::alloc::{AllocError, Global};
use std::thread;
use std::thread::Threads;
use subset_layers::Cell;

/// What a worker's thread is given: the worker's number, counted from 1, and its seat.
#[derive(Drop)]
struct Job {
    worker: u8,
    seat: BoardSeat,
}

/// A job for each of `seats`: that at index i with the worker's number i + 1.
fn number_seats(alloc: Global, board: &Board, seats: Vec<BoardSeat>) -> Result<Vec<Job>, AllocError>
    requires few { vec_len seats ≤ 64 }
    requires seats { All (λ s. s.board ≡ board.now) seats.items }
    ensures count { IfOk result (λ v. vec_len v ≡ vec_len seats) }
    ensures seats { IfOk result (λ v. All (λ j. j.seat.board ≡ board.now) v.items) }
{
    let mut seats = seats;
    let mut jobs = Vec::with_capacity(alloc, seats.len())?;
    while let Some(seat) = seats.pop() {
        let worker = seats.len() as u8 + 1;
        jobs.push(Job { worker, seat })?;
    }
    Ok(jobs)
}

/// One of the seats in `ended`. Err if memory was refused to some worker.
fn gather(
    board: &Board,
    ended: Vec<Result<WorkerResult, AllocError>>,
) -> Result<BoardSeat, AllocError>
    requires some { 1 ≤ vec_len ended }
    requires seats { All (λ r. IfOk r (λ e. e.seat.board ≡ board.now)) ended.items }
    ensures { IfOk result (λ s. s.board ≡ board.entry.now) }
{
    let mut ended = ended;
    let WorkerResult { seat, tally: _ } = ended.pop().unwrap()?;
    while let Some(end) = ended.pop() {
        end?;
    }
    Ok(seat)
}

/// Has a worker for each of `seats` post cells of the layer of `context` to `board`, and returns
/// one of the seats.
fn post_cells<R: Threads + Sync, G: Gate>(
    crew: &Crew<'_, R, G>,
    alloc: Global,
    context: &LayerContext<'_>,
    board: &Board,
    seats: Vec<BoardSeat>,
) -> Result<BoardSeat, AllocError>
    requires some { 1 ≤ vec_len seats }
    requires few { vec_len seats ≤ 64 }
    requires seats { All (λ s. s.board ≡ board.now) seats.items }
    requires instance { board.now.brief.instance ≡ context.now.instance }
    requires layer { board.now.brief.layer ≡ context.now.layer }
    ensures { IfOk result (λ s. s.board ≡ board.entry.now) }
{
    let jobs = number_seats(alloc, board, seats)?;
    let gate = crew.gate;
    let ended = thread::map_vec(
        crew.rt,
        jobs,
        &|job: Job| -> Result<WorkerResult, AllocError>
            requires { IsSync G.row × (job.seat.board ≡ board.now)
                × (board.now.brief.instance ≡ context.now.instance)
                × (board.now.brief.layer ≡ context.now.layer) }
            ensures { IfOk result (λ e. e.seat.board ≡ board.entry.now) }
        {
            let Job { worker, seat } = job;
            work_layer(alloc, board, seat, worker, context, gate)
        },
    )?;
    gather(board, ended)
}

/// Computes the cells of the sets of the layer of `context`, by rising mask, by the workers of
/// `crew`. If a cell is missing although memory was refused to no worker, the calling thread
/// computes the whole layer anew.
pub(crate) fn cells_of_layer<R: Threads + Sync, G: Gate>(
    crew: &Crew<'_, R, G>,
    alloc: Global,
    context: &LayerContext<'_>,
) -> Result<Vec<Cell>, AllocError>
    ensures { IfOk result (λ v.
        AreCells context.entry.now.instance (masks_of context.entry.now.layer) v.items) }
{
    let instance = context.instance();
    let (board, seats) = Board::new(
        alloc,
        instance.problem(),
        instance.limit(),
        context.layer(),
        busy_workers(instance, context.layer(), crew.workers),
        instance.pairs(),
    )?;
    let seat = post_cells(crew, alloc, context, &board, seats)?;
    match board.close(alloc, seat) {
        Ok(cells) => Ok(cells),
        Err((_, CloseError::Missing(_))) => cells_alone(alloc, context),
        Err((_, CloseError::OutOfMemory)) => Err(AllocError),
    }
}
