//! The board of a layer, and what workers do at it.

ghost use Rattle.std.specs.Prelude.{◌≡◌, ◌≢◌, ℕ, ◌+◌, ◌-◌, ◌^◌, ◌<◌, ◌≤◌, true, false, [], Some, All, IfOk, IfErr, IfSome, IsNone, IsTrue, slice_get, slice_index, length, vec_len, map, take, replicate};
ghost use Rattle.subset_layers.specs.Layers.{masks_of, blocks_of};
ghost use Rattle.layer_core.specs.Machine.{claimed, claims_block};
ghost use Rattle.layer_core.specs.Instances.{cell_for, instance_of};
ghost use Rattle.layer_board.specs.Views.{fresh, first_seat, stepped, no_more, found_empty, has_claimed, knows_filled, learned};
ghost use Rattle.layer_core.specs.Pairing.{pair_of};
ghost use Rattle.layer_board.specs.Closing.{IsFinalBoard};
ghost use Rattle.layer_board.specs.Refusals.{RefusesPost, LacksCell, LacksMask};

use crate::atomic_steps::{BoardRule, Claims, NewSeat, Posts, Reads};
use crate::cell_words::{cell_of_word, word_of_cell};
use crate::closed::{CloseError, ClosedBoard};
use crate::seats::{BoardSeat, Claim};
use crate::views::{Brief, Knowledge};
use atomic_table::{Seat, Table};
use layer_core::CellResult;
use order_model::{Limit, Mask, Pairs, Problem, Workers};
use std::alloc::{AllocError, Global};
use std::marker::Model;
use std::snapshot::Snapshot;
use subset_layers::{Cell, Layer};

/// Why a posted cell is refused.
#[derive(Clone, Copy, Debug, PartialEq, Eq)]
pub enum PostRefused {
    /// The layer doesn't have the mask, or the seat did not claim its block. No step is made.
    Stranger,
    /// The cell was filled before, and stays as it was. One atomic step is made.
    Double,
}

/// The cells of a layer, which threads fill.
#[derive(Drop)]
pub struct Board {
    /// The words that all seats share: the count of claims, and then one word for each cell.
    pub(crate) table: Table<(), Knowledge, Brief, BoardRule, Global>,
    pub(crate) layer: Layer,
}

impl Model for Board {
    ghost use Rattle.layer_board.specs.Views.{BoardId};

    ghost Value = { BoardId };

    ghost use Rattle.layer_board.specs.Held.{board_shown, IsBoard};

    ghost view = { board_shown };

    ghost invariant = { IsBoard };
}

impl Board {
    /// A board for `layer`, with empty cells, and a seat for each worker. Only cells of the
    /// instance can be posted to it.
    pub fn new(
        alloc: Global,
        problem: &Problem,
        limit: Limit,
        layer: &Layer,
        workers: Workers,
        pairs: &Pairs,
    ) -> Result<(Board, Vec<BoardSeat>), AllocError>
        requires { layer.now.inputs ≡ problem.now.inputs }
        ensures board { IfOk result
            (λ r. r.0.brief ≡ record {
              instance = instance_of problem.now pairs.now limit;
              layer = layer.now;
              workers = workers;
            }) }
        ensures count { IfOk result (λ r. vec_len r.1 ≡ workers) }
        ensures seats { IfOk result (λ r. All (λ s. s ≡ first_seat r.0) r.1.items) }
    {
        let count = workers.count();
        let layer = layer.try_clone(alloc)?;
        let brief = Brief {
            problem: Snapshot::of(problem),
            pairs: Snapshot::of(pairs),
            limit,
            layer: Snapshot::of(&layer),
            workers,
        };
        let words = zeros(alloc, layer.len() + 1)?;
        let (table, seat) = Table::of_words(alloc, words.as_slice(), &brief)?;
        let board = Board { table, layer };
        let seats = board.seats(alloc, seat, count)?;
        Ok((board, seats))
    }

    /// Splits `first`, the only seat at the words of this new board, into `count` seats.
    fn seats(
        &self,
        alloc: Global,
        mut first: Seat<(), Knowledge>,
        count: u8,
    ) -> Result<Vec<BoardSeat>, AllocError>
        requires some { 1 ≤ count }
        requires table { first.table_id ≡ self.now.table }
        requires view { first.me ≡ (fresh self.now.brief count, []) }
        ensures count { IfOk result (λ v. vec_len v ≡ count) }
        ensures seats { IfOk result (λ v. All (λ s. s ≡ first_seat self.now) v.items) }
    {
        let blocks = self.layer.blocks();
        let mut seats = Vec::with_capacity(alloc, usize::from(count))?;
        for made in 0..count - 1 {
            let seat = self.table.shared.split_seat::<NewSeat>(&mut first);
            seats.push(BoardSeat::first(alloc, seat, blocks)?)?;
        }
        seats.push(BoardSeat::first(alloc, first, blocks)?)?;
        Ok(seats)
    }

    /// Claims the next block that no worker has claimed; `seat` has it among its claims from then
    /// on. None if no block is left: the seat then gets None ever after, without an atomic step.
    pub fn claim(&self, seat: &mut BoardSeat) -> Option<Claim>
        requires { seat.old.board ≡ self.now }
        ensures board { seat.new.board ≡ self.now }
        ensures block { IfSome result
            (λ c. slice_get (blocks_of self.now.brief.layer) c.place ≡ Some c.block) }
        ensures gained { IfSome result
            (λ c. seat.new ≡ stepped seat.old (claims_block seat.old.worker c.place) 1) }
        ensures claimed { IfSome result (λ c. IsTrue (claimed seat.new.worker c.place)) }
        ensures later { IfSome result
            (λ c. (b : ℕ) → IsTrue (claimed seat.old.worker b) → b < c.place) }
        ensures ended { IsTrue seat.old.worker.ended → IsNone result }
        ensures none { IsNone result → seat.new ≡ no_more seat.old }
    {
        if seat.ended {
            return None;
        }
        let place = self.table.shared.fetch_add::<Claims>(&mut seat.seat, 0, 1) as usize;
        if place < self.layer.blocks() {
            seat.claims[place] = true;
            Some(Claim::new(place, self.layer.block(place)))
        } else {
            seat.ended = true;
            None
        }
    }

    /// Fills the cell of a set. A cell that was filled before stays as it was, and Err is `Double`.
    /// Err is `Stranger` if the layer doesn't have the set or the seat did not claim its block.
    pub fn post(&self, seat: &mut BoardSeat, cell: CellResult) -> Result<(), PostRefused>
        requires board { seat.old.board ≡ self.now }
        requires instance { cell.instance ≡ self.now.brief.instance }
        ensures board { seat.new.board ≡ self.now }
        ensures claimed { IfOk result (λ _. has_claimed seat.old cell.mask ≡ true) }
        ensures filled { IfOk result (λ _. seat.new ≡ learned seat.old cell.mask 1) }
        ensures refused { IfErr result (λ e. RefusesPost seat.old cell.mask seat.new e) }
        ensures known { has_claimed seat.old cell.mask ≡ true →
            knows_filled seat.new cell.mask ≡ true }
    {
        let Some(place) = self.layer.position(cell.mask()) else {
            return Err(PostRefused::Stranger);
        };
        if !seat.claims[self.layer.block_place(place)] {
            return Err(PostRefused::Stranger);
        }
        let word = word_of_cell(&cell);
        let shared = &self.table.shared;
        let found = shared.compare_exchange::<Posts>(&mut seat.seat, place + 1, 0, word);
        if found == 0 {
            Ok(())
        } else {
            Err(PostRefused::Double)
        }
    }

    /// The cell of the set `mask`, which `seat` then knows to be filled; None if it is empty.
    pub fn read(&self, seat: &mut BoardSeat, mask: Mask) -> Option<Cell>
        requires { seat.old.board ≡ self.now }
        ensures board { seat.new.board ≡ self.now }
        ensures cell { IfSome result (λ c. pair_of c ≡ cell_for self.now.brief.instance mask) }
        ensures learned { IfSome result (λ _. seat.new ≡ learned seat.old mask 0) }
        ensures known { IfSome result (λ _. knows_filled seat.new mask ≡ true) }
        ensures unknown { IsNone result → knows_filled seat.old mask ≡ false }
        ensures empty { IsNone result → seat.new ≡ found_empty seat.old mask }
    {
        let Some(place) = self.layer.position(mask) else {
            return None;
        };
        let found = self.table.shared.load::<Reads>(&mut seat.seat, place + 1);
        if found == 0 {
            return None;
        }
        Some(cell_of_word(found))
    }

    /// Closes the board, so that no word changes any more, and uses up `seat`, one of its seats.
    pub fn into_closed(self, seat: BoardSeat) -> ClosedBoard
        requires { seat.board ≡ self }
        ensures brief { result.brief ≡ self.brief }
        ensures last { IsFinalBoard seat result }
    {
        let board = Snapshot::of(&self);
        let Board { table, layer } = self;
        let BoardSeat {
            seat,
            claims: _,
            ended: _,
        } = seat;
        ClosedBoard {
            closed: table.close_with(seat),
            layer,
            board,
        }
    }

    /// Closes the board, and returns the cells of all masks, in the layer's order. `Missing` has
    /// the least mask whose cell is empty.
    pub fn close(
        self,
        alloc: Global,
        seat: BoardSeat,
    ) -> Result<Vec<Cell>, (ClosedBoard, CloseError)>
        requires { seat.board ≡ self }
        ensures cells { IfOk result
            (λ v. map pair_of v.items ≡ map (cell_for self.brief.instance)
            (masks_of self.brief.layer)) }
        ensures last { IfErr result (λ e. IsFinalBoard seat e.0) }
        ensures lacks { IfErr result (λ e. LacksCell e.0 e.1) }
        ensures unknown { IfErr result (λ e. LacksMask seat e.1) }
    {
        let closed = self.into_closed(seat);
        match closed.cells(alloc) {
            Ok(cells) => Ok(cells),
            Err(error) => Err((closed, error)),
        }
    }
}

fn zeros(alloc: Global, count: usize) -> Result<Vec<u64>, AllocError>
    ensures { IfOk result (λ v. v.items ≡ replicate count 0) }
{
    let words = vec![in alloc; 0u64; count]?;
    Ok(words)
}
