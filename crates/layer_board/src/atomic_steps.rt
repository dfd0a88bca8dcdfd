//! The invariant of a board's words, and the kinds of atomic steps on them.

ghost use Rattle.layer_board.specs.Invariant.{Kept, first_view, one_left, claims, posts, reads};
ghost use Rattle.layer_board.specs.Views.{fresh};

use crate::views::{Brief, Knowledge};
use atomic_table::{Play, Split, TableRule};

/// The invariant of a board's words and seats: they show a right state of the layer's machine.
pub struct BoardRule;

impl TableRule<(), Knowledge, Brief> for BoardRule {
    ghost holds = { Kept };

    ghost first = { first_view };
}

/// The atomic step of a claim, which adds 1 to the count of claims. The seat gains the block whose
/// place is the count before the step, or learns that no block is left.
pub(crate) struct Claims;

impl Play<(), Knowledge> for Claims {
    ghost then = { claims };
}

/// The atomic step of a post, at the word of a cell: an empty word becomes that of the posted cell.
/// Either way the seat knows the cell to be filled.
pub(crate) struct Posts;

impl Play<(), Knowledge> for Posts {
    ghost then = { posts };
}

/// The atomic step of a read, at the word of a cell: the seat learns that the cell is filled, if it
/// is.
pub(crate) struct Reads;

impl Play<(), Knowledge> for Reads {
    ghost then = { reads };
}

/// How the seat of one worker is split off the first seat of a new board.
pub(crate) struct NewSeat;

impl Split<Knowledge> for NewSeat {
    ghost left = { one_left };

    ghost right = { λ v. fresh v.brief 1 };
}
