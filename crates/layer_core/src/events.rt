//! The steps of workers at a layer's machine, and its replies.

use crate::results::CellResult;
use order_model::Mask;
use subset_layers::Cell;

/// A step of a worker. Workers are numbered from 1.
#[derive(Drop)]
pub enum Event {
    /// The worker with this number claims the next block.
    Claim(u8),
    /// The worker with this number fills the cell of a mask; the result has both.
    Post(u8, CellResult),
    /// The worker with this number reads the cell of a mask.
    Read(u8, Mask),
}

/// The machine's reply to a worker.
#[derive(Clone, Copy, Debug, PartialEq, Eq)]
pub enum Reply {
    /// The worker has claimed the block at this place, counted from 0, among the layer's blocks.
    Claimed(usize),
    /// No block is left.
    NoMore,
    /// The posted cell was empty before, and is filled now.
    Posted,
    /// The cell is not filled by this post: its mask is not in the layer, or the worker didn't
    /// claim the mask's block.
    Stranger,
    /// The posted cell was filled before, and stays as it was.
    Double,
    /// The cell of the mask that was to be read: it is filled.
    Seen(Cell),
    /// The mask that was to be read is not in the layer, or its cell is empty.
    Empty,
}
