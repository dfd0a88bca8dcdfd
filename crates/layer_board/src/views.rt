//! What determines a board, and what its seats know.

use order_model::{Limit, Pairs, Problem, Workers};
use std::marker::Model;
use std::snapshot::Snapshot;
use subset_layers::Layer;

/// What determines a board. Only contracts see it.
#[derive(Drop)]
pub struct Brief {
    pub(crate) problem: Snapshot<Problem>,
    pub(crate) pairs: Snapshot<Pairs>,
    pub(crate) limit: Limit,
    /// The layer whose sets have their cells on the board.
    pub(crate) layer: Snapshot<Layer>,
    pub(crate) workers: Workers,
}

impl Model for Brief {
    ghost use Rattle.layer_core.specs.Instances.{instance_of};
    ghost use Rattle.layer_board.specs.Views.{BriefOf};

    ghost Value = { BriefOf };

    ghost view = { λ b. record {
      instance = instance_of b.problem.value b.pairs.value b.limit;
      layer = b.layer.value;
      workers = b.workers;
    } };
}

/// What a worker's seat knows of the board. Only contracts see it, and no value of it is made.
pub struct Knowledge;

impl Model for Knowledge {
    ghost use Rattle.layer_board.specs.Views.{SeatView, nothing_known};

    ghost Value = { SeatView };

    ghost view = { λ _. nothing_known };
}
