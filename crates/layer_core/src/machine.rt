//! The machine of a layer as a value of one thread.

ghost use Rattle.std.specs.Prelude.{◌≡◌, ◌<◌, ◌≤◌, IfOk, length, replicate, map};
ghost use Rattle.layer_core.specs.Machine.{opening, step, unmarked, Claim, Post, Read};
ghost use Rattle.layer_core.specs.Rights.{IsLayout};
ghost use Rattle.layer_core.specs.Instances.{layout_of};
ghost use Rattle.layer_core.specs.Marked.{marks_of};
ghost use Rattle.layer_core.specs.Events.{event_of, reply_of, IsByWorker};
ghost use Rattle.layer_core.specs.Pairing.{pair_of};

use crate::events::{Event, Reply};
use order_model::{Mask, Workers};
use std::alloc::{AllocError, Global};
use std::marker::Model;
use subset_layers::{Cell, Layer};

/// What a worker did at the machine, and which cells it knows to be filled.
#[derive(Drop)]
pub(crate) struct WorkerMarks {
    /// For each block of the layer, by its place, whether the worker claimed it.
    pub(crate) claims: Vec<bool>,
    /// For each mask of the layer, in its order, whether the worker knows its cell to be filled.
    pub(crate) known: Vec<bool>,
    /// Whether a claim of the worker found no block left.
    pub(crate) ended: bool,
}

/// For callers who run a layer on one thread, or compare a board with its definition; `minorder`
/// uses boards.
#[derive(Drop)]
pub struct Core {
    layer: Layer,
    /// The place of the next block to be claimed; if there is none, none is left.
    counter: usize,
    /// The cells of the layer's masks, in the layer's order; `None` for an empty cell.
    cells: Vec<Option<Cell>>,
    /// What each worker did and knows: worker i, counted from 1, is at index i - 1.
    workers: Vec<WorkerMarks>,
}

impl Model for Core {
    ghost use Rattle.layer_core.specs.Machine.{World};

    ghost Value = { World };

    ghost use Rattle.layer_core.specs.Shown.{shown, IsSound};

    ghost view = { shown };

    ghost invariant = { IsSound };
}

impl Core {
    /// The machine of `layer` before the first step.
    pub fn new(alloc: Global, layer: &Layer, workers: Workers) -> Result<Core, AllocError>
        ensures opening { IfOk result (λ c. c ≡ opening (layout_of layer.now) workers) }
        ensures layout { IfOk result (λ c. IsLayout c.layout) }
    {
        let layer = layer.try_clone(alloc)?;
        let cells = empty_cells(alloc, layer.len())?;
        let workers = blank_marks(alloc, layer.blocks(), layer.len(), workers.count())?;
        Ok(Core {
            layer,
            counter: 0,
            cells,
            workers,
        })
    }

    /// Carries out `event`, a step of a worker, and returns the machine's reply.
    pub fn step(&mut self, event: Event) -> Reply
        requires { IsByWorker self.old event }
        ensures step { (reply_of result, self.new) ≡ step self.old (event_of event) }
        ensures workers { length self.new.workers ≡ length self.old.workers }
    {
        match event {
            Event::Claim(worker) => self.claim(usize::from(worker) - 1),
            Event::Post(worker, result) => {
                self.post(usize::from(worker) - 1, result.mask(), result.cell())
            },
            Event::Read(worker, mask) => self.read(usize::from(worker) - 1, mask),
        }
    }

    /// Claims the next block for the worker with the index `worker`, counted from 0.
    fn claim(&mut self, worker: usize) -> Reply
        requires { worker < length self.old.workers }
        ensures { (reply_of result, self.new) ≡ step self.old (Claim worker) }
    {
        if self.workers[worker].ended {
            return Reply::NoMore;
        }
        let block = self.counter;
        self.counter += 1;
        if block < self.layer.blocks() {
            self.workers[worker].claims[block] = true;
            Reply::Claimed(block)
        } else {
            self.workers[worker].ended = true;
            Reply::NoMore
        }
    }

    /// Fills the cell of `mask` for the worker with the index `worker`, counted from 0.
    fn post(&mut self, worker: usize, mask: Mask, cell: Cell) -> Reply
        requires { worker < length self.old.workers }
        ensures { (reply_of result, self.new) ≡ step self.old (Post worker mask (pair_of cell)) }
    {
        let Some(place) = self.layer.position(mask) else {
            return Reply::Stranger;
        };
        if !self.workers[worker].claims[self.layer.block_place(place)] {
            return Reply::Stranger;
        }
        let None = self.cells[place] else {
            return Reply::Double;
        };
        self.cells[place] = Some(cell);
        self.workers[worker].known[place] = true;
        Reply::Posted
    }

    /// Reads the cell of `mask` for the worker with the index `worker`, counted from 0.
    fn read(&mut self, worker: usize, mask: Mask) -> Reply
        requires { worker < length self.old.workers }
        ensures { (reply_of result, self.new) ≡ step self.old (Read worker mask) }
    {
        let Some(place) = self.layer.position(mask) else {
            return Reply::Empty;
        };
        let Some(cell) = self.cells[place] else {
            return Reply::Empty;
        };
        self.workers[worker].known[place] = true;
        Reply::Seen(cell)
    }
}

fn empty_cells(alloc: Global, count: usize) -> Result<Vec<Option<Cell>>, AllocError>
    ensures { IfOk result (λ cells. cells.items ≡ replicate count None) }
{
    let mut cells = Vec::with_capacity(alloc, count)?;
    for place in 0..count {
        cells.push(None)?;
    }
    Ok(cells)
}

/// The marks of `workers` workers before the first step.
fn blank_marks(
    alloc: Global,
    blocks: usize,
    masks: usize,
    workers: u8,
) -> Result<Vec<WorkerMarks>, AllocError>
    ensures { IfOk result (λ v. map marks_of v.items ≡ replicate workers (unmarked blocks masks)) }
{
    let mut marks = Vec::with_capacity(alloc, usize::from(workers))?;
    for worker in 0..workers {
        marks.push(WorkerMarks {
            claims: vec![in alloc; false; blocks]?,
            known: vec![in alloc; false; masks]?,
            ended: false,
        })?;
    }
    Ok(marks)
}
