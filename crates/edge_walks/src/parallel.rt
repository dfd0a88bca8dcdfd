ghost use Rattle.std.specs.Prelude.{◌≡◌, ◌-◌, ◌*◌, ◌^◌, ◌<◌, ◌≤◌, IfOk};
ghost use Rattle.edge_walks.specs.Edges.{IsFirstEdge, IsFirstOfParts, part_at};
ghost use Rattle.edge_walks.specs.Walks.{CanStart, FailsAmong, FailsInBlock};

use crate::class_table::ClassTable;
use crate::fewer_edges::{count_judged, fewer_edges};
use crate::position::{Edge, Edges, Position};
use crate::small_sources::edges_up_to;
use crate::top_tables::{first_from_tops, top_tables};
use crate::walk::{first_failing, first_of, has_judged};
use order_model::{Mask, VarIx};
use pair_numbering::PairMemory;
use rayon::prelude::*;
use std::alloc::{AllocError, Global};
use std::thread::Threads;

/// The sets of one task agree in this many highest variables.
const PART_VARIABLES: u8 = 6;

/// The class tables of the sets of this many highest variables are made once for all tasks.
const SHARED_VARIABLES: u8 = 2;

/// Over edges into at most this many sets the calling thread walks alone.
const SETS_FOR_ONE: usize = 32;

/// The members that the sets of task `place` have among the `end` highest variables: its number
/// with bits 0 to 2 xored into bits 3 to 5. So the sets with few members, which take longest, are
/// spread over the tasks.
#[tactic(auto, unfolding(crate::specs::Edges::part_at), using(crate::proofs::Places::part_within))]
fn part_of(place: usize, end: u8) -> Mask
    requires end { end ≤ 6 }
    requires place { place < 2 ^ end }
    ensures part { result ≡ part_at end place }
    ensures within { result < 2 ^ end }
{
    let mixed = place ^ ((place & 7) * 8);
    (mixed & ((1 << end) - 1)) as Mask
}

/// The first edge in the results of tasks. Err if any of them is an error.
fn first_of_parts(parts: &[Result<Option<Edge>, AllocError>]) -> Result<Option<Edge>, AllocError>
    ensures { IfOk result (IsFirstOfParts parts.now) }
{
    let mut first = None;
    for part in parts {
        match part {
            Ok(edge) => first = first_of(first, *edge),
            Err(_) => return Err(AllocError),
        }
    }
    Ok(first)
}

/// The first edge that fails, found by 2^`end` tasks: each tests the edges into the sets that agree
/// in the `end` highest variables, and begins at the class table of its members from `y` on, or at
/// `root.table` if `tops` lacks that.
fn first_by_tasks<R: Threads + Sync>(
    rt: &R,
    alloc: Global,
    root: Position,
    tops: &[ClassTable],
    y: VarIx,
    end: u8,
) -> Result<Option<Edge>, AllocError>
    requires { CanStart root tops.now y end }
    ensures { IfOk result (IsFirstEdge (FailsAmong root.entry.edges)) }
{
    let parts: Vec<Result<Option<Edge>, AllocError>> = (0..1usize << end)
        .into_par_iter()
        .with_min_len(1)
        .map(
            |place: usize| -> Result<Option<Edge>, AllocError>
                requires { (place < 2 ^ end) × CanStart root tops.now y end }
                ensures { IfOk result
                    (IsFirstEdge
                    (FailsInBlock root.entry.edges (part_at end place * 2 ^ (root.entry.free - end))
                    (root.entry.free - end))) }
            {
                let bottom = root.free - end;
                let part = part_of(place, end) << bottom;
                first_from_tops(alloc, root, tops, y, part, bottom)
            },
        )
        .collect(rt, alloc)?;
    first_of_parts(&parts)
}

/// Who walks over the sets.
pub trait Walker {
    // What a walk requires.
    ghost ready: { Self → Type 0 };

    /// The first edge among `edges.judged` that fails, by the mask that it leads from and then by
    /// variable.
    fn first_of_all(&self, alloc: Global, edges: Edges) -> Result<Option<Edge>, AllocError>
        requires { ready self.now }
        ensures { IfOk result (IsFirstEdge (FailsAmong edges.entry)) };
}

/// Shares the sets among threads by `rayon`; a walk over few sets is left to the calling thread.
#[derive(Drop)]
pub struct ThreadPool<'r, R> {
    pub rt: &'r R,
}

/// Walks over all sets by the calling thread.
#[derive(Drop)]
pub struct CallingThread;

impl<'r, R: Threads + Sync> Walker for ThreadPool<'r, R> {
    ghost use Rattle.std.specs.Thread.{IsSync};

    ghost ready = { λ _. IsSync R.row };

    fn first_of_all(&self, alloc: Global, edges: Edges) -> Result<Option<Edge>, AllocError> {
        if count_judged(edges.judged) <= SETS_FOR_ONE {
            return CallingThread.first_of_all(alloc, edges);
        }
        let inputs = edges.problem.inputs();
        let end = inputs.min(PART_VARIABLES);
        let table = ClassTable::of_problem(alloc, edges.problem)?;
        let root = Position {
            edges,
            table: &table,
            free: inputs,
        };
        let y = inputs - end.min(SHARED_VARIABLES);
        let tops = top_tables(alloc, root, y)?;
        first_by_tasks(self.rt, alloc, root, &tops, y, end)
    }
}

impl Walker for CallingThread {
    ghost ready = { λ _. Unit {0} };

    fn first_of_all(&self, alloc: Global, edges: Edges) -> Result<Option<Edge>, AllocError> {
        let table = ClassTable::of_problem(alloc, edges.problem)?;
        let root = Position {
            edges,
            table: &table,
            free: edges.problem.inputs(),
        };
        first_failing(&mut PairMemory::new(alloc), root, false)
    }
}

/// The first edge in `edges` that fails. If variables may be exchanged, `walker` first tests a part
/// of the edges, of which one fails if any does. If the first of these leads from the mask m, the
/// first of all leads from m or a smaller mask, so only edges into sets that such masks lead to are
/// then tested.
pub fn first_failure<W: Walker>(
    walker: &W,
    alloc: Global,
    edges: Edges,
) -> Result<Option<Edge>, AllocError>
    requires { W.ready walker.now }
    ensures { IfOk result (IsFirstEdge (FailsAmong edges.entry)) }
{
    let Edges {
        problem,
        values,
        ..
    } = edges;
    if !has_judged(edges.judged, 0, problem.inputs()) {
        return Ok(None);
    }
    let Some(judged) = fewer_edges(alloc, edges)? else {
        return walker.first_of_all(alloc, edges);
    };
    let fewer = Edges {
        problem,
        values,
        judged: &judged,
    };
    let Some((last, _)) = walker.first_of_all(alloc, fewer)? else {
        return Ok(None);
    };
    let judged = edges_up_to(alloc, edges.judged, last)?;
    let early = Edges {
        problem,
        values,
        judged: &judged,
    };
    walker.first_of_all(alloc, early)
}
