//! Workers at a board whose claims another one holds.

ghost use Rattle.std.specs.Prelude.{◌≡◌, ◌+◌, All, map};
ghost use Rattle.subset_layers.specs.Layers.{masks_of, layer_with};
ghost use Rattle.layer_core.specs.Pairing.{pair_of};
ghost use Rattle.layer_core.specs.Instances.{cell_for};
ghost use Rattle.layer_core.specs.LayerCosts.{IsLayerFor};
ghost use Rattle.solver_tests.specs.Examples.{IsAfter};

use crate::boards::{error_of_closing, is_stranger, lone_board};
use crate::searches::tables_of;
use layer_board::{Board, BoardSeat, CloseError, PostRefused};
use order_model::{Limit, LowerBound, Mask, NoGate, Pairs, Workers};
use order_solve::{
    Instance, LayerContext, Preparation, images_of_layer, needs_of_layer, renaming_of, work_layer,
};
use std::alloc::Global;
use std::process::Abort;
use std::thread;
use std::thread::Threads;
use subset_layers::{Cell, Costs, Layer};

static PARITY_OF_FOUR: &[u8] =
    b".i 4\n.o 1\n1000 1\n0100 1\n0010 1\n0001 1\n1110 1\n1101 1\n1011 1\n0111 1\n.e\n";

/// A worker does all blocks that are left: its seat, and how many widths its cells took.
fn worked(
    rt: &impl Abort,
    alloc: Global,
    board: &Board,
    seat: BoardSeat,
    worker: u8,
    context: &LayerContext<'_>,
) -> (BoardSeat, u64)
    requires seat { seat.board ≡ board.now }
    requires instance { board.now.brief.instance ≡ context.now.instance }
    requires layer { board.now.brief.layer ≡ context.now.layer }
    ensures { result.0.board ≡ board.now }
{
    let done = work_layer(alloc, board, seat, worker, context, &NoGate).expect(rt, "memory");
    let count = done.tally.count();
    (done.seat, count)
}

/// The cells of a layer, by a lone worker at a new board.
fn cells_by_one(
    rt: &impl Abort,
    alloc: Global,
    instance: &Instance<'_>,
    layer: &Layer,
    before: &Costs,
    prepared: &Preparation<'_>,
) -> Vec<Cell>
    requires after { IsAfter instance.now layer.now before.now }
    requires prepared { prepared.now.problem ≡ instance.now.problem }
    ensures { map pair_of result.items ≡ map (cell_for instance.now) (masks_of layer.now) }
{
    let needs = needs_of_layer(alloc, instance, before, layer).expect(rt, "memory");
    let images = images_of_layer(alloc, prepared, layer, &needs).expect(rt, "memory");
    let context = LayerContext::new(instance, layer, &needs, &images, prepared);
    let limit = instance.limit();
    let (board, seat) = lone_board(
        rt,
        alloc,
        instance.problem(),
        instance.pairs(),
        limit,
        layer,
    );
    let (seat, _) = worked(rt, alloc, &board, seat, 1, &context);
    board.close(alloc, seat).ok().expect(rt, "all cells")
}

/// The cells of the sets of one variable.
fn first_cells(
    rt: &impl Abort,
    alloc: Global,
    instance: &Instance<'_>,
    layer: &Layer,
    prepared: &Preparation<'_>,
) -> Vec<Cell>
    requires layer { layer.now ≡ layer_with instance.now.problem.inputs 1 }
    requires prepared { prepared.now.problem ≡ instance.now.problem }
    ensures { map pair_of result.items ≡ map (cell_for instance.now) (masks_of layer.now) }
{
    let start = Costs::start(alloc, instance.inputs()).expect(rt, "memory");
    cells_by_one(rt, alloc, instance, layer, &start, prepared)
}

fn first_costs(
    rt: &impl Abort,
    alloc: Global,
    instance: &Instance<'_>,
    prepared: &Preparation<'_>,
) -> Costs
    requires { prepared.now.problem ≡ instance.now.problem }
    ensures { IsLayerFor instance.now 1 result }
{
    let layer = Layer::of(alloc, instance.inputs(), 1).expect(rt, "memory");
    let cells = first_cells(rt, alloc, instance, &layer, prepared);
    Costs::of(layer, cells)
}

fn first_of(rt: &impl Abort, instance: &Instance<'_>, layer: &Layer, cells: &[Cell]) -> (Mask, Cell)
    requires { map pair_of cells.now ≡ map (cell_for instance.now) (masks_of layer.now) }
    ensures { pair_of result.1 ≡ cell_for instance.now result.0 }
{
    assert!(rt; layer.len() > 0 && !cells.is_empty());
    (layer.mask_at(0), cells[0])
}

/// A layer's first set, and its cell as a lone worker finds it.
fn first_cell(
    rt: &impl Abort,
    alloc: Global,
    instance: &Instance<'_>,
    layer: &Layer,
    before: &Costs,
    prepared: &Preparation<'_>,
) -> (Mask, Cell)
    requires after { IsAfter instance.now layer.now before.now }
    requires prepared { prepared.now.problem ≡ instance.now.problem }
    ensures { pair_of result.1 ≡ cell_for instance.now result.0 }
{
    let cells = cells_by_one(rt, alloc, instance, layer, before, prepared);
    first_of(rt, instance, layer, &cells)
}

/// A board of a layer, and the seats of two workers.
fn board_of_two(
    rt: &impl Abort,
    alloc: Global,
    instance: &Instance<'_>,
    layer: &Layer,
) -> (Board, Vec<BoardSeat>)
    requires { layer.now.inputs ≡ instance.now.problem.inputs }
    ensures instance { result.0.brief.instance ≡ instance.now }
    ensures layer { result.0.brief.layer ≡ layer.now }
    ensures seats { All (λ s. s.board ≡ result.0) result.1.items }
{
    let two = Workers::new(2).expect(rt, "two workers");
    let limit = instance.limit();
    let made = Board::new(
        alloc,
        instance.problem(),
        limit,
        layer,
        two,
        instance.pairs(),
    );
    made.expect(rt, "memory")
}

/// Whether the next block that a seat claims is that of 0003.
fn claims_three(board: &Board, seat: &mut BoardSeat) -> bool
    requires { seat.old.board ≡ board.now }
    ensures { seat.new.board ≡ board.now }
{
    match board.claim(seat) {
        Some(claim) => claim.block().low() == 3,
        None => false,
    }
}

/// Two seats, of which the first one claimed the first block.
fn seats_with_claim(
    rt: &impl Abort,
    board: &Board,
    mut seats: Vec<BoardSeat>,
) -> (BoardSeat, BoardSeat)
    requires { All (λ s. s.board ≡ board.now) seats.items }
    ensures first { result.0.board ≡ board.now }
    ensures second { result.1.board ≡ board.now }
{
    let worker = seats.pop().expect(rt, "a seat");
    let mut owner = seats.pop().expect(rt, "two seats");
    assert!(rt; claims_three(board, &mut owner));
    (owner, worker)
}

/// A worker does all blocks but the first one, which another seat claimed and holds: its seat.
fn work_beside_claim(
    rt: &impl Abort,
    alloc: Global,
    board: &Board,
    seats: Vec<BoardSeat>,
    instance: &Instance<'_>,
    context: &LayerContext<'_>,
    mask: Mask,
    cell: Cell,
) -> BoardSeat
    requires seats { All (λ s. s.board ≡ board.now) seats.items }
    requires instance { board.now.brief.instance ≡ instance.now }
    requires context { context.now.instance ≡ instance.now }
    requires layer { board.now.brief.layer ≡ context.now.layer }
    requires cell { pair_of cell ≡ cell_for instance.now mask }
    ensures { result.board ≡ board.now }
{
    let (_owner, worker) = seats_with_claim(rt, board, seats);
    let (mut seat, widths) = worked(rt, alloc, board, worker, 2, context);
    // Two widths for each of five sets.
    assert!(rt; widths == 10);
    assert!(rt; is_stranger(board, &mut seat, instance.result(mask, cell)));
    seat
}

/// Whether a seat can post a cell, and only once.
fn posts_once(
    board: &Board,
    mut seat: BoardSeat,
    instance: &Instance<'_>,
    mask: Mask,
    cell: Cell,
) -> bool
    requires seat { seat.board ≡ board.now }
    requires instance { board.now.brief.instance ≡ instance.now }
    requires cell { pair_of cell ≡ cell_for instance.now mask }
{
    let first = board.post(&mut seat, instance.result(mask, cell));
    let second = board.post(&mut seat, instance.result(mask, cell));
    first == Ok(()) && second == Err(PostRefused::Double)
}

/// Whether a seat can post a cell from another thread, and only once.
fn posts_once_apart<R: Threads + Sync>(
    rt: &R,
    board: &Board,
    seat: BoardSeat,
    instance: &Instance<'_>,
    mask: Mask,
    cell: Cell,
) -> bool
    requires seat { seat.board ≡ board.now }
    requires instance { board.now.brief.instance ≡ instance.now }
    requires cell { pair_of cell ≡ cell_for instance.now mask }
{
    let (posted, ()) = thread::join(
        rt,
        move || -> bool
            requires { (seat.board ≡ board.now) × (board.now.brief.instance ≡ instance.now)
                × (pair_of cell ≡ cell_for instance.now mask) }
        { posts_once(board, seat, instance, mask, cell) },
        || (),
    );
    posted
}

/// A worker does all blocks but the first one, whose owner then posts it: the worker's seat.
fn post_after_work<R: Abort + Threads + Sync>(
    rt: &R,
    alloc: Global,
    board: &Board,
    seats: Vec<BoardSeat>,
    instance: &Instance<'_>,
    context: &LayerContext<'_>,
    mask: Mask,
    cell: Cell,
) -> BoardSeat
    requires seats { All (λ s. s.board ≡ board.now) seats.items }
    requires instance { board.now.brief.instance ≡ instance.now }
    requires context { context.now.instance ≡ instance.now }
    requires layer { board.now.brief.layer ≡ context.now.layer }
    requires cell { pair_of cell ≡ cell_for instance.now mask }
    ensures { result.board ≡ board.now }
{
    let (owner, worker) = seats_with_claim(rt, board, seats);
    let (seat, _) = worked(rt, alloc, board, worker, 2, context);
    assert!(rt; posts_once_apart(rt, board, owner, instance, mask, cell));
    seat
}

/// Whether a board closes with six cells, each of cost 4.
fn closes_with_fours(alloc: Global, board: Board, seat: BoardSeat) -> bool
    requires { seat.board ≡ board }
{
    match board.into_closed(seat).cells(alloc) {
        Ok(cells) => are_six_fours(&cells),
        Err(_) => false,
    }
}

fn are_six_fours(cells: &[Cell]) -> bool {
    cells.len() == 6 && cells.iter().all(|cell: &Cell| cell.cost == 4)
}

/// Holds a claim at a board for two workers of a layer, and leaves its cell empty.
fn hold_and_leave(
    rt: &impl Abort,
    alloc: Global,
    instance: &Instance<'_>,
    layer: &Layer,
    context: &LayerContext<'_>,
    mask: Mask,
    cell: Cell,
)
    requires context { context.now.instance ≡ instance.now }
    requires layer { context.now.layer ≡ layer.now }
    requires inputs { layer.now.inputs ≡ instance.now.problem.inputs }
    requires cell { pair_of cell ≡ cell_for instance.now mask }
{
    let (board, seats) = board_of_two(rt, alloc, instance, layer);
    let seat = work_beside_claim(rt, alloc, &board, seats, instance, context, mask, cell);
    assert!(rt; error_of_closing(alloc, board, seat) == Some(CloseError::Missing(3)));
}

/// Holds a claim at a board for two workers of a layer, and posts its cell.
fn hold_and_post<R: Abort + Threads + Sync>(
    rt: &R,
    alloc: Global,
    instance: &Instance<'_>,
    layer: &Layer,
    context: &LayerContext<'_>,
    mask: Mask,
    cell: Cell,
)
    requires context { context.now.instance ≡ instance.now }
    requires layer { context.now.layer ≡ layer.now }
    requires inputs { layer.now.inputs ≡ instance.now.problem.inputs }
    requires cell { pair_of cell ≡ cell_for instance.now mask }
{
    let (board, seats) = board_of_two(rt, alloc, instance, layer);
    let seat = post_after_work(rt, alloc, &board, seats, instance, context, mask, cell);
    assert!(rt; closes_with_fours(alloc, board, seat));
}

/// Holds a claim at two boards of a layer: leaves its cell empty at one, and posts it at the other.
fn hold_claims<R: Abort + Threads + Sync>(
    rt: &R,
    alloc: Global,
    instance: &Instance<'_>,
    layer: &Layer,
    before: &Costs,
    prepared: &Preparation<'_>,
)
    requires after { IsAfter instance.now layer.now before.now }
    requires prepared { prepared.now.problem ≡ instance.now.problem }
{
    let (mask, cell) = first_cell(rt, alloc, instance, layer, before, prepared);
    let needs = needs_of_layer(alloc, instance, before, layer).expect(rt, "memory");
    let images = images_of_layer(alloc, prepared, layer, &needs).expect(rt, "memory");
    let context = LayerContext::new(instance, layer, &needs, &images, prepared);
    hold_and_leave(rt, alloc, instance, layer, &context, mask, cell);
    hold_and_post(rt, alloc, instance, layer, &context, mask, cell);
}

/// Holds a claim at two boards of the layer of the sets of two variables.
fn hold_in_second_layer<R: Abort + Threads + Sync>(
    rt: &R,
    alloc: Global,
    instance: &Instance<'_>,
    prepared: &Preparation<'_>,
)
    requires { prepared.now.problem ≡ instance.now.problem }
{
    let before = first_costs(rt, alloc, instance, prepared);
    let layer = Layer::of(alloc, instance.inputs(), 2).expect(rt, "memory");
    hold_claims(rt, alloc, instance, &layer, &before, prepared);
}

#[test]
fn a_held_claim_is_missing_or_posted(rt: HostRuntime) {
    let tables = tables_of(&rt, rt.alloc(), PARITY_OF_FOUR);
    let problem = tables.problem();
    let pairs = Pairs::none(problem.inputs());
    let limit = Limit {
        bound: 7,
        lower_bound: LowerBound::Variables,
    };
    let renaming = renaming_of(rt.alloc(), problem).expect(&rt, "memory");
    let prepared = Preparation::of(rt.alloc(), &renaming, &pairs).expect(&rt, "memory");
    let instance = Instance::new(problem, &pairs, limit);
    hold_in_second_layer(&rt, rt.alloc(), &instance, &prepared);
}
