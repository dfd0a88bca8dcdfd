//! The board of a layer, and its machine.

ghost use Rattle.std.specs.Prelude.{◌≡◌, ◌<◌, ◌≤◌, All, length, [], ◌∷◌};
ghost use Rattle.layer_core.specs.Instances.{cell_for, instance_of};
ghost use Rattle.definitions.specs.declared.limits.LowerBound.TheVariants.{Variables};
ghost use Rattle.layer_board.specs.Views.{first_seat};
ghost use Rattle.solver_tests.specs.Examples.{parity};

use layer_board::{Board, BoardSeat, Claim, CloseError, PostRefused};
use layer_core::{CellResult, Core, Event, Reply};
use order_model::{Limit, LowerBound, Mask, Pairs, Problem, Workers};
use std::alloc::Global;
use std::process::Abort;
use std::thread;
use std::thread::Threads;
use subset_layers::{Cell, Layer};

fn parity_problem(rt: &impl Abort, alloc: Global) -> Problem
    ensures { result ≡ parity.problem }
{
    let words = words(rt, alloc, 0x6996);
    Problem::from_words(4, 1, words)
}

fn words(rt: &impl Abort, alloc: Global, word: u64) -> Vec<u64>
    ensures { result.items ≡ word ∷ [] }
{
    let mut words = Vec::new(alloc);
    words.push(word).expect(rt, "memory");
    words
}

/// A bound, with one node counted for each essential variable outside a set.
fn limit(bound: u32) -> Limit
    ensures { result ≡ record { bound = bound; lower_bound = Variables } }
{
    Limit {
        bound,
        lower_bound: LowerBound::Variables,
    }
}

/// A cell of the parity with the bound 7, on top of which stands the variable 0.
fn parity_cell(problem: &Problem, mask: Mask, cost: u32, pairs: &Pairs) -> CellResult
    requires problem { problem.now ≡ parity.problem }
    requires pairs { pairs.now.pairs ≡ [] }
    requires cell { (cost, 0) ≡ cell_for parity mask }
    ensures instance { result.instance ≡ record
        { problem = problem.now; pairs = pairs.now; lower_bound = Variables; bound = 7 } }
    ensures mask { result.mask ≡ mask }
{
    CellResult::new(problem, limit(7), mask, Cell { cost, variable: 0 }, pairs)
}

fn only_seat(rt: &impl Abort, board: &Board, mut seats: Vec<BoardSeat>) -> BoardSeat
    requires { All (λ s. s ≡ first_seat board.now) seats.items }
    ensures { result.board ≡ board.now }
{
    assert!(rt; seats.len() == 1);
    seats.pop().expect(rt, "one seat")
}

/// A board of a layer, and the seat of a lone worker.
pub(crate) fn lone_board(
    rt: &impl Abort,
    alloc: Global,
    problem: &Problem,
    pairs: &Pairs,
    limit: Limit,
    layer: &Layer,
) -> (Board, BoardSeat)
    requires { layer.now.inputs ≡ problem.now.inputs }
    ensures instance { result.0.brief.instance ≡ instance_of problem.now pairs.now limit }
    ensures layer { result.0.brief.layer ≡ layer.now }
    ensures seat { result.1.board ≡ result.0 }
{
    let one = Workers::new(1).expect(rt, "one worker");
    let made = Board::new(alloc, problem, limit, layer, one, pairs);
    let (board, seats) = made.expect(rt, "memory");
    let seat = only_seat(rt, &board, seats);
    (board, seat)
}

/// The board of the sets of two variables, and the seat of a lone worker.
fn board_of_twos(
    rt: &impl Abort,
    alloc: Global,
    problem: &Problem,
    pairs: &Pairs,
    bound: u32,
) -> (Board, BoardSeat)
    ensures instance { result.0.brief.instance ≡ instance_of problem.now pairs.now (record
        { bound = bound; lower_bound = Variables }) }
    ensures seat { result.1.board ≡ result.0 }
{
    let layer = Layer::of(alloc, problem.inputs(), 2).expect(rt, "memory");
    lone_board(rt, alloc, problem, pairs, limit(bound), &layer)
}

/// A place, how many sets its block has, and the first of them.
type BlockRow = (usize, usize, Mask);

fn is_of_block(claim: &Claim, row: &BlockRow) -> bool {
    let (place, count, first) = row;
    let block = claim.block();
    claim.place() == *place
        && Mask::from(block.low()) == *first % 256
        && block.len() == *count
        && block.len() > 0
        && block.mask(0) == *first
}

/// Claims blocks, which are to be these.
fn claim_blocks(rt: &impl Abort, board: &Board, seat: &mut BoardSeat, rows: &[BlockRow])
    requires { seat.old.board ≡ board.now }
    ensures { seat.new.board ≡ board.now }
{
    for row in rows {
        let claim = board.claim(seat);
        assert!(rt; claim.is_some_and(|claim: Claim| is_of_block(&claim, row)));
    }
}

/// Whether there is no block left, asked twice.
fn has_no_more(board: &Board, seat: &mut BoardSeat) -> bool
    requires { seat.old.board ≡ board.now }
    ensures { seat.new.board ≡ board.now }
{
    let once = board.claim(seat).is_none();
    let twice = board.claim(seat).is_none();
    once && twice
}

/// Whether a seat cannot post a cell, since it did not claim its mask.
pub(crate) fn is_stranger(board: &Board, seat: &mut BoardSeat, cell: CellResult) -> bool
    requires seat { seat.old.board ≡ board.now }
    requires instance { cell.instance ≡ board.now.brief.instance }
    ensures { seat.new.board ≡ board.now }
{
    board.post(seat, cell) == Err(PostRefused::Stranger)
}

/// Posts and reads while the first block alone is claimed.
#[tactic(auto, using(crate::proofs::Parity::cell_3, crate::proofs::Parity::cell_5, crate::proofs::Parity::cell_7))]
fn post_and_read(
    rt: &impl Abort,
    board: &Board,
    seat: &mut BoardSeat,
    problem: &Problem,
    pairs: &Pairs,
)
    requires board { seat.old.board ≡ board.now }
    requires problem { problem.now ≡ parity.problem }
    requires pairs { pairs.now.pairs ≡ [] }
    requires instance { board.now.brief.instance ≡ record
        { problem = problem.now; pairs = pairs.now; lower_bound = Variables; bound = 7 } }
    ensures { seat.new.board ≡ board.now }
{
    // The second block is not this seat's, and the mask 0007 is not in the layer.
    assert!(rt; is_stranger(board, seat, parity_cell(problem, 5, 4, pairs)));
    assert!(rt; is_stranger(board, seat, parity_cell(problem, 7, 6, pairs)));
    let once = board.post(seat, parity_cell(problem, 3, 4, pairs));
    let twice = board.post(seat, parity_cell(problem, 3, 4, pairs));
    assert!(rt; once == Ok(()) && twice == Err(PostRefused::Double));
    let three = Cell {
        cost: 4,
        variable: 0,
    };
    assert!(rt; board.read(seat, 3) == Some(three));
    assert!(rt; board.read(seat, 5).is_none());
}

/// Why a board does not close.
pub(crate) fn error_of_closing(alloc: Global, board: Board, seat: BoardSeat) -> Option<CloseError>
    requires { seat.board ≡ board }
{
    match board.close(alloc, seat) {
        Ok(_) => None,
        Err((_, error)) => Some(error),
    }
}

/// The masks 0005, 0006, 0009, 000a and 000c, each a block.
static AFTER_THE_FIRST: [BlockRow; 5] = [(1, 1, 5), (2, 1, 6), (3, 1, 9), (4, 1, 10), (5, 1, 12)];

/// Claims all blocks, and posts the cell of the first one.
fn claim_and_post(
    rt: &impl Abort,
    board: &Board,
    seat: &mut BoardSeat,
    problem: &Problem,
    pairs: &Pairs,
)
    requires board { seat.old.board ≡ board.now }
    requires problem { problem.now ≡ parity.problem }
    requires pairs { pairs.now.pairs ≡ [] }
    requires instance { board.now.brief.instance ≡ record
        { problem = problem.now; pairs = pairs.now; lower_bound = Variables; bound = 7 } }
    ensures { seat.new.board ≡ board.now }
{
    claim_blocks(rt, board, seat, &[(0, 1, 3)]);
    post_and_read(rt, board, seat, problem, pairs);
    claim_blocks(rt, board, seat, &AFTER_THE_FIRST);
    assert!(rt; has_no_more(board, seat));
}

#[test]
fn a_board_says_which_set_is_missing(rt: HostRuntime) {
    let problem = parity_problem(&rt, rt.alloc());
    let pairs = Pairs::none(4);
    let (board, mut seat) = board_of_twos(&rt, rt.alloc(), &problem, &pairs, 7);
    claim_and_post(&rt, &board, &mut seat, &problem, &pairs);
    assert!(rt; error_of_closing(rt.alloc(), board, seat) == Some(CloseError::Missing(5)));
}

/// The machine of the sets of two of four variables, with two workers.
fn core_of_two(rt: &impl Abort, alloc: Global) -> Core
    ensures { length result.workers ≡ 2 }
{
    let two = Workers::new(2).expect(rt, "two workers");
    let layer = Layer::of(alloc, 4, 2).expect(rt, "memory");
    Core::new(alloc, &layer, two).expect(rt, "memory")
}

/// Posts the cell of 0005 for a worker.
#[tactic(auto, using(crate::proofs::Parity::cell_5))]
fn post_five(core: &mut Core, worker: u8, problem: &Problem, pairs: &Pairs) -> Reply
    requires some { 1 ≤ worker }
    requires worker { worker ≤ length core.old.workers }
    requires problem { problem.now ≡ parity.problem }
    requires pairs { pairs.now.pairs ≡ [] }
    ensures { length core.new.workers ≡ length core.old.workers }
{
    core.step(Event::Post(worker, parity_cell(problem, 5, 4, pairs)))
}

/// Two workers claim a block each, the owner of the second one fills its cell once, and the other
/// one reads it.
fn post_by_two(rt: &impl Abort, core: &mut Core, problem: &Problem, pairs: &Pairs)
    requires workers { length core.old.workers ≡ 2 }
    requires problem { problem.now ≡ parity.problem }
    requires pairs { pairs.now.pairs ≡ [] }
    ensures { length core.new.workers ≡ 2 }
{
    let cell = Cell {
        cost: 4,
        variable: 0,
    };
    let replies = [
        core.step(Event::Claim(1)),
        core.step(Event::Claim(2)),
        post_five(core, 1, problem, pairs),
        post_five(core, 2, problem, pairs),
        post_five(core, 2, problem, pairs),
        core.step(Event::Read(1, 5)),
        core.step(Event::Read(1, 3)),
    ];
    let wanted = [
        Reply::Claimed(0),
        Reply::Claimed(1),
        Reply::Stranger,
        Reply::Posted,
        Reply::Double,
        Reply::Seen(cell),
        Reply::Empty,
    ];
    assert!(rt; replies == wanted);
}

/// The first of two workers claims the other blocks, and then there is none for the second one.
fn claim_by_two(rt: &impl Abort, core: &mut Core)
    requires { length core.old.workers ≡ 2 }
{
    for block in 2..6usize {
        assert!(rt; core.step(Event::Claim(1)) == Reply::Claimed(block));
    }
    assert!(rt; core.step(Event::Claim(2)) == Reply::NoMore);
    assert!(rt; core.step(Event::Claim(2)) == Reply::NoMore);
}

#[test]
fn the_machine_answers_two_workers(rt: HostRuntime) {
    let problem = parity_problem(&rt, rt.alloc());
    let mut core = core_of_two(&rt, rt.alloc());
    post_by_two(&rt, &mut core, &problem, &Pairs::none(4));
    claim_by_two(&rt, &mut core);
}

/// The first five blocks of the sets of two of ten variables: 0300, 0101 and 0201, 0102 and 0202,
/// 0003, 0104 and 0204.
static FIRST_FIVE: [BlockRow; 5] = [
    (0, 1, 0x300),
    (1, 2, 0x101),
    (2, 2, 0x102),
    (3, 1, 3),
    (4, 2, 0x104),
];

/// How many sets the next block has, which is to stand at a place.
fn claim_at(rt: &impl Abort, board: &Board, seat: &mut BoardSeat, place: usize) -> usize
    requires { seat.old.board ≡ board.now }
    ensures { seat.new.board ≡ board.now }
{
    let claim = board.claim(seat).expect(rt, "a block");
    assert!(rt; claim.place() == place);
    claim.block().len()
}

/// Claims the 37 blocks, of which none is stepped over.
fn claim_all(rt: &impl Abort, board: &Board, seat: &mut BoardSeat)
    requires { seat.old.board ≡ board.now }
{
    claim_blocks(rt, board, seat, &FIRST_FIVE);
    let mut masks = 8usize;
    for place in 5..37usize {
        masks = masks.saturating_add(claim_at(rt, board, seat, place));
    }
    assert!(rt; masks == 45 && board.claim(seat).is_none());
}

#[test]
fn blocks_are_claimed_in_their_order(rt: HostRuntime) {
    let problem = Problem::new(rt.alloc(), 10, 1).expect(&rt, "memory");
    let (board, mut seat) = board_of_twos(&rt, rt.alloc(), &problem, &Pairs::none(10), 9);
    claim_all(&rt, &board, &mut seat);
}

/// Claims until there is no block left: bit p of the answer stands for the block at place p.
fn draw(board: &Board, mut seat: BoardSeat) -> u64
    requires { seat ≡ first_seat board.now }
{
    let mut places = 0u64;
    for _turn in 0..64u8 {
        let Some(claim) = board.claim(&mut seat) else {
            return places;
        };
        let place = claim.place();
        if place < 64 {
            places |= 1 << place;
        }
    }
    places
}

/// What `draw` answers for each seat, by a thread each.
fn draw_all<R: Abort + Threads + Sync>(rt: &R, board: &Board, seats: Vec<BoardSeat>) -> Vec<u64>
    requires { All (λ s. s ≡ first_seat board.now) seats.items }
{
    let drawn = thread::map_vec(
        rt,
        seats,
        &|seat: BoardSeat| -> u64
            requires { seat ≡ first_seat board.now }
        { draw(board, seat) },
    );
    drawn.expect(rt, "memory")
}

/// The blocks that each of two workers claims of a layer.
fn draw_by_two<R: Abort + Threads + Sync>(
    rt: &R,
    alloc: Global,
    problem: &Problem,
    layer: &Layer,
) -> Vec<u64>
    requires { layer.now.inputs ≡ problem.now.inputs }
{
    let two = Workers::new(2).expect(rt, "two workers");
    let pairs = Pairs::none(problem.inputs());
    let made = Board::new(alloc, problem, limit(7), layer, two, &pairs);
    let (board, seats) = made.expect(rt, "memory");
    draw_all(rt, &board, seats)
}

fn are_shared(drawn: &[u64]) -> bool {
    drawn.len() == 2 && drawn[0] | drawn[1] == 63 && drawn[0] & drawn[1] == 0
}

#[test]
fn two_threads_share_the_blocks(rt: HostRuntime) {
    let problem = parity_problem(&rt, rt.alloc());
    let layer = Layer::of(rt.alloc(), 4, 2).expect(&rt, "memory");
    let drawn = draw_by_two(&rt, rt.alloc(), &problem, &layer);
    assert!(rt; are_shared(&drawn));
}
