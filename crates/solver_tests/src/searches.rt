//! Widths that solutions take, solutions by one thread, and two workers of the search.

ghost use Rattle.std.specs.Prelude.{◌≡◌};

use counted_io::Counting;
use order_model::{Gate, Limit, LowerBound, Order, Pairs, SizedOrder, VarIx, Workers};
use order_solve::{
    Solution, count_widths, find_optimum_alone, prepare, renaming_of, solve, solve_alone,
};
use pla_reader::read_cover;
use sifting::laws::diagrams_have_their_problems_tables;
use sifting::{Manager, Sifted};
use small_search::{SmallSearch, Workspace, are_few, is_small, write_optimum};
use std::alloc::Global;
use std::hint;
use std::process::Abort;
use std::sync::atomic::{AtomicU64, Ordering};
use std::thread::Threads;
use truth_table::{Tables, reduced_diagram};

static PARITY: &[u8] = b".i 3\n.o 1\n001 1\n010 1\n100 1\n111 1\n.e\n";

static MULTIPLEXER: &[u8] = b".i 3\n.o 1\n1-0 1\n-11 1\n.e\n";

static ALL_ONES: &[u8] = b".i 16\n.o 1\n1111111111111111 1\n.e\n";

pub(crate) fn tables_of<R: Abort + Threads + Sync>(rt: &R, alloc: Global, text: &[u8]) -> Tables {
    let cover = read_cover(alloc, &mut Counting::new(text)).expect(rt, "a cover");
    Tables::of_cover(rt, alloc, &cover).expect(rt, "memory")
}

/// The manager of some functions' reduced diagram under the file order.
pub(crate) fn manager_of(rt: &impl Abort, alloc: Global, tables: &Tables) -> Manager
    ensures { result.problem ≡ tables.now }
{
    let problem = tables.problem();
    let order = Order::file_order(alloc, problem.inputs()).expect(rt, "memory");
    assert!(rt; order.len() == usize::from(problem.inputs()));
    let diagram = reduced_diagram(alloc, tables, &order).expect(rt, "memory");
    diagrams_have_their_problems_tables(problem);
    Manager::of(alloc, diagram).expect(rt, "memory")
}

fn sifted_of(rt: &impl Abort, alloc: Global, tables: &Tables) -> Sifted
    ensures { result.problem ≡ tables.now }
{
    manager_of(rt, alloc, tables)
        .sift(alloc)
        .expect(rt, "memory")
}

/// The solution of a cover by two workers.
fn solved<R: Abort + Threads + Sync, G: Gate>(
    rt: &R,
    alloc: Global,
    text: &[u8],
    gate: &G,
) -> Solution {
    let tables = tables_of(rt, alloc, text);
    let workers = Workers::new(2).expect(rt, "two workers");
    let limit = Limit {
        bound: 16,
        lower_bound: LowerBound::Variables,
    };
    let problem = tables.problem();
    let pairs = Pairs::none(problem.inputs());
    let renaming = renaming_of(alloc, problem).expect(rt, "memory");
    let start = prepare(rt, alloc, &renaming, &pairs, limit, workers).expect(rt, "memory");
    let sifted = sifted_of(rt, alloc, &tables);
    solve(rt, alloc, start, sifted, workers, gate).expect(rt, "memory")
}

/// How many widths the cells of all sets take for a cover.
fn widths_of<R: Abort + Threads + Sync>(rt: &R, alloc: Global, text: &[u8]) -> u64 {
    let tables = tables_of(rt, alloc, text);
    let sifted = sifted_of(rt, alloc, &tables);
    count_widths(alloc, tables.problem(), sifted).expect(rt, "memory")
}

#[test]
fn widths_that_are_taken_are_counted(rt: HostRuntime) {
    assert!(rt; widths_of(&rt, rt.alloc(), PARITY) == 12);
    assert!(rt; widths_of(&rt, rt.alloc(), MULTIPLEXER) == 8);
}

fn is_optimum(found: &SizedOrder, order: &[VarIx], levels: &[u32], total: u32) -> bool {
    found.order.variables() == order && found.levels.as_slice() == levels && found.total == total
}

fn is_of_words(found: &SizedOrder) -> bool {
    is_optimum(found, &[0, 1, 2], &[1, 2, 2], 5)
}

fn solves_words(rt: &impl Abort, alloc: Global, tables: &Tables) -> bool {
    let sifted = sifted_of(rt, alloc, tables);
    let solved = solve_alone(alloc, tables.problem(), sifted).expect(rt, "memory");
    is_of_words(&solved.optimum)
}

/// Whether the calling thread finds the optimum of the words, without a certificate.
fn finds_optimum_of_words(rt: &impl Abort, alloc: Global, tables: &Tables) -> bool {
    let sifted = sifted_of(rt, alloc, tables);
    let found = find_optimum_alone(alloc, tables.problem(), sifted).expect(rt, "memory");
    is_of_words(&found)
}

/// Whether the search for small problems finds the optimum of the words, with a certificate and
/// without.
fn finds_words_small(rt: &impl Abort, alloc: Global, tables: &Tables) -> bool {
    let problem = tables.problem();
    let pairs = Pairs::none(problem.inputs());
    let solved = small_search::solve(alloc, problem, &pairs).expect(rt, "memory");
    let found = small_search::find_optimum(alloc, problem, &pairs).expect(rt, "memory");
    is_small(problem) && is_of_words(&solved.optimum) && is_of_words(&found)
}

/// Whether the search for small problems writes the optimum of the words, with memory of a larger
/// search.
fn writes_words_small(rt: &impl Abort, alloc: Global) -> bool {
    let mut workspace = Workspace::new(alloc);
    let pairs = Pairs::none(4);
    let parity = SmallSearch::new(4, 1, &[0x6996], &pairs);
    let parity_size = write_optimum(alloc, &parity, &mut workspace, &mut [0; 4], &mut [0; 4]);
    let pairs = Pairs::none(3);
    let words = SmallSearch::new(3, 1, &[0xff96], &pairs);
    let mut order = [3; 3];
    let mut levels = [0; 3];
    let size = write_optimum(alloc, &words, &mut workspace, &mut order, &mut levels);
    are_few(3, 1)
        && parity_size.expect(rt, "memory") == 7
        && size.expect(rt, "memory") == 5
        && order == [0, 1, 2]
        && levels == [1, 2, 2]
}

#[test]
fn one_thread_solves_packed_words(rt: HostRuntime) {
    assert!(rt; writes_words_small(&rt, rt.alloc()));
    let tables = Tables::of_words(rt.alloc(), 3, 1, &[0xff96]).expect(&rt, "memory");
    assert!(rt; finds_words_small(&rt, rt.alloc(), &tables));
    assert!(rt; solves_words(&rt, rt.alloc(), &tables));
    assert!(rt; finds_optimum_of_words(&rt, rt.alloc(), &tables));
}

/// Holds each of the workers 1 and 2 at its first call until the other has made one, for some turns
/// at most, and marks each of the items 1 to 65,535. The bits 0 and 1 stand for who came.
#[derive(Drop)]
struct Meet {
    came: AtomicU64,
    seen: Vec<AtomicU64>,
    calls: AtomicU64,
    again: AtomicU64,
    missed: AtomicU64,
}

impl Meet {
    /// Marks an item, and says whether it was none before.
    fn is_first(&self, item: u32) -> bool {
        let Some(marks) = self.seen.get(item as usize / 64) else {
            return false;
        };
        let bit = 1u64 << (item % 64);
        item > 0 && marks.fetch_or(bit, Ordering::SeqCst) & bit == 0
    }
}

impl Gate for Meet {
    fn between(&self, worker: u8, item: u32) {
        self.calls.fetch_add(1, Ordering::SeqCst);
        if !self.is_first(item) {
            self.again.fetch_add(1, Ordering::SeqCst);
        }
        if worker == 0 || worker > 2 {
            self.missed.store(1, Ordering::SeqCst);
            return;
        }
        self.came.fetch_or(u64::from(worker), Ordering::SeqCst);
        for _turn in 0..100_000_000u64 {
            if self.came.load(Ordering::SeqCst) == 0b11 {
                return;
            }
            hint::spin_loop();
        }
        self.missed.store(1, Ordering::SeqCst);
    }
}

/// A gate that no worker came to.
fn open_gate(rt: &impl Abort, alloc: Global) -> Meet {
    let mut seen = Vec::with_capacity(alloc, 1024).expect(rt, "memory");
    for _mark in 0..1024u32 {
        seen.push(AtomicU64::new(0)).expect(rt, "memory");
    }
    Meet {
        came: AtomicU64::new(0),
        seen,
        calls: AtomicU64::new(0),
        again: AtomicU64::new(0),
        missed: AtomicU64::new(0),
    }
}

/// Whether both workers came and met, and each of `items` items came once.
fn saw_each(gate: &Meet, items: u64) -> bool {
    gate.came.load(Ordering::SeqCst) == 0b11
        && gate.calls.load(Ordering::SeqCst) == items
        && gate.again.load(Ordering::SeqCst) == 0
        && gate.missed.load(Ordering::SeqCst) == 0
}

/// Whether a solution is the conjunction's, which has nothing to list.
fn is_of_ones(found: &Solution) -> bool {
    let all = [0, 1, 2, 3, 4, 5, 6, 7, 8, 9, 10, 11, 12, 13, 14, 15];
    is_optimum(&found.optimum, &all, &[1; 16], 16) && found.cells.is_empty()
}

#[test]
fn two_workers_meet_and_do_each_set_once(rt: HostRuntime) {
    let gate = open_gate(&rt, rt.alloc());
    let found = solved(&rt, rt.alloc(), ALL_ONES, &gate);
    assert!(rt; is_of_ones(&found) && saw_each(&gate, 65_535));
}
