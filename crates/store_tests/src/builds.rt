//! Builds of small covers, by several workers, and in a full store.
ghost use Rattle.std.specs.Prelude.{◌≡◌, ◌≤◌, length};
ghost use Rattle.unique_table.specs.Plans.{levels_of, order_of};
ghost use Rattle.truth_table.specs.OfCovers.{AreTablesOf};
ghost use Rattle.dd_builder.specs.Building.{IsForCover};

use crate::full_stores::{lowest, make_all};
use counted_io::Counting;
use dd_builder::{
    BuildError, apply, build, build_from, build_tables, cover_store, from_cover, from_tables,
    tables_store,
};
use order_model::{Crew, Diagram, Gate, NoGate, Order, Workers};
use pla_reader::{Cover, read_cover};
use std::alloc::Global;
use std::hint;
use std::process::Abort;
use std::sync::atomic::{AtomicU64, Ordering};
use std::thread::Threads;
use truth_table::Tables;
use unique_table::{Operation, Session, Store};

/// The parity of three variables.
const PARITY: &[u8] = b".i 3\n.o 1\n001 1\n010 1\n100 1\n111 1\n.e\n";

/// Three products of two variables, x and x + 3.
const INTERLEAVED: &[u8] = b".i 6\n.o 1\n1--1-- 1\n-1--1- 1\n--1--1 1\n.e\n";

/// The conjunction of sixteen variables.
const SIXTEEN_ONES: &[u8] = b".i 16\n.o 1\n1111111111111111 1\n.e\n";

/// Covers, and the sizes of their reduced diagrams under their file orders.
static COVERS: [(&[u8], usize); 10] = [
    (PARITY, 5),
    (INTERLEAVED, 14),
    (SIXTEEN_ONES, 16),
    (b".i 3\n.o 1\n.e\n", 0),
    (b".i 1\n.o 2\n1 10\n0 01\n.e\n", 2),
    (b".i 2\n.o 2\n11 10\n1- 01\n-1 01\n.e\n", 3),
    (b".i 3\n.o 1\n--1 1\n.e\n", 1),
    (b".i 3\n.o 1\n1-0 1\n-11 1\n.e\n", 5),
    (b".i 1\n.o 1\n- 1\n.e\n", 0),
    (b".i 2\n.o 2\n.type f\n1- 1-\n-1 -1\n.e\n", 2),
];

/// A cover with its truth tables and its file order.
#[derive(Drop)]
struct Input {
    cover: Cover,
    tables: Tables,
    order: Order,
    ghost are_its_tables: { AreTablesOf cover tables },
    ghost is_its_order: { length order ≡ cover.inputs },
}

fn read_input<R: Abort + Threads + Sync>(rt: &R, alloc: Global, text: &[u8]) -> Input {
    let cover = read_cover(alloc, &mut Counting::new(text)).expect(rt, "a cover");
    let tables = Tables::of_cover(rt, alloc, &cover).expect(rt, "memory");
    let order = Order::file_order(alloc, cover.inputs()).expect(rt, "memory");
    Input {
        cover,
        tables,
        order,
    }
}

fn store_of(rt: &impl Abort, alloc: Global, input: &Input) -> (Store, Session)
    ensures cover { IsForCover result.0.plan input.now.cover }
    ensures order { order_of result.0.plan ≡ input.now.order }
    ensures session { result.1.store ≡ result.0 }
{
    cover_store(alloc, &input.cover, &input.tables, &input.order).expect(rt, "memory")
}

fn cover_size<R: Abort + Threads + Sync, G: Gate>(
    rt: &R,
    alloc: Global,
    input: &Input,
    workers: Workers,
    gate: &G,
) -> usize {
    let (store, session) = store_of(rt, alloc, input);
    let built = from_cover(rt, alloc, store, session, &input.cover, workers, gate);
    built.ok().expect(rt, "a diagram").size()
}

fn tables_size<R: Abort + Threads + Sync, G: Gate>(
    rt: &R,
    alloc: Global,
    input: &Input,
    workers: Workers,
    gate: &G,
) -> usize {
    let made = tables_store(alloc, &input.tables, &input.order);
    let (store, session) = made.expect(rt, "memory");
    let built = from_tables(rt, alloc, store, session, &input.tables, workers, gate);
    built.ok().expect(rt, "a diagram").size()
}

/// Whether a text's cover has a diagram of `size` nodes, from its terms and from its truth tables.
fn has_size<R: Abort + Threads + Sync>(
    rt: &R,
    alloc: Global,
    text: &[u8],
    size: usize,
    workers: Workers,
) -> bool {
    let input = read_input(rt, alloc, text);
    cover_size(rt, alloc, &input, workers, &NoGate) == size
        && tables_size(rt, alloc, &input, workers, &NoGate) == size
}

#[test]
fn covers_are_built_under_their_file_orders(rt: HostRuntime) {
    for count in [1u8, 2, 64] {
        let workers = Workers::new(count).expect(&rt, "workers");
        for (text, size) in &COVERS {
            assert!(rt; has_size(&rt, rt.alloc(), text, *size, workers));
        }
    }
}

/// Whether a diagram of the interleaved products has one root and their level counts.
fn is_interleaved(diagram: &Diagram) -> bool {
    diagram.roots().len() == 1 && &diagram.level_counts()[..6] == [1, 2, 4, 4, 2, 1].as_slice()
}

/// Whether the diagram that is built from a cover's terms is that of the interleaved products.
fn builds_interleaved<R: Abort + Threads + Sync>(
    rt: &R,
    alloc: Global,
    input: &Input,
    workers: Workers,
) -> bool {
    let Input {
        cover,
        tables,
        order,
    } = input;
    let built = build(rt, alloc, cover, tables, order, workers, &NoGate);
    is_interleaved(&built.expect(rt, "memory"))
}

/// Whether the diagram that is built from a cover's truth tables is that of the interleaved
/// products.
fn builds_interleaved_from_tables<R: Abort + Threads + Sync>(
    rt: &R,
    alloc: Global,
    input: &Input,
    workers: Workers,
) -> bool {
    let built = build_tables(rt, alloc, &input.tables, &input.order, workers, &NoGate);
    is_interleaved(&built.expect(rt, "memory"))
}

#[test]
fn diagrams_are_built_of_covers(rt: HostRuntime) {
    let input = read_input(&rt, rt.alloc(), INTERLEAVED);
    let two = Workers::new(2).expect(&rt, "two workers");
    assert!(rt; builds_interleaved(&rt, rt.alloc(), &input, two));
    assert!(rt; builds_interleaved_from_tables(&rt, rt.alloc(), &input, two));
}

/// Whether the operation gives the node of the conjunction of two variables.
fn gives_conjunction(rt: &impl Abort, store: &Store, session: &mut Session) -> bool
    requires session { session.old.store ≡ store.now }
    requires levels { 2 ≤ levels_of store.now.plan }
{
    let x = store.make(session, 0, 0, 1).expect(rt, "room");
    let y = store.make(session, 1, 0, 1).expect(rt, "room");
    let both = apply(store, session, Operation::And, x, y).expect(rt, "room");
    both == store.make(session, 0, 0, y).expect(rt, "room")
}

#[test]
fn operations_are_applied(rt: HostRuntime) {
    let input = read_input(&rt, rt.alloc(), PARITY);
    assert!(rt; input.order.len() == 3);
    let (store, mut session) = store_of(&rt, rt.alloc(), &input);
    assert!(rt; gives_conjunction(&rt, &store, &mut session));
}

/// Holds each of two workers at its first call until the other one has made one, for some turns at
/// most, and notes the items, which are below 64, and the workers that came.
#[derive(Drop)]
struct Meeting {
    came: AtomicU64,
    items: AtomicU64,
    failed: AtomicU64,
}

impl Gate for Meeting {
    fn between(&self, worker: u8, item: u32) {
        let mark = if item < 64 { 1u64 << item } else { 0 };
        if self.items.fetch_or(mark, Ordering::SeqCst) & mark != 0 || mark == 0 {
            self.failed.store(1, Ordering::SeqCst);
        }
        let worker = if worker == 2 { 0b10 } else { 0b01 };
        self.came.fetch_or(worker, Ordering::SeqCst);
        for _ in 0..100_000_000u64 {
            if self.came.load(Ordering::SeqCst) == 0b11 {
                return;
            }
            hint::spin_loop();
        }
        self.failed.store(1, Ordering::SeqCst);
    }
}

impl Meeting {
    fn new() -> Meeting {
        Meeting {
            came: AtomicU64::new(0),
            items: AtomicU64::new(0),
            failed: AtomicU64::new(0),
        }
    }

    /// Whether the workers met, and each of the items came once.
    fn saw_each(&self, items: u64) -> bool {
        self.items.load(Ordering::SeqCst) == items && self.failed.load(Ordering::SeqCst) == 0
    }
}

fn meet_over_terms<R: Abort + Threads + Sync>(
    rt: &R,
    alloc: Global,
    input: &Input,
    workers: Workers,
) -> bool {
    let gate = Meeting::new();
    cover_size(rt, alloc, input, workers, &gate) == 16 && gate.saw_each(u64::MAX)
}

fn meet_over_restrictions<R: Abort + Threads + Sync>(
    rt: &R,
    alloc: Global,
    input: &Input,
    workers: Workers,
) -> bool {
    let gate = Meeting::new();
    tables_size(rt, alloc, input, workers, &gate) == 16 && gate.saw_each(0b1111)
}

/// Fills a store of sixteen levels with nodes of the lowest five.
fn fill_lowest(rt: &impl Abort, alloc: Global, store: &Store, session: &mut Session)
    requires session { session.old.store ≡ store.now }
    requires levels { levels_of store.now.plan ≡ 16 }
    ensures { session.new.store ≡ store.now }
{
    let below = lowest(rt, alloc, store, session);
    let mut ids = Vec::new(alloc);
    make_all(rt, store, session, 11, &below, &below, 1_000_000, &mut ids);
}

/// A store for a cover of sixteen variables that is full of nodes of the lowest five levels.
fn full_store(rt: &impl Abort, alloc: Global, input: &Input) -> (Store, Session)
    ensures cover { IsForCover result.0.plan input.now.cover }
    ensures order { order_of result.0.plan ≡ input.now.order }
    ensures session { result.1.store ≡ result.0 }
{
    assert!(rt; input.order.len() == 16);
    let (store, mut session) = store_of(rt, alloc, input);
    fill_lowest(rt, alloc, &store, &mut session);
    (store, session)
}

/// Whether the terms of a cover of sixteen variables meet a store that is full.
fn terms_meet_full_store<R: Abort + Threads + Sync>(
    rt: &R,
    alloc: Global,
    input: &Input,
    workers: Workers,
) -> bool {
    let (store, session) = full_store(rt, alloc, input);
    let built = from_cover(rt, alloc, store, session, &input.cover, workers, &NoGate);
    matches!(built, Err(BuildError::StoreFull(_)))
}

/// How many nodes are built if the store of a cover of sixteen variables is full.
fn size_from_full_store<R: Abort + Threads + Sync>(
    rt: &R,
    alloc: Global,
    input: &Input,
    workers: Workers,
) -> usize {
    let crew = Crew::new(rt, workers, &NoGate);
    let begun = full_store(rt, alloc, input);
    let built = build_from(
        &crew,
        alloc,
        begun,
        &input.cover,
        &input.tables,
        &input.order,
    );
    built.expect(rt, "memory").size()
}

#[test]
fn two_workers_build_at_once_and_past_a_full_store(rt: HostRuntime) {
    let input = read_input(&rt, rt.alloc(), SIXTEEN_ONES);
    let two = Workers::new(2).expect(&rt, "two workers");
    assert!(rt; meet_over_terms(&rt, rt.alloc(), &input, two));
    assert!(rt; meet_over_restrictions(&rt, rt.alloc(), &input, two));
    assert!(rt; terms_meet_full_store(&rt, rt.alloc(), &input, two));
    assert!(rt; size_from_full_store(&rt, rt.alloc(), &input, two) == 16);
}
