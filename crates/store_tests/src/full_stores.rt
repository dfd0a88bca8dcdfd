//! Filling a store, and sessions of two threads.

ghost use Rattle.std.specs.Prelude.{◌≡◌, ◌<◌};
ghost use Rattle.std.specs.List.{All};
ghost use Rattle.unique_table.specs.Plans.{levels_of};
ghost use Rattle.unique_table.specs.Sessions.{IsKnownBelow, Follows, Knowledge};
ghost use Rattle.store_tests.specs.Cases.{AreFrom};

use crate::fresh::fresh_store;
use order_model::Problem;
use std::alloc::Global;
use std::process::Abort;
use std::thread::{Threads, join};
use unique_table::{NodeId, Session, Store, StoreFull};

/// Makes a node, and adds its id. Returns whether the store wasn't full.
fn make_one(
    rt: &impl Abort,
    store: &Store,
    session: &mut Session,
    level: u8,
    low: NodeId,
    high: NodeId,
    ids: &mut Vec<NodeId>,
) -> bool
    requires session { session.old.store ≡ store.now }
    requires level { level < levels_of store.now.plan }
    requires low { IsKnownBelow session.old level low }
    requires high { IsKnownBelow session.old level high }
    requires ids { AreFrom session.old level ids.old.items }
    ensures follows { Follows session.old session.new }
    ensures ids { AreFrom session.new level ids.new.items }
{
    if low == high {
        return true;
    }
    let Ok(id) = store.make(session, level, low, high) else {
        return false;
    };
    ids.push(id).expect(rt, "memory");
    true
}

/// Makes a node for each pair of unequal ids, until there are enough or the store is full.
pub(crate) fn make_all(
    rt: &impl Abort,
    store: &Store,
    session: &mut Session,
    level: u8,
    lows: &[NodeId],
    highs: &[NodeId],
    most: usize,
    ids: &mut Vec<NodeId>,
)
    requires session { session.old.store ≡ store.now }
    requires level { level < levels_of store.now.plan }
    requires lows { All (IsKnownBelow session.old level) lows.now }
    requires highs { All (IsKnownBelow session.old level) highs.now }
    requires ids { AreFrom session.old level ids.old.items }
    ensures follows { Follows session.old session.new }
    ensures ids { AreFrom session.new level ids.new.items }
{
    for low in lows {
        for high in highs {
            if ids.len() >= most {
                return;
            }
            if !make_one(rt, store, session, level, *low, *high, ids) {
                return;
            }
        }
    }
}

/// All nodes of the lowest four levels of sixteen, and the terminals.
pub(crate) fn lowest(
    rt: &impl Abort,
    alloc: Global,
    store: &Store,
    session: &mut Session,
) -> Vec<NodeId>
    requires session { session.old.store ≡ store.now }
    requires levels { levels_of store.now.plan ≡ 16 }
    ensures follows { Follows session.old session.new }
    ensures ids { All (IsKnownBelow session.new 11) result.items }
{
    let mut ids = [0u32, 1].to_vec(alloc).expect(rt, "memory");
    for step in 0..4u8 {
        let below = ids.to_vec(alloc).expect(rt, "memory");
        make_all(
            rt,
            store,
            session,
            15 - step,
            &below,
            &below,
            1_000_000,
            &mut ids,
        );
    }
    ids
}

fn sixteen(rt: &impl Abort, alloc: Global) -> (Store, Session)
    ensures session { result.1.store ≡ result.0 }
    ensures levels { levels_of result.0.plan ≡ 16 }
{
    let problem = Problem::new(alloc, 16, 1).expect(rt, "memory");
    fresh_store(rt, alloc, &problem)
}

/// Asks a full store for a triple that it doesn't have, and for two that it has, with these ids.
fn ask(
    rt: &impl Abort,
    store: &Store,
    session: &mut Session,
    below: &[NodeId],
    first: NodeId,
    second: NodeId,
)
    requires session { session.old.store ≡ store.now }
    requires levels { levels_of store.now.plan ≡ 16 }
    requires below { All (IsKnownBelow session.old 11) below.now }
{
    assert!(rt; below.len() == 65_536);
    let further = store.make(session, 11, below[50_000], below[3]);
    let one = store.make(session, 11, below[0], below[1]);
    let two = store.make(session, 11, below[2], below[0]);
    assert!(rt; further == Err(StoreFull) && one == Ok(first) && two == Ok(second));
}

fn fill(rt: &impl Abort, alloc: Global, store: &Store, session: &mut Session)
    requires session { session.old.store ≡ store.now }
    requires levels { levels_of store.now.plan ≡ 16 }
{
    let below = lowest(rt, alloc, store, session);
    let mut ids = Vec::new(alloc);
    make_all(rt, store, session, 11, &below, &below, 196_610, &mut ids);
    assert!(rt; ids.len() == 196_610);
    ask(rt, store, session, &below, ids[0], ids[131_070]);
}

#[test]
fn one_session_fills_a_store(rt: HostRuntime) {
    let (store, mut session) = sixteen(&rt, rt.alloc());
    fill(&rt, rt.alloc(), &store, &mut session);
}

/// What one thread made: the nodes of the lowest four levels, and those of level 11.
#[derive(Drop)]
struct Filled {
    session: Session,
    below: Vec<NodeId>,
    ids: Vec<NodeId>,
}

/// The lowest four levels, and nodes of level 11 whose low child stands at place `from` or after
/// it.
fn fill_part(rt: &impl Abort, alloc: Global, store: &Store, session: Session, from: usize) -> Filled
    requires session { session.store ≡ store.now }
    requires levels { levels_of store.now.plan ≡ 16 }
    ensures store { result.session.store ≡ store.now }
    ensures below { All (IsKnownBelow result.session 11) result.below.items }
{
    let mut session = session;
    let below = lowest(rt, alloc, store, &mut session);
    let mut ids = Vec::new(alloc);
    make_all(
        rt,
        store,
        &mut session,
        11,
        behind(&below, from),
        &below,
        98_305,
        &mut ids,
    );
    Filled {
        session,
        below,
        ids,
    }
}

fn behind(ids: &[NodeId], from: usize) -> &[NodeId]
    ensures { (s : Knowledge) → All (IsKnownBelow s 11) ids.entry.now →
        All (IsKnownBelow s 11) result.now }
{
    if from <= ids.len() { &ids[from..] } else { ids }
}

/// Asks a store by the joined sessions of two threads that filled it.
fn ask_both(rt: &impl Abort, store: &Store, one: Filled, two: Filled)
    requires one { one.session.store ≡ store.now }
    requires two { two.session.store ≡ store.now }
    requires levels { levels_of store.now.plan ≡ 16 }
    requires below { All (IsKnownBelow one.session 11) one.below.items }
{
    assert!(rt; one.ids.len() == 98_305 && two.ids.len() == 98_305);
    let mut both = store.join(one.session, two.session);
    ask(rt, store, &mut both, &one.below, one.ids[0], two.ids[0]);
}

/// Two threads fill a store, from different places on.
fn fill_by_two<R: Abort + Threads + Sync>(rt: &R, alloc: Global, store: &Store, session: Session)
    requires session { session.store ≡ store.now }
    requires levels { levels_of store.now.plan ≡ 16 }
{
    let (one, two) = store.split(session);
    let (one, two) = join(
        rt,
        || -> Filled
            requires { (one.store ≡ store.now) × (levels_of store.now.plan ≡ 16) }
            ensures { (result.session.store ≡ store.entry.now)
                × All (IsKnownBelow result.session 11) result.below.items }
        { fill_part(rt, alloc, store, one, 0) },
        || -> Filled
            requires { (two.store ≡ store.now) × (levels_of store.now.plan ≡ 16) }
            ensures { result.session.store ≡ store.entry.now }
        { fill_part(rt, alloc, store, two, 2) },
    );
    ask_both(rt, store, one, two);
}

#[test]
fn two_threads_fill_a_store(rt: HostRuntime) {
    let (store, session) = sixteen(&rt, rt.alloc());
    fill_by_two(&rt, rt.alloc(), &store, session);
}
