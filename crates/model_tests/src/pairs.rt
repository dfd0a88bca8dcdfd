//! Pairs that an order must keep.

use order_model::{Order, Pairs, PairsFault, VarIx};
use std::alloc::Global;
use std::process::Abort;

/// Pairs that aren't pairs of three variables, with their faults.
static REFUSED: [(&[(VarIx, VarIx)], PairsFault); 3] = [
    (&[(0, 1), (0, 3)], PairsFault::PairOutOfRange),
    (&[(0, 16)], PairsFault::PairOutOfRange),
    (&[(1, 2), (2, 1)], PairsFault::PairCycle(1)),
];

#[test]
fn faulty_pairs_are_refused(rt: HostRuntime) {
    for (pairs, wanted) in &REFUSED {
        assert!(rt; Pairs::of(pairs, 3).err() == Some(*wanted));
    }
    assert!(rt; Pairs::parse(b" 0,1", 16).err() == Some(PairsFault::BadPair));
    assert!(rt; Pairs::of(&[(0, 16)], 16).err() == Some(PairsFault::PairOutOfRange));
}

/// Whether the pairs of three variables are 1 above 0 and 2 above 0.
fn are_two(rt: &impl Abort, alloc: Global, pairs: &Pairs) -> bool {
    let listed = pairs.to_vec(alloc).expect(rt, "memory");
    pairs.inputs() == 3
        && pairs.count() == 2
        && pairs.below(2) == 1
        && pairs.below(0) == 0
        && listed.as_slice() == [(1, 0), (2, 0)].as_slice()
}

fn pairs_of(rt: &impl Abort, text: &[u8]) -> Pairs {
    Pairs::parse(text, 3).expect(rt, "pairs")
}

#[test]
fn pairs_are_read_as_they_are_listed(rt: HostRuntime) {
    assert!(rt; are_two(&rt, rt.alloc(), &pairs_of(&rt, b"2,0:1,0:2,0")));
    let listed = Pairs::of(&[(2, 0), (1, 0), (2, 0)], 3).expect(&rt, "pairs");
    assert!(rt; are_two(&rt, rt.alloc(), &listed));
}

fn keeps(rt: &impl Abort, alloc: Global, pairs: &Pairs, order: &[VarIx]) -> bool {
    let order = Order::try_from_slice(alloc, order).expect(rt, "an order");
    assert!(rt; order.len() == usize::from(pairs.inputs()));
    pairs.keeps(&order)
}

#[test]
fn orders_and_sets_keep_pairs(rt: HostRuntime) {
    let pairs = pairs_of(&rt, b"2,0:1,0");
    assert!(rt; keeps(&rt, rt.alloc(), &pairs, &[1, 2, 0]));
    assert!(rt; !keeps(&rt, rt.alloc(), &pairs, &[1, 0, 2]));
    assert!(rt; pairs.lawful(0) && pairs.lawful(0b011) && !pairs.lawful(0b110));
}

fn is_first(rt: &impl Abort, alloc: Global, pairs: &Pairs, wanted: &[VarIx]) -> bool {
    let order = pairs.first_order(alloc).expect(rt, "memory");
    order.variables() == wanted
}

static ALL: [VarIx; 16] = [0, 1, 2, 3, 4, 5, 6, 7, 8, 9, 10, 11, 12, 13, 14, 15];

#[test]
fn first_orders_keep_pairs(rt: HostRuntime) {
    let below = pairs_of(&rt, b"2,0").copied();
    assert!(rt; is_first(&rt, rt.alloc(), &below, &[1, 2, 0]));
    let above = pairs_of(&rt, b"0,2").copied();
    assert!(rt; is_first(&rt, rt.alloc(), &above, &[0, 1, 2]));
    let none = Pairs::none(16);
    assert!(rt; none.count() == 0 && is_first(&rt, rt.alloc(), &none, &ALL));
}
