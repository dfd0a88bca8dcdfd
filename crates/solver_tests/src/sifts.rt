//! The steps of a sift, and a sum that more passes tighten.

ghost use Rattle.std.specs.Prelude.{◌<◌, length};

use crate::searches::{manager_of, tables_of};
use order_model::VarIx;
use sifting::Manager;
use std::alloc::Global;
use std::process::Abort;
use std::thread::Threads;

// Three products of two of six inputs, x and x + 3.
static INTERLEAVED: &[u8] = b".i 6\n.o 1\n1--1-- 1\n-1--1- 1\n--1--1 1\n.e\n";

// The sum of two numbers of two bits, with the inputs a0, b0, a1, b1.
static SUM: &[u8] =
    b".i 4\n.o 3\n10-- 100\n01-- 100\n1100 010\n1111 010\n0-10 010\n-010 010\n0-01 010\n-001 010\n--11 001\n111- 001\n11-1 001\n.e\n";

fn managed<R: Abort + Threads + Sync>(rt: &R, alloc: Global, text: &[u8]) -> Manager {
    manager_of(rt, alloc, &tables_of(rt, alloc, text))
}

/// A variable, the sizes with it on each level, and the order after it.
type Step = (VarIx, [u32; 6], [VarIx; 6]);

/// The variables in turn.
static STEPS: [Step; 6] = [
    (2, [14, 14, 14, 10, 8, 8], [0, 1, 3, 4, 2, 5]),
    (3, [6, 6, 8, 8, 10, 10], [3, 0, 1, 4, 2, 5]),
    (1, [8, 8, 6, 6, 8, 8], [3, 0, 1, 4, 2, 5]),
    (4, [8, 8, 6, 6, 8, 8], [3, 0, 4, 1, 2, 5]),
    (0, [6, 6, 8, 8, 10, 10], [0, 3, 4, 1, 2, 5]),
    (5, [10, 10, 8, 8, 6, 6], [0, 3, 4, 1, 5, 2]),
];

fn swapped(rt: &impl Abort, alloc: Global, manager: Manager, level: usize) -> Manager
    requires { level < 16 }
{
    assert!(rt; level + 1 < manager.order().len() && manager.may_swap(level));
    manager.swap(alloc, level).expect(rt, "memory")
}

/// The manager with a variable on top.
fn lifted(rt: &impl Abort, alloc: Global, manager: Manager, x: VarIx) -> Manager {
    assert!(rt; usize::from(x) < manager.order().len());
    let from = manager.order().place_of(x);
    let mut manager = manager;
    for level in (0..from).rev() {
        manager = swapped(rt, alloc, manager, level);
    }
    manager
}

/// The manager with the variable on top on the lowest of six levels, if the sizes with it on each
/// level, top first, are these.
fn lowered(rt: &impl Abort, alloc: Global, manager: Manager, sizes: &[u32; 6]) -> Manager {
    let mut manager = manager;
    for level in 0..5usize {
        assert!(rt; manager.size() == sizes[level]);
        manager = swapped(rt, alloc, manager, level);
    }
    assert!(rt; manager.size() == sizes[5]);
    manager
}

/// The manager with a variable where `put_best` puts it, if the order is this one.
fn put_best(
    rt: &impl Abort,
    alloc: Global,
    manager: Manager,
    x: VarIx,
    order: &[VarIx],
) -> Manager {
    assert!(rt; usize::from(x) < manager.order().len());
    let best = manager.put_best(alloc, x).expect(rt, "memory");
    assert!(rt; best.order().variables() == order);
    best
}

/// The manager after a step: its variable goes to the top, then to the lowest level, and then to
/// where `put_best` puts it.
fn stepped(rt: &impl Abort, alloc: Global, manager: Manager, step: &Step) -> Manager {
    let (x, sizes, after) = step;
    let highest = lifted(rt, alloc, manager, *x);
    let lowest = lowered(rt, alloc, highest, sizes);
    put_best(rt, alloc, lowest, *x, after)
}

#[test]
fn each_step_puts_a_variable_at_its_best_place(rt: HostRuntime) {
    let mut manager = managed(&rt, rt.alloc(), INTERLEAVED);
    assert!(rt; manager.size() == 14);
    for step in &STEPS {
        manager = stepped(&rt, rt.alloc(), manager, step);
    }
}

#[test]
fn sifting_on_tightens_the_bound_of_the_sum(rt: HostRuntime) {
    let sifted = managed(&rt, rt.alloc(), SUM)
        .sift(rt.alloc())
        .expect(&rt, "memory");
    assert!(rt; sifted.size() == 13);
    let converged = sifted
        .sifted_to_convergence(rt.alloc())
        .expect(&rt, "memory");
    assert!(rt; converged.size() == 11);
}
