//! Orbits of sets, of which the first ones alone have rows.

use crate::problems::{PackedTables, problem_of, set_one};
use compaction::Preparation;
use order_model::{Pairs, Problem, Workers};
use std::alloc::Global;
use std::process::Abort;
use symmetries::{Orbits, Renaming};

/// x0 x1 + x2 x3.
const TWO_PRODUCTS: PackedTables = (4, &[0xf888]);

/// The first set of the orbit of each set.
const FIRST_SETS: [u16; 16] = [0, 1, 1, 3, 1, 5, 5, 7, 1, 5, 5, 7, 3, 7, 7, 15];

#[test]
fn variables_of_a_product_and_products_may_be_exchanged(rt: HostRuntime) {
    let problem = problem_of(&rt, rt.alloc(), TWO_PRODUCTS);
    assert!(rt; problem.inputs() == 4);
    let found = Orbits::of(rt.alloc(), &problem, &Pairs::none(4)).expect(&rt, "memory");
    let orbits = found.expect(&rt, "exchanges");
    for set in 0..16u16 {
        let first = FIRST_SETS[usize::from(set)];
        assert!(rt; orbits.first_of(set).set == first && orbits.is_first(set) == (first == set));
    }
}

/// x8 x9 + x0 x10, of eleven variables.
fn high_products(rt: &impl Abort, alloc: Global) -> Problem {
    let mut problem = Problem::new(alloc, 11, 1).expect(rt, "memory");
    for point in 0..2048u32 {
        if point & 0x300 == 0x300 || point & 0x401 == 0x401 {
            set_one(rt, &mut problem, 0, point);
        }
    }
    problem
}

/// The first set of the orbit of a set of eleven variables, which has one.
fn first_of(rt: &impl Abort, alloc: Global, problem: &Problem, pairs: &Pairs, set: u16) -> u16 {
    assert!(rt; problem.inputs() == 11 && set < 2048);
    let found = Orbits::of(alloc, problem, pairs).expect(rt, "memory");
    found.expect(rt, "exchanges").first_of(set).set
}

// Variables 8 and 9 may go to 0 and 10.
#[test]
fn the_first_set_has_the_fewest_high_variables(rt: HostRuntime) {
    let problem = high_products(&rt, rt.alloc());
    let pairs = Pairs::none(11);
    assert!(rt; first_of(&rt, rt.alloc(), &problem, &pairs, 0x300) == 0x401);
    assert!(rt; first_of(&rt, rt.alloc(), &problem, &pairs, 0x100) == 0x001);
}

// Where 0 stands above 10, the set of 0 alone is not lawful.
#[test]
fn orbits_are_of_lawful_sets(rt: HostRuntime) {
    let problem = high_products(&rt, rt.alloc());
    let pairs = Pairs::of(&[(0, 10)], 11).expect(&rt, "pairs");
    assert!(rt; first_of(&rt, rt.alloc(), &problem, &pairs, 0x100) == 0x100);
    assert!(rt; first_of(&rt, rt.alloc(), &problem, &pairs, 0x400) == 0x200);
}

#[test]
fn first_sets_alone_have_rows(rt: HostRuntime) {
    let problem = problem_of(&rt, rt.alloc(), TWO_PRODUCTS);
    assert!(rt; problem.inputs() == 4);
    let pairs = Pairs::none(4);
    let workers = Workers::new(2).expect(&rt, "workers");
    let renaming = Renaming::none(&problem);
    let found = Preparation::by_workers(&rt, rt.alloc(), &renaming, &pairs, 4, workers);
    let prepared = found.expect(&rt, "memory");
    for set in 1..16u16 {
        let is_first = FIRST_SETS[usize::from(set)] == set;
        assert!(rt; prepared.is_found(set) == is_first);
    }
}
