//! Class tables, compacted and numbered in both ways.

ghost use Rattle.std.specs.Prelude.{◌≡◌};

use crate::problems::{MULTIPLEXER, PROBLEMS, problem_of};
use class_tables::{Classes, Scratch};
use compaction::Tally;
use order_model::{Mask, Problem, VarIx};
use std::alloc::Global;
use std::process::Abort;
use subfunction_classes::count_with;

fn are_same(one: &Classes<'_>, other: &Classes<'_>) -> bool {
    one.set() == other.set() && one.numbers() == other.numbers()
}

/// The classes with one more variable, which isn't in the set, found alike in both ways.
fn with<'a>(rt: &impl Abort, alloc: Global, classes: &Classes<'a>, x: VarIx) -> Classes<'a> {
    assert!(rt; classes.lacks(x));
    let next = classes.compact(alloc, x).expect(rt, "memory");
    let indexed = classes.compact_indexed(alloc, x).expect(rt, "memory");
    assert!(rt; are_same(&next, &indexed));
    next
}

fn width_of(
    rt: &impl Abort,
    alloc: Global,
    classes: &Classes<'_>,
    x: VarIx,
    tally: &mut Tally,
) -> u32 {
    assert!(rt; classes.lacks(x) && tally.count() < 1000);
    classes.width(alloc, x, tally).expect(rt, "memory")
}

/// Whether the table of the empty set has the multiplexer's values for its numbers, and one
/// subfunction depends on the first variable.
fn are_of_no_variable(
    rt: &impl Abort,
    alloc: Global,
    none: &Classes<'_>,
    tally: &mut Tally,
) -> bool {
    width_of(rt, alloc, none, 0, tally) == 1
        && none.numbers() == [0, 1, 0, 1, 0, 0, 1, 1].as_slice()
}

/// Whether the table of the first variable has the right numbers, and the right widths over it.
fn are_of_first_variable(
    rt: &impl Abort,
    alloc: Global,
    one: &Classes<'_>,
    tally: &mut Tally,
) -> bool {
    width_of(rt, alloc, one, 1, tally) == 1
        && width_of(rt, alloc, one, 2, tally) == 2
        && one.set() == 1
        && !one.lacks(0)
        && one.lacks(1)
        && one.numbers() == [0, 0, 1, 2].as_slice()
}

fn has_two_with(rt: &impl Abort, alloc: Global, one: &Classes<'_>, x: VarIx) -> bool {
    with(rt, alloc, one, x).numbers() == [0, 1].as_slice()
}

/// Whether the table of the first of three variables is also found at once.
fn is_found_at_once(rt: &impl Abort, alloc: Global, problem: &Problem, one: &Classes<'_>) -> bool {
    assert!(rt; problem.inputs() == 3);
    let same = Classes::of_set(alloc, problem, 0x0001).expect(rt, "memory");
    same.numbers() == one.numbers()
}

#[test]
fn the_multiplexer_has_its_classes(rt: HostRuntime) {
    let problem = problem_of(&rt, rt.alloc(), MULTIPLEXER);
    let mut tally = Tally::new();
    let none = Classes::of_problem(rt.alloc(), &problem).expect(&rt, "memory");
    assert!(rt; are_of_no_variable(&rt, rt.alloc(), &none, &mut tally));
    let one = with(&rt, rt.alloc(), &none, 0);
    assert!(rt; are_of_first_variable(&rt, rt.alloc(), &one, &mut tally));
    assert!(rt; has_two_with(&rt, rt.alloc(), &one, 1) && has_two_with(&rt, rt.alloc(), &one, 2));
    assert!(rt; is_found_at_once(&rt, rt.alloc(), &problem, &one) && tally.count() == 3);
}

fn compact_by_each(rt: &impl Abort, alloc: Global, problem: &Problem, classes: &Classes<'_>) {
    for x in 0..problem.inputs() {
        if classes.lacks(x) {
            let _next = with(rt, alloc, classes, x);
        }
    }
}

/// Adds to every set each variable that isn't in it, in both ways.
fn compact_all(rt: &impl Abort, alloc: Global, problem: &Problem) {
    for mask in 0..64u16 {
        if u32::from(mask) < 1u32 << problem.inputs() {
            let classes = Classes::of_set(alloc, problem, mask).expect(rt, "memory");
            compact_by_each(rt, alloc, problem, &classes);
        }
    }
}

#[test]
fn both_numberings_agree(rt: HostRuntime) {
    for tables in &PROBLEMS {
        compact_all(&rt, rt.alloc(), &problem_of(&rt, rt.alloc(), *tables));
    }
}

/// The width of a variable, found alike in both ways, each of which counts it.
fn width_in_both_ways(
    rt: &impl Abort,
    alloc: Global,
    problem: &Problem,
    classes: &Classes<'_>,
    x: VarIx,
) -> u32
    requires { classes.now.problem ≡ problem.now }
{
    let mut tally = Tally::new();
    let width = width_of(rt, alloc, classes, x, &mut tally);
    assert!(rt; tally.count() == 1 && classes.lacks(x));
    let mut scratch = Scratch::of(alloc, problem).expect(rt, "memory");
    let again = classes.width_in(x, &mut scratch, &mut tally);
    assert!(rt; again == width && tally.count() == 2);
    width
}

pub(crate) fn width_alone(
    rt: &impl Abort,
    alloc: Global,
    problem: &Problem,
    without: Mask,
    x: VarIx,
) -> u32 {
    assert!(rt; u32::from(without) < 1u32 << problem.inputs());
    let classes = Classes::of_set(alloc, problem, without).expect(rt, "memory");
    width_in_both_ways(rt, alloc, problem, &classes, x)
}

#[test]
fn masks_with_a_variable_are_counted(rt: HostRuntime) {
    let masks = [0b0101, 0b0011, 0b1000, 0];
    let counts = [
        count_with(&masks, 0),
        count_with(&masks, 3),
        count_with(&masks, 15),
        count_with(&masks[..0], 0),
    ];
    assert!(rt; counts == [2, 1, 0, 0]);
}
