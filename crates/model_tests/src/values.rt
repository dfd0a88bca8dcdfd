//! Workers, orders, truth tables and the lower bound on the nodes above sets.

ghost use Rattle.std.specs.Prelude.{◌≡◌, ◌≤◌};

use order_model::packed::{bit_of, block, depends_on, lower_half, words_per_table};
use order_model::{
    BadOrder, Gate, LowerBound, LowerBounds, Mask, NoGate, Order, Problem, VarIx, Workers,
    contains, decimal_number, total,
};
use std::alloc::Global;
use std::process::Abort;

/// How many workers there are, if the number is from 1 to 64.
fn counted(count: u8) -> Option<u8> {
    Some(Workers::new(count)?.count())
}

#[test]
fn one_to_sixty_four_workers_are_accepted(rt: HostRuntime) {
    let counts = [counted(0), counted(1), counted(64), counted(65)];
    assert!(rt; counts == [None, Some(1), Some(64), None]);
    NoGate.between(1, 7);
}

/// Texts, and the decimal numbers that they are.
static NUMBERS: [(&[u8], Option<u32>); 7] = [
    (b"0", Some(0)),
    (b"007", Some(7)),
    (b"999999999", Some(999_999_999)),
    (b"", None),
    (b"1000000000", None),
    (b"+5", None),
    (b"1a", None),
];

#[test]
fn decimal_numbers_have_one_to_nine_digits(rt: HostRuntime) {
    for (text, wanted) in &NUMBERS {
        assert!(rt; decimal_number(text) == *wanted);
    }
}

#[test]
fn sets_contain_their_members(rt: HostRuntime) {
    let members = [
        contains(5, 2),
        contains(5, 1),
        contains(0x8000, 15),
        contains(0, 0),
    ];
    assert!(rt; members == [true, false, true, false]);
    assert!(rt; total(&[3, 0, 0xFFFF_FFFF]) == 0x1_0000_0002);
}

/// Lists that are no orders, with their faults.
static REFUSED: [(&[VarIx], BadOrder); 5] = [
    (&[], BadOrder::OutOfRange),
    (&[1, 1], BadOrder::NotEach),
    (&[0, 2], BadOrder::OutOfRange),
    (&[3, 0, 0], BadOrder::OutOfRange),
    (
        &[0, 1, 2, 3, 4, 5, 6, 7, 8, 9, 10, 11, 12, 13, 14, 15, 16],
        BadOrder::OutOfRange,
    ),
];

#[test]
fn lists_that_are_no_orders_are_refused(rt: HostRuntime) {
    for (list, wanted) in &REFUSED {
        assert!(rt; Order::try_from_slice(rt.alloc(), list).err() == Some(*wanted));
    }
}

fn is_copied(rt: &impl Abort, alloc: Global, order: &Order, wanted: &[VarIx]) -> bool {
    let copy = order.try_clone(alloc).expect(rt, "memory");
    copy.variables() == wanted && order.variables() == wanted
}

/// Whether the list of an order makes the same order again.
fn is_made_again(rt: &impl Abort, alloc: Global, wanted: &[VarIx]) -> bool {
    let order = Order::try_from_slice(alloc, wanted).expect(rt, "an order");
    let listed = order.variables().to_vec(alloc).expect(rt, "memory");
    Order::from_variables(listed).variables() == wanted
}

/// Whether 2, 0, 1 is so ordered, and also once its two lowest are exchanged.
fn is_exchanged(rt: &impl Abort, alloc: Global, order: &mut Order) -> bool {
    assert!(rt; order.len() == 3 && is_copied(rt, alloc, order, &[2, 0, 1]));
    order.swap(1);
    order.len() == 3 && order.place_of(0) == 2 && is_copied(rt, alloc, order, &[2, 1, 0])
}

#[test]
fn orders_are_copied_and_exchanged(rt: HostRuntime) {
    let file_order = Order::file_order(rt.alloc(), 4).expect(&rt, "memory");
    assert!(rt; is_copied(&rt, rt.alloc(), &file_order, &[0, 1, 2, 3]));
    let list = [2, 0, 1];
    assert!(rt; is_made_again(&rt, rt.alloc(), &list));
    let mut order = Order::try_from_slice(rt.alloc(), &list).expect(&rt, "an order");
    assert!(rt; is_exchanged(&rt, rt.alloc(), &mut order));
}

/// A problem with the value 1 at the given outputs and points.
fn problem_of(rt: &impl Abort, alloc: Global, n: u8, m: u8, ones: &[(u8, u32)]) -> Problem
    requires some_inputs { 1 ≤ n }
    requires few_inputs { n ≤ 16 }
    requires some_outputs { 1 ≤ m }
    requires few_outputs { m ≤ 16 }
{
    let mut problem = Problem::new(alloc, n, m).expect(rt, "memory");
    for (output, point) in ones {
        assert!(rt; *output < problem.outputs() && *point < 1u32 << problem.inputs());
        problem.set(*output, *point);
    }
    problem
}

fn is_of_both(problem: &Problem) -> bool {
    if problem.inputs() != 2 || problem.outputs() != 2 {
        return false;
    }
    for point in 0..4u32 {
        let (conjunction, disjunction) = (point == 3, point > 0);
        if problem.value(0, point) != conjunction || problem.value(1, point) != disjunction {
            return false;
        }
    }
    problem.essential() == 0b11
}

fn is_multiplexer(problem: &Problem) -> bool {
    let inputs = problem.inputs();
    if inputs != 3 || problem.outputs() != 1 || problem.essential() != 0b111 {
        return false;
    }
    let words = problem.words(0);
    for x in 0..inputs {
        if !depends_on(inputs, words, x) {
            return false;
        }
    }
    words == [0b1100_1010].as_slice()
}

/// Whether the words of a problem with the multiplexer's values make such a problem again.
fn is_made_of_words(rt: &impl Abort, alloc: Global, problem: &Problem) -> bool {
    let (inputs, outputs) = (problem.inputs(), problem.outputs());
    assert!(rt; inputs == 3 && outputs == 1);
    let words = problem.words(0).to_vec(alloc).expect(rt, "memory");
    is_multiplexer(&Problem::from_words(inputs, outputs, words))
}

/// The variables on which the first function depends.
fn support_of_first(rt: &impl Abort, problem: &Problem) -> Mask {
    assert!(rt; problem.outputs() >= 1);
    problem.support(0)
}

#[test]
fn problems_have_the_values_that_were_set(rt: HostRuntime) {
    let ones = [(0, 3), (1, 1), (1, 2), (1, 3)];
    assert!(rt; is_of_both(&problem_of(&rt, rt.alloc(), 2, 2, &ones)));
    let ones = [(0, 1), (0, 3), (0, 6), (0, 7)];
    let multiplexer = problem_of(&rt, rt.alloc(), 3, 1, &ones);
    assert!(rt; is_multiplexer(&multiplexer));
    assert!(rt; is_made_of_words(&rt, rt.alloc(), &multiplexer));
    // variables past the first word
    let long = problem_of(&rt, rt.alloc(), 7, 1, &[(0, 64), (0, 127)]);
    assert!(rt; long.essential() == 0b0111_1111 && support_of_first(&rt, &long) == 0b0111_1111);
}

/// The lower bound on the nodes above the variable 0 of three, if its width is 2.
fn above_the_first(problem: &Problem, lower_bound: LowerBound) -> u64
    requires { problem.now.inputs ≡ 3 }
{
    let mut widths = [0; 16];
    widths[0] = 2;
    LowerBounds::new(problem, lower_bound).above(1, &widths)
}

/// Whether the lower bounds above sets of three essential variables count two nodes by variables,
/// and three by widths.
fn counts_on_what_is_left(rt: &impl Abort, problem: &Problem) -> bool {
    assert!(rt; problem.inputs() == 3);
    let lower_bounds = LowerBounds::new(problem, LowerBound::Widths);
    lower_bounds.essential() == 0b111
        && lower_bounds.lower_bound() == LowerBound::Widths
        && above_the_first(problem, LowerBound::Variables) == 2
        && above_the_first(problem, LowerBound::Widths) == 3
}

// The conjunction of 1 and 2, and the parity of 0, 1 and 2, of which two subfunctions depend on 0.
#[test]
fn lower_bounds_count_the_nodes_above_a_set(rt: HostRuntime) {
    let ones = [(0, 6), (0, 7), (1, 1), (1, 2), (1, 4), (1, 7)];
    let problem = problem_of(&rt, rt.alloc(), 3, 2, &ones);
    assert!(rt; counts_on_what_is_left(&rt, &problem));
}

#[test]
fn packed_words_hold_truth_tables(rt: HostRuntime) {
    let counts = [
        words_per_table(1),
        words_per_table(6),
        words_per_table(7),
        words_per_table(16),
    ];
    assert!(rt; counts == [1, 1, 2, 1024]);
    assert!(rt; block(&[10, 11, 12, 13], 2, 1) == [12, 13].as_slice());
    assert!(rt; [bit_of(&[0, 4], 66), bit_of(&[0, 4], 65)] == [true, false]);
    assert!(rt; lower_half(2) == 0x0f0f_0f0f_0f0f_0f0f);
}
