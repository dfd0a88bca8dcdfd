//! The functions whose classes and widths are taken.

use order_model::Problem;
use std::alloc::Global;
use std::process::Abort;

/// The number of variables, and the truth table of each function: bit k is the value at point k.
pub(crate) type PackedTables = (u8, &'static [u64]);

pub(crate) const MULTIPLEXER: PackedTables = (3, &[0xca]);

/// Parity, three products, no term, a variable and its complement, and-or, one variable of three,
/// and the multiplexer.
pub(crate) static PROBLEMS: [PackedTables; 7] = [
    (3, &[0x96]),
    (6, &[0xfefcfaf0eeccaa00]),
    (3, &[0x00]),
    (1, &[0x2, 0x1]),
    (2, &[0x8, 0xe]),
    (3, &[0xf0]),
    MULTIPLEXER,
];

pub(crate) fn set_one(rt: &impl Abort, problem: &mut Problem, output: usize, point: u32) {
    assert!(rt; output < problem.outputs() as usize && point < 1 << problem.inputs());
    problem.set(output as u8, point);
}

fn set_tables(rt: &impl Abort, problem: &mut Problem, tables: &[u64]) {
    for (output, table) in tables.iter().enumerate() {
        for point in 0..64u32 {
            if (*table >> point) & 1 == 1 {
                set_one(rt, problem, output, point);
            }
        }
    }
}

pub(crate) fn problem_of(rt: &impl Abort, alloc: Global, tables: PackedTables) -> Problem {
    let (inputs, tables) = tables;
    assert!(rt; inputs > 0 && inputs <= 6 && !tables.is_empty() && tables.len() <= 16);
    let mut problem = Problem::new(alloc, inputs, tables.len() as u8).expect(rt, "memory");
    set_tables(rt, &mut problem, tables);
    problem
}

fn set_odd(rt: &impl Abort, problem: &mut Problem, output: usize, point: u32, number: u32) {
    if number % 2 == 1 {
        set_one(rt, problem, output, point);
    }
}

/// The functions of two numbers of five bits: the carry of their sum, a bit of their product, and
/// whether a bit of one differs from one of the other.
pub(crate) fn five_bit_numbers(rt: &impl Abort, alloc: Global) -> Problem {
    let mut problem = Problem::new(alloc, 10, 3).expect(rt, "memory");
    for point in 0..1024u32 {
        let a = point % 32;
        let b = point / 32;
        set_odd(rt, &mut problem, 0, point, (a + b) / 32);
        set_odd(rt, &mut problem, 1, point, a * b / 16);
        set_odd(rt, &mut problem, 2, point, a / 2 + b / 16);
    }
    problem
}

/// The last bit of a cube, modulo a prime.
pub(crate) fn cubes(rt: &impl Abort, alloc: Global) -> Problem {
    let mut problem = Problem::new(alloc, 10, 1).expect(rt, "memory");
    for point in 0..1024u32 {
        set_odd(rt, &mut problem, 0, point, point * point * point % 1021);
    }
    problem
}
