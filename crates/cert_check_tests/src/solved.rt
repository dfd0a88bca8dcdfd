//! The solver's certificates of random functions, as they are and with a cost changed.

ghost use Rattle.std.specs.Prelude.{◌≡◌, ◌<◌, ◌≤◌, length};

use crate::plain::Plain;
use crate::sixteen::tables_of;
use cert_check::{Verdict, check, check_alone};
use certificate::{Certificate, CertificateParts};
use order_model::{Limit, ListedCell, LowerBound, NoGate, Pairs, VarIx, Workers};
use order_solve::{Solution, prepare, renaming_of, solve};
use sifting::laws::diagrams_have_their_problems_tables;
use sifting::{Manager, Sifted};
use std::alloc::Global;
use std::process::Abort;
use std::thread::Threads;
use truth_table::{Tables, reduced_diagram};

/// A set, or a point, with the lower half of the variables exchanged with the upper one.
fn exchanged(set: u32, inputs: u8) -> u32
    requires { inputs ≤ 16 }
{
    let half = inputs / 2;
    let low = set & ((1 << half) - 1);
    let high = (set >> half) & ((1 << half) - 1);
    set >> (2 * half) << (2 * half) | low << half | high
}

/// The values of random functions at a point, one in each bit. Each has equal values at the point
/// and at the exchanged one if the seed is 2 or more.
fn random_values(inputs: u8, outputs: u8, seed: u64, point: u32) -> u32
    requires { inputs ≤ 16 }
{
    let least = if seed < 2 {
        point
    } else {
        point.min(exchanged(point, inputs))
    };
    let mut state = seed.wrapping_add(u64::from(least) << 8);
    let mut values = 0;
    for output in 0..outputs.min(16) {
        state = (state ^ (state >> 29))
            .wrapping_mul(6_364_136_223_846_793_005)
            .wrapping_add(1_442_695_040_888_963_407);
        if state >> 63 == 1 {
            values |= 1 << output;
        }
    }
    values
}

fn push_bits(rt: &impl Abort, text: &mut String, bits: u32, count: u8) {
    for place in 0..count.min(16) {
        text.push(if (bits >> place) & 1 == 1 { '1' } else { '0' })
            .expect(rt, "memory");
    }
}

fn random_text(rt: &impl Abort, alloc: Global, inputs: u8, outputs: u8, seed: u64) -> String
    requires { inputs ≤ 16 }
{
    let mut text = format!(in alloc; ".i {inputs}\n.o {outputs}\n").expect(rt, "memory");
    for point in 0..1u32 << inputs {
        push_bits(rt, &mut text, point, inputs);
        let values = random_values(inputs, outputs, seed, point);
        push_bits(rt, &mut text, values, outputs);
        text.push('\n').expect(rt, "memory");
    }
    text
}

/// The pairs that random functions are solved under: none, or that variable 0 stands above
/// variable 1.
fn kept(inputs: u8, seed: u64) -> &'static [(VarIx, VarIx)] {
    if inputs < 2 || seed % 2 == 0 {
        return &[];
    }
    &[(0, 1)]
}

fn sifted_of(rt: &impl Abort, alloc: Global, tables: &Tables, pairs: Pairs) -> Sifted
    requires { pairs.inputs ≡ tables.now.inputs }
    ensures { result.problem ≡ tables.now }
{
    let problem = tables.problem();
    let order = pairs.first_order(alloc).expect(rt, "memory");
    assert!(rt; order.len() == usize::from(problem.inputs()));
    let diagram = reduced_diagram(alloc, tables, &order).expect(rt, "memory");
    diagrams_have_their_problems_tables(problem);
    let manager = Manager::with_pairs(alloc, diagram, pairs).expect(rt, "memory");
    manager.sift(alloc).expect(rt, "memory")
}

/// What the solver finds of some functions, with all rows found beforehand, from the order sifted
/// from the first one that keeps the pairs.
fn solution_of<R: Abort + Threads + Sync>(
    rt: &R,
    alloc: Global,
    tables: &Tables,
    pairs: Pairs,
) -> Solution
    requires { pairs.inputs ≡ tables.now.inputs }
{
    let workers = Workers::new(2).expect(rt, "two workers");
    let renaming = renaming_of(alloc, tables.problem()).expect(rt, "memory");
    let limit = Limit {
        bound: 1 << 20,
        lower_bound: LowerBound::Variables,
    };
    let start = prepare(rt, alloc, &renaming, &pairs, limit, workers).expect(rt, "memory");
    let sifted = sifted_of(rt, alloc, tables, pairs);
    solve(rt, alloc, start, sifted, workers, &NoGate).expect(rt, "memory")
}

/// Functions, the pairs that are kept, and what the solver finds of them.
#[derive(Drop)]
struct Solved {
    tables: Tables,
    pairs: &'static [(VarIx, VarIx)],
    solution: Solution,
}

fn solve_random<R: Abort + Threads + Sync>(rt: &R, alloc: Global, inputs: u8, seed: u64) -> Solved
    requires { inputs ≤ 16 }
{
    let text = random_text(rt, alloc, inputs, 1 + (seed % 4) as u8, seed);
    let tables = tables_of(rt, alloc, text.as_bytes());
    let pairs = kept(inputs, seed);
    let parsed = Pairs::of(pairs, tables.problem().inputs()).expect(rt, "pairs");
    let solution = solution_of(rt, alloc, &tables, parsed);
    Solved {
        tables,
        pairs,
        solution,
    }
}

/// The listed costs, with another one at some places.
fn changed_cells(
    rt: &impl Abort,
    alloc: Global,
    cells: &[ListedCell],
    places: &[usize],
    cost: u32,
) -> Vec<ListedCell> {
    let mut cells = cells.to_vec(alloc).expect(rt, "memory");
    for place in places {
        if let Some(cell) = cells.get_mut(*place) {
            cell.cost = cost;
        }
    }
    cells
}

/// The solver's certificate with the cost at some places changed, in format 1, or in format 2,
/// which has the pairs.
fn changed(
    rt: &impl Abort,
    alloc: Global,
    solved: &Solved,
    places: &[usize],
    cost: u32,
    format: u8,
) -> Certificate {
    let problem = solved.tables.problem();
    let best = &solved.solution.optimum;
    let pairs = if format == 1 {
        None
    } else {
        Some(solved.pairs.to_vec(alloc).expect(rt, "memory"))
    };
    Certificate::from_parts(CertificateParts {
        inputs: problem.inputs(),
        outputs: problem.outputs(),
        order: best.order.variables().to_vec(alloc).expect(rt, "memory"),
        levels: best.levels.to_vec(alloc).expect(rt, "memory"),
        total: best.total,
        pairs,
        cells: changed_cells(rt, alloc, &solved.solution.cells, places, cost),
    })
    .expect(rt, "a spelling")
}

fn is_valid<R: Abort + Threads + Sync>(rt: &R, alloc: Global, solved: &Solved) -> bool {
    let cert = changed(rt, alloc, solved, &[], 0, 2);
    check(rt, alloc, &solved.tables, &cert).expect(rt, "memory") == Verdict::Valid
}

#[test]
fn solutions_are_valid(rt: HostRuntime) {
    for inputs in 1..9u8 {
        for seed in 0..4u64 {
            assert!(rt;
                is_valid(
                    &rt,
                    rt.alloc(),
                    &solve_random(&rt, rt.alloc(), inputs, seed)
                )
            );
        }
    }
}

/// The place of the set with exchanged variables among the listed ones, or that of the set itself.
fn place_of_exchanged(cells: &[ListedCell], inputs: u8, place: usize) -> usize
    requires few { inputs ≤ 16 }
    requires inside { place < length cells.now }
{
    let image = exchanged(u32::from(cells[place].mask), inputs);
    for (other, cell) in cells.iter().enumerate() {
        if u32::from(cell.mask) == image {
            return other;
        }
    }
    place
}

/// Whether the certificate with the cost at some places changed has its plain verdict, by the
/// calling thread and by several.
fn is_judged<R: Abort + Threads + Sync>(
    rt: &R,
    alloc: Global,
    solved: &Solved,
    plain: &Plain,
    places: &[usize],
    cost: u32,
    format: u8,
) -> bool {
    let cert = changed(rt, alloc, solved, places, cost, format);
    let wanted = plain.verdict(&cert);
    check_alone(alloc, &solved.tables, &cert).expect(rt, "memory") == wanted
        && check(rt, alloc, &solved.tables, &cert).expect(rt, "memory") == wanted
}

/// Judges the certificate with the cost at some places as a given one, one less and one more, in
/// both formats if there are no pairs, and in format 2 otherwise.
fn judge_near<R: Abort + Threads + Sync>(
    rt: &R,
    alloc: Global,
    solved: &Solved,
    plain: &Plain,
    places: &[usize],
    cost: u32,
) {
    let first = if solved.pairs.is_empty() { 1 } else { 2 };
    for near in cost.saturating_sub(1)..=cost.saturating_add(1) {
        for format in first..=2u8 {
            assert!(rt; is_judged(rt, alloc, solved, plain, places, near, format));
        }
    }
}

/// Judges a certificate with each cost changed, alone and with that of the exchanged set.
fn judge_changes<R: Abort + Threads + Sync>(rt: &R, alloc: Global, solved: &Solved, plain: &Plain) {
    let inputs = solved.tables.problem().inputs();
    let cells = solved.solution.cells.as_slice();
    for (place, cell) in cells.iter().enumerate() {
        let other = place_of_exchanged(cells, inputs, place);
        judge_near(rt, alloc, solved, plain, &[place], cell.cost);
        judge_near(rt, alloc, solved, plain, &[place, other], cell.cost);
    }
}

#[test]
fn changed_costs_have_the_plain_verdict(rt: HostRuntime) {
    for inputs in 1..6u8 {
        for seed in 0..4u64 {
            let solved = solve_random(&rt, rt.alloc(), inputs, seed);
            let plain = Plain::of(&rt, rt.alloc(), &solved.tables);
            judge_changes(&rt, rt.alloc(), &solved, &plain);
        }
    }
}
