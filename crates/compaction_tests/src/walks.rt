//! The row of one set, by itself and from rows that were found before.

use crate::problems::{MULTIPLEXER, cubes, five_bit_numbers, problem_of, set_one};
use compaction::{Preparation, Tally, block_widths, renaming_of};
use order_model::{Mask, Pairs, Problem, WidthRow};
use std::alloc::Global;
use std::process::Abort;
use subset_layers::{Block, Layer};
use symmetries::Renaming;

/// The row of a set that is alone in its block, for which two widths are taken.
fn row_by_itself(rt: &impl Abort, alloc: Global, problem: &Problem, block: &Block) -> WidthRow {
    assert!(rt; problem.inputs() == block.inputs());
    assert!(rt; block.len() == 1);
    let needed = block.mask(0);
    let mut tally = Tally::new();
    let widths = block_widths(alloc, problem, block, &[needed], &mut tally).expect(rt, "memory");
    assert!(rt; tally.count() == 2);
    widths.into_rows()[0]
}

/// The row of the set that is alone in a block, from a row that is found for it.
fn row_found(rt: &impl Abort, alloc: Global, renaming: &Renaming<'_>, block: &Block) -> WidthRow {
    let inputs = renaming.problem().inputs();
    assert!(rt; inputs == block.inputs());
    assert!(rt; block.len() == 1);
    let needed = block.mask(0);
    let pairs = Pairs::none(inputs);
    let mut prepared = Preparation::of(alloc, renaming, &pairs).expect(rt, "memory");
    assert!(rt; u32::from(needed) < 1u32 << inputs);
    assert!(rt; needed == 0x0003 && prepared.end() == 0);
    let image = prepared.image_of(needed);
    let mut requests = prepared.requests(alloc).expect(rt, "memory");
    requests.add_image(&image, needed);
    assert!(rt; !requests.is_empty() && !prepared.is_found(image.set));
    let found = prepared.find_alone(alloc, &requests, 2);
    found.expect(rt, "memory");
    assert!(rt; prepared.is_found(image.set));
    prepared
        .row(alloc, needed, needed, &image)
        .expect(rt, "memory")
}

/// The row of the set of the two lowest variables: by itself, from a row that is found, and from
/// one of the problem in which such variables are the lowest. They are to be the same.
fn row_at(
    rt: &impl Abort,
    alloc: Global,
    problem: &Problem,
    place: usize,
    lowest: Mask,
) -> WidthRow {
    let layer = Layer::of(alloc, problem.inputs(), 2).expect(rt, "memory");
    assert!(rt; place < layer.blocks());
    let block = layer.block(place);
    let row = row_by_itself(rt, alloc, problem, &block);
    let found = row_found(rt, alloc, &Renaming::none(problem), &block);
    let renaming = Renaming::to_lowest(alloc, problem, lowest).expect(rt, "memory");
    assert!(rt; renaming.is_renamed());
    let renamed = row_found(rt, alloc, &renaming, &block);
    assert!(rt; found == row && renamed == row);
    row
}

#[test]
fn a_row_has_the_widths_of_its_set(rt: HostRuntime) {
    let multiplexer = problem_of(&rt, rt.alloc(), MULTIPLEXER);
    let row = row_at(&rt, rt.alloc(), &multiplexer, 0, 0x0004);
    assert!(rt; row == [1, 1, 0, 0, 0, 0, 0, 0, 0, 0, 0, 0, 0, 0, 0, 0]);
    let numbers = five_bit_numbers(&rt, rt.alloc());
    let _ = row_at(&rt, rt.alloc(), &numbers, 3, 0x0300);
    let products = seven_products(&rt, rt.alloc());
    let _ = row_at(&rt, rt.alloc(), &products, 3, 0x3f80);
}

/// x0 x7 + x1 x8 + x2 x9 + x3 x10 + x4 x11 + x5 x12 + x6 x13.
fn seven_products(rt: &impl Abort, alloc: Global) -> Problem {
    let mut problem = Problem::new(alloc, 14, 1).expect(rt, "memory");
    for point in 0..1u32 << 14 {
        if point & (point >> 7) != 0 {
            set_one(rt, &mut problem, 0, point);
        }
    }
    problem
}

#[test]
fn a_renaming_takes_the_set_to_the_lowest_variables(rt: HostRuntime) {
    let numbers = five_bit_numbers(&rt, rt.alloc());
    assert!(rt; numbers.inputs() == 10);
    let found = Renaming::to_lowest(rt.alloc(), &numbers, 0x0304);
    let renaming = found.expect(&rt, "memory");
    assert!(rt; renaming.image_of(0x0304).set == 0x0007);
    assert!(rt; renaming.image_of(0x0003).set == 0x0300);
}

// With four products among the lowest variables the truth table has two distinct strips; now 64.
#[test]
fn variables_are_renamed_where_that_leaves_fewer_strips(rt: HostRuntime) {
    let products = seven_products(&rt, rt.alloc());
    assert!(rt;
        renaming_of(rt.alloc(), &products)
            .expect(&rt, "memory")
            .is_renamed()
    );
    let cubes = cubes(&rt, rt.alloc());
    assert!(rt;
        !renaming_of(rt.alloc(), &cubes)
            .expect(&rt, "memory")
            .is_renamed()
    );
}
