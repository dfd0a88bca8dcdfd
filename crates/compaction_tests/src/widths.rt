//! The widths of blocks, beside those of each set alone.

ghost use Rattle.std.specs.Prelude.{◌≡◌, length};
ghost use Rattle.subset_layers.specs.Layers.{block_masks};

use crate::problems::{PROBLEMS, cubes, five_bit_numbers, problem_of};
use crate::tables::width_alone;
use compaction::{Tally, block_widths};
use order_model::{Mask, Problem, WidthRow, contains};
use std::alloc::Global;
use std::process::Abort;
use subset_layers::{Block, Layer};

/// The widths of a set's members, each by itself.
fn row_alone(rt: &impl Abort, alloc: Global, problem: &Problem, mask: Mask) -> WidthRow {
    let mut row = [0; 16];
    for x in 0..16u8 {
        if contains(mask, x) {
            row[x as usize] = width_alone(rt, alloc, problem, mask & !(1 << x), x);
        }
    }
    row
}

fn sum_of(row: &WidthRow) -> u64 {
    let mut sum = 0u64;
    for width in row {
        sum = sum.saturating_add(u64::from(*width));
    }
    sum
}

/// How many members the sets of a block have in all.
fn members_of(block: &Block) -> u64 {
    let mut members = 0u64;
    for mask in block.masks() {
        members = members.saturating_add(u64::from(mask.count_ones()));
    }
    members
}

/// The sum of the widths of a block, whose rows are to be those by each set alone.
fn sum_of_rows(
    rt: &impl Abort,
    alloc: Global,
    problem: &Problem,
    block: &Block,
    rows: &[WidthRow],
) -> u64
    requires { length rows.now ≡ length (block_masks block.now) }
{
    let mut sum = 0u64;
    for i in 0..block.len() {
        let row = row_alone(rt, alloc, problem, block.mask(i));
        assert!(rt; rows[i] == row);
        sum = sum.saturating_add(sum_of(&row));
    }
    sum
}

/// The sum of the widths that are taken of a block, whose rows are to be those by each set alone.
fn sum_of_block(rt: &impl Abort, alloc: Global, problem: &Problem, block: &Block) -> u64 {
    assert!(rt; block.inputs() == problem.inputs());
    prove!(problem.inputs() <= 16 && block.len() <= 256);
    let mut tally = Tally::new();
    let widths = block_widths(alloc, problem, block, block.masks(), &mut tally).expect(
        rt, "memory",
    );
    assert!(rt; 0 < widths.compactions() && widths.compactions() <= 2367);
    assert!(rt; tally.count() == members_of(block));
    sum_of_rows(rt, alloc, problem, block, &widths.into_rows())
}

/// The sum of the widths of the layer of the sets of a size, taken block by block.
fn sum_of_layer(rt: &impl Abort, alloc: Global, problem: &Problem, size: u8) -> u64 {
    let layer = Layer::of(alloc, problem.inputs(), size).expect(rt, "memory");
    let mut sum = 0u64;
    for i in 0..layer.blocks() {
        let own = sum_of_block(rt, alloc, problem, &layer.block(i));
        sum = sum.saturating_add(own);
    }
    sum
}

/// Sums the widths of all layers but the empty set's, which are to be those by each set alone.
fn sum_layers(rt: &impl Abort, alloc: Global, problem: &Problem) {
    for size in 1..=problem.inputs() {
        let _sum = sum_of_layer(rt, alloc, problem, size);
    }
}

#[test]
fn blocks_have_the_widths_of_their_sets(rt: HostRuntime) {
    for tables in &PROBLEMS {
        sum_layers(&rt, rt.alloc(), &problem_of(&rt, rt.alloc(), *tables));
    }
}

// Of the numbers two strips of 256 points are equal to others; of half the sets of the cubes all
// subfunctions are distinct. The sums were counted by another program, by the definition.
#[test]
fn widths_of_ten_variables_have_the_counted_sums(rt: HostRuntime) {
    let numbers = five_bit_numbers(&rt, rt.alloc());
    assert!(rt; sum_of_layer(&rt, rt.alloc(), &numbers, 1) == 20);
    assert!(rt; sum_of_layer(&rt, rt.alloc(), &numbers, 5) == 41363);
    assert!(rt; sum_of_layer(&rt, rt.alloc(), &numbers, 10) == 22);
    let cubes = cubes(&rt, rt.alloc());
    assert!(rt; sum_of_layer(&rt, rt.alloc(), &cubes, 4) == 53457);
}
