//! Values: the truth tables of subfunctions of up to three variables, a byte each. The lowest of
//! these variables stands for the highest bit of a point's number.

ghost use Rattle.std.specs.Prelude.{◌≡◌, ◌*◌, ◌/◌, ◌^◌, ◌<◌, ◌≤◌, ◌++◌, [], map, length, OnOk};
ghost use Rattle.definitions.specs.Functions.{weight};
ghost use Rattle.definitions.specs.Problems.{table_in, words_per_table};
ghost use Rattle.subfunction_classes.specs.PairTables.{AllBelow, IsPaired};
ghost use Rattle.subfunction_classes.specs.Values.{row, values_of};
ghost use Rattle.small_search.specs.Joining.{AreJoined};
ghost use Rattle.small_search.specs.Counting.{AreOccurring};

use crate::instance::SmallSearch;
use order_model::VarIx;
use order_model::packed::bit_of;
use std::alloc::AllocError;

/// Appends to `values` a function's value at each point. `words` is its packed truth table.
fn push_values(values: &mut Vec<u8>, words: &[u64], inputs: u8) -> Result<(), AllocError>
    requires few { inputs ≤ 16 }
    requires long { length words.now ≡ words_per_table inputs }
    ensures { OnOk result
        (values.new.items ≡ values.old.items ++ map weight (row inputs (table_in inputs words.now))) }
{
    for point in 0..1usize << inputs {
        values.push(u8::from(bit_of(words, point)))?;
    }
    Ok(())
}

/// Appends the value of each function of `search` at each point, function by function.
pub(crate) fn push_points(values: &mut Vec<u8>, search: &SmallSearch<'_>) -> Result<(), AllocError>
    requires { values.old.items ≡ [] }
    ensures { OnOk result (values.new.items ≡ map weight (values_of search.now.problem)) }
{
    for output in 0..search.outputs() {
        push_values(values, search.words(output), search.inputs())?;
    }
    Ok(())
}

/// Writes to `values` one value for each pair of entries of `before` that differ in variable x
/// alone, which stand `step` apart: its lowest `shift` bits are the entry where x is 0.
#[inline(always)]
fn join_blocks(before: &[u8], x: VarIx, step: usize, shift: u32, values: &mut [u8])
    requires paired { IsPaired before.now x }
    requires step { step ≡ 2 ^ x }
    requires shift { shift ≤ 4 }
    requires below { AllBelow before.now (2 ^ shift) }
    requires long { length values.old ≡ length before.now / 2 }
    ensures { AreJoined before.now x (2 ^ shift) values.new }
{
    for block in 0..values.len() / step {
        for i in 0..step {
            let low = before[block * 2 * step + i];
            let high = before[block * 2 * step + i + step];
            values[block * step + i] = low + (high << shift);
        }
    }
}

/// Joins the entries of `before` that are 2^x apart, whatever x is: the lower one and, shifted left
/// by `shift`, the upper one.
pub(crate) fn join_values(before: &[u8], x: VarIx, shift: u32, values: &mut [u8])
    requires paired { IsPaired before.now x }
    requires shift { shift ≤ 4 }
    requires below { AllBelow before.now (2 ^ shift) }
    requires long { length values.old ≡ length before.now / 2 }
    ensures { AreJoined before.now x (2 ^ shift) values.new }
{
    // With a constant step the compiler makes vectors of the loop.
    match x {
        0 => join_blocks(before, 0, 1, shift, values),
        1 => join_blocks(before, 1, 2, shift, values),
        2 => join_blocks(before, 2, 4, shift, values),
        _ => join_blocks(before, x, 1usize << x, shift, values),
    }
}

/// Which numbers occur in `values`, truth tables of `size` variables: bit v % 64 of word v / 64.
pub(crate) fn occurring(values: &[u8], size: u32) -> [u64; 4]
    requires { size ≤ 2 → AllBelow values.now 64 }
    ensures { AreOccurring values.now result }
{
    if size <= 2 {
        let mut first = 0;
        for value in values {
            first |= 1u64 << (*value & 63);
        }
        return [first, 0, 0, 0];
    }
    let mut found = [0; 4];
    for value in values {
        found[(*value >> 6) as usize] |= 1u64 << (*value & 63);
    }
    found
}
