//! The class table of the empty set, whose classes are the values 0 and 1.

ghost use Rattle.std.specs.Prelude.{◌≡◌, ℕ, ◌+◌, ◌*◌, ◌<◌, ◌≤◌, ◌++◌, map, length, slice_index, IfOk, OnOk, nat_eq};
ghost use Rattle.std.specs.List.{list_any};
ghost use Rattle.definitions.specs.Problems.{value_at, outputs_of, table_in, words_per_table};
ghost use Rattle.subfunction_classes.specs.Values.{row, values_of, number_of as number, class_count};

use definitions::packed::bit_of;
use definitions::{Mask, Problem};
use std::alloc::{AllocError, Global};

/// The class number of a value: 0 if it equals `first`, the value of function 0 at point 0.
pub fn number_of_value(value: bool, first: bool) -> u32
    ensures { result ≡ number first value }
{
    if value == first { 0 } else { 1 }
}

/// Appends the class numbers of a function's values, by rising point. If memory is refused, some
/// may be missing.
fn push_values(
    numbers: &mut Vec<u32>,
    words: &[u64],
    inputs: u8,
    first: bool,
) -> Result<(), AllocError>
    requires few { inputs ≤ 16 }
    requires long { length words.now ≡ words_per_table inputs }
    ensures { OnOk result
        (numbers.new.items ≡ numbers.old.items
        ++ map (number first) (row inputs (table_in inputs words.now))) }
{
    for point in 0..1usize << inputs {
        numbers.push(number_of_value(bit_of(words, point), first))?;
    }
    Ok(())
}

/// The class table of the empty set: the class numbers of all values, function by function and by
/// rising point.
pub fn value_numbers(alloc: Global, problem: &Problem) -> Result<Vec<u32>, AllocError>
    ensures numbers { IfOk result
        (λ v. v.items ≡ map (number (value_at problem.now 0 0)) (values_of problem.now)) }
    ensures inputs { problem.now.inputs ≤ 16 }
    ensures outputs { outputs_of problem.now ≤ 16 }
    ensures some { 0 < outputs_of problem.now }
{
    let outputs = problem.outputs();
    let entries = (outputs as usize) << problem.inputs();
    let mut numbers = Vec::with_capacity(alloc, entries)?;
    let first = problem.value(0, 0);
    for output in 0..outputs {
        push_values(&mut numbers, problem.words(output), problem.inputs(), first)?;
    }
    Ok(numbers)
}

fn has_both(numbers: &[u32]) -> bool
    ensures { result ≡ list_any (λ k. nat_eq k 1) numbers.now }
{
    numbers.iter().any(|number| *number == 1)
}

/// The masks of the classes in `numbers`: all empty, because a value depends on no variable.
pub fn no_dependence(alloc: Global, numbers: &[u32]) -> Result<Vec<Mask>, AllocError>
    ensures long { IfOk result (λ v. length v.items ≡ class_count numbers.now) }
    ensures zeros { IfOk result (λ v. (c : ℕ) → slice_index v.items c ≡ 0) }
{
    let mut masks = Vec::with_capacity(alloc, 2)?;
    masks.push(0)?;
    if has_both(numbers) {
        masks.push(0)?;
    }
    Ok(masks)
}
