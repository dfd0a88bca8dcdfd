//! The class numbers of a problem's values, the entries of its truth tables, in strips. A strip of
//! 256 points is four words of a function's truth table, and equal strips are stored once.

ghost use Rattle.std.specs.Prelude.{◌≡◌, ◌+◌, ◌*◌, ◌/◌, ◌^◌, ◌<◌, ◌≤◌, ℕ, length, map, min, IfOk, OnOk};
ghost use Rattle.std.specs.List.{range_with_len};
ghost use Rattle.definitions.specs.Problems.{outputs_of};
ghost use Rattle.compaction.specs.NamedStrips.{AddsStrips, NamesStrips, number_in};
ghost use Rattle.compaction.specs.ValueStrips.{HoldsValues};
ghost use Rattle.subfunction_classes.specs.Values.{values_of};

use definitions::Problem;
use definitions::packed::bit_of;
use indexmap::IndexSet;
use std::alloc::{AllocError, Global};
use subfunction_classes::{number_of_value, value_numbers};

/// The class numbers of a problem's values in strips, one for each function and each assignment of
/// the variables above the lowest eight. Equal strips may be stored once.
#[derive(Drop)]
pub(crate) struct ValueStrips {
    /// For each strip, function by function, its number among the stored strips.
    pub(crate) outer: Vec<u32>,
    /// The class numbers in the stored strips, one strip after the other.
    pub(crate) numbers: Vec<u32>,
}

/// Strips of 256 points of truth tables. The name of a strip is its number among the distinct ones.
#[derive(Drop)]
struct NamedStrips {
    /// The name of each strip, function by function.
    outer: Vec<u32>,
    /// The words of the distinct strips, by rising name.
    strips: IndexSet<[u64; 4]>,
}

/// Appends the strips of a function with the packed truth table `words`: the name of each, and the
/// words of those that are new.
fn push_strips(found: &mut NamedStrips, words: &[u64]) -> Result<(), AllocError>
    requires whole { (strips : ℕ) × (length words.now ≡ strips * 4) }
    requires few { length words.now ≤ 2 ^ 10 }
    requires room { length found.old.strips.keys ≤ 2 ^ 16 }
    ensures { OnOk result (AddsStrips found.old found.new words.now) }
{
    for place in 0..words.len() / 4 {
        let at = place * 4;
        let strip = [words[at], words[at + 1], words[at + 2], words[at + 3]];
        let (name, _) = found.strips.insert_full(strip)?;
        found.outer.push(name as u32)?;
    }
    Ok(())
}

/// The distinct strips of all truth tables, and the name of each strip, function by function.
fn name_strips(alloc: Global, problem: &Problem) -> Result<NamedStrips, AllocError>
    requires { 8 ≤ problem.now.inputs }
    ensures some { 0 < outputs_of problem.now }
    ensures long { IfOk result
        (λ c. length c.outer.items * 256 ≡ outputs_of problem.now * 2 ^ problem.now.inputs) }
    ensures few { IfOk result (λ c. length c.outer.items ≤ 2 ^ 12) }
    ensures names { IfOk result
        (λ c. NamesStrips (values_of problem.now) c.outer.items c.strips.keys) }
{
    let places = (problem.outputs() as usize) << (problem.inputs() - 8);
    let mut found = NamedStrips {
        outer: Vec::with_capacity(alloc, places)?,
        strips: IndexSet::new(alloc),
    };
    for output in 0..problem.outputs() {
        push_strips(&mut found, problem.words(output))?;
    }
    Ok(found)
}

/// The class numbers of the values in `strips`: 0 for the value `first`, and 1 for the other.
fn numbers_of(alloc: Global, strips: &[[u64; 4]], first: bool) -> Result<Vec<u32>, AllocError>
    requires { length strips.now ≤ 2 ^ 12 }
    ensures { IfOk result (λ v. v.items ≡
        map (number_in first strips.now) (range_with_len 0 (length strips.now * 256))) }
{
    let mut numbers = Vec::with_capacity(alloc, strips.len() * 256)?;
    for place in 0..strips.len() * 256 {
        let value = bit_of(&strips[place / 256], place % 256);
        numbers.push(number_of_value(value, first))?;
    }
    Ok(numbers)
}

/// The class numbers of a problem's values, in strips of the points that differ in the lowest eight
/// variables alone; equal strips are stored once. With fewer variables there is a strip for each
/// function.
pub(crate) fn value_strips(alloc: Global, problem: &Problem) -> Result<ValueStrips, AllocError>
    ensures { IfOk result (λ v. HoldsValues problem.now v.outer.items v.numbers.items
        (2 ^ min problem.now.inputs 8)) }
{
    if problem.inputs() < 8 {
        let numbers = value_numbers(alloc, problem)?;
        let outer = (0..u32::from(problem.outputs())).collect(alloc)?;
        return Ok(ValueStrips { outer, numbers });
    }
    let NamedStrips { outer, strips } = name_strips(alloc, problem)?;
    let numbers = numbers_of(alloc, strips.as_slice(), problem.value(0, 0))?;
    Ok(ValueStrips { outer, numbers })
}
