//! Class numbers of subfunctions, level by level.

ghost use Rattle.std.specs.Prelude.{◌≡◌, [], ◌++◌, ◌*◌, ◌/◌, ◌<◌, ◌≤◌, ◌^◌, bit_or, if◌then◌else◌, length, map, take, IfOk};
ghost use Rattle.std.specs.List.{All};
ghost use Rattle.definitions.specs.Problems.{packed_bit};
ghost use Rattle.truth_table.specs.Assignments.{assignments};
ghost use Rattle.truth_table.specs.Numberings.{IsNumbering, pairs_of, unequal_count};

use indexmap::IndexSet;
use order_model::VarIx;
use order_model::packed::bit_of;
use std::alloc::{AllocError, Global};

/// Numbers of pairs of class numbers: equal for equal pairs, and else different.
#[derive(Debug, Drop)]
pub(crate) struct Merged {
    /// Entry j is the number of pair j.
    pub(crate) numbers: Vec<u32>,
    /// How many distinct pairs consist of two unequal class numbers.
    pub(crate) unequal: u32,
}

/// Numbers the pairs (`classes[2j]`, `classes[2j + 1]`) by first occurrence, and collects them in
/// `seen`, which is empty.
fn number_pairs(
    alloc: Global,
    classes: &[u32],
    seen: &mut IndexSet<(u32, u32)>,
) -> Result<Merged, AllocError>
    requires few { length classes.now < 2 ^ 32 }
    requires unseen { seen.old.keys ≡ [] }
    ensures numbers { IfOk result (λ r. IsNumbering (pairs_of classes.now) r.numbers.items) }
    ensures unequal { IfOk result (λ r. r.unequal ≡ unequal_count (pairs_of classes.now)) }
{
    let half = classes.len() / 2;
    seen.reserve(half)?;
    let mut numbers = Vec::with_capacity(alloc, half)?;
    let mut unequal = 0u32;
    for j in 0..half {
        let lower = classes[2 * j];
        let upper = classes[2 * j + 1];
        let (number, is_new) = seen.insert_full((lower, upper))?;
        if is_new && lower != upper {
            unequal += 1;
        }
        numbers.push(number as u32)?;
    }
    Ok(Merged { numbers, unequal })
}

/// Numbers the pairs (`classes[2j]`, `classes[2j + 1]`), the classes of the cofactors of a
/// subfunction, by first occurrence. An odd last entry is ignored.
pub(crate) fn merge(alloc: Global, classes: &[u32]) -> Result<Merged, AllocError>
    requires few { length classes.now < 2 ^ 32 }
    ensures numbers { IfOk result (λ r. IsNumbering (pairs_of classes.now) r.numbers.items) }
    ensures unequal { IfOk result (λ r. r.unequal ≡ unequal_count (pairs_of classes.now)) }
{
    let mut seen = IndexSet::new(alloc);
    number_pairs(alloc, classes, &mut seen)
}

/// Overwrites `upper` with a copy of each of `points` with bit x set.
fn write_upper(points: &[u32], x: VarIx, upper: &mut [u32])
    requires variable { x < 16 }
    requires long { length upper.old ≡ length points.now }
    ensures { upper.new ≡ map (λ k. bit_or k (2 ^ x)) points.now }
{
    for i in 0..upper.len() {
        upper[i] = points[i] | 1 << x;
    }
}

/// Doubles the first `size` of `points`: a copy of each with bit x set follows them.
fn add_upper(points: &mut [u32], size: usize, x: VarIx)
    requires variable { x < 16 }
    requires room { 2 * size ≤ length points.old }
    ensures doubled { take (2 * size) points.new
        ≡ take size points.old ++ map (λ k. bit_or k (2 ^ x)) (take size points.old) }
    ensures long { length points.new ≡ length points.old }
{
    let (lower, others) = points.split_at_mut(size);
    let (upper, _) = others.split_at_mut(size);
    write_upper(lower, x, upper);
}

/// Overwrites `points` with the points of all assignments to `variables`, the last of which changes
/// fastest.
pub(crate) fn write_points(points: &mut [u32], variables: &[VarIx])
    requires small { All (λ x. x < 16) variables.now }
    requires few { length variables.now ≤ 16 }
    requires long { length points.old ≡ 2 ^ length variables.now }
    ensures { points.new ≡ assignments variables.now }
{
    points[0] = 0;
    let mut size = 1usize;
    for i in (0..variables.len()).rev() {
        add_upper(points, size, variables[i]);
        size *= 2;
    }
}

/// Turns each of `points` into the value there, 0 or 1, of the packed truth table `words`.
pub(crate) fn evaluate(words: &[u64], points: &mut [u32])
    requires { All (λ k. k / 64 < length words.now) points.old }
    ensures { points.new ≡ map (λ k. if packed_bit words.now k then 1 else 0) points.old }
{
    for i in 0..points.len() {
        points[i] = u32::from(bit_of(words, points[i] as usize));
    }
}
