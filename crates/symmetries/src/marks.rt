//! Marks: hashes of variables, and of pairs of variables, from the values of all functions. An
//! exchange under which no function changes takes each variable to one of equal mark, and each two
//! variables to two of equal mark. So marks show which exchanges are worth a test.

ghost use Rattle.std.specs.Prelude.{◌≡◌, ◌+◌, ◌<◌, ◌≤◌, ◌^◌, IfOk, length};

use order_model::packed::lower_half;
use order_model::{Problem, VarIx};
use std::alloc::{AllocError, Global};

/// The factor of the hashes: an odd number whose multiples spread over the numbers of 32 bits.
const SPREAD: u32 = 0x9E37_79B1;

/// At how many points both x and the function with the truth table `words` are 1.
fn ones_with(words: &[u64], x: VarIx) -> u32
    requires { x < 16 }
{
    let mut count = 0u32;
    if x < 6 {
        let upper = !lower_half(x);
        for word in words {
            count = count.wrapping_add((*word & upper).count_ones());
        }
    } else {
        for (place, word) in words.iter().enumerate() {
            if (place >> (x - 6)) & 1 == 1 {
                count = count.wrapping_add(word.count_ones());
            }
        }
    }
    count
}

/// A hash of each variable x of `problem`, at entry x, of how often the functions and x are 1.
pub(crate) fn quick_marks(problem: &Problem) -> [u32; 16] {
    let mut marks = [0u32; 16];
    for output in 0..problem.outputs() {
        let words = problem.words(output);
        for x in 0..problem.inputs() {
            let before = marks[x as usize].wrapping_mul(SPREAD);
            marks[x as usize] = before.wrapping_add(ones_with(words, x));
        }
    }
    marks
}

fn hash_of(values: u16) -> u32 {
    let product = (u32::from(values) + 1).wrapping_mul(SPREAD);
    product ^ (product >> 15)
}

/// The hash of each point.
fn hashes_of(alloc: Global, points: &[u16]) -> Result<Vec<u32>, AllocError>
    ensures { IfOk result (λ v. length v.items ≡ length points.entry.now) }
{
    let mut hashes = vec![in alloc; 0u32; points.len()]?;
    for (hash, values) in hashes.iter_mut().zip(points) {
        *hash = hash_of(*values);
    }
    Ok(hashes)
}

/// Adds `sums[i + half]` to `sums[i]` for each i below `half`. Returns the sum of all that was
/// added, modulo 2^32.
fn fold_upper(sums: &mut [u32], half: usize) -> u32
    requires { half + half ≤ length sums.old }
    ensures { length sums.new ≡ length sums.old }
{
    let mut total = 0u32;
    for i in 0..half {
        let upper = sums[i + half];
        total = total.wrapping_add(upper);
        sums[i] = sums[i].wrapping_add(upper);
    }
    total
}

/// Copies the `half` entries of `sums` from index `half` on to the front of `upper`.
fn copy_upper(sums: &[u32], half: usize, upper: &mut [u32])
    requires sums { half + half ≤ length sums.now }
    requires room { half ≤ length upper.old }
    ensures { length upper.new ≡ length upper.old }
{
    for i in 0..half {
        upper[i] = sums[i + half];
    }
}

/// The mark of x and y at entry y, for each variable y below x. `sums[i]`, for each i below 2^x, is
/// the sum of the hashes of the points at which x is 1 and the variables below x have the values in
/// the bits of i; it is overwritten.
fn marks_below(sums: &mut [u32], x: VarIx) -> [u32; 16]
    requires variable { x < 16 }
    requires sums { 2 ^ x ≤ length sums.old }
    ensures { length sums.new ≡ length sums.old }
{
    let mut marks = [0; 16];
    for y in (0..x).rev() {
        marks[y as usize] = fold_upper(sums, 1usize << y);
    }
    marks
}

/// The marks of variables. That of one variable is the sum of the hashes of the points at which it
/// is 1, that of two variables the sum over the points at which both are 1. A point's hash is one
/// of all functions' values there.
#[derive(Drop)]
pub(crate) struct Marks {
    /// `own[x]` is the mark of x.
    own: [u32; 16],
    /// `below[x][y]`, for each y below x, is the mark of x and y.
    below: [[u32; 16]; 16],
}

impl Marks {
    /// The marks of `inputs` variables. `points[p]` has the values of all functions at point p.
    pub(crate) fn of(alloc: Global, inputs: u8, points: &[u16]) -> Result<Marks, AllocError>
        requires few { inputs ≤ 16 }
        requires points { length points.now ≡ 2 ^ inputs }
    {
        let mut hashes = hashes_of(alloc, points)?;
        let mut upper = vec![in alloc; 0u32; points.len()]?;
        let mut own = [0; 16];
        let mut below = [[0; 16]; 16];
        for x in (0..inputs).rev() {
            let half = 1usize << x;
            copy_upper(&hashes, half, &mut upper);
            own[x as usize] = fold_upper(&mut hashes, half);
            below[x as usize] = marks_below(&mut upper, x);
        }
        Ok(Marks { own, below })
    }

    /// The mark of x and y, or of x alone if they are equal.
    pub(crate) fn of_pair(&self, x: VarIx, y: VarIx) -> u32
        requires first { x < 16 }
        requires second { y < 16 }
    {
        if x == y {
            return self.own[x as usize];
        }
        self.below[x.max(y) as usize][x.min(y) as usize]
    }
}
