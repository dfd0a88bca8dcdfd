//! Pairs of variables in which all functions are symmetric. If two variables may be exchanged
//! without a change of any function, the first order of the fewest nodes has the smaller one above
//! the larger one, so a search may keep this pair.

ghost use Rattle.std.specs.Prelude.{◌≡◌, ◌<◌, ◌≤◌, IfOk, IfSome, IsTrue};
ghost use Rattle.definitions.specs.Problems.{functions};
ghost use Rattle.symmetries.specs.SymmetricPairs.{AreSymmetricPairs, IsHarmless, IsSymmetricPair};

use crate::words::is_symmetric_in;
use order_model::{Pairs, Problem, VarIx};
use std::alloc::{AllocError, Global};

/// Whether all functions of `problem` are symmetric in `a` and `b`.
fn are_symmetric(problem: &Problem, a: VarIx, b: VarIx) -> bool
    requires first { a < b }
    requires inside { b < problem.now.inputs }
    ensures { IsTrue result → IsSymmetricPair problem.now.inputs (functions problem.now) a b }
{
    for output in 0..problem.outputs() {
        if !is_symmetric_in(problem.words(output), problem.inputs(), a, b) {
            return false;
        }
    }
    true
}

/// The smallest variable above `a` such that all functions are symmetric in both.
fn next_symmetric(problem: &Problem, a: VarIx) -> Option<VarIx>
    requires few { problem.now.inputs ≤ 16 }
    requires inside { a < problem.now.inputs }
    ensures { IfSome result (IsSymmetricPair problem.now.inputs (functions problem.now) a) }
{
    for b in a + 1..problem.inputs() {
        if are_symmetric(problem, a, b) {
            return Some(b);
        }
    }
    None
}

/// For each variable a the pair of a and `next_symmetric` of it, if there is one.
fn symmetric_pairs(alloc: Global, problem: &Problem) -> Result<Pairs, AllocError>
    ensures inputs { IfOk result (λ p. p.inputs ≡ problem.now.inputs) }
    ensures pairs { IfOk result
        (λ p. AreSymmetricPairs problem.now.inputs (functions problem.now) p.pairs) }
{
    let inputs = problem.inputs();
    let mut found = Vec::new(alloc);
    for a in 0..inputs {
        if let Some(b) = next_symmetric(problem, a) {
            found.push((a, b))?;
        }
    }
    match Pairs::of(&found, inputs) {
        Ok(pairs) => Ok(pairs),
        Err(_) => Ok(Pairs::none(inputs)),
    }
}

/// The pairs that a search keeps: those in `asked`, or if there are none the symmetric pairs.
pub fn pairs_to_keep(alloc: Global, problem: &Problem, asked: &Pairs) -> Result<Pairs, AllocError>
    requires { asked.now.inputs ≡ problem.now.inputs }
    ensures inputs { IfOk result (λ p. p.inputs ≡ problem.now.inputs) }
    ensures harmless { IfOk result
        (λ p. IsHarmless problem.now.inputs (functions problem.now) asked.now.pairs p.pairs) }
{
    if asked.count() > 0 {
        return Ok(asked.copied());
    }
    let pairs = symmetric_pairs(alloc, problem)?;
    Ok(pairs)
}
