//! What a search begins with, found before its bound is known.

ghost use Rattle.std.specs.Prelude.{◌≡◌, IfOk};
ghost use Rattle.definitions.specs.Problems.{functions};
ghost use Rattle.order_solve.specs.SearchStarts.{IsStartFor};
ghost use Rattle.symmetries.specs.SymmetricPairs.{IsHarmless};

use crate::guesses::layers_to_prepare;
use compaction::Preparation;
use order_model::{Limit, LowerBound, Pairs, Problem, Workers};
use std::alloc::{AllocError, Global};
use std::marker::Model;
use std::thread::Threads;
use symmetries::{Renaming, pairs_to_keep};

/// What a search begins with: the pairs that a search for the order alone keeps, the tables that
/// walks read, and rows of widths that were computed ahead.
#[derive(Drop)]
pub struct SearchStart<'a> {
    pub(crate) prepared: Preparation<'a>,
    pub(crate) kept: Pairs,
}

impl<'a> Model for SearchStart<'a> {
    ghost use Rattle.std.specs.Prelude.{◌≡◌};
    ghost use Rattle.order_solve.specs.SearchStarts.{StartOf};

    ghost Value = { StartOf };

    ghost view = { λ s. record { problem = s.prepared.problem; kept = s.kept.pairs } };

    ghost invariant = { λ s. s.kept.inputs ≡ s.prepared.problem.inputs };
}

/// The pairs that a search keeps if the caller asks for `asked`: these, or if there are none and
/// the lower bound is by widths, pairs of variables in which all functions are symmetric.
#[tactic(auto, using(crate::proofs::Harmless::harmless_kept))]
fn kept_pairs(
    alloc: Global,
    problem: &Problem,
    asked: &Pairs,
    lower_bound: LowerBound,
) -> Result<Pairs, AllocError>
    requires { asked.now.inputs ≡ problem.now.inputs }
    ensures inputs { IfOk result (λ p. p.inputs ≡ problem.now.inputs) }
    ensures harmless { IfOk result
        (λ p. IsHarmless problem.now.inputs (functions problem.now) asked.now.pairs p.pairs) }
{
    match lower_bound {
        LowerBound::Widths => pairs_to_keep(alloc, problem, asked),
        LowerBound::Variables => Ok(asked.copied()),
    }
}

/// Prepares a search among the orders that keep `pairs`, of the problem before the renaming.
/// Several workers also find rows of widths, as far as a search with `limit.bound`, the size of
/// some diagram of the functions, is likely to need them.
pub fn prepare<'a, R: Threads + Sync>(
    rt: &R,
    alloc: Global,
    renaming: &'a Renaming<'a>,
    pairs: &Pairs,
    limit: Limit,
    workers: Workers,
) -> Result<SearchStart<'a>, AllocError>
    requires { pairs.now.inputs ≡ renaming.now.problem.inputs }
    ensures { IfOk result (IsStartFor renaming.now.problem pairs.now.pairs) }
{
    let problem = renaming.problem();
    let kept = kept_pairs(alloc, problem, pairs, limit.lower_bound)?;
    let prepared = if workers.count() == 1 {
        Preparation::of(alloc, renaming, &kept)?
    } else {
        let end = layers_to_prepare(problem, pairs, &kept, limit);
        Preparation::by_workers(rt, alloc, renaming, &kept, end, workers)?
    };
    Ok(SearchStart { prepared, kept })
}
