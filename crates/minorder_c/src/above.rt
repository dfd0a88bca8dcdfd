ghost use Rattle.std.specs.Prelude.{◌≡◌, ◌≤◌, IfOk, IfErr, OnOk};
ghost use Rattle.definitions.specs.KeptPairs.{CanBeKept};
ghost use Rattle.definitions.specs.Pairs.{sorted_pairs};
ghost use Rattle.minorder_c.specs.Answers.{pairs_given};
ghost use Rattle.minorder_c.specs.Statuses.{RefusesPairs};

use crate::status::Refusal;
use order_model::{Pairs, VarIx};
use std::alloc::{AllocError, Global};

/// A pair in C: the variable `above` has to stand above the variable `below`.
#[repr(C)]
#[derive(Clone, Copy, Debug)]
pub(crate) struct AbovePair {
    pub above: u8,
    pub below: u8,
}

fn numbers_of(alloc: Global, given: &[AbovePair]) -> Result<Vec<(VarIx, VarIx)>, AllocError>
    ensures { IfOk result (λ v. v.items ≡ pairs_given given.now) }
{
    let mut pairs = Vec::with_capacity(alloc, given.len())?;
    for i in 0..given.len() {
        let AbovePair { above, below } = given[i];
        pairs.push((above, below))?;
    }
    Ok(pairs)
}

/// The pairs `given`, without duplicates, for orders of the variables below `n`.
pub(crate) fn kept_pairs(alloc: Global, given: &[AbovePair], n: u8) -> Result<Pairs, Refusal>
    requires some { 1 ≤ n }
    requires few { n ≤ 16 }
    ensures kept { OnOk result (CanBeKept n (pairs_given given.now)) }
    ensures value { IfOk result
        (λ p. p ≡ record { inputs = n; pairs = sorted_pairs n (pairs_given given.now) }) }
    ensures refused { IfErr result (RefusesPairs (Unit {0}) (CanBeKept n (pairs_given given.now))) }
{
    if given.is_empty() {
        let none = Pairs::none(n);
        prove!(none.inputs() <= 16);
        return Ok(none);
    }
    let pairs = numbers_of(alloc, given)?;
    match Pairs::of(&pairs, n) {
        Ok(kept) => Ok(kept),
        Err(_) => Err(Refusal::Pairs),
    }
}
