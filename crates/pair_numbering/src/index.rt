//! Numbers of pairs by first occurrence, found with an `IndexSet`, for tables of any size.

ghost use Rattle.std.specs.Prelude.{IfOk};
ghost use Rattle.pair_numbering.specs.Numbers.{ArePairsNumbered};

use crate::entries::EntryPairs;
use crate::numbers::NumberedPairs;
use indexmap::IndexSet;
use std::alloc::{AllocError, Global};

/// Numbers the pairs by first occurrence, in an `IndexSet`.
pub fn index_entries(alloc: Global, entries: &EntryPairs<'_>) -> Result<NumberedPairs, AllocError>
    ensures { IfOk result
        (λ v. ArePairsNumbered entries.now.numbers entries.now.rank v.numbers.items
        v.pairs.items) }
{
    let half = entries.len();
    let mut seen = IndexSet::with_capacity(alloc, half)?;
    let mut numbers = Vec::with_capacity(alloc, half)?;
    for j in 0..half {
        let (number, _) = seen.insert_full(entries.pair(j))?;
        numbers.push(number as u32)?;
    }
    let pairs = seen.as_slice().to_vec(alloc)?;
    Ok(NumberedPairs { numbers, pairs })
}
