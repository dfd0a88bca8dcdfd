//! The widths of the sets of a block.

ghost use Rattle.std.specs.Prelude.{◌≡◌, ◌+◌, ◌^◌, ◌<◌, ◌≤◌, length, slice_get, IfOk, OnOk, OnErr};
ghost use Rattle.definitions.specs.Problems.{TruthTables};
ghost use Rattle.subset_layers.specs.Layers.{block_masks};
ghost use Rattle.compaction.specs.Requests.{Asks};
ghost use Rattle.compaction.specs.Rows.{AreWidthRows, AreMembers, HoldsRows, wanted_count, most_compactions};

use crate::high_walk::{ByteRows, rows_by_one_walk};
use crate::request::WidthRequest;
use crate::strips::members_only;
use crate::tally::Tally;
use order_model::{Mask, Problem, WidthRow};
use std::alloc::{AllocError, Global};
use std::marker::Model;
use subset_layers::Block;

/// The widths of the sets of a block, and how many class tables were compacted to find them.
#[derive(Drop)]
pub struct BlockWidths {
    /// A row for each set, in the order of the block's sets.
    rows: Vec<WidthRow>,
    compactions: u32,
}

impl Model for BlockWidths {
    ghost use Rattle.compaction.specs.Rows.{WidthsOf};

    ghost Value = { WidthsOf };

    ghost view = { λ b. record { rows = b.rows.items; compactions = b.compactions } };
}

impl BlockWidths {
    /// The row of the block's set `i`.
    pub fn row(&self, i: usize) -> WidthRow
        requires { i < length self.now.rows }
        ensures { slice_get self.now.rows i ≡ Some result }
    {
        self.rows[i]
    }

    /// A row for each set of the block, by rising mask.
    pub fn into_rows(self) -> Vec<WidthRow>
        ensures { result.items ≡ self.rows }
    {
        self.rows
    }

    /// How many class tables were compacted: one for each variable in the block's low byte, and
    /// those of the walk. 0 if no width was requested.
    pub fn compactions(&self) -> u32
        ensures { result ≡ self.now.compactions }
    {
        self.compactions
    }
}

/// A row for each set of the block, copied from `byte`: for set i, at each x in `needed[i]`, the
/// width of x over the other members, and 0 elsewhere.
fn rows_of_block(
    alloc: Global,
    byte: &ByteRows,
    block: &Block,
    needed: &[Mask],
) -> Result<Vec<WidthRow>, AllocError>
    requires each { length byte.now.rows ≡ length byte.now.needed }
    requires inputs { block.now.inputs ≡ byte.now.inputs }
    requires low { block.now.low ≡ byte.now.low }
    requires needed { length needed.now ≡ length (block_masks block.now) }
    requires asked { Asks byte.now.needed (block_masks block.now) needed.now }
    ensures { IfOk result (λ rows. (p : TruthTables) → HoldsRows p byte.now →
        AreWidthRows p (block_masks block.now) needed.now rows.items) }
{
    let mut rows = Vec::with_capacity(alloc, block.len())?;
    for (i, mask) in block.masks().iter().enumerate() {
        let row = byte.rows[usize::from(*mask >> 8)];
        rows.push(members_only(row, needed[i]))?;
    }
    Ok(rows)
}

/// Computes a row for each set of the block: for set i, at each x in `needed[i]`, the width of x
/// over the other members, and 0 elsewhere. `tally` rises by the number of these widths, unless
/// memory is refused.
pub fn block_widths(
    alloc: Global,
    problem: &Problem,
    block: &Block,
    needed: &[Mask],
    tally: &mut Tally,
) -> Result<BlockWidths, AllocError>
    requires inputs { block.now.inputs ≡ problem.now.inputs }
    requires needed { length needed.now ≡ length (block_masks block.now) }
    requires members { AreMembers problem.now (block_masks block.now) needed.now }
    requires room { tally.old + wanted_count needed.now ≤ 2 ^ 32 }
    ensures rows { IfOk result
        (λ widths. AreWidthRows problem.now (block_masks block.now) needed.now widths.rows) }
    ensures compactions { IfOk result (λ widths. widths.compactions ≤ most_compactions) }
    ensures ok { OnOk result (tally.new ≡ tally.old + wanted_count needed.now) }
    ensures err { OnErr result (tally.new ≡ tally.old) }
{
    prove!(block.len() <= 256);
    prove!(problem.inputs() <= 16);
    let mut request = WidthRequest::none(alloc, block.inputs(), block.low())?;
    request.add_block(block, needed);
    let (byte, compactions) = rows_by_one_walk(alloc, problem, request)?;
    let rows = rows_of_block(alloc, &byte, block, needed)?;
    tally.add_wanted(needed);
    Ok(BlockWidths { rows, compactions })
}
