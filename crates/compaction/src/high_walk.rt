//! A walk over the high variables, from the class table of a low byte.

ghost use Rattle.std.specs.Prelude.{◌≡◌, ◌≢◌, ℕ, ◌+◌, ◌%◌, ◌^◌, ◌<◌, ◌≤◌, length, slice_index, IfOk, IfSome, IsNone, OnOk};
ghost use Rattle.std.specs.Int.{bit_at};
ghost use Rattle.subfunction_classes.specs.Table.{classes_of, free_below};
ghost use Rattle.compaction.specs.HighBytes.{HasByte};
ghost use Rattle.compaction.specs.Rows.{AreByteRows, HoldsRows, most_compactions};
ghost use Rattle.compaction.specs.Strips.{low_variables as low_of};
ghost use Rattle.compaction.specs.Walks.{AreWanted, FillsOwn, FillsRows, HasDecided};

use crate::high_bytes::HighBytes;
use crate::request::WidthRequest;
use crate::shared_tables::SharedTables;
use crate::strips::Strips;
use order_model::{Mask, Problem, VarIx, WidthRow, contains};
use pair_numbering::PairMemory;
use std::alloc::{AllocError, Global};
use std::marker::Model;

/// How far a walk has come at the class table where it stands.
#[derive(Clone, Copy)]
struct Branch {
    /// The variables of which it is decided whether the sets to come have them.
    decided: Mask,
    /// The high bytes of the wanted sets that agree with the table's set in the decided variables.
    wanted: HighBytes,
}

impl Branch {
    /// The variable for which the walk decides next whether its sets have it; None if all are
    /// decided. If at most two are undecided it is the lowest of these, else the one that most of
    /// the branch's wanted sets have.
    fn next_variable(&self, inputs: u8) -> Option<VarIx>
        requires { inputs ≤ 16 }
        ensures undecided { IfSome result
            (λ y. (y < inputs) × (bit_at self.now.decided y ≡ 0)) }
        ensures all { IsNone result →
            (y : ℕ) → y < inputs → bit_at self.now.decided y ≡ 1 }
    {
        let decided = self.decided;
        // Of two undecided variables the better one saves at most one table: not worth a count.
        let few = decided.count_ones() + 2 >= u32::from(inputs);
        let mut next = None;
        let mut most = 0;
        for y in 0..inputs {
            if contains(decided, y) {
                continue;
            }
            let count = if few {
                0
            } else {
                self.wanted.with(y % 8).count()
            };
            if next.is_none() || count > most {
                next = Some(y);
                most = count;
            }
        }
        next
    }
}

/// Writes the row of the set of `table` to `rows`, at the set's high byte, if its low byte is that
/// of `request`. Other rows stay.
fn fill_row(
    alloc: Global,
    table: &Strips<'_>,
    request: &WidthRequest,
    rows: &mut [WidthRow],
) -> Result<(), AllocError>
    requires inputs { request.now.inputs ≡ table.now.problem.inputs }
    requires rows { length rows.old ≡ length request.now.needed.items }
    ensures { OnOk result (FillsOwn table.now request.now rows.old rows.new) }
{
    let set = table.set();
    let high = usize::from(set >> 8);
    if set % 256 == Mask::from(request.low) && high < rows.len() {
        rows[high] = table.width_row(alloc, request.needed[high])?;
    }
    Ok(())
}

/// Walks from `table` to those of the branch's wanted sets that are its set with some of the
/// variables added that `branch` leaves undecided, and writes the row of each to `rows`, at the
/// set's high byte. Returns how many class tables were compacted.
fn walk(
    memory: &mut PairMemory,
    table: &Strips<'_>,
    branch: &Branch,
    request: &WidthRequest,
    rows: &mut [WidthRow],
) -> Result<u32, AllocError>
    requires inputs { request.now.inputs ≡ table.now.problem.inputs }
    requires decided { HasDecided table.now branch.now.decided }
    requires wanted { AreWanted request.now table.now.set branch.now.decided branch.now.wanted.words }
    requires rows { length rows.old ≡ length request.now.needed.items }
    ensures rows { OnOk result (FillsRows table.now branch.now.decided request.now rows.old rows.new) }
    ensures compactions { IfOk result
        (λ count. count + 1 ≤ 2 ^ free_below branch.now.decided table.now.problem.inputs) }
{
    if branch.wanted.is_empty() {
        return Ok(0);
    }
    let Some(y) = branch.next_variable(request.inputs) else {
        fill_row(memory.alloc, table, request, rows)?;
        return Ok(0);
    };
    let decided = branch.decided | (1 << y);
    let without = Branch {
        decided,
        wanted: branch.wanted.without(y % 8),
    };
    let before = walk(memory, table, &without, request, rows)?;
    let with = Branch {
        decided,
        wanted: branch.wanted.with(y % 8),
    };
    if with.wanted.is_empty() {
        return Ok(before);
    }
    let next = table.add_high(memory, y)?;
    let after = walk(memory, &next, &with, request, rows)?;
    Ok(before + after + 1)
}

/// The class table of `low`, a set of low variables, made by adding variables to `first`, the table
/// of the members of `low` below `from`. None if these are all its members.
fn with_members<'a>(
    memory: &mut PairMemory,
    first: &Strips<'a>,
    low: Mask,
    from: u8,
) -> Result<Option<Strips<'a>>, AllocError>
    requires from { from ≤ low_of first.now.problem }
    requires first { first.now ≡ classes_of first.now.problem (low % 2 ^ from) }
    requires low { low < 2 ^ low_of first.now.problem }
    ensures made { IfOk result (λ made. IfSome made (λ t. t ≡ classes_of first.now.problem low)) }
    ensures none { IfOk result
        (λ made. IsNone made → first.now ≡ classes_of first.now.problem low) }
{
    let mut made: Option<Strips<'a>> = None;
    for y in from..8 {
        if contains(low, y) {
            let table = made.as_ref().unwrap_or(&*first);
            let more = table.add_low(memory, y)?;
            made = Some(more);
        }
    }
    Ok(made)
}

/// The rows of the sets with one low byte, each at the set's high byte: the widths of those members
/// that `request` needs, and 0 elsewhere.
#[derive(Drop)]
pub(crate) struct ByteRows {
    pub(crate) request: WidthRequest,
    pub(crate) rows: Vec<WidthRow>,
}

impl Model for ByteRows {
    ghost use Rattle.compaction.specs.Requests.{IsRequest};
    ghost use Rattle.compaction.specs.Rows.{RowsOf};

    ghost Value = { RowsOf };

    ghost view = { λ b. record {
      inputs = b.request.inputs;
      low = b.request.low;
      needed = b.request.needed.items;
      rows = b.rows.items;
    } };

    ghost invariant = { λ b. IsRequest b.request.inputs b.request.low b.request.needed.items };
}

/// Writes the rows that `request` needs to `rows`, each at its set's high byte, by a walk from
/// `table`, the class table of the low byte. `wanted` has the high bytes of the sets whose rows are
/// needed. Returns how many class tables were compacted, one for each variable in the low byte
/// among them.
fn walk_from_low(
    memory: &mut PairMemory,
    table: &Strips<'_>,
    wanted: HighBytes,
    request: &WidthRequest,
    rows: &mut [WidthRow],
) -> Result<u32, AllocError>
    requires inputs { request.now.inputs ≡ table.now.problem.inputs }
    requires table { table.now ≡ classes_of table.now.problem request.now.low }
    requires wanted { (h : ℕ) → h < length request.now.needed.items →
        slice_index request.now.needed.items h ≢ 0 → HasByte wanted.words h }
    requires rows { length rows.old ≡ length request.now.needed.items }
    ensures rows { OnOk result
        (AreByteRows table.now.problem request.now.low request.now.needed.items rows.new) }
    ensures compactions { IfOk result (λ count. count ≤ most_compactions) }
{
    // All sets of this walk have the request's low byte, so every low variable is decided.
    let decided = (1 << request.inputs.min(8)) - 1;
    let walked = walk(memory, table, &Branch { decided, wanted }, request, rows)?;
    Ok(request.low.count_ones() + walked)
}

/// Writes the rows that `request` needs to `rows`, each at its set's high byte, by a walk from a
/// table in `shared`. Returns how many class tables were compacted.
fn fill_rows(
    memory: &mut PairMemory,
    shared: &SharedTables<'_>,
    request: &WidthRequest,
    rows: &mut [WidthRow],
) -> Result<u32, AllocError>
    requires inputs { request.now.inputs ≡ shared.now.inputs }
    requires rows { length rows.old ≡ length request.now.needed.items }
    ensures rows { OnOk result
        (AreByteRows shared.now request.now.low request.now.needed.items rows.new) }
    ensures compactions { IfOk result (λ count. count ≤ most_compactions) }
{
    let wanted = HighBytes::wanted(&request.needed);
    if wanted.is_empty() {
        return Ok(0);
    }
    let low = Mask::from(request.low);
    let (first, known) = shared.first_table(low);
    let made = with_members(memory, first, low, known)?;
    let table = made.as_ref().unwrap_or(&*first);
    walk_from_low(memory, table, wanted, request, rows)
}

/// The rows that `request` needs, found by a walk from a table in `shared`, and how many class
/// tables were compacted for them. Each variable in the low byte counts as one, even if its table
/// was made beforehand.
pub(crate) fn walked_rows(
    memory: &mut PairMemory,
    shared: &SharedTables<'_>,
    request: WidthRequest,
) -> Result<(ByteRows, u32), AllocError>
    requires { request.inputs ≡ shared.now.inputs }
    ensures low { IfOk result (λ r. r.0.low ≡ request.low) }
    ensures needed { IfOk result (λ r. r.0.needed ≡ request.needed.items) }
    ensures rows { IfOk result (λ r. HoldsRows shared.now r.0) }
    ensures compactions { IfOk result (λ r. r.1 ≤ most_compactions) }
{
    let mut rows = vec![in memory.alloc; [0; 16]; request.needed.len()]?;
    let compactions = fill_rows(memory, shared, &request, &mut rows)?;
    Ok((ByteRows { request, rows }, compactions))
}

/// The rows that `request` needs, and how many class tables were compacted for them, as
/// `walked_rows` finds them, in memory of this walk's own.
pub(crate) fn rows_by_one_walk(
    alloc: Global,
    problem: &Problem,
    request: WidthRequest,
) -> Result<(ByteRows, u32), AllocError>
    requires { request.inputs ≡ problem.now.inputs }
    ensures low { IfOk result (λ r. r.0.low ≡ request.low) }
    ensures needed { IfOk result (λ r. r.0.needed ≡ request.needed.items) }
    ensures rows { IfOk result (λ r. HoldsRows problem.now r.0) }
    ensures compactions { IfOk result (λ r. r.1 ≤ most_compactions) }
{
    let shared = SharedTables::bare(alloc, problem)?;
    walked_rows(&mut PairMemory::new(alloc), &shared, request)
}
