//! The report of `--count`.

ghost use Rattle.std.specs.Prelude.{◌≡◌, ◌≤◌, IfOk, length, string_bytes};
ghost use Rattle.report_texts.specs.Texts.{count_text as text_of, file_order_levels};

use crate::texts::count_text;
use order_model::Order;
use order_model::laws::truth_tables_keep_functions;
use pla_reader::Cover;
use std::alloc::{AllocError, Global};
use std::thread::Threads;
use truth_table::Tables;

/// The level counts of a cover's functions under the file order, counted in the truth tables.
fn file_order_counts<R: Threads + Sync>(
    rt: &R,
    alloc: Global,
    cover: &Cover,
) -> Result<Vec<u32>, AllocError>
    ensures counts { IfOk result (λ v. v.items ≡ file_order_levels cover.now) }
    ensures few { IfOk result (λ v. length v.items ≤ 16) }
{
    let tables = Tables::of_cover(rt, alloc, cover)?;
    let order = Order::file_order(alloc, cover.inputs())?;
    truth_tables_keep_functions();
    let counts = tables.widths_of(alloc, &order)?;
    Ok(counts)
}

/// The report of `--count` on a cover, in two lines: the level counts of its functions under the
/// file order, top first, and their sum, the number of nodes.
pub fn counts_of<R: Threads + Sync>(
    rt: &R,
    alloc: Global,
    cover: &Cover,
) -> Result<String, AllocError>
    ensures { IfOk result (λ text. string_bytes text ≡ text_of cover.now) }
{
    let counts = file_order_counts(rt, alloc, cover)?;
    let text = count_text(alloc, &counts)?;
    Ok(text)
}
