//! The texts of `--orders` and `--sizes`.

ghost use Rattle.std.specs.Prelude.{◌≡◌, ◌+◌, ◌^◌, ◌<◌, ◌++◌, codes, decimal, length, string_bytes, IfOk, OnOk};
ghost use Rattle.std.specs.List.{flat_map, range_with_len};
ghost use Rattle.order_counts.specs.Sizes.{counts_at};
ghost use Rattle.outcomes.specs.Texts.{labelled};
ghost use Rattle.report_texts.specs.OrderTexts.{mean_hundredths as mean_of, orders_lines, size_line, with_decimals};

use order_counts::{CostCounts, Figures};
use std::alloc::{AllocError, Global};
use std::fmt::Write;

/// How many bytes are reserved for the text of `--orders`: its fixed words and eight numbers.
const LONGEST: usize = 320;

/// What `--orders` prints of the orders that keep the pairs.
#[derive(Clone, Copy, Debug)]
pub struct OrdersReport {
    /// How many orders there are, and the fewest, the most and all nodes.
    pub figures: Figures,
    /// The number of nodes under the sifted order.
    pub sifted_size: u32,
    /// How many orders have fewer nodes than the sifted one.
    pub better: u64,
}

/// The mean of `count` sizes whose sum is `total`, in hundredths of a node, rounded half up.
fn mean_hundredths(total: u64, count: u64) -> u128
    requires { 0 < count }
    ensures { result ≡ mean_of total count }
{
    let count = u128::from(count);
    (200 * u128::from(total) + count) / (2 * count)
}

/// Appends a line to `text`: `label`, and then `number` in decimal. If memory is refused, a part
/// may have been appended.
fn push_line(text: &mut String, label: &str, number: u64) -> Result<(), AllocError>
    ensures { OnOk result
        (string_bytes text.new ≡ string_bytes text.old ++ labelled label.now (decimal number)) }
{
    write!(text, "{label}{number}\n")?;
    Ok(())
}

/// Appends the line of the mean to `text`, with two decimals. If memory is refused, a part may have
/// been appended.
fn push_mean(text: &mut String, figures: &Figures) -> Result<(), AllocError>
    requires { 0 < figures.now.count }
    ensures { OnOk result (string_bytes text.new ≡ string_bytes text.old
        ++ labelled (codes "mean nodes: ") (with_decimals (mean_of figures.now.total figures.now.count))) }
{
    let mean = mean_hundredths(figures.total, figures.count);
    let (whole, tenth, hundredth) = (mean / 100, mean / 10 % 10, mean % 10);
    write!(text, "mean nodes: {whole}.{tenth}{hundredth}\n")?;
    Ok(())
}

/// The text of `--orders`, in eight lines.
pub fn orders_text(alloc: Global, report: &OrdersReport) -> Result<String, AllocError>
    requires { 0 < report.now.figures.count }
    ensures { IfOk result (λ text. string_bytes text
        ≡ orders_lines report.now.figures.count report.now.figures.fewest.nodes
        report.now.figures.fewest.orders report.now.figures.most.nodes
        report.now.figures.most.orders report.now.figures.total report.now.sifted_size report.now.better) }
{
    let figures = &report.figures;
    let mut text = String::with_capacity(alloc, LONGEST)?;
    push_line(&mut text, "orders: ", figures.count)?;
    push_line(&mut text, "nodes: ", u64::from(figures.fewest.nodes))?;
    push_line(&mut text, "optimal orders: ", figures.fewest.orders)?;
    push_line(&mut text, "most nodes: ", u64::from(figures.most.nodes))?;
    push_line(&mut text, "worst orders: ", figures.most.orders)?;
    push_mean(&mut text, figures)?;
    push_line(&mut text, "sifted nodes: ", u64::from(report.sifted_size))?;
    push_line(&mut text, "orders below sifted: ", report.better)?;
    Ok(text)
}

/// Appends a line to `text`, `size` and `orders`, unless `orders` is 0.
fn push_size(text: &mut String, size: u32, orders: u64) -> Result<(), AllocError>
    ensures { OnOk result
        (string_bytes text.new ≡ string_bytes text.old ++ size_line (λ _. orders) size) }
{
    if orders > 0 {
        write!(text, "{size} {orders}\n")?;
    }
    Ok(())
}

/// The text of `--sizes`: a line for each size that `counts` has orders of, with their number.
pub fn sizes_text(alloc: Global, counts: &CostCounts) -> Result<String, AllocError>
    requires { counts.now.least + length counts.now.orders.items < 2 ^ 32 }
    ensures { IfOk result (λ text. string_bytes text ≡ flat_map (size_line (counts_at counts.now))
        (range_with_len counts.now.least (length counts.now.orders.items))) }
{
    let mut text = String::new(alloc);
    for i in 0..counts.orders.len() {
        push_size(&mut text, counts.least + i as u32, counts.orders[i])?;
    }
    Ok(text)
}
