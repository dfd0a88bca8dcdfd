//! The texts that the programs write, each made whole before its first byte goes out. If memory is
//! refused, `text` may have got a part of what is appended.

ghost use Rattle.std.specs.Prelude.{◌≡◌, ◌<◌, ◌≤◌, ◌++◌, length, map, string_bytes, IfOk, OnOk};
ghost use Rattle.std.specs.List.{All};
ghost use Rattle.certificate.specs.Values.{each_spaced};
ghost use Rattle.report_texts.specs.Texts.{each_name_spaced, sizes_lines};
ghost use Rattle.outcomes.specs.Texts.{name_of, names_in, numbers as spaced, counts_lines, order_lines};

use order_model::{VarIx, total};
use std::alloc::{AllocError, Global};
use std::fmt::Write;

/// The bytes reserved for a report besides those for names. They suffice for the fixed words and at
/// most 51 numbers.
const LONGEST: usize = 1024;

/// Appends `numbers`, each after a space.
fn push_spaced(text: &mut String, numbers: &[u32]) -> Result<(), AllocError>
    ensures { OnOk result
        (string_bytes text.new ≡ string_bytes text.old ++ each_spaced numbers.now) }
{
    for number in numbers {
        write!(text, " {number}")?;
    }
    Ok(())
}

/// Appends `numbers`, with one space between each two.
fn push_numbers(text: &mut String, numbers: &[u32]) -> Result<(), AllocError>
    ensures { OnOk result (string_bytes text.new ≡ string_bytes text.old ++ spaced numbers.now) }
{
    let Some((first, rest)) = numbers.split_first() else {
        return Ok(());
    };
    write!(text, "{first}")?;
    push_spaced(text, rest)?;
    Ok(())
}

/// Appends `variables`, each after a space.
fn push_spaced_variables(text: &mut String, variables: &[VarIx]) -> Result<(), AllocError>
    ensures { OnOk result
        (string_bytes text.new ≡ string_bytes text.old ++ each_spaced variables.now) }
{
    for variable in variables {
        write!(text, " {variable}")?;
    }
    Ok(())
}

/// Appends `variables`, with one space between each two.
fn push_variables(text: &mut String, variables: &[VarIx]) -> Result<(), AllocError>
    ensures { OnOk result (string_bytes text.new ≡ string_bytes text.old ++ spaced variables.now) }
{
    let Some((first, rest)) = variables.split_first() else {
        return Ok(());
    };
    write!(text, "{first}")?;
    push_spaced_variables(text, rest)?;
    Ok(())
}

/// Appends the name of `variable`.
fn push_name(text: &mut String, names: &[String], variable: VarIx) -> Result<(), AllocError>
    requires { variable < length names.now }
    ensures { OnOk result
        (string_bytes text.new ≡ string_bytes text.old
        ++ name_of (map string_bytes names.now) variable) }
{
    text.push_str(names[variable as usize].as_str())?;
    Ok(())
}

/// Appends the names of `variables`, each after a space.
fn push_spaced_names(
    text: &mut String,
    names: &[String],
    variables: &[VarIx],
) -> Result<(), AllocError>
    requires { All (λ x. x < length names.now) variables.now }
    ensures { OnOk result
        (string_bytes text.new ≡ string_bytes text.old
        ++ each_name_spaced (map string_bytes names.now) variables.now) }
{
    for variable in variables {
        text.push(' ')?;
        push_name(text, names, *variable)?;
    }
    Ok(())
}

/// Appends the names of `variables`, with one space between each two.
fn push_names(text: &mut String, names: &[String], variables: &[VarIx]) -> Result<(), AllocError>
    requires { All (λ x. x < length names.now) variables.now }
    ensures { OnOk result
        (string_bytes text.new ≡ string_bytes text.old
        ++ names_in (map string_bytes names.now) variables.now) }
{
    let Some((first, rest)) = variables.split_first() else {
        return Ok(());
    };
    push_name(text, names, *first)?;
    push_spaced_names(text, names, rest)?;
    Ok(())
}

/// Appends the lines `order:`, the variables top first, and `names:`, their names.
fn push_order(text: &mut String, names: &[String], order: &[VarIx]) -> Result<(), AllocError>
    requires { All (λ x. x < length names.now) order.now }
    ensures { OnOk result
        (string_bytes text.new ≡ string_bytes text.old
        ++ order_lines (map string_bytes names.now) order.now) }
{
    text.push_str("order: ")?;
    push_variables(text, order)?;
    text.push_str("\nnames: ")?;
    push_names(text, names, order)?;
    text.push_str("\n")?;
    Ok(())
}

/// Appends the lines `levels:`, top first, and `nodes:`, their sum.
fn push_counts(text: &mut String, levels: &[u32]) -> Result<(), AllocError>
    requires { length levels.now ≤ 16 }
    ensures { OnOk result
        (string_bytes text.new ≡ string_bytes text.old ++ counts_lines levels.now) }
{
    let nodes = total(levels);
    text.push_str("levels: ")?;
    push_numbers(text, levels)?;
    write!(text, "\nnodes: {nodes}\n")?;
    Ok(())
}

/// What the seven lines of a report state.
#[derive(Drop)]
pub struct Report<'a> {
    /// The names of the inputs: entry x is that of variable x.
    pub names: &'a [String],
    /// The order that the run found, top first.
    pub order: &'a [VarIx],
    /// The level counts under `order`, top first.
    pub levels: &'a [u32],
    /// The sifted order, top first.
    pub sifted: &'a [VarIx],
    /// The number of nodes under the sifted order.
    pub sifted_size: u32,
    /// The number of nodes under the file order.
    pub file_size: u64,
}

/// Appends the lines `sifted order:`, `sifted nodes:` and `file order nodes:`.
fn push_sizes(text: &mut String, report: &Report<'_>) -> Result<(), AllocError>
    ensures { OnOk result
        (string_bytes text.new ≡ string_bytes text.old
        ++ sizes_lines report.now.sifted.now report.now.sifted_size report.now.file_size) }
{
    let Report {
        sifted,
        sifted_size,
        file_size,
        ..
    } = report;
    text.push_str("sifted order: ")?;
    push_variables(text, sifted)?;
    write!(
        text,
        "\nsifted nodes: {sifted_size}\nfile order nodes: {file_size}\n"
    )?;
    Ok(())
}

/// The two lines of the report of `--count`.
pub(crate) fn count_text(alloc: Global, levels: &[u32]) -> Result<String, AllocError>
    requires { length levels.now ≤ 16 }
    ensures { IfOk result (λ text. string_bytes text ≡ counts_lines levels.now) }
{
    let mut text = String::with_capacity(alloc, LONGEST)?;
    push_counts(&mut text, levels)?;
    Ok(text)
}

/// The bytes that `names` take with a space after each, or the greatest usize.
fn names_room(names: &[String]) -> usize {
    let mut room: usize = 0;
    for name in names {
        room = room.saturating_add(name.len()).saturating_add(1);
    }
    room
}

/// The text of `report`, in seven lines: the order as numbers and as names, its level counts, its
/// size, the sifted order, its size, and the size under the file order. Requires a name for each
/// variable of the order, and at most 16 levels.
pub fn report_text(alloc: Global, report: &Report<'_>) -> Result<String, AllocError>
    requires order { All (λ x. x < length report.now.names.now) report.now.order.now }
    requires levels { length report.now.levels.now ≤ 16 }
    ensures { IfOk result (λ text. string_bytes text
        ≡ order_lines (map string_bytes report.now.names.now) report.now.order.now
        ++ counts_lines report.now.levels.now
        ++ sizes_lines report.now.sifted.now report.now.sifted_size report.now.file_size) }
{
    let room = names_room(report.names).saturating_add(LONGEST);
    let mut text = String::with_capacity(alloc, room)?;
    push_order(&mut text, report.names, report.order)?;
    push_counts(&mut text, report.levels)?;
    push_sizes(&mut text, report)?;
    Ok(text)
}
