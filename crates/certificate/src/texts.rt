//! The texts of certificates. If memory is refused, `text` may have got a part of what is appended.

ghost use Rattle.std.specs.Prelude.{◌≡◌, ◌≤◌, ◌++◌, [], ◌∷◌, length, map, codes, string_bytes, IfOk, OnOk};
ghost use Rattle.std.specs.List.{flat_map};
ghost use Rattle.definitions.specs.Listed.{listed};
ghost use Rattle.certificate.specs.Spelling.{field, section, head_lines, pair_lines, text_line, pair_words, cell_words, spelling};
ghost use Rattle.certificate.specs.Heads.{most_bytes};

use crate::certificate::Certificate;
use order_model::{ListedCell, VarIx};
use std::alloc::{AllocError, Global};
use std::fmt::Write;

/// Enough for all lines but those of pairs and listed sets: at most 38 numbers of at most 6 digits,
/// and the fixed words.
const LONGEST_HEAD: usize = 512;

const LONGEST_PAIR: usize = 6;

const LONGEST_CELL: usize = 12;

/// Appends a line: the word `name`, a space and `number`.
fn push_number(text: &mut String, name: &str, number: usize) -> Result<(), AllocError>
    ensures { OnOk result
        (string_bytes text.new ≡ string_bytes text.old
        ++ text_line (field name.now (number ∷ []))) }
{
    write!(text, "{name} {number}\n")?;
    Ok(())
}

/// Appends a line: the word `name` and then `numbers`.
fn push_numbers(text: &mut String, name: &str, numbers: &[u32]) -> Result<(), AllocError>
    ensures { OnOk result
        (string_bytes text.new ≡ string_bytes text.old ++ text_line (field name.now numbers.now)) }
{
    text.push_str(name)?;
    for number in numbers {
        write!(text, " {number}")?;
    }
    text.push_str("\n")?;
    Ok(())
}

/// Appends a line: the word `name` and then `variables`.
fn push_variables(text: &mut String, name: &str, variables: &[VarIx]) -> Result<(), AllocError>
    ensures { OnOk result
        (string_bytes text.new ≡ string_bytes text.old
        ++ text_line (field name.now variables.now)) }
{
    text.push_str(name)?;
    for variable in variables {
        write!(text, " {variable}")?;
    }
    text.push_str("\n")?;
    Ok(())
}

/// Appends a line for each pair (a, b): `a`, a space and `b`.
fn push_pairs(text: &mut String, pairs: &[(VarIx, VarIx)]) -> Result<(), AllocError>
    ensures { OnOk result
        (string_bytes text.new ≡ string_bytes text.old
        ++ flat_map text_line (map pair_words pairs.now)) }
{
    for (a, b) in pairs {
        write!(text, "{a} {b}\n")?;
    }
    Ok(())
}

/// Appends the line of a listed set: its mask as four hexadecimal digits, a space, and its cost.
fn push_cell(text: &mut String, cell: ListedCell) -> Result<(), AllocError>
    ensures { OnOk result
        (string_bytes text.new ≡ string_bytes text.old ++ text_line (cell_words (listed cell))) }
{
    let mask = cell.mask;
    let cost = cell.cost;
    write!(text, "{mask:04x} {cost}\n")?;
    Ok(())
}

fn push_cells(text: &mut String, cells: &[ListedCell]) -> Result<(), AllocError>
    ensures { OnOk result
        (string_bytes text.new ≡ string_bytes text.old
        ++ flat_map text_line (map cell_words (map listed cells.now))) }
{
    for cell in cells {
        push_cell(text, *cell)?;
    }
    Ok(())
}

/// Appends the first six lines: format, inputs, outputs, order, level counts and total.
fn push_head(text: &mut String, cert: &Certificate) -> Result<(), AllocError>
    ensures { OnOk result
        (string_bytes text.new ≡ string_bytes text.old
        ++ flat_map text_line (head_lines cert.now)) }
{
    push_number(text, "bddorder-certificate", cert.format() as usize)?;
    push_number(text, "inputs", cert.inputs() as usize)?;
    push_number(text, "outputs", cert.outputs() as usize)?;
    push_variables(text, "order", cert.order())?;
    push_numbers(text, "levels", cert.levels())?;
    push_number(text, "total", cert.total() as usize)?;
    Ok(())
}

/// Appends the line with the number of pairs, and a line for each; nothing in format 1.
fn push_pair_lines(text: &mut String, cert: &Certificate) -> Result<(), AllocError>
    ensures { OnOk result
        (string_bytes text.new ≡ string_bytes text.old
        ++ flat_map text_line (pair_lines cert.now.format cert.now.pairs)) }
{
    if cert.format() == 1 {
        return Ok(());
    }
    push_number(text, "pairs", cert.pairs().len())?;
    push_pairs(text, cert.pairs())?;
    Ok(())
}

/// Appends the line with the number of listed sets, and a line for each.
fn push_cell_lines(text: &mut String, cert: &Certificate) -> Result<(), AllocError>
    ensures { OnOk result
        (string_bytes text.new ≡ string_bytes text.old
        ++ flat_map text_line (section (codes "cells") (map cell_words cert.now.cells))) }
{
    push_number(text, "cells", cert.cells().len())?;
    push_cells(text, cert.cells())?;
    Ok(())
}

impl Certificate {
    /// The certificate's text. Its storage is reserved before its first byte is made: 512 bytes,
    /// and 6 for each pair and 12 for each listed set.
    pub fn text(&self, alloc: Global) -> Result<String, AllocError>
        ensures spelling { IfOk result (λ text. string_bytes text ≡ spelling self.now) }
        ensures readable { IfOk result (λ text. length (string_bytes text) ≤ most_bytes) }
    {
        let pairs = LONGEST_PAIR.saturating_mul(self.pairs().len());
        let cells = LONGEST_CELL.saturating_mul(self.cells().len());
        let room = LONGEST_HEAD.saturating_add(pairs).saturating_add(cells);
        let mut text = String::with_capacity(alloc, room)?;
        push_head(&mut text, self)?;
        push_pair_lines(&mut text, self)?;
        push_cell_lines(&mut text, self)?;
        text.push_str("end\n")?;
        Ok(text)
    }
}
