ghost use Rattle.std.specs.Prelude.{◌≡◌, ◌+◌, ◌++◌, ◌<◌, ◌^◌, List, ℕ, length, map, is_some, IfOk};
ghost use Rattle.std.specs.List.{All};
ghost use Rattle.pla_reader.specs.declared.places.Names.{Names};
ghost use Rattle.pla_reader.specs.Lines.{line_said};
ghost use Rattle.pla_reader.specs.Places.{AreNamesAt, Gives, LiesIn, bytes_at, naming_by};
ghost use Rattle.pla_reader.specs.Statements.{line_of};
ghost use Rattle.pla_reader.specs.Text.{words};

use crate::lines::{content, first_line, next_word};
use crate::statements::{Statement, statement_of};
use std::alloc::{AllocError, Global};

/// A part of a text.
#[repr(C)]
#[derive(Clone, Copy, Debug, PartialEq, Eq)]
pub struct TextPlace {
    /// The index of its first byte.
    pub start: usize,
    pub length: usize,
}

/// Whether the names of the inputs or those of the outputs are meant.
#[derive(Clone, Copy, Debug, PartialEq, Eq)]
pub enum Names {
    Inputs,
    Outputs,
}

fn gives(statement: &Statement<'_>, names: Names) -> bool
    ensures { result ≡ is_some (naming_by names (line_of statement.now)) }
{
    match names {
        Names::Inputs => matches!(statement, Statement::InputNames(_)),
        Names::Outputs => matches!(statement, Statement::OutputNames(_)),
    }
}

/// Where the words of `text` stand in a longer text, of which `text` is the part from `start` on.
fn word_places(alloc: Global, text: &[u8], start: usize) -> Result<Vec<TextPlace>, AllocError>
    requires { start + length text.now < 2 ^ 64 }
    ensures spell { IfOk result (λ v. (front back : List ℕ) → length front ≡ start →
        map (bytes_at (front ++ text.now ++ back)) v.items ≡ words text.now) }
    ensures inside { IfOk result (λ v. All (LiesIn start (start + length text.now)) v.items) }
{
    let mut places = Vec::new(alloc);
    let mut rest = text;
    while let Some((word, after)) = next_word(rest) {
        places.push(TextPlace {
            start: start + (text.len() - after.len() - word.len()),
            length: word.len(),
        })?;
        rest = after;
    }
    Ok(places)
}

/// Where the names that `line` lists after its directive stand in a longer text, of which `line` is
/// the part from `start` on.
fn given_places(alloc: Global, line: &[u8], start: usize) -> Result<Vec<TextPlace>, AllocError>
    requires { start + length line.now < 2 ^ 64 }
    ensures given { IfOk result (λ v. (front back : List ℕ) (names : Names) → length front ≡ start →
        Gives names (line_said line.now) (map (bytes_at (front ++ line.now ++ back)) v.items)) }
    ensures inside { IfOk result (λ v. All (LiesIn start (start + length line.now)) v.items) }
{
    let text = content(line);
    match next_word(text) {
        Some((_, given)) => word_places(alloc, given, start + (text.len() - given.len())),
        None => Ok(Vec::new(alloc)),
    }
}

/// Where the names stand in the PLA description `bytes`, as its first line that lists them does.
/// Empty if no line before `.e` or `.end` does.
pub fn name_places(alloc: Global, bytes: &[u8], names: Names) -> Result<Vec<TextPlace>, AllocError>
    ensures { IfOk result (λ v. AreNamesAt names bytes.now v.items) }
{
    let mut rest = bytes;
    while !rest.is_empty() {
        let (line, after) = first_line(rest);
        let statement = statement_of(line);
        if gives(&statement, names) {
            return given_places(alloc, line, bytes.len() - rest.len());
        }
        if statement.is_end() {
            return Ok(Vec::new(alloc));
        }
        rest = after;
    }
    Ok(Vec::new(alloc))
}
