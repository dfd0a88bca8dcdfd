//! What the lines of a description that were read so far state.

ghost use Rattle.std.specs.Prelude.{◌≡◌, ◌≤◌, ◌&&◌, length, true, false, None, Some, IfOk, IfErr, MatchResult, is_some, unwrap_or, map};
ghost use Rattle.std.specs.List.{list_all};
ghost use Rattle.std.specs.Option.{option_map};
ghost use Rattle.std.specs.String.{string_bytes};
ghost use Rattle.pla_reader.specs.declared.errors.LineFault.TheVariants.{MissingHead, BadNumber};
ghost use Rattle.pla_reader.specs.Text.{is_filled, words, positions, is_name};
ghost use Rattle.pla_reader.specs.Lines.Line.{Inputs, Outputs, InputNames, OutputNames, LogicalType as TypeLine, Row};
ghost use Rattle.pla_reader.specs.Covers.{first_number, numbered_names};
ghost use Rattle.pla_reader.specs.Faults.{head_fault, naming_fault, type_fault, is_one_number};
ghost use Rattle.pla_reader.specs.Statements.{line_of};
ghost use Rattle.pla_reader.specs.Progress.{state_of, start, is_f, words_of, IsSoundState, Takes, IsCoverOf, IsEndError};

use crate::cover::Cover;
use crate::errors::{LineFault, PlaError};
use crate::lines::{count_words, has_names, only_word};
use crate::names::{default_names, names};
use crate::statements::{Statement, is_same};
use crate::terms::row;
use order_model::{Term, decimal_number};
use std::alloc::{AllocError, Global};

/// The logical type of a description, f or fd, as espresso(5) defines them.
#[derive(Clone, Copy)]
pub(crate) enum LogicalType {
    F,
    Fd,
}

/// Why a line was not recorded.
#[derive(Clone, Copy)]
pub(crate) enum LineError {
    Memory,
    Fault(LineFault),
}

impl From<LineFault> for LineError {
    ghost use Rattle.std.specs.Prelude.{◌≡◌};
    ghost use Rattle.pla_reader.specs.declared.progress.LineError.TheVariants.{Fault};

    ghost from_gives = { λ fault e. e ≡ Fault fault };

    fn from(fault: LineFault) -> LineError {
        LineError::Fault(fault)
    }
}

impl From<AllocError> for LineError {
    ghost use Rattle.std.specs.Prelude.{◌≡◌};
    ghost use Rattle.pla_reader.specs.declared.progress.LineError.TheVariants.{Memory};

    ghost from_gives = { λ _ e. e ≡ Memory };

    fn from(_: AllocError) -> LineError {
        LineError::Memory
    }
}

/// The number that `text` states after `.i` or `.o`, where `known` is what an earlier line stated.
/// The error is `RepeatedHead`, `BadNumber` or `outside`.
fn count(known: Option<u8>, text: &[u8], outside: LineFault) -> Result<u8, LineFault>
    ensures { MatchResult result
        (λ d. (head_fault (is_some known) (words text.now) outside ≡ None)
        × (first_number (words text.now) ≡ Some d) × (1 ≤ d) × (d ≤ 16))
        (λ fault. head_fault (is_some known) (words text.now) outside ≡ Some fault) }
{
    if known.is_some() {
        return Err(LineFault::RepeatedHead);
    }
    let Some(word) = only_word(text) else {
        return Err(LineFault::BadNumber);
    };
    match decimal_number(word) {
        None => Err(LineFault::BadNumber),
        Some(value) if 1 <= value && value <= 16 => Ok(value as u8),
        Some(_) => Err(outside),
    }
}

fn is_number_alone(text: &[u8]) -> bool
    ensures { result ≡ is_one_number (words text.now) }
{
    match only_word(text) {
        None => false,
        Some(word) => decimal_number(word).is_some(),
    }
}

/// Checks the names that `text` lists after `.ilb` or `.ob`. The error is `MissingHead`,
/// `RepeatedHead`, `NameCount` or `BadName`, whichever is the first.
fn check_names(count: Option<u8>, repeated: bool, text: &[u8]) -> Result<(), LineFault>
    ensures { MatchResult result
        (λ done. (naming_fault (is_some count) repeated (unwrap_or count 0) (words text.now) ≡ None)
        × (count ≡ Some (length (words text.now))) × (list_all is_name (words text.now) ≡ true))
        (λ fault. naming_fault (is_some count) repeated (unwrap_or count 0) (words text.now)
        ≡ Some fault) }
{
    let Some(count) = count else {
        return Err(LineFault::MissingHead);
    };
    if repeated {
        Err(LineFault::RepeatedHead)
    } else if count_words(text) != count as usize {
        Err(LineFault::NameCount)
    } else if !has_names(text) {
        Err(LineFault::BadName)
    } else {
        Ok(())
    }
}

/// The logical type that `text` states after `.type`. The error is `RepeatedHead` or
/// `UnsupportedType`.
fn logical_type(repeated: bool, late: bool, text: &[u8]) -> Result<LogicalType, LineFault>
    ensures { MatchResult result
        (λ kind. (type_fault repeated late (words text.now) ≡ None)
        × (words_of kind ≡ words text.now))
        (λ fault. type_fault repeated late (words text.now) ≡ Some fault) }
{
    if repeated {
        return Err(LineFault::RepeatedHead);
    }
    match only_word(text) {
        Some(word) if !late && is_same(word, b"f") => Ok(LogicalType::F),
        Some(word) if !late && is_same(word, b"fd") => Ok(LogicalType::Fd),
        _ => Err(LineFault::UnsupportedType),
    }
}

/// The names `given`, or `count` names that begin with `front`.
fn given_or_default_names(
    alloc: Global,
    given: Option<Vec<String>>,
    front: &str,
    count: u8,
) -> Result<Vec<String>, AllocError>
    ensures { IfOk result (λ all. map string_bytes all.items
        ≡ unwrap_or (option_map (λ names. map string_bytes names.items) given)
        (numbered_names front.now count)) }
{
    match given {
        Some(names) => Ok(names),
        None => default_names(alloc, front, count),
    }
}

/// What the lines read so far state, with `None` for what none of them stated.
#[derive(Drop)]
pub(crate) struct Progress {
    inputs: Option<u8>,
    outputs: Option<u8>,
    input_names: Option<Vec<String>>,
    output_names: Option<Vec<String>>,
    logical_type: Option<LogicalType>,
    terms: Vec<Term>,
}

impl Progress {
    /// The progress before the first line.
    pub(crate) fn new(alloc: Global) -> Progress
        ensures { state_of result ≡ start }
    {
        Progress {
            inputs: None,
            outputs: None,
            input_names: None,
            output_names: None,
            logical_type: None,
            terms: Vec::new(alloc),
        }
    }

    /// Whether output positions of terms may be `-` or `2`: with the logical type f.
    fn takes_dont_cares(&self) -> bool
        ensures { result ≡ is_f self.now.logical_type }
    {
        matches!(self.logical_type, Some(LogicalType::F))
    }

    fn has_terms(&self) -> bool
        ensures { result ≡ is_filled self.now.terms.items }
    {
        !self.terms.is_empty()
    }

    /// Records the number of inputs after `.i`. An error changes nothing.
    fn take_inputs(&mut self, text: &[u8]) -> Result<(), LineError>
        ensures { Takes self.old (Inputs (words text.now)) self.new result }
    {
        self.inputs = Some(count(self.inputs, text, LineFault::InputCount)?);
        Ok(())
    }

    /// Records the number of outputs after `.o`. An error changes nothing.
    fn take_outputs(&mut self, text: &[u8]) -> Result<(), LineError>
        ensures { Takes self.old (Outputs (words text.now)) self.new result }
    {
        self.outputs = Some(count(self.outputs, text, LineFault::OutputCount)?);
        Ok(())
    }

    /// Records the names of the inputs after `.ilb`. An error changes nothing.
    fn take_input_names(&mut self, alloc: Global, text: &[u8]) -> Result<(), LineError>
        ensures { Takes self.old (InputNames (words text.now)) self.new result }
    {
        check_names(self.inputs, self.input_names.is_some(), text)?;
        self.input_names = Some(names(alloc, text)?);
        Ok(())
    }

    /// Records the names of the outputs after `.ob`. An error changes nothing.
    fn take_output_names(&mut self, alloc: Global, text: &[u8]) -> Result<(), LineError>
        ensures { Takes self.old (OutputNames (words text.now)) self.new result }
    {
        check_names(self.outputs, self.output_names.is_some(), text)?;
        self.output_names = Some(names(alloc, text)?);
        Ok(())
    }

    /// Records the logical type after `.type`. An error changes nothing.
    fn take_type(&mut self, text: &[u8]) -> Result<(), LineError>
        ensures { Takes self.old (TypeLine (words text.now)) self.new result }
    {
        let kind = logical_type(self.logical_type.is_some(), self.has_terms(), text)?;
        self.logical_type = Some(kind);
        Ok(())
    }

    /// Records the term that `text`, a line without its comment, states. An error changes nothing.
    fn take_row(&mut self, text: &[u8]) -> Result<(), LineError>
        requires { IsSoundState (state_of self.old) }
        ensures { Takes self.old (Row (positions text.now)) self.new result }
    {
        let (Some(inputs), Some(outputs)) = (self.inputs, self.outputs) else {
            return Err(LineError::Fault(LineFault::MissingHead));
        };
        let term = row(inputs, outputs, self.takes_dont_cares(), text)?;
        match self.terms.push(term) {
            Ok(()) => Ok(()),
            Err(_) => Err(LineError::Memory),
        }
    }

    /// Records what the next line states. An error changes nothing.
    pub(crate) fn take(&mut self, alloc: Global, statement: Statement) -> Result<(), LineError>
        requires { IsSoundState (state_of self.old) }
        ensures { Takes self.old (line_of statement.entry) self.new result }
    {
        match statement {
            Statement::Empty | Statement::End => Ok(()),
            Statement::Inputs(text) => self.take_inputs(text),
            Statement::Outputs(text) => self.take_outputs(text),
            Statement::InputNames(text) => self.take_input_names(alloc, text),
            Statement::OutputNames(text) => self.take_output_names(alloc, text),
            Statement::Products(text) => {
                if is_number_alone(text) {
                    Ok(())
                } else {
                    Err(LineError::Fault(LineFault::BadNumber))
                }
            }
            Statement::Type(text) => self.take_type(text),
            Statement::Unknown => Err(LineError::Fault(LineFault::UnknownDirective)),
            Statement::Row(text) => self.take_row(text),
        }
    }

    /// The cover of what is recorded. Names that are missing are x0, x1, .. and y0, y1, .. The
    /// error is `MissingHead` at line `number`, the number of lines read, or `OutOfMemory`.
    pub(crate) fn finish(self, alloc: Global, number: usize) -> Result<Cover, PlaError>
        requires { IsSoundState (state_of self) }
        ensures ok { IfOk result (IsCoverOf (state_of self)) }
        ensures err { IfErr result (IsEndError (state_of self) number) }
    {
        let Progress {
            inputs,
            outputs,
            input_names,
            output_names,
            logical_type: _,
            terms,
        } = self;
        let (Some(inputs), Some(outputs)) = (inputs, outputs) else {
            return Err(PlaError::Line(number, LineFault::MissingHead));
        };
        let input_names = given_or_default_names(alloc, input_names, "x", inputs)?;
        let output_names = given_or_default_names(alloc, output_names, "y", outputs)?;
        Ok(Cover::new(inputs, outputs, input_names, output_names, terms))
    }
}
