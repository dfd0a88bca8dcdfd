//! Worked cases, and how they are read from their text.

use anyhow::{Context, Result, bail};
use std::alloc::{AllocError, Global};
use std::fs;
use std::rt::Files;

/// What a text of a case stands for.
#[derive(Clone, Copy, PartialEq, Eq)]
pub enum Place<'a> {
    /// A file as it is before the call.
    File(&'a str),
    Output,
    Errors,
    /// A file as it is after the call.
    After(&'a str),
    /// A file that isn't there after the call.
    Absent(&'a str),
}

/// A text of a case, and what it stands for.
#[derive(Drop)]
pub struct Text<'a> {
    pub place: Place<'a>,
    pub bytes: Vec<u8>,
}

/// Calls that all do the same, what is there before each, and what is seen after it.
#[derive(Drop)]
pub struct Case<'a> {
    pub name: &'a str,
    /// The program and its words.
    pub calls: Vec<&'a str>,
    pub texts: Vec<Text<'a>>,
    /// The first and the last length, both inclusive, to which the files are cut, in a call each.
    pub lengths: (usize, usize),
    pub status: u8,
    /// The stream to which clap, the parser of the command line, writes a text of its own.
    pub by_clap: Option<Place<'a>>,
}

/// The place that a line's first word, and what follows its first space, stand for.
fn place_of<'a>(word: &str, rest: &'a str) -> Option<Place<'a>> {
    match word {
        "file" => Some(Place::File(rest)),
        "after" => Some(Place::After(rest)),
        "absent" => Some(Place::Absent(rest)),
        "output" if rest.is_empty() => Some(Place::Output),
        "errors" if rest.is_empty() => Some(Place::Errors),
        _ => None,
    }
}

/// The first and the last length in `range`.
fn lengths(range: &str) -> Result<(usize, usize)> {
    let Some((first, last)) = range.split_once(' ') else {
        bail!("two lengths")
    };
    let first = first.parse()?;
    let last = last.parse()?;
    Ok((first, last))
}

impl<'a> Case<'a> {
    /// A case without calls and texts, whose files aren't cut, and with the status 0.
    fn new(alloc: Global, name: &'a str) -> Case<'a> {
        Case {
            name,
            calls: Vec::new(alloc),
            texts: Vec::new(alloc),
            lengths: (usize::MAX, usize::MAX),
            status: 0,
            by_clap: None,
        }
    }

    /// Adds an empty text for `place` to the case.
    fn begin(&mut self, alloc: Global, place: Place<'a>) -> Result<(), AllocError> {
        let bytes = Vec::new(alloc);
        self.texts.push(Text { place, bytes })?;
        Ok(())
    }

    /// Adds a call: the program's name and its words.
    fn call(&mut self, words: &'a str) -> Result<(), AllocError> {
        self.calls.push(words)?;
        Ok(())
    }

    /// Reads a line of the case: one that begins a text, adds a call, sets the lengths, the status
    /// or the stream to which clap writes, or changes the last text. After an error the last text
    /// may have a part of what the line adds.
    fn read_line<R: Files + AllocGlobal>(&mut self, rt: &R, line: &'a str) -> Result<()> {
        let (word, rest) = line.split_once(' ').unwrap_or((line, ""));
        if let Some(place) = place_of(word, rest) {
            return Ok(self.begin(rt.alloc(), place)?);
        }
        match word {
            "call" => Ok(self.call(rest)?),
            "lengths" => {
                self.lengths = lengths(rest)?;
                Ok(())
            }
            "status" => {
                self.status = rest.parse()?;
                Ok(())
            }
            "output" | "errors" if rest == "by clap" => {
                self.by_clap = place_of(word, "");
                Ok(())
            }
            _ => self.lengthen(rt, line),
        }
    }

    /// Changes the last text of the case by `line`.
    fn lengthen<R: Files + AllocGlobal>(&mut self, rt: &R, line: &str) -> Result<()> {
        match self.texts.last_mut() {
            Some(text) => lengthen(rt, &mut text.bytes, line),
            None => bail!("a line of no text"),
        }
    }
}

/// Appends `text`, and a line feed if `is_whole` is true.
fn add_text(bytes: &mut Vec<u8>, text: &str, is_whole: bool) -> Result<(), AllocError> {
    bytes.extend_from_slice(text.as_bytes())?;
    if is_whole {
        bytes.push(b'\n')?;
    }
    Ok(())
}

/// Appends the bytes whose hexadecimal codes `codes` lists.
fn add_codes(bytes: &mut Vec<u8>, codes: &str) -> Result<()> {
    for code in codes.split(' ') {
        let byte = u8::from_str_radix(code, 16)?;
        bytes.push(byte)?;
    }
    Ok(())
}

fn add_file<R: Files + AllocGlobal>(rt: &R, bytes: &mut Vec<u8>, name: &str) -> Result<()> {
    let held = fs::read(rt, name)?;
    bytes.extend_from_slice(&held)?;
    Ok(())
}

/// Cuts `bytes` to `length`, or lengthens it to that by bytes `x`.
fn fill(bytes: &mut Vec<u8>, length: &str) -> Result<()> {
    let length = length.parse()?;
    bytes.resize(length, b'x')?;
    Ok(())
}

/// Changes `bytes` by `line`: `|TEXT` appends the text and a line feed, `+TEXT` the text alone,
/// `bytes CODES` bytes by their hexadecimal codes, `from FILE` the bytes of a file; `fill LENGTH`
/// sets the length. After an error a part may have been appended.
fn lengthen<R: Files + AllocGlobal>(rt: &R, bytes: &mut Vec<u8>, line: &str) -> Result<()> {
    if let Some(whole) = line.strip_prefix('|') {
        return Ok(add_text(bytes, whole, true)?);
    }
    if let Some(begun) = line.strip_prefix('+') {
        return Ok(add_text(bytes, begun, false)?);
    }
    match line.split_once(' ') {
        Some(("bytes", codes)) => add_codes(bytes, codes),
        Some(("fill", length)) => fill(bytes, length),
        Some(("from", name)) => add_file(rt, bytes, name),
        _ => bail!("no line of a case"),
    }
}

/// Reads a line of a file of cases. Empty lines and comments, which begin with `#`, are skipped.
fn read_line<'a, R: Files + AllocGlobal>(
    rt: &R,
    cases: &mut Vec<Case<'a>>,
    line: &'a str,
) -> Result<()> {
    if let Some(name) = line.strip_prefix("case ") {
        cases.push(Case::new(rt.alloc(), name))?;
        return Ok(());
    }
    if line.is_empty() || line.starts_with('#') {
        return Ok(());
    }
    let case: &mut Case<'a> = cases.last_mut().context("a line before the first case")?;
    case.read_line(rt, line)
        .context(format_args!("in {}: {line}", case.name))
}

/// Reads the cases that `text` has, in their order.
pub fn read_cases<'a, R: Files + AllocGlobal>(rt: &R, text: &'a str) -> Result<Vec<Case<'a>>> {
    let mut cases = Vec::new(rt.alloc());
    for line in text.lines() {
        read_line(rt, &mut cases, line)?;
    }
    Ok(cases)
}
