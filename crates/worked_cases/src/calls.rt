//! Calls minorder and ordercheck for worked cases, and compares what they do with the cases.

use crate::cases::{Case, Place};
use anyhow::{Context, Result, bail, ensure};
use check_runs::ordercheck;
use counted_io::Counting;
use report::minorder;
use std::fs;
use std::rt::Files;
use std::thread::Threads;

/// How many calls were made, and how many differed from their case.
#[derive(Default, Drop)]
pub struct Tally {
    pub calls: u32,
    pub differ: u32,
}

#[derive(Drop)]
struct Seen {
    status: u8,
    output: Vec<u8>,
    errors: Vec<u8>,
}

/// Calls the program that `line` begins with, with the line's other words. Single spaces separate
/// words.
fn call<R: Files + AllocGlobal + Threads + Sync>(rt: &R, line: &str) -> Result<Seen> {
    let words: Vec<&str> = line.split(' ').collect(rt.alloc())?;
    let mut output = Counting::new(Vec::<u8>::new(rt.alloc()));
    let mut errors = Counting::new(Vec::<u8>::new(rt.alloc()));
    let status = match words.as_slice() {
        ["minorder", words @ ..] => minorder(rt, words, &mut output, &mut errors),
        ["ordercheck", words @ ..] => ordercheck(rt, words, &mut output, &mut errors),
        _ => bail!("no such program"),
    };
    Ok(Seen {
        status,
        output: output.into_inner(),
        errors: errors.into_inner(),
    })
}

/// Writes a new file. An error if there is one with that name already.
fn put_file<R: Files>(rt: &R, name: &str, bytes: &[u8]) -> Result<()> {
    ensure!(!fs::exists(rt, name)?, "{name} is there");
    fs::write(rt, name, bytes).context(format_args!("putting {name} there"))
}

/// Writes the files that are there before a call, each cut to `length` bytes if it is longer.
fn put_files<R: Files>(rt: &R, case: &Case<'_>, length: usize) -> Result<()> {
    for text in case.texts.iter() {
        if let Place::File(name) = text.place {
            put_file(rt, name, text.bytes.get(..length).unwrap_or(&text.bytes))?;
        }
    }
    Ok(())
}

/// Removes all files that `case` names, as far as they are there. Errors are ignored.
fn remove_files<R: Files>(rt: &R, case: &Case<'_>) {
    for text in case.texts.iter() {
        if let Place::File(name) | Place::After(name) | Place::Absent(name) = text.place {
            let _ = fs::remove_file(rt, name);
        }
    }
}

/// Whether a call wrote to `stream` what the case says. Where clap writes, any text but the empty
/// one is right.
fn agrees(case: &Case<'_>, stream: Place<'_>, got: &[u8]) -> bool {
    if case.by_clap == Some(stream) {
        return !got.is_empty();
    }
    match case.texts.iter().find(|text| text.place == stream) {
        Some(text) => got == text.bytes.as_slice(),
        None => got.is_empty(),
    }
}

/// Whether the file `name` has exactly these bytes. False if it can't be read.
fn holds<R: Files + AllocGlobal>(rt: &R, name: &str, bytes: &[u8]) -> bool {
    match fs::read(rt, name) {
        Ok(held) => held.as_slice() == bytes,
        Err(_) => false,
    }
}

/// Whether the files after the call are as the case says. False if one can't be read.
fn has_files<R: Files + AllocGlobal>(rt: &R, case: &Case<'_>) -> Result<bool> {
    for text in case.texts.iter() {
        let is_well = match text.place {
            Place::After(name) => holds(rt, name, &text.bytes),
            Place::Absent(name) => !fs::exists(rt, name)?,
            _ => true,
        };
        if !is_well {
            return Ok(false);
        }
    }
    Ok(true)
}

/// The name of the first part of `seen` that is not as the case says.
fn difference<R: Files + AllocGlobal>(
    rt: &R,
    case: &Case<'_>,
    seen: &Seen,
) -> Result<Option<&'static str>> {
    Ok(if seen.status != case.status {
        Some("status")
    } else if !agrees(case, Place::Output, &seen.output) {
        Some("standard output")
    } else if !agrees(case, Place::Errors, &seen.errors) {
        Some("standard error")
    } else if !has_files(rt, case)? {
        Some("a file")
    } else {
        None
    })
}

fn print_difference<R: AllocGlobal + Print>(
    rt: &R,
    case: &Case<'_>,
    line: &str,
    seen: &Seen,
    part: &str,
) -> Result<()> {
    let output = seen.output.escape_ascii();
    let errors = seen.errors.escape_ascii();
    println!(rt;
        "{}: {line}: {part} differs: status {}, output {output}, errors {errors}",
        case.name, seen.status
    )?;
    Ok(())
}

/// Makes the call `line`, and then removes the case's files. A call that differs from the case is
/// counted and printed, and no error; after an error files may stay.
fn carry_out_call<R: Files + AllocGlobal + Threads + Sync + Print>(
    rt: &R,
    case: &Case<'_>,
    length: usize,
    line: &str,
    tally: &mut Tally,
) -> Result<()> {
    put_files(rt, case, length)?;
    let seen = call(rt, line)?;
    tally.calls = tally.calls.saturating_add(1);
    if let Some(part) = difference(rt, case, &seen)? {
        tally.differ = tally.differ.saturating_add(1);
        print_difference(rt, case, line, &seen, part)?;
    }
    remove_files(rt, case);
    Ok(())
}

/// Makes each call of `case` for each of its lengths, until one can't be made or compared.
pub fn carry_out<R: Files + AllocGlobal + Threads + Sync + Print>(
    rt: &R,
    case: &Case<'_>,
    tally: &mut Tally,
) -> Result<()> {
    let (first, last) = case.lengths;
    for length in first..=last {
        for line in case.calls.iter() {
            carry_out_call(rt, case, length, line, tally)?;
        }
    }
    Ok(())
}
