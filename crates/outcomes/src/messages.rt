//! The words of a program's command line, its standard streams, and the messages that it writes.

ghost use Rattle.outcomes.specs.Messages.{Receives, fault_line as line_of, writer};
ghost use Rattle.outcomes.specs.Programs.{UsageEnds, streams};

use crate::fault_lines::{Program, fault_line};
use crate::outcome::Fault;
use command_line::Usage;
use counted_io::{CountedWrite, write_whole};
use std::alloc::Global;
use std::env::Env;
use std::io::ErrorKind;
use std::rt::Files;
use std::{env, fs};

/// The exit status if a word after the program's name isn't UTF-8.
const WORDS_STATUS: u8 = 2;

/// The exit status of a program that is out of memory.
const MEMORY_STATUS: u8 = 4;

/// The words after the program's name on its command line. Err has the program's exit status: 2 if
/// a word isn't UTF-8, and 4 if memory is refused.
pub fn words_of_program<R: Env + AllocGlobal>(rt: &R) -> Result<Vec<String>, u8> {
    match env::args(rt) {
        Ok(words) => match words.skip(1).collect::<Vec<String>>(rt.alloc()) {
            Ok(words) => Ok(words),
            Err(_) => Err(MEMORY_STATUS),
        },
        Err(error) if error.kind() == ErrorKind::OutOfMemory => Err(MEMORY_STATUS),
        Err(_) => Err(WORDS_STATUS),
    }
}

/// `words` as string slices. Err has the program's exit status, 4, if memory is refused.
pub fn texts_of<'a>(alloc: Global, words: &'a [String]) -> Result<Vec<&'a str>, u8> {
    let texts = words.iter().map(|word: &String| word.as_str());
    match texts.collect::<Vec<&str>>(alloc) {
        Ok(texts) => Ok(texts),
        Err(_) => Err(MEMORY_STATUS),
    }
}

/// The empty device, opened once for each standard stream; None where it can't be opened.
#[derive(Drop)]
pub struct OccupiedStreams<F> {
    input: Option<F>,
    output: Option<F>,
    error: Option<F>,
}

/// Opens the empty device, to be read, as often as there are standard streams. As long as the
/// result is there, no file that is opened takes the place of a stream that was closed when the
/// program began, and a write to that stream fails.
pub fn occupy_closed_streams<R: Files>(rt: &R) -> OccupiedStreams<R::File> {
    let occupy = || fs::open(rt, "/dev/null").ok();
    OccupiedStreams {
        input: occupy(),
        output: occupy(),
        error: occupy(),
    }
}

/// Writes the line that names `fault`, a fault of `program`, to `err`. Allocates no memory. A
/// failure of the writer has no effect.
pub fn write_fault<E: CountedWrite>(err: &mut E, program: Program, fault: Fault)
    ensures { Receives (line_of program fault) (writer (E.contents err.old) (E.failures err.old))
        (writer (E.contents err.new) (E.failures err.new)) }
{
    let line = fault_line(program, fault);
    let _ = write_whole(err, line.as_str().as_bytes());
}

/// Writes the text of `usage` and returns the exit status. Help or the version goes to `out`, with
/// status 0. The reason why the words after the program's name are refused goes to `err`, with
/// status 2. If `usage` is `OutOfMemory`, or memory is refused for its text, the line for
/// `OutOfMemory` goes to `err`, with status 4. A failure of a writer has no effect.
pub fn write_usage<W: CountedWrite, E: CountedWrite>(
    alloc: Global,
    program: Program,
    usage: &Usage,
    out: &mut W,
    err: &mut E,
) -> u8
    ensures { UsageEnds program usage.now result
        (streams (W.contents out.old) (writer (E.contents err.old) (E.failures err.old)))
        (streams (W.contents out.new) (writer (E.contents err.new) (E.failures err.new))) }
{
    let text = match usage {
        Usage::Information(error) | Usage::Refused(error) => format!(in alloc; "{error}").ok(),
        Usage::OutOfMemory => None,
    };
    let Some(text) = text else {
        write_fault(err, program, Fault::OutOfMemory);
        return MEMORY_STATUS;
    };
    let _ = match usage {
        Usage::Information(_) => write_whole(out, text.as_bytes()),
        Usage::Refused(_) | Usage::OutOfMemory => write_whole(err, text.as_bytes()),
    };
    usage.status()
}
