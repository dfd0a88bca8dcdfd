//! Parts that both command lines share.

ghost use Rattle.std.specs.Prelude.{◌≡◌, false};
ghost use Rattle.clap.specs.Words.{rule_of};
ghost use Rattle.command_line.specs.Lines.{required as required_rule};
ghost use Rattle.command_line.specs.Usages.{IsNoInformation};

use crate::usage::Usage;
use clap::error::ErrorKind;
use clap::{Arg, Command};
use std::alloc::Global;

/// A required argument: the path of a file.
pub(crate) fn required_path<'a>(alloc: Global, name: &'a str, help: &'a str) -> Arg<'a>
    ensures rule { rule_of result ≡ required_rule name.entry.now }
    ensures local { result.global ≡ false }
{
    Arg::new(alloc, name).required(true).help(help)
}

/// The fault of words that clap takes and the program doesn't, with the message `what`;
/// `OutOfMemory` if memory is refused for the message.
pub(crate) fn refused_words<'a>(mut command: Command<'a>, kind: ErrorKind, what: &str) -> Usage
    ensures { IsNoInformation result }
{
    match command.error(kind, what) {
        Ok(error) => Usage::Refused(error),
        Err(_) => Usage::OutOfMemory,
    }
}
