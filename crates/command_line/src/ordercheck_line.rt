//! The command line of ordercheck: what the words after the program's name ask for.

ghost use Rattle.std.specs.Prelude.{◌≡◌, IfErr, IfOk, IfSome, IsNone, codes};
ghost use Rattle.clap.specs.Words.{app_of, first_value, found_of};
ghost use Rattle.command_line.specs.Lines.{IsCheckLineBy, IsCheckLineOf, LacksFiles, LacksPaths, ordercheck, texts};
ghost use Rattle.command_line.specs.Usages.{Explains};

use crate::arguments::{refused_words, required_path};
use crate::usage::Usage;
use clap::error::ErrorKind;
use clap::{ArgMatches, Command};
use std::alloc::{AllocError, Global};

/// A command line of ordercheck: `FILE CERT`.
#[derive(Clone, Copy, Debug)]
pub struct CheckLine<'a> {
    /// The path of the PLA file.
    pub file: &'a str,
    /// The path of the certificate.
    pub cert: &'a str,
}

/// The command line of ordercheck, as clap's `Command`.
fn command<'a>(alloc: Global) -> Result<Command<'a>, AllocError>
    ensures { IfOk result (λ c. app_of c ≡ ordercheck) }
{
    let command = Command::new(alloc, "ordercheck")
        .about(
            "Decides whether a certificate proves that no variable order of a PLA file's functions has fewer nodes",
        )
        .version("1.0.0")
        .no_binary_name(true);
    command
        .arg(required_path(alloc, "FILE", "The Berkeley PLA file"))?
        .arg(required_path(
            alloc,
            "CERT",
            "The certificate, as minorder --cert writes it",
        ))
}

/// The command line of ordercheck that clap found. None if clap let a missing path through.
fn line_of<'a>(matches: &ArgMatches<'a>) -> Option<CheckLine<'a>>
    ensures line { IfSome result (IsCheckLineBy (first_value (found_of matches.now))) }
    ensures lacks { IsNone result →
        LacksFiles (first_value (found_of matches.now) (codes "FILE"))
        (first_value (found_of matches.now) (codes "CERT")) }
{
    let file = matches.get_str("FILE")?;
    let cert = matches.get_str("CERT")?;
    Some(CheckLine { file, cert })
}

impl<'a> CheckLine<'a> {
    /// Parses `words`, those after the program's name, as a command line of ordercheck, by clap's
    /// rules. The error is `Information` if they request help or the version, `OutOfMemory` if
    /// memory is refused, and otherwise `Refused`.
    pub fn of_words(alloc: Global, words: &'a [&'a str]) -> Result<CheckLine<'a>, Usage>
        ensures line { IfOk result (IsCheckLineOf (texts words.now)) }
        ensures refused { IfErr result (Explains ordercheck LacksPaths (texts words.now)) }
    {
        let mut command = command(alloc)?;
        let matches = command.try_get_matches_from_mut(words)?;
        match line_of(&matches) {
            Some(line) => Ok(line),
            None => Err(refused_words(
                command,
                ErrorKind::MissingRequiredArgument,
                "no file, or no certificate",
            )),
        }
    }
}
