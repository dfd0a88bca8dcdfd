//! The command line of minorder: what the words after the program's name ask for.

ghost use Rattle.std.specs.Prelude.{◌≡◌, ◌↔◌, IfErr, IfOk, IfSome, IsNone, IsTrue, false};
ghost use Rattle.clap.specs.Words.{app_of, first_value, found_of, one_text, rule_of};
ghost use Rattle.command_line.specs.Lines.{AreAtOdds, HasNoLine, IsGiven, IsLineBy, IsLineOf, IsOutputBy, LacksValues, flag as flag_rule, minorder, option as option_rule, texts, with_options as options_of, with_outputs as outputs_of, workers_rule};
ghost use Rattle.command_line.specs.Usages.{Explains};

use crate::arguments::{refused_words, required_path};
use crate::usage::Usage;
use clap::error::ErrorKind;
use clap::{Arg, ArgAction, ArgMatches, Command, value_parser};
use order_model::Workers;
use std::alloc::{AllocError, Global};

/// The fault of words whose options exclude one another.
const AT_ODDS: &str =
    "--count, --orders and --sizes exclude one another, and --cert goes neither with --orders nor with --sizes";

/// What a run prints.
#[derive(Clone, Copy, Debug, PartialEq, Eq)]
pub enum Output {
    /// The report on the first order of the fewest nodes.
    Report,
    /// `--count`: the level counts and the size under the file order.
    Count,
    /// `--orders`: how many orders there are, and the fewest, the most and the mean nodes of all.
    Orders,
    /// `--sizes`: how many orders have each size.
    Sizes,
}

/// What a run has to do.
#[derive(Clone, Copy, Debug)]
pub struct RunPlan<'a> {
    /// How many workers share the work. `--count` makes no use of them.
    pub workers: Workers,
    /// What the run prints.
    pub output: Output,
    /// The pairs `A,B:C,D` that an order has to keep, as they were written: variable A above
    /// variable B, and C above D. None without `--above`. `--count` makes no use of them.
    pub above: Option<&'a str>,
}

/// A command line of minorder: `[--workers W] [--cert OUT] [--count | --orders | --sizes] [--above
/// LIST] FILE`, in any order.
#[derive(Clone, Copy, Debug)]
pub struct Line<'a> {
    /// What the run has to do.
    pub plan: RunPlan<'a>,
    /// The path of the PLA file.
    pub file: &'a str,
    /// The path of the certificate to be written. None if none is wanted.
    pub cert: Option<&'a str>,
}

/// `--workers W`: a number from 1 to 64, by default 4.
fn workers_option<'a>(alloc: Global) -> Arg<'a>
    ensures rule { rule_of result ≡ workers_rule }
    ensures local { result.global ≡ false }
{
    Arg::new(alloc, "workers")
        .long("workers")
        .value_name("W")
        .help("How many workers share the work, 1 to 64")
        .value_parser(value_parser!(u8).range(1..=64))
        .default_value("4")
}

/// The option `--NAME` with one value, shown in the program's help as `value`, and then `help`.
fn option<'a>(alloc: Global, name: &'a str, value: &'a str, help: &'a str) -> Arg<'a>
    ensures rule { rule_of result ≡ option_rule name.entry.now }
    ensures local { result.global ≡ false }
{
    Arg::new(alloc, name)
        .long(name)
        .value_name(value)
        .help(help)
}

/// The option whose name is `name`, written with `--` before it, and which takes no value.
fn flag<'a>(alloc: Global, name: &'a str, help: &'a str) -> Arg<'a>
    ensures rule { rule_of result ≡ flag_rule name.entry.now }
    ensures local { result.global ≡ false }
{
    Arg::new(alloc, name)
        .long(name)
        .action(ArgAction::SetTrue)
        .help(help)
}

/// `command` with the options of minorder that choose what it prints.
fn with_outputs<'a>(alloc: Global, command: Command<'a>) -> Result<Command<'a>, AllocError>
    ensures { IfOk result (λ c. app_of c ≡ outputs_of (app_of command.entry)) }
{
    command
        .arg(flag(
            alloc,
            "count",
            "Print only the level counts and the size under the file order; --cert and --above are ignored",
        ))?
        .arg(flag(
            alloc,
            "orders",
            "Print how many orders there are, how many have the fewest and the most nodes, and the mean",
        ))?
        .arg(flag(
            alloc,
            "sizes",
            "Print how many orders have each number of nodes",
        ))
}

/// `command` with all options of minorder added.
fn with_options<'a>(alloc: Global, command: Command<'a>) -> Result<Command<'a>, AllocError>
    ensures { IfOk result (λ c. app_of c ≡ options_of (app_of command.entry)) }
{
    let command = command.arg(workers_option(alloc))?.arg(option(
        alloc,
        "cert",
        "OUT",
        "Write a certificate of the answer to this file, which is emptied before FILE is read",
    ))?;
    with_outputs(alloc, command)?.arg(option(
        alloc,
        "above",
        "LIST",
        "Pairs A,B:C,D of variables: A has to stand above B, C above D",
    ))
}

/// The command line of minorder, as clap's `Command`.
fn command<'a>(alloc: Global) -> Result<Command<'a>, AllocError>
    ensures { IfOk result (λ c. app_of c ≡ minorder) }
{
    let command = Command::new(alloc, "minorder")
        .about(
            "Finds the first variable order under which the functions of a PLA file have the smallest shared binary decision diagram",
        )
        .version("1.0.0")
        .no_binary_name(true);
    with_options(alloc, command)?.arg(required_path(
        alloc,
        "FILE",
        "A Berkeley PLA file (espresso), of at most 16 inputs and 16 outputs",
    ))
}

/// Whether the words give the flag `id`, by `matches`, clap's result.
fn is_given(matches: &ArgMatches<'_>, id: &str) -> bool
    ensures { IsTrue result ↔ IsGiven (one_text (found_of matches.now) id.now) }
{
    matches.get_one::<bool>(id).unwrap_or(false)
}

/// What the words ask to be printed, by `matches`, clap's result. None if they ask for two texts,
/// or for a certificate beside `--orders` or `--sizes`.
fn output_of(matches: &ArgMatches<'_>) -> Option<Output>
    ensures output { IfSome result
        (IsOutputBy (first_value (found_of matches.now)) (one_text (found_of matches.now))) }
    ensures odds { IsNone result →
        AreAtOdds (first_value (found_of matches.now)) (one_text (found_of matches.now)) }
{
    let count = is_given(matches, "count");
    let orders = is_given(matches, "orders");
    let sizes = is_given(matches, "sizes");
    let certifies = matches.get_str("cert").is_some();
    match (count, orders, sizes, certifies) {
        (false, false, false, _) => Some(Output::Report),
        (true, false, false, _) => Some(Output::Count),
        (false, true, false, false) => Some(Output::Orders),
        (false, false, true, false) => Some(Output::Sizes),
        _ => None,
    }
}

/// The command line of minorder that `matches`, clap's result, contains, which asks for `output`.
/// None if the file is missing, or the number of workers is missing or not from 1 to 64.
fn line_of<'a>(matches: &ArgMatches<'a>, output: Output) -> Option<Line<'a>>
    requires { IsOutputBy (first_value (found_of matches.now)) (one_text (found_of matches.now)) output }
    ensures line { IfSome result
        (IsLineBy (first_value (found_of matches.now)) (one_text (found_of matches.now))) }
    ensures lacks { IsNone result →
        LacksValues (first_value (found_of matches.now)) (one_text (found_of matches.now)) }
{
    let count = matches.get_one::<u8>("workers")?;
    let workers = Workers::new(count)?;
    let file = matches.get_str("FILE")?;
    let plan = RunPlan {
        workers,
        output,
        above: matches.get_str("above"),
    };
    Some(Line {
        plan,
        file,
        cert: matches.get_str("cert"),
    })
}

impl<'a> Line<'a> {
    /// Parses `words`, those after the program's name, as a command line of minorder, by clap's
    /// rules. Options stand before or after the file, each at most once, and a value may stand in
    /// the option's word, as in `--workers=2`. The error is `Information` if the words request help
    /// or the version, `OutOfMemory` if memory is refused, and otherwise `Refused`.
    pub fn of_words(alloc: Global, words: &'a [&'a str]) -> Result<Line<'a>, Usage>
        ensures line { IfOk result (IsLineOf (texts words.now)) }
        ensures refused { IfErr result (Explains minorder HasNoLine (texts words.now)) }
    {
        let mut command = command(alloc)?;
        let matches = command.try_get_matches_from_mut(words)?;
        let Some(output) = output_of(&matches) else {
            return Err(refused_words(command, ErrorKind::ArgumentConflict, AT_ODDS));
        };
        match line_of(&matches, output) {
            Some(line) => Ok(line),
            None => Err(refused_words(
                command,
                ErrorKind::MissingRequiredArgument,
                "no file, or no number of workers",
            )),
        }
    }
}
