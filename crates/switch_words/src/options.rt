ghost use Rattle.std.specs.Prelude.{◌≡◌, IfOk, false, map};
ghost use Rattle.clap.specs.Words.{app_of, rule_of};
ghost use Rattle.switch_words.specs.Options.{command_named};
ghost use Rattle.switch_words.specs.LineSteps.{bare_line, flag_arg, flags_for, line_for, names_arg, option_arg, options_for, with_rules};

use clap::{Arg, ArgAction};
use std::alloc::{AllocError, Global};

/// What is to be done: the first word.
#[derive(Clone, Copy, Debug, PartialEq, Eq)]
pub(crate) enum Command {
    Run,
    Gen,
    Check,
    Firm,
}

/// Which flags were given.
#[derive(Clone, Copy)]
pub(crate) struct Flags {
    pub(crate) slots: bool,
    pub(crate) journal: bool,
    pub(crate) reference: bool,
    pub(crate) queues: bool,
    pub(crate) packets: bool,
    pub(crate) alone: bool,
    pub(crate) long: bool,
}

impl Command {
    /// The command of this name.
    pub(crate) fn named(word: &str) -> Option<Command>
        ensures { result ≡ command_named word.now }
    {
        match word {
            "run" => Some(Command::Run),
            "gen" => Some(Command::Gen),
            "check" => Some(Command::Check),
            "firm" => Some(Command::Firm),
            _ => None,
        }
    }

    /// The options and the names that the command takes. An option's value is a text here, so that its
    /// number is read by the rules of this crate alone. Fails where there is no memory.
    pub(crate) fn line<'a>(self, alloc: Global) -> Result<clap::Command<'a>, AllocError>
        ensures { IfOk result (λ line. app_of line ≡ line_for self) }
    {
        let line = with_options(alloc, bare_line(alloc), self.options())?;
        let line = with_flags(alloc, line, self.flags())?;
        line.arg(names(alloc))
    }

    // The names of the options with a value.
    fn options(self) -> &'static [&'static str]
        ensures { map (λ id. id.now) result.now ≡ options_for self }
    {
        match self {
            Command::Run => &[
                "rounds",
                "depth",
                "workers",
                "pace-us",
                "line-rate",
                "scheduler",
            ],
            Command::Gen => &["rounds", "depth", "workers", "scheduler"],
            Command::Check => &["scheduler"],
            Command::Firm => &["rounds", "depth", "pace-us", "line-rate"],
        }
    }

    // The names of the flags.
    fn flags(self) -> &'static [&'static str]
        ensures { map (λ id. id.now) result.now ≡ flags_for self }
    {
        match self {
            Command::Run => &[
                "slots",
                "journal",
                "reference",
                "queues",
                "packets",
                "alone",
                "long",
            ],
            Command::Gen | Command::Check => &[],
            Command::Firm => &["long"],
        }
    }
}

// The line with an option for each name.
fn with_options<'a>(
    alloc: Global,
    line: clap::Command<'a>,
    ids: &[&'a str],
) -> Result<clap::Command<'a>, AllocError>
    ensures { IfOk result (λ more. app_of more ≡ with_rules (app_of line.entry) (map option_arg (map (λ id. id.now) ids.now))) }
{
    let mut line = line;
    for id in ids {
        line = line.arg(option(alloc, id))?;
    }
    Ok(line)
}

// The line with a flag for each name.
fn with_flags<'a>(
    alloc: Global,
    line: clap::Command<'a>,
    ids: &[&'a str],
) -> Result<clap::Command<'a>, AllocError>
    ensures { IfOk result (λ more. app_of more ≡ with_rules (app_of line.entry) (map flag_arg (map (λ id. id.now) ids.now))) }
{
    let mut line = line;
    for id in ids {
        line = line.arg(flag(alloc, id))?;
    }
    Ok(line)
}

// No options and no names, and no help.
fn bare_line<'a>(alloc: Global) -> clap::Command<'a>
    ensures { app_of result ≡ bare_line }
{
    clap::Command::new(alloc, "tiny_tera").disable_help_flag(true)
}

// An option with a value, which is given once at most.
fn option<'a>(alloc: Global, id: &'a str) -> Arg<'a>
    ensures rule { rule_of result ≡ option_arg id.now }
    ensures local { result.global ≡ false }
{
    Arg::new(alloc, id).long(id).action(ArgAction::Set)
}

// An option without a value, which is given once at most.
fn flag<'a>(alloc: Global, id: &'a str) -> Arg<'a>
    ensures rule { rule_of result ≡ flag_arg id.now }
    ensures local { result.global ≡ false }
{
    Arg::new(alloc, id).long(id).action(ArgAction::SetTrue)
}

fn names<'a>(alloc: Global) -> Arg<'a>
    ensures rule { rule_of result ≡ names_arg }
    ensures local { result.global ≡ false }
{
    Arg::new(alloc, "names").action(ArgAction::Append)
}
