// The words as clap takes them apart.
ghost use Rattle.std.specs.Prelude.{◌≡◌, true, None, Some, map, string_bytes, codes, IfOk, IfErr, OnOk, IsNone, IfSome, []};
ghost use Rattle.clap.specs.Words.{found_of, kind_of, takes, matches_of, rule_of, app_of, rows_of, fault_of, is_simple, with_rule};
ghost use Rattle.sel_words.specs.CommandLine.{option_rule, plain_rule, bare, with_numbers, sel_app};
ghost use Rattle.sel_words.specs.Found.{IsFound};
ghost use Rattle.sel_words.specs.Split.{Parts, parts_of};
ghost use Rattle.sel_words.specs.Words.{command};

use clap::error::ErrorKind;
use clap::{Arg, ArgAction, ArgMatches, Command, Error};
use sel_base::NoMemory;
use std::alloc::{AllocError, Global};

fn with_option<'a>(
    command: Command<'a>,
    alloc: Global,
    name: &'a str,
) -> Result<Command<'a>, AllocError>
    ensures { IfOk result (λ grown. app_of grown ≡ with_rule (app_of command.entry) (option_rule name.entry.now)) }
{
    let option = Arg::new(alloc, name).long(name).action(ArgAction::Append);
    Ok(command.arg(option)?)
}

fn with_plain_words<'a>(command: Command<'a>, alloc: Global) -> Result<Command<'a>, AllocError>
    ensures { IfOk result (λ grown. app_of grown ≡ with_rule (app_of command.entry) plain_rule) }
{
    let plain = Arg::new(alloc, "plain").action(ArgAction::Append);
    Ok(command.arg(plain)?)
}

fn bare_command<'a>(alloc: Global) -> Command<'a>
    ensures { app_of result ≡ bare }
{
    Command::new(alloc, "sel")
        .no_binary_name(true)
        .disable_help_flag(true)
        .disable_version_flag(true)
}

fn with_numbers<'a>(line: Command<'a>, alloc: Global) -> Result<Command<'a>, AllocError>
    ensures { IfOk result (λ grown. app_of grown ≡ with_numbers (app_of line.entry)) }
{
    let line = with_option(line, alloc, "workers")?;
    let line = with_option(line, alloc, "states")?;
    let line = with_option(line, alloc, "rows")?;
    let line = with_option(line, alloc, "seed")?;
    let line = with_option(line, alloc, "trees")?;
    with_option(line, alloc, "size")
}

fn command_line<'a>(alloc: Global) -> Result<Command<'a>, AllocError>
    ensures { IfOk result (λ line. app_of line ≡ sel_app) }
{
    let line = bare_command(alloc);
    let line = with_numbers(line, alloc)?;
    let line = with_option(line, alloc, "registers")?;
    with_plain_words(line, alloc)
}

fn parse<'a>(alloc: Global, words: &'a [String]) -> Result<ArgMatches<'a>, Error>
    ensures matches { IfOk result (λ m. rows_of (found_of m) ≡ matches_of sel_app (map string_bytes words.now)) }
    ensures passes { IfErr result (λ e. takes sel_app (map string_bytes words.now) ≡ true → kind_of e ≡ ErrorKind.OutOfMemory) }
    ensures fault { OnOk result (fault_of sel_app (map string_bytes words.now) ≡ []) }
{
    command_line(alloc)?.try_get_matches_from(words)
}

/// The parts of the words, or None where they can't be taken apart so.
pub fn take_apart<'a>(
    alloc: Global,
    words: &'a [String],
) -> Result<Option<ArgMatches<'a>>, NoMemory>
    ensures some { IfOk result (λ answer. IfSome answer (λ found. (parts : Parts)
        × (parts_of None (map string_bytes words.now) ≡ Some parts) × IsFound found parts)) }
    ensures none { IfOk result (λ answer. IsNone answer → command (map string_bytes words.now) ≡ None) }
{
    match parse(alloc, words) {
        Ok(found) => Ok(Some(found)),
        Err(error) => match error.kind() {
            ErrorKind::OutOfMemory => Err(NoMemory),
            _ => Ok(None),
        },
    }
}
