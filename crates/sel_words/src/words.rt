// What the words ask for.
ghost use Rattle.std.specs.Prelude.{◌≡◌, map, option_map, option_and_then, string_bytes, IfOk, IfSome};
ghost use Rattle.sel_words.specs.Words.{command, source_of, mode_of, making, grammar_job, forest_job, checking, job_of, chosen_registers, task_of, asked_by, HasRegisters};
ghost use Rattle.sel_words.specs.Names.{job_for, source_for, task_for, IsShort};
ghost use Rattle.sel_words.specs.Found.{IsFound};
ghost use Rattle.sel_words.specs.Registers.{register_names};
ghost use Rattle.sel_words.specs.Split.{Parts};

use crate::command_line::take_apart;
use crate::registers::{default_registers, given_registers};
use crate::settings::{Settings, chosen_settings};
use clap::ArgMatches;
use sel_base::NoMemory;
use sel_targets::target;
use std::alloc::Global;

/// What is done over a forest.
#[derive(Clone, Copy)]
pub enum Mode {
    /// The cheapest cover of each tree.
    Cover,
    /// The text that the cheapest cover of each tree expands to.
    Select,
    /// How many trees there are, how many have no cover, and what the cheapest covers cost together.
    Summary,
    /// The forest itself.
    Print,
    /// The certificate of each tree's least cost.
    Certify,
}

/// What is to be done. A forest's text has a name, and so has a text of certificates.
#[derive(Clone, Copy)]
pub enum Job<'a> {
    PrintGrammar,
    /// A forest is made, as the settings say, and a summary of it is written.
    Make,
    OverForest(Mode, &'a str),
    /// The text that the cheapest cover of each tree of the first text expands to is written, with registers in
    /// place of temporaries. The second has the names of these, with a comma between two.
    Regs(&'a str, &'a str),
    /// The certificates of the first text's trees, which the second one has, are checked.
    Check(&'a str, &'a str),
}

/// The greatest count of trees times their size in a made forest.
const MOST_MADE: u64 = 16_000_000;

/// Where a grammar's text is from.
#[derive(Clone, Copy)]
pub enum GrammarSource<'a> {
    /// The shelf holds it under the grammar's name.
    Held,
    /// The program ships it, and it is this text.
    Shipped(&'a str),
}

/// What the words ask for: the job, the grammar's name, which is its word, where its text is from, and what the
/// options say.
#[derive(Clone, Copy)]
pub struct Command<'a> {
    pub job: Job<'a>,
    pub grammar: &'a str,
    pub source: GrammarSource<'a>,
    pub settings: Settings,
}

fn mode_of(word: &str) -> Option<Mode>
    ensures { result ≡ mode_of word.now }
{
    match word {
        "cover" => Some(Mode::Cover),
        "select" => Some(Mode::Select),
        "print" => Some(Mode::Print),
        "summary" => Some(Mode::Summary),
        "certify" => Some(Mode::Certify),
        _ => None,
    }
}

fn making<'a>(settings: Settings) -> Option<Job<'a>>
    ensures { option_map (job_for settings) result ≡ making settings }
{
    match settings.trees.checked_mul(settings.size) {
        Some(product) if product <= MOST_MADE => Some(Job::Make),
        _ => None,
    }
}

fn grammar_job<'a>(settings: Settings, word: &str) -> Option<Job<'a>>
    ensures { option_map (job_for settings) result ≡ grammar_job settings word.now }
{
    match word {
        "print" => Some(Job::PrintGrammar),
        "make" => making(settings),
        _ => None,
    }
}

fn forest_job<'a>(
    settings: Settings,
    registers: &'a str,
    word: &str,
    forest: &'a str,
) -> Option<Job<'a>>
    ensures { option_map (job_for settings) result ≡ forest_job (register_names registers.entry.now) word.now forest.entry.now }
{
    match word {
        "regs" => Some(Job::Regs(forest, registers)),
        _ => Some(Job::OverForest(mode_of(word)?, forest)),
    }
}

fn checking<'a>(
    settings: Settings,
    word: &str,
    forest: &'a str,
    certificate: &'a str,
) -> Option<Job<'a>>
    ensures { option_map (job_for settings) result ≡ checking word.now forest.entry.now certificate.entry.now }
{
    match word {
        "check" => Some(Job::Check(forest, certificate)),
        _ => None,
    }
}

fn job_of<'a>(
    settings: Settings,
    registers: &'a str,
    word: &str,
    words: &[&'a str],
) -> Option<Job<'a>>
    ensures { option_map (job_for settings) result ≡ job_of settings (register_names registers.entry.now) word.now (map (λ word. word.now) words.now) }
{
    match words {
        [] => grammar_job(settings, word),
        [forest] => forest_job(settings, registers, word, forest),
        [forest, certificate] => checking(settings, word, forest, certificate),
        _ => None,
    }
}

fn source_of<'a>(word: &str) -> Option<GrammarSource<'a>>
    ensures exact { option_map source_for result ≡ source_of word.now }
    ensures short { IfSome result (λ source. IsShort (source_for source)) }
{
    match word.strip_prefix('@') {
        Some(name) => Some(GrammarSource::Shipped(target(name)?)),
        None => Some(GrammarSource::Held),
    }
}

fn chosen_registers<'a>(given: Option<&'a str>, grammar: &str) -> &'a str
    ensures { register_names result.now ≡ chosen_registers (option_map (λ text. text.now) given.entry) grammar.now }
{
    match given {
        Some(text) => text,
        None => default_registers(grammar),
    }
}

fn command_of<'a>(
    settings: Settings,
    given: Option<&'a str>,
    plain: &[&'a str],
) -> Option<Command<'a>>
    ensures exact { option_map task_for result ≡ task_of settings (option_map (λ text. text.now) given.entry) (map (λ word. word.now) plain.now) }
    ensures short { IfSome result (λ command. IsShort (source_for command.source)) }
{
    match plain {
        [mode, grammar, words @ ..] => {
            let registers = chosen_registers(given, grammar);
            let job = job_of(settings, registers, mode, words)?;
            let source = source_of(grammar)?;
            Some(Command {
                job,
                grammar,
                source,
                settings,
            })
        }
        _ => None,
    }
}

fn asked_by<'a>(alloc: Global, found: &ArgMatches<'a>) -> Result<Option<Command<'a>>, NoMemory>
    ensures exact { (parts : Parts) → IsFound found.now parts → IfOk result (λ answer. option_map task_for answer ≡ asked_by parts) }
    ensures short { IfOk result (λ answer. IfSome answer (λ command. IsShort (source_for command.source))) }
{
    let Some(settings) = chosen_settings(found) else {
        return Ok(None);
    };
    let Some(given) = given_registers(alloc, found)? else {
        return Ok(None);
    };
    let Some(plain) = found.get_raw("plain") else {
        return Ok(None);
    };
    Ok(command_of(settings, given, plain))
}

/// What the words ask for, or None where they are no command: `cover`, `select`, `regs`, `print`, `summary` or
/// `certify` with GRAMMAR and FOREST, `check` with GRAMMAR, FOREST and CERTIFICATE, `print GRAMMAR` or
/// `make GRAMMAR`, and among them `--NAME VALUE` or `--NAME=VALUE`. Behind a word `--` no word is an option.
/// `--registers` gives 1 to 64 different names of 1 to 15 letters and digits, with a comma between two. A GRAMMAR that begins with `@` is `@rv64i`, `@aarch64` or `@x86-64`, behind `--` too.
/// With `make`, trees times size are at most 16,000,000.
pub fn read_words<'a>(alloc: Global, words: &'a [String]) -> Result<Option<Command<'a>>, NoMemory>
    ensures exact { IfOk result (λ answer. option_map task_for answer ≡ command (map string_bytes words.now)) }
    ensures short { IfOk result (λ answer. IfSome answer (λ command. IsShort (source_for command.source))) }
    ensures registers { IfOk result (λ answer. IfSome answer (λ command. HasRegisters (task_for command).job)) }
{
    let Some(found) = take_apart(alloc, words)? else {
        return Ok(None);
    };
    asked_by(alloc, &found)
}
