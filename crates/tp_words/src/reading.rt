//! The words as one command of `clap`.

ghost use Rattle.std.specs.Prelude.{◌≡◌, IfOk, Err, None, Some, false, option_map};
ghost use Rattle.clap.specs.Words.{app_of, rule_of, with_rule};
ghost use Rattle.tp_words.specs.Rules.{alone, bare, flag, tpool, valued};
ghost use Rattle.tp_words.specs.Said.{is_true, said, said_in};

use crate::words::WordList;
use clap::error::ErrorKind;
use clap::{Arg, ArgAction, Command};
use std::alloc::{AllocError, Global};

/// What stands where among the words, as texts.
#[derive(Clone, Copy)]
pub struct Texts<'a> {
    /// The command.
    pub command: Option<&'a str>,
    /// The number behind the command.
    pub number: Option<&'a str>,
    /// The value of `--threads`.
    pub threads: Option<&'a str>,
    /// The value of `--seed`.
    pub seed: Option<&'a str>,
    /// The value of `--workers`.
    pub workers: Option<&'a str>,
    /// The value of `--events`.
    pub events: Option<&'a str>,
    /// The value of `--states`.
    pub states: Option<&'a str>,
    /// Whether `--json` was there.
    pub json: bool,
    /// Whether `--each` was there.
    pub each: bool,
}

/// Why words are not read.
#[derive(Clone, Copy)]
pub enum WordFault {
    /// Memory was refused, which tells nothing of the words.
    NoMemory,
    /// An option is unknown, is there twice or lacks its value, or there is a word too many.
    Refused,
}

impl From<AllocError> for WordFault {
    ghost use Rattle.tp_words.specs.declared.reading.WordFault.TheVariants.{NoMemory};

    ghost from_gives = { λ _ fault. fault ≡ NoMemory };

    fn from(_error: AllocError) -> WordFault {
        WordFault::NoMemory
    }
}

// An argument that is no option, and may be left out.
fn alone<'a>(alloc: Global, name: &'a str) -> Arg<'a>
    ensures rule { rule_of result ≡ alone name.entry.now }
    ensures local { result.global ≡ false }
{
    Arg::new(alloc, name)
}

// An option with a value, which has its name as its id.
fn valued<'a>(alloc: Global, name: &'a str) -> Arg<'a>
    ensures rule { rule_of result ≡ valued name.entry.now }
    ensures local { result.global ≡ false }
{
    Arg::new(alloc, name).long(name)
}

// An option without a value, which has its name as its id.
fn flag<'a>(alloc: Global, name: &'a str) -> Arg<'a>
    ensures rule { rule_of result ≡ flag name.entry.now }
    ensures local { result.global ≡ false }
{
    Arg::new(alloc, name).long(name).action(ArgAction::SetTrue)
}

// The command before it has arguments. There is no help among the words: the program has none.
fn bare<'a>(alloc: Global) -> Command<'a>
    ensures { app_of result ≡ bare }
{
    Command::new(alloc, "tpool")
        .no_binary_name(true)
        .disable_help_flag(true)
}

// The command with one more argument.
fn with<'a>(command: Command<'a>, arg: Arg<'a>) -> Result<Command<'a>, AllocError>
    requires { arg.global ≡ false }
    ensures { IfOk result (λ more. app_of more ≡ with_rule (app_of command.entry) (rule_of arg.entry)) }
{
    command.arg(arg)
}

// The command that the words are read by.
fn tpool_command<'a>(alloc: Global) -> Result<Command<'a>, AllocError>
    ensures { IfOk result (λ command. app_of command ≡ tpool) }
{
    let command = with(bare(alloc), alone(alloc, "command"))?;
    let command = with(command, alone(alloc, "number"))?;
    let command = with(command, valued(alloc, "threads"))?;
    let command = with(command, valued(alloc, "seed"))?;
    let command = with(command, valued(alloc, "workers"))?;
    let command = with(command, valued(alloc, "events"))?;
    let command = with(command, valued(alloc, "states"))?;
    let command = with(command, flag(alloc, "json"))?;
    with(command, flag(alloc, "each"))
}

// Whether the text of a flag tells that it was there.
fn is_true(text: Option<&str>) -> bool
    ensures { result ≡ is_true (option_map (λ t. t.now) text.entry) }
{
    text == Some("true")
}

/// Reads words: what stands where, as texts.
pub fn read<'a>(alloc: Global, words: &'a WordList) -> Result<Texts<'a>, WordFault>
    ensures ok { IfOk result (λ texts. said words.entry.now ≡ Some (said_in texts)) }
    ensures refused { result ≡ Err WordFault.Refused → said words.entry.now ≡ None }
{
    let command = tpool_command(alloc)?;
    match command.try_get_matches_from(words.as_slice()) {
        Ok(matches) => Ok(Texts {
            command: matches.get_str("command"),
            number: matches.get_str("number"),
            threads: matches.get_str("threads"),
            seed: matches.get_str("seed"),
            workers: matches.get_str("workers"),
            events: matches.get_str("events"),
            states: matches.get_str("states"),
            json: is_true(matches.get_str("json")),
            each: is_true(matches.get_str("each")),
        }),
        Err(error) => match error.kind() {
            ErrorKind::OutOfMemory => Err(WordFault::NoMemory),
            _ => Err(WordFault::Refused),
        },
    }
}
