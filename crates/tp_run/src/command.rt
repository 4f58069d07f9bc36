//! What the program is asked to do.

ghost use Rattle.std.specs.Prelude.{◌≡◌, ◌≤◌, IfOk, IfSome, Err, None, Some, false, is_some, option_map, true};
ghost use Rattle.tp_run.specs.Commands.{bounded, command_of, command_said, is_seed_for_nothing, name_in, seed_in, without_number};
ghost use Rattle.tp_run.specs.Inputs.{IsPlayable};
ghost use Rattle.tp_words.specs.Said.{said_in};

use crate::number::number;
use std::alloc::Global;
use tp_report::{EVENT_LIMIT, MachineSize};
use tp_words::{Texts, WordFault, WordList, read};

/// What the program is asked to do.
#[derive(Clone, Copy)]
pub enum Command {
    /// Plays the calls of the input on a machine of this size, and writes what each comes to.
    Trace {
        machine: MachineSize,
    },
    /// Plays the calls of the input on a machine of this size, and writes their history.
    History {
        machine: MachineSize,
    },
    /// Plays a trace with libraries on a machine of this size, and writes what each line comes to, and which libraries it
    /// let go.
    Libraries {
        machine: MachineSize,
    },
    /// Plays a trace of calls of the pool before Vista on a machine of this size, and writes what each comes to.
    Legacy {
        machine: MachineSize,
    },
    /// Plays a trace with sleeps on a machine of this size, and writes what each line comes to: of a sleep what each of its
    /// wake-ups comes to, and how it ends.
    Windows {
        machine: MachineSize,
    },
    /// Reads a history, and writes whether it is legal.
    Check,
    /// Reads a history, and writes it in format 2 if it is legal, or else what `Check` writes.
    Migrate,
    /// Lets the devices that the input tells complete their operations, each on a thread of its own, and writes the
    /// history and its summary.
    Port,
    /// Reads nothing, and writes the script of a number.
    Gen {
        number: u64,
    },
    /// Plays the script that is the input on so many threads, from 1 to 16, on a machine of this size, and
    /// writes the history and its summary, which is JSON if that is wanted. With a seed, which is for one
    /// thread, the turns are drawn from it.
    Run {
        threads: u32,
        seed: Option<u64>,
        machine: MachineSize,
        json: bool,
    },
    /// Goes through every order of the script that is the input, with so many workers, from 1 to 64, and writes a shortest
    /// bad one, or with `each` a shortest one for each fault, or that none is. No search meets more states than this, from 1
    /// to 16,777,216.
    Explore {
        workers: u32,
        states: u32,
        each: bool,
    },
    /// Reads nothing, plays the long script of a number on one thread, on a machine of this size, and
    /// writes the summary of its history, which is JSON if that is wanted.
    Big {
        number: u64,
        machine: MachineSize,
        json: bool,
    },
}

/// A run on several threads.
#[derive(Clone, Copy)]
pub struct Several {
    /// How many there are, 2 at least.
    pub threads: u32,
    /// The size of the machine.
    pub machine: MachineSize,
    /// Whether the summary is JSON.
    pub json: bool,
}

impl Command {
    ghost use Rattle.std.specs.Prelude.{◌≡◌, ◌<◌, ◌⊎◌, None, Some, IfSome};
    ghost use Rattle.tp_report.specs.Traces.{IsMachineSize};
    ghost use Rattle.tp_run.specs.Inputs.{reads, IsDetermined, IsExplore, IsPlayable};
    ghost use Rattle.tp_run.specs.declared.command.Command.TheVariants.{Port, Run};

    /// The run on several threads that the command is, if it is one.
    pub fn on_several(self) -> Option<Several>
        requires { IsPlayable self }
        ensures run { IfSome result (λ several. self ≡ Run several.threads None several.machine several.json) }
        ensures threads { IfSome result (λ several. 1 < several.threads) }
        ensures size { IfSome result (λ several. IsMachineSize several.machine) }
        ensures none { result ≡ None → IsDetermined (Some self) ⊎ (self ≡ Port) ⊎ IsExplore self }
    {
        match self {
            Command::Run {
                threads,
                seed: None,
                machine,
                json,
            } if threads > 1 => Some(Several {
                threads,
                machine,
                json,
            }),
            _ => None,
        }
    }

    /// Whether the command has an input.
    pub fn reads(self) -> bool
        ensures { result ≡ reads (Some self) }
    {
        match self {
            Command::Trace { .. }
            | Command::History { .. }
            | Command::Libraries { .. }
            | Command::Legacy { .. }
            | Command::Windows { .. }
            | Command::Check
            | Command::Migrate
            | Command::Port
            | Command::Run { .. }
            | Command::Explore { .. } => true,
            Command::Gen { .. } | Command::Big { .. } => false,
        }
    }
}

/// What a word names.
#[derive(Clone, Copy)]
pub enum Name {
    Trace,
    History,
    Libraries,
    Legacy,
    Windows,
    Check,
    Migrate,
    Port,
    Gen,
    Run,
    Explore,
    Big,
}

/// The command that the words are. `Refused` comes only where they are none.
pub fn command_in(alloc: Global, words: &WordList) -> Result<Command, WordFault>
    ensures ok { IfOk result (λ command. command_of words.now ≡ Some command) }
    ensures refused { result ≡ Err WordFault.Refused → command_of words.now ≡ None }
    ensures playable { IfOk result (λ command. IsPlayable command) }
{
    let texts = read(alloc, words)?;
    match command_said(&texts) {
        Some(command) => Ok(command),
        None => Err(WordFault::Refused),
    }
}

// The command that was said, or `None` where it is none: a text is no number, a value is out of its range, a
// number is missing or there for nothing, or a seed is for no run on one thread.
fn command_said(texts: &Texts) -> Option<Command>
    ensures value { result ≡ command_said (said_in texts.now) }
    ensures playable { IfSome result (λ command. IsPlayable command) }
{
    let threads = bounded(texts.threads, 1, 16, 1)?;
    let workers = bounded(texts.workers, 1, 64, 4)?;
    let events = bounded(texts.events, 16, EVENT_LIMIT, 65_536)?;
    let states = bounded(texts.states, 1, 16_777_216, 1_000_000)?;
    let seed = seed_in(texts.seed)?;
    let machine = MachineSize { workers, events };
    let json = texts.json;
    let name = name_in(texts.command?)?;
    if is_seed_for_nothing(name, threads, seed) {
        return None;
    }
    match name {
        Name::Trace => without_number(texts.number, Command::Trace { machine }),
        Name::History => without_number(texts.number, Command::History { machine }),
        Name::Libraries => without_number(texts.number, Command::Libraries { machine }),
        Name::Legacy => without_number(texts.number, Command::Legacy { machine }),
        Name::Windows => without_number(texts.number, Command::Windows { machine }),
        Name::Check => without_number(texts.number, Command::Check),
        Name::Migrate => without_number(texts.number, Command::Migrate),
        Name::Port => without_number(texts.number, Command::Port),
        Name::Gen => {
            let number = number(texts.number?.as_bytes())?;
            Some(Command::Gen { number })
        }
        Name::Run => without_number(
            texts.number,
            Command::Run {
                threads,
                seed,
                machine,
                json,
            },
        ),
        Name::Explore => without_number(
            texts.number,
            Command::Explore {
                workers,
                states,
                each: texts.each,
            },
        ),
        Name::Big => {
            let number = number(texts.number?.as_bytes())?;
            Some(Command::Big {
                number,
                machine,
                json,
            })
        }
    }
}

// The command that a word names.
fn name_in(word: &str) -> Option<Name>
    ensures { result ≡ name_in word.now }
{
    let name = if word == "trace" {
        Name::Trace
    } else if word == "history" {
        Name::History
    } else if word == "libraries" {
        Name::Libraries
    } else if word == "legacy" {
        Name::Legacy
    } else if word == "windows" {
        Name::Windows
    } else if word == "check" {
        Name::Check
    } else if word == "migrate" {
        Name::Migrate
    } else if word == "port" {
        Name::Port
    } else if word == "gen" {
        Name::Gen
    } else if word == "run" {
        Name::Run
    } else if word == "explore" {
        Name::Explore
    } else if word == "big" {
        Name::Big
    } else {
        return None;
    };
    Some(name)
}

// A value in its range, or what stands for none.
fn bounded(value: Option<&str>, least: u32, most: u32, usual: u32) -> Option<u32>
    requires least { least ≤ usual }
    requires most { usual ≤ most }
    ensures value { result ≡ bounded least most usual (option_map (λ text. text.now) value.entry) }
    ensures in_range { IfSome result (λ number. (least ≤ number) × (number ≤ most)) }
{
    let Some(text) = value else {
        return Some(usual);
    };
    let value = number(text.as_bytes())?;
    if u64::from(least) <= value && value <= u64::from(most) {
        Some(value as u32)
    } else {
        None
    }
}

// The seed, or that there is none.
fn seed_in(value: Option<&str>) -> Option<Option<u64>>
    ensures { result ≡ seed_in (option_map (λ text. text.now) value.entry) }
{
    match value {
        None => Some(None),
        Some(text) => {
            let seed = number(text.as_bytes())?;
            Some(Some(seed))
        }
    }
}

// Whether there is a seed, and no run on one thread for it.
fn is_seed_for_nothing(name: Name, threads: u32, seed: Option<u64>) -> bool
    ensures value { result ≡ is_seed_for_nothing name threads seed }
    ensures alone { result ≡ false → is_some seed ≡ true → threads ≡ 1 }
{
    seed.is_some() && !(matches!(name, Name::Run) && threads == 1)
}

// A command that wants no number behind it.
fn without_number(number: Option<&str>, command: Command) -> Option<Command>
    ensures { result ≡ without_number (option_map (λ text. text.now) number.entry) command }
{
    match number {
        None => Some(command),
        Some(_) => None,
    }
}
