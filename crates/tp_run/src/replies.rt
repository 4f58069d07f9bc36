//! What a command makes of its input.

ghost use Rattle.std.specs.Prelude.{◌≡◌, ◌<◌, ◌≤◌, true, false, Some, None, IfErr, IfOk, length};
ghost use Rattle.tp_run.specs.Ends.{IsReply, IsScriptEnd};
ghost use Rattle.tp_report.specs.Traces.{IsMachineSize};
ghost use Rattle.tp_report.specs.Verdicts.{verdict_text};
ghost use Rattle.tp_run.specs.Inputs.{ending_of, short_layout, whole_layout, IsPlayable, IsPlayedOf};
ghost use Rattle.tp_run.specs.Explored.{IsExplored};
ghost use Rattle.tp_run.specs.Played.{limits_for, long_script, IsPlayed};
ghost use Rattle.tp_run.specs.declared.command.Command.TheVariants.{Explore, Migrate, Port, Run};
ghost use Rattle.tp_script.specs.Machines.{HasFewClients, NeverWaitsAtFirst};

use crate::command::{Command, Several};
use crate::played::{play_unwritten, run_alone, run_on_threads, told_output, whole_output};
use crate::ported::{play_port, play_port_alone};
use crate::status::{Ending, Status};
use crate::top::INPUT_LIMIT;
use kept_book::Kept;
use order_lines::{Explored, explore_each, explore_script};
use plain_worlds::PlainWorld;
use port_lines::read_devices;
use recorded::{Recorded, program_limits};
use script_generator::{generate, generated_is_script};
use std::alloc::{AllocError, Global};
use std::sync::Wait;
use std::thread::Threads;
use tp_coalesce::play_windows;
use tp_explore::Moving;
use tp_legacy::play_legacy;
use tp_library::play_libraries;
use tp_port::PortGate;
use tp_report::{MachineSize, Verdict, check, history, migrate, print_verdict, trace};
use tp_script::{Script, ScriptFault, one_reading_a_text, parse_script};
use worker_gate::{Gate, one_history_alone, one_history_drawn};

/// How many lines each drawn client has in the script that is written for a number.
const SCRIPT_LENGTH: u32 = 64;

/// The same in the script that is played for a number.
const LONG_SCRIPT_LENGTH: u32 = 2_000;

// A gate that stands open: no device waits before its first completion.
struct OpenGate;

impl PortGate for OpenGate {
    fn before(&self, _device: u32) {}
}

/// What a command makes of its input.
#[derive(Drop)]
pub struct Output {
    /// All that is to be written.
    pub text: Vec<u8>,
    /// How the program ends once it is written.
    pub ending: Ending,
}

/// The command's output for its whole input. A script is played on this thread, also where the command has
/// more threads.
pub fn reply<B: Recorded, G: Gate>(
    alloc: Global,
    command: Command,
    bytes: &[u8],
    gate: &G,
) -> Result<Output, Status>
    requires few { length bytes.now ≤ INPUT_LIMIT }
    requires playable { IsPlayable command }
    ensures { IsReply command bytes.now result }
{
    match command {
        Command::Trace { machine } => {
            let text = trace::<B>(alloc, bytes, machine)?;
            Ok(Output {
                text,
                ending: Ending::Fine,
            })
        }
        Command::History { machine } => {
            let text = history::<B>(alloc, bytes, machine)?;
            Ok(Output {
                text,
                ending: Ending::Fine,
            })
        }
        Command::Libraries { machine } => {
            let text = play_libraries::<B>(alloc, machine.workers, machine.events, bytes)?;
            Ok(Output {
                text,
                ending: Ending::Fine,
            })
        }
        Command::Legacy { machine } => {
            let text = play_legacy::<B>(alloc, machine.workers, machine.events, bytes)?;
            Ok(Output {
                text,
                ending: Ending::Fine,
            })
        }
        Command::Windows { machine } => {
            let text = play_windows::<B>(alloc, machine.workers, machine.events, bytes)?;
            Ok(Output {
                text,
                ending: Ending::Fine,
            })
        }
        Command::Check => {
            let verdict = check::<B>(alloc, bytes)?;
            Ok(output_of(alloc, &verdict)?)
        }
        Command::Migrate => migrated::<B>(alloc, bytes),
        Command::Port => port_alone::<B>(alloc, bytes),
        Command::Gen { number } => {
            let text = generate(alloc, number, SCRIPT_LENGTH)?;
            Ok(Output {
                text,
                ending: Ending::Fine,
            })
        }
        Command::Run {
            seed,
            machine,
            json,
            ..
        } => {
            one_history_alone();
            one_history_drawn();
            one_reading_a_text();
            play_turns::<B, G>(alloc, bytes, seed, machine, json, gate)
        }
        Command::Explore {
            workers,
            states,
            each,
        } => explore_text::<B, PlainWorld>(alloc, bytes, workers, states, each),
        Command::Big {
            number,
            machine,
            json,
        } => {
            one_history_alone();
            one_reading_a_text();
            let output = play_number::<B, G>(alloc, number, machine, json, gate)?;
            Ok(output)
        }
    }
}

// What `migrate` writes of the history that is its input, and how it ends.
fn migrated<B: Recorded>(alloc: Global, bytes: &[u8]) -> Result<Output, Status>
    ensures { IsReply Migrate bytes.now result }
{
    let mut text = Vec::new(alloc);
    let verdict = migrate::<B>(alloc, bytes, &mut text)?;
    if let Verdict::Legal { .. } = verdict {
        let ending = Ending::Fine;
        return Ok(Output { text, ending });
    }
    let output = output_of(alloc, &verdict)?;
    Ok(output)
}

// What `port` writes of the devices that are its input, where one completes its operations behind the other.
fn port_alone<B: Recorded>(alloc: Global, bytes: &[u8]) -> Result<Output, Status>
    requires few { length bytes.now ≤ INPUT_LIMIT }
    ensures { IsReply Port bytes.now result }
{
    let devices = read_devices(alloc, bytes)?;
    let output = play_port_alone::<B>(alloc, &devices)?;
    Ok(output)
}

// The same where each does so on a thread of its own. It waits for them.
fn port<Rt: Threads + Wait + Sync, B: Recorded>(
    rt: &Rt,
    alloc: Global,
    bytes: &[u8],
) -> Result<Output, Status>
    requires few { length bytes.now ≤ INPUT_LIMIT }
    ensures { IsReply Port bytes.now result }
{
    let devices = read_devices(alloc, bytes)?;
    let output = play_port::<Rt, B, OpenGate>(rt, alloc, &devices, &OpenGate)?;
    Ok(output)
}

// What `check` writes of a verdict, and how it ends.
fn output_of(alloc: Global, verdict: &Verdict) -> Result<Output, AllocError>
    ensures text { IfOk result (λ output. output.text.items ≡ verdict_text verdict.now) }
    ensures ending { IfOk result (λ output. output.ending ≡ ending_of verdict.now) }
{
    let mut text = Vec::new(alloc);
    print_verdict(alloc, verdict, &mut text)?;
    Ok(Output {
        text,
        ending: verdict.into(),
    })
}

// What `explore` writes of the orders of the script that is its input.
fn explore_text<B: Recorded, V: Moving>(
    alloc: Global,
    bytes: &[u8],
    workers: u32,
    states: u32,
    each: bool,
) -> Result<Output, Status>
    requires few { length bytes.now ≤ INPUT_LIMIT }
    requires workers_least { 1 ≤ workers }
    requires workers_most { workers ≤ 64 }
    requires states { 1 ≤ states }
    ensures { IsReply (Explore workers states each) bytes.now result }
{
    let script = parse_script(alloc, bytes)?;
    let output = explored::<B, V>(alloc, &script, bytes, workers, states, each)?;
    Ok(output)
}

// The same of a script that was read from these bytes.
fn explored<B: Recorded, V: Moving>(
    alloc: Global,
    script: &Script,
    bytes: &[u8],
    workers: u32,
    states: u32,
    each: bool,
) -> Result<Output, AllocError>
    requires few { length bytes.now ≤ INPUT_LIMIT }
    requires clients { HasFewClients script.now.lines }
    requires workers_least { 1 ≤ workers }
    requires workers_most { workers ≤ 64 }
    requires states { 1 ≤ states }
    ensures { IfOk result (λ output. IsExplored bytes.now script.now workers states each output.text.items output.ending) }
{
    let limits = program_limits(script.clients(), workers);
    let Explored { text, found } = if each {
        explore_each::<B, V>(alloc, script, bytes, limits, states)?
    } else {
        explore_script::<B, V>(alloc, script, bytes, limits, states)?
    };
    let ending = found.into();
    Ok(Output { text, ending })
}

// What `run` writes of the script that is its input, played on this thread. The turns are drawn if there
// is a seed.
fn play_turns<B: Recorded, G: Gate>(
    alloc: Global,
    bytes: &[u8],
    seed: Option<u64>,
    machine: MachineSize,
    json: bool,
    gate: &G,
) -> Result<Output, Status>
    requires few { length bytes.now ≤ INPUT_LIMIT }
    requires size { IsMachineSize machine }
    ensures ok { IfOk result (λ output. IsPlayedOf bytes.now 1 seed machine (whole_layout json) output.text.items output.ending) }
    ensures err { IfErr result (IsScriptEnd bytes.now) }
{
    let script = parse_script(alloc, bytes)?;
    let output = play_script_alone::<B, G>(alloc, &script, bytes, seed, machine, json, gate)?;
    Ok(output)
}

// The same of a script that was read from these bytes. Where it has marks, the faults of the run are told.
fn play_script_alone<B: Recorded, G: Gate>(
    alloc: Global,
    script: &Script,
    bytes: &[u8],
    seed: Option<u64>,
    machine: MachineSize,
    json: bool,
    gate: &G,
) -> Result<Output, AllocError>
    requires few { length bytes.now ≤ INPUT_LIMIT }
    requires clients { HasFewClients script.now.lines }
    requires calm { NeverWaitsAtFirst script.now.lines }
    requires size { IsMachineSize machine }
    ensures { IfOk result (λ output. IsPlayed bytes.now script.now 1 seed (limits_for script.now.lines machine) machine.events (whole_layout json) output.text.items output.ending) }
{
    if script.has_marks() {
        let played = run_alone::<Kept<B>, G>(alloc, script, seed, machine, gate)?;
        told_output::<B, PlainWorld>(alloc, script, bytes, json, played)
    } else {
        let played = run_alone::<B, G>(alloc, script, seed, machine, gate)?;
        whole_output(alloc, json, played)
    }
}

// What `big` writes of the long script of a number.
fn play_number<B: Recorded, G: Gate>(
    alloc: Global,
    number: u64,
    machine: MachineSize,
    json: bool,
    gate: &G,
) -> Result<Output, AllocError>
    requires size { IsMachineSize machine }
    ensures { IfOk result (λ output. IsPlayedOf (long_script number) 1 None machine (short_layout json) output.text.items output.ending) }
{
    generated_is_script();
    let text = generate(alloc, number, LONG_SCRIPT_LENGTH)?;
    let script = match parse_script(alloc, &text) {
        Ok(script) => script,
        Err(ScriptFault::NoMemory) => return Err(AllocError),
        Err(ScriptFault::At { .. }) => unreachable!(),
    };
    play_unwritten::<B, G>(alloc, &script, machine, json, gate)
}

/// The same, with threads of their own for a script that is to be played on several, and for devices. It waits for
/// them.
pub fn reply_on_threads<Rt: Threads + Wait + Sync, B: Recorded + Send, G: Gate + Sync>(
    rt: &Rt,
    alloc: Global,
    command: Command,
    bytes: &[u8],
    gate: &G,
) -> Result<Output, Status>
    requires few { length bytes.now ≤ INPUT_LIMIT }
    requires playable { IsPlayable command }
    ensures { IsReply command bytes.now result }
{
    if let Some(several) = command.on_several() {
        return reply_on_several::<Rt, B, G>(rt, alloc, bytes, several, gate);
    }
    if let Command::Port = command {
        return port::<Rt, B>(rt, alloc, bytes);
    }
    reply::<B, G>(alloc, command, bytes, gate)
}

// The output of a run on several threads.
fn reply_on_several<Rt: Threads + Wait + Sync, B: Recorded + Send, G: Gate + Sync>(
    rt: &Rt,
    alloc: Global,
    bytes: &[u8],
    several: Several,
    gate: &G,
) -> Result<Output, Status>
    requires few { length bytes.now ≤ INPUT_LIMIT }
    requires threads { 1 < several.threads }
    requires size { IsMachineSize several.machine }
    ensures { IsReply (Run several.threads None several.machine several.json) bytes.now result }
{
    let script = parse_script(alloc, bytes)?;
    let output = play_script::<Rt, B, G>(rt, alloc, &script, bytes, several, gate)?;
    Ok(output)
}

// The same of a script that was read from these bytes. Where it has marks, the faults of the run are told.
fn play_script<Rt: Threads + Wait + Sync, B: Recorded + Send, G: Gate + Sync>(
    rt: &Rt,
    alloc: Global,
    script: &Script,
    bytes: &[u8],
    several: Several,
    gate: &G,
) -> Result<Output, AllocError>
    requires few { length bytes.now ≤ INPUT_LIMIT }
    requires clients { HasFewClients script.now.lines }
    requires calm { NeverWaitsAtFirst script.now.lines }
    requires threads { 1 < several.threads }
    requires size { IsMachineSize several.machine }
    ensures { IfOk result (λ output. IsPlayed bytes.now script.now several.threads None (limits_for script.now.lines several.machine) several.machine.events (whole_layout several.json) output.text.items output.ending) }
{
    let Several {
        threads,
        machine,
        json,
    } = several;
    if script.has_marks() {
        let played = run_on_threads::<Rt, Kept<B>, G>(rt, alloc, script, threads, machine, gate)?;
        told_output::<B, PlainWorld>(alloc, script, bytes, json, played)
    } else {
        let played = run_on_threads::<Rt, B, G>(rt, alloc, script, threads, machine, gate)?;
        whole_output(alloc, json, played)
    }
}
