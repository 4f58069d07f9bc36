//! Playing of the lines of a text.

ghost use Rattle.std.specs.Prelude.{◌≡◌, ℕ, ◌≤◌, ◌<◌, ◌-◌, ◌^◌, List, IfErr, IfOk, length, max};
ghost use Rattle.line_grammar.specs.Faults.{IsOrNoMemory, IsPlace};
ghost use Rattle.line_grammar.specs.Language.{AnyOf, IsRead};
ghost use Rattle.line_grammar.specs.Lines.{AreLines};
ghost use Rattle.line_grammar.specs.Parts.{IsPart};
ghost use Rattle.line_grammar.specs.Traces.{Ended, IsTraceFault};
ghost use Rattle.tp_lines.specs.Calls.{client_number};
ghost use Rattle.layers.specs.Playing.{output_of, AreLinesPlayed, ArePlayed, IsPlayed};

use crate::Layer;
use line_grammar::faults::{TextFault, fault_behind};
use line_grammar::words::behind;
use std::alloc::Global;
use tp_base::ids::Who;
use tp_lines::print::Lines;

/// How many bytes at the front of a text are looked at for its greatest client, before it is played.
const LOOKED_AT: usize = 8_192;

/// Plays the lines of a text in their order, and answers what they come to on a new machine with from 1 to 64 workers,
/// and room for 16 entries or more. It has as many clients as the greatest number of one that has a line. The text has
/// fewer than 2^32 - 1 bytes; of the language no line stands for two values, and none goes on behind a line feed.
///
/// `At` comes exactly where the bytes are no lines of the layer, and `NoMemory` where memory was refused.
pub fn play<M: Copy, L: Layer<M>>(
    alloc: Global,
    workers: u32,
    capacity: u32,
    bytes: &[u8],
) -> Result<Vec<u8>, TextFault>
    requires few { length bytes.now < 2 ^ 32 - 1 }
    requires part { IsPart 10 L.lines }
    requires workers_least { 1 ≤ workers }
    requires workers_most { workers ≤ 64 }
    requires capacity { 16 ≤ capacity }
    ensures ok { IfOk result (λ text. IsPlayed L.lines (output_of L.who_of L.comes_to workers capacity) bytes.now text.items) }
    ensures only { (made : List M) → AreLines L.lines made bytes.now → IsOrNoMemory (λ text. text.items ≡ output_of L.who_of L.comes_to workers capacity made) result }
    ensures err { IfErr result (λ fault. IsPlace (IsTraceFault (AnyOf L.lines) bytes.now) fault) }
{
    let guess = guess_clients::<M, L>(bytes);
    let played = play_new::<M, L>(alloc, guess, workers, capacity, bytes)?;
    if played.clients == guess {
        return Ok(played.text);
    }
    let clients = played.clients;
    drop(played);
    let again = play_new::<M, L>(alloc, clients, workers, capacity, bytes)?;
    Ok(again.text)
}

/// What the lines of a text came to.
#[derive(Drop)]
pub struct Played {
    /// What was printed.
    pub text: Vec<u8>,
    /// The greatest number of a client that has a line, or 0.
    pub clients: u32,
}

// Plays the lines of a text on a new machine with so many clients.
fn play_new<M: Copy, L: Layer<M>>(
    alloc: Global,
    clients: u32,
    workers: u32,
    capacity: u32,
    bytes: &[u8],
) -> Result<Played, TextFault>
    requires few { length bytes.now < 2 ^ 32 - 1 }
    requires part { IsPart 10 L.lines }
    requires clients { clients ≤ 16 }
    requires workers_least { 1 ≤ workers }
    requires workers_most { workers ≤ 64 }
    requires capacity { 16 ≤ capacity }
    ensures ok { IfOk result (λ played. AreLinesPlayed L.lines L.who_of (L.comes_to clients workers capacity) bytes.now played) }
    ensures most { IfOk result (λ played. played.clients ≤ 16) }
    ensures only { (made : List M) → AreLines L.lines made bytes.now → IsOrNoMemory (ArePlayed L.who_of (L.comes_to clients workers capacity) made) result }
    ensures err { IfErr result (λ fault. IsPlace (IsTraceFault (AnyOf L.lines) bytes.now) fault) }
{
    let mut layer = L::open(alloc, clients, workers, capacity)?;
    play_lines::<M, L>(alloc, &mut layer, bytes)
}

// Plays the lines of a text, each as it is read.
fn play_lines<M: Copy, L: Layer<M>>(
    alloc: Global,
    layer: &mut L,
    bytes: &[u8],
) -> Result<Played, TextFault>
    requires few { length bytes.now < 2 ^ 32 - 1 }
    requires part { IsPart 10 L.lines }
    ensures ok { IfOk result (λ played. AreLinesPlayed L.lines L.who_of (L.told layer.old) bytes.now played) }
    ensures most { IfOk result (λ played. played.clients ≤ 16) }
    ensures only { (made : List M) → AreLines L.lines made bytes.now → IsOrNoMemory (ArePlayed L.who_of (L.told layer.old) made) result }
    ensures err { IfErr result (λ fault. IsPlace (IsTraceFault (AnyOf L.lines) bytes.now) fault) }
{
    let mut text = Lines::new(alloc);
    let mut greatest = 0;
    let mut lines = 0;
    let mut rest = bytes;
    while !rest.is_empty() {
        match read_line::<M, L>(rest) {
            Err(place) => return Err(fault_behind(lines, place)),
            Ok((made, size)) => {
                layer.step(made, &mut text)?;
                greatest = greater_client(greatest, L::who(made));
                lines += 1;
                (_, rest) = rest.split_at(size);
            }
        }
    }
    layer.ends();
    Ok(Played {
        text: text.into_text(),
        clients: greatest,
    })
}

// Reads a line with its line feed.
fn read_line<M: Copy, L: Layer<M>>(text: &[u8]) -> Result<(M, usize), usize>
    requires { IsPart 10 L.lines }
    ensures { IsRead (Ended L.lines) text.now result }
{
    match L::read(text) {
        Err(place) => Err(place),
        Ok((made, size)) => {
            let (_, rest) = text.split_at(size);
            match behind(b'\n', rest) {
                Some(_) => Ok((made, size + 1)),
                None => Err(size),
            }
        }
    }
}

// The greatest client of the good lines at the front of a text. The play shows whether it is the greatest of all.
fn guess_clients<M: Copy, L: Layer<M>>(bytes: &[u8]) -> u32
    requires { IsPart 10 L.lines }
    ensures { result ≤ 16 }
{
    let (mut rest, _) = bytes.split_at(bytes.len().min(LOOKED_AT));
    let mut greatest = 0;
    while let Ok((made, size)) = read_line::<M, L>(rest) {
        greatest = greater_client(greatest, L::who(made));
        (_, rest) = rest.split_at(size);
    }
    greatest
}

// The greater of a client's number and that of the actor, where it is a client.
fn greater_client(number: u32, who: Who) -> u32
    ensures { result ≡ max number (client_number who) }
{
    match who {
        Who::Client(other) if number < other => other,
        _ => number,
    }
}
