//! A script, whose parts are read from its lines.

ghost use Rattle.std.specs.Prelude.{◌≡◌, ◌+◌, ◌<◌, ◌≤◌, ◌^◌, ◌++◌, ◌∷◌, [], IfOk, IfSome, ℕ, List, IfErr, OnOk, drop, if◌then◌else◌, length, vec_len};
ghost use Rattle.std.specs.Option.{option_copied};
ghost use Rattle.script_lines.specs.declared.fault.ScriptKind.{ScriptKind};
ghost use Rattle.script_lines.specs.declared.judge.Known.{Known};
ghost use Rattle.script_lines.specs.declared.line.Line.{Line};
ghost use Rattle.script_lines.specs.Readings.{Goes, IsLineRead, Steps, Trail, first_trail};
ghost use Rattle.script_lines.specs.Texts.{Spot};
ghost use Rattle.tp_script.specs.Answers.{IsScriptFault, IsThat};
ghost use Rattle.tp_script.specs.Parsed.{Parsed, parsed};
ghost use Rattle.tp_script.specs.Parts.{group_line, has_marks, line_of, marks_behind, may_refuse, memory_line, object_line, operations, part_marks};
ghost use Rattle.tp_script.specs.Scripts.{IsFaultIn, IsParsed, IsScript};
ghost use Rattle.tp_base.specs.Ranges.{IsCallInRange};
ghost use Rattle.tp_script.specs.Calls.{IsOfPart};
ghost use Rattle.tp_script.specs.Machines.{HasFewClients, NeverWaitsAtFirst};
ghost use Rattle.tp_script.specs.Nexts.{call_at, clients_of, line_after, line_at, made_in, noted, numbered_place, operation_in, opens, place_of, places_behind, polled, polls, stepped, waited, with_local};

use crate::calls::{acts, begins_wait, call_of, calls_in, is_asked, is_met, poll_by};
use crate::fault::ScriptFault;
use crate::marks::{Mark, marks_between};
use crate::numbered::{Among, NumberedLine, marks_of, numbers_among, played_lines};
use crate::parse::read_lines;
use crate::routines::{Part, Progress, Routines};
use script_lines::{Line, Word};
use std::alloc::{AllocError, Global};
use std::marker::Model;
use tp_base::answers::Answer;
use tp_base::calls::Call;

/// What a part of a script begins with.
#[derive(Clone, Copy)]
pub enum Opening {
    Client,
    Routine,
}

/// A script: the lines that are played, and what it says besides; and where its clients and routines begin.
#[derive(Drop)]
pub struct Script {
    lines: Vec<Line>,
    numbers: Vec<u32>,
    marks: Vec<Mark>,
    memories: Vec<u32>,
    objects: Vec<u32>,
    groups: Vec<u32>,
    clients: Vec<u32>,
    routines: Vec<u32>,
}

impl Model for Script {
    ghost use Rattle.tp_script.specs.Parsed.{Parsed};

    ghost Value = { Parsed };

    ghost use Rattle.tp_script.specs.Kept.{IsKept};

    ghost view = { λ script. record {
      lines = script.lines.items;
      numbers = script.numbers.items;
      marks = script.marks.items;
      memories = script.memories.items;
      objects = script.objects.items;
      groups = script.groups.items;
    } };

    ghost invariant = { λ script. IsKept script.lines.items script.marks.items script.memories.items script.clients.items script.routines.items };
}

impl Script {
    /// The script of these lines.
    ///
    /// An `AllocError` comes where memory is refused.
    pub(crate) fn new(alloc: Global, rows: &[NumberedLine]) -> Result<Script, AllocError>
        requires { length rows.now + 1 < 2 ^ 32 }
        ensures { IfOk result (λ script. script ≡ parsed rows.now) }
    {
        let lines = played_lines(alloc, rows)?;
        let mut first = Vec::new(alloc);
        first.push(0)?;
        let clients = add_places(first, &lines, Opening::Client)?;
        let routines = add_places(Vec::new(alloc), &lines, Opening::Routine)?;
        Ok(Script {
            lines,
            numbers: numbers_among(alloc, rows, Among::Played)?,
            marks: marks_of(alloc, rows)?,
            memories: numbers_among(alloc, rows, Among::Memories)?,
            objects: numbers_among(alloc, rows, Among::Objects)?,
            groups: numbers_among(alloc, rows, Among::Groups)?,
            clients,
            routines,
        })
    }

    /// How many clients there are, with the one that makes the declarations: client 1.
    pub fn clients(&self) -> u32
        ensures { result ≡ clients_of self.now.lines }
    {
        self.clients.len() as u32
    }

    /// How many memories are declared.
    pub fn memories(&self) -> u32
        ensures { result ≡ length self.now.memories }
    {
        self.memories.len() as u32
    }

    /// Whether the operation of a part that is so many operations behind its first may be refused.
    pub fn may_refuse(&self, part: Part, op: u32) -> bool
        ensures { result ≡ may_refuse self.now part op }
    {
        match self.line_at(part, op) {
            Some(line) => line.may_refuse,
            None => false,
        }
    }

    /// The line of the text where the operation of a part stands that is so many operations behind its first.
    pub fn line(&self, part: Part, op: u32) -> Option<u32>
        ensures { result ≡ line_of self.now part op }
    {
        let place = self.place_of(part)?;
        self.numbers.get(place as usize + op as usize).copied()
    }

    /// Whether it has marks.
    pub fn has_marks(&self) -> bool
        ensures { result ≡ has_marks self.now }
    {
        !self.marks.is_empty()
    }

    /// The marks that stand behind so many operations of a part, and before the next one.
    pub fn marks(&self, part: Part, made: u32) -> &[Mark]
        ensures { result.now ≡ marks_behind self.now part made }
    {
        match self.place_of(part) {
            Some(place) => {
                let place = u64::from(place) + u64::from(made);
                marks_between(&self.marks, place, place)
            }
            None => &[],
        }
    }

    /// All marks of a part.
    pub fn part_marks(&self, part: Part) -> &[Mark]
        ensures { result.now ≡ part_marks self.now part }
    {
        match self.place_of(part) {
            Some(place) => {
                let count = operations(lines_behind(&self.lines, place));
                let place = u64::from(place);
                marks_between(&self.marks, place, place + count as u64)
            }
            None => &[],
        }
    }

    /// The line of the text where the memory of this number is declared, from 1.
    pub fn memory_line(&self, number: u32) -> Option<u32>
        ensures { result ≡ memory_line self.now number }
    {
        numbered_place(&self.memories, number)
    }

    /// The line where the object of this number is declared. One that an operation makes has none.
    pub fn object_line(&self, number: u32) -> Option<u32>
        ensures { result ≡ object_line self.now number }
    {
        numbered_place(&self.objects, number)
    }

    /// The line where the group of this number is declared.
    pub fn group_line(&self, number: u32) -> Option<u32>
        ensures { result ≡ group_line self.now number }
    {
        numbered_place(&self.groups, number)
    }

    // The line of a part that is so many lines behind its first, if it makes a call.
    #[inline(always)]
    fn line_at(&self, part: Part, op: u32) -> Option<&Line>
        ensures value { option_copied result ≡ line_at self.now.lines part op }
        ensures small { IfSome result (λ _. op + 1 < 2 ^ 32) }
    {
        let place = self.place_of(part)?;
        let line = self.lines.get(place as usize + op as usize)?;
        if acts(line.head) { Some(line) } else { None }
    }

    fn place_of(&self, part: Part) -> Option<u32>
        ensures { result ≡ place_of self.now.lines part }
    {
        match part {
            Part::Client(number) => numbered_place(&self.clients, number),
            Part::Routine(routine) => numbered_place(&self.routines, routine.0),
        }
    }
}

/// Reads a text as a script.
///
/// The text is a script exactly where its lines can be read (`IsParsed`), and is then the script of these lines. `At` tells
/// the first fault of any other: its line, the column of the first word that no line here goes on by, or where a word is
/// lacking, and why. `NoMemory` comes where memory is refused.
pub fn parse_script(alloc: Global, bytes: &[u8]) -> Result<Script, ScriptFault>
    requires { length bytes.now + 1 < 2 ^ 32 }
    ensures ok { IfOk result (λ script. IsScript bytes.now script.lines) }
    ensures parsed { IfOk result (IsParsed bytes.now) }
    ensures err { IfErr result (IsScriptFault bytes.now) }
    ensures only { (lines : List Line) → IsScript bytes.now lines → IsThat lines result }
    // What a machine has to know of it: how many clients it has, and that client 1 waits for nothing.
    ensures clients { IfOk result (λ script. HasFewClients script.lines) }
    ensures calm { IfOk result (λ script. NeverWaitsAtFirst script.lines) }
{
    let rows = match read_lines(alloc, bytes) {
        Ok(rows) => rows,
        Err(fault) => return Err(fault),
    };
    match Script::new(alloc, &rows) {
        Ok(script) => Ok(script),
        Err(_) => Err(ScriptFault::NoMemory),
    }
}

/// A text is read in one way at most.
pub fn one_reading_a_text()
    ensures { (text : List ℕ) (script other : Parsed) → IsParsed text script → IsParsed text other → script ≡ other }
{}

/// A text is one script at most.
pub fn one_script_a_text()
    ensures { (text : List ℕ) (lines other : List Line) → IsScript text lines → IsScript text other → lines ≡ other }
{}

/// A text has one first fault at most.
pub fn one_fault_a_text()
    ensures { (text : List ℕ) (line other column place : ℕ) (kind why : ScriptKind) → IsFaultIn text line column kind → IsFaultIn text other place why →
        (line ≡ other) × (column ≡ place) × (kind ≡ why) }
{}

/// A script has no fault.
pub fn no_fault_in_a_script()
    ensures { (text : List ℕ) (lines : List Line) (line column : ℕ) (kind : ScriptKind) → IsScript text lines → IsFaultIn text line column kind → ⊥ }
{}

/// Where a word may not stand behind words that may, no line begins with these and it.
pub fn no_line_begins_so()
    ensures { (known : Known) (front more : List Spot) (spot : Spot) (trail : Trail) → Goes known first_trail front trail → ((next : Trail) → Steps known trail spot.word next → ⊥) →
        (line : Line) (name : List ℕ) → IsLineRead known (front ++ spot ∷ more) line name → ⊥ }
{}

impl Routines for Script {
    ghost use Rattle.tp_script.specs.Parts.{next_in, progress_in};

    ghost next_of = { next_in };

    ghost after_of = { progress_in };

    #[inline(always)]
    fn next(&self, part: Part, at: &Progress) -> Option<Call> {
        let line = self.line_at(part, at.op)?;
        call_at(line, at)
    }

    fn after(&self, part: Part, at: &mut Progress, answer: Answer) {
        if let Some(line) = self.line_at(part, at.op) {
            line_after(line, at, answer);
        }
    }
}

impl Opening {
    fn opens(self, head: Word) -> bool
        ensures { result ≡ opens self head }
    {
        match self {
            Opening::Client => matches!(head, Word::Client),
            Opening::Routine => matches!(head, Word::Routine),
        }
    }
}

// Adds the places behind the lines that begin such a part.
fn add_places(
    mut places: Vec<u32>,
    lines: &[Line],
    opening: Opening,
) -> Result<Vec<u32>, AllocError>
    requires { length lines.now + 1 < 2 ^ 32 }
    ensures { IfOk result (λ all. all.items ≡ places.items ++ places_behind opening 0 lines.now) }
{
    for (index, line) in lines.iter().enumerate() {
        if opening.opens(line.head) {
            places.push(index as u32 + 1)?;
        }
    }
    Ok(places)
}

// The lines behind so many.
fn lines_behind(lines: &[Line], place: u32) -> &[Line]
    ensures { result.now ≡ drop place lines.now }
{
    let place = place as usize;
    if place <= lines.len() {
        let (_, behind) = lines.split_at(place);
        behind
    } else {
        &[]
    }
}

// How many operations stand in front.
fn operations(lines: &[Line]) -> usize
    ensures value { result ≡ operations lines.now }
    ensures few { result ≤ length lines.now }
{
    for (index, line) in lines.iter().enumerate() {
        if !acts(line.head) {
            return index;
        }
    }
    lines.len()
}

// The place with this number, counted from 1.
fn numbered_place(places: &[u32], number: u32) -> Option<u32>
    ensures { result ≡ numbered_place places.now number }
{
    if number == 0 {
        return None;
    }
    places.get(number as usize - 1).copied()
}

// The poll of the line's condition, the end of a wait that was begun, or the next call of the line.
#[inline(always)]
fn call_at(line: &Line, at: &Progress) -> Option<Call>
    ensures value { result ≡ call_at line.now at.now }
    ensures in_range { IfSome result IsCallInRange }
    ensures of_part { IfSome result IsOfPart }
{
    if polls(line, at) {
        poll_by(line.condition)
    } else if at.ending {
        Some(Call::End)
    } else {
        call_of(line, at)
    }
}

// Whether the poll of the line's condition comes next.
#[inline(always)]
fn polls(line: &Line, at: &Progress) -> bool
    ensures { result ≡ polls line.now at.now }
{
    is_asked(line.condition) && !at.met
}

// Goes on behind the answer to the line's call.
fn line_after(line: &Line, at: &mut Progress, answer: Answer)
    requires { at.old.op + 1 < 2 ^ 32 }
    ensures { at.new ≡ line_after line.now at.old answer }
{
    if polls(line, at) {
        polled(line, at, answer);
    } else if begins_wait(line.head) {
        waited(calls_in(*line), at, answer);
    } else {
        noted(line, at, answer);
        stepped(calls_in(*line), at);
    }
}

// Behind the poll: the operation is made, or this time it isn't.
fn polled(line: &Line, at: &mut Progress, answer: Answer)
    requires { at.old.op + 1 < 2 ^ 32 }
    ensures { at.new ≡ polled line.now at.old answer }
{
    if is_met(line.condition, answer) {
        at.met = true;
    } else {
        stepped(calls_in(*line), at);
    }
}

// Behind a call that begins a wait, and behind each end that was looked for.
fn waited(calls: u32, at: &mut Progress, answer: Answer)
    requires { at.old.op + 1 < 2 ^ 32 }
    ensures { at.new ≡ waited calls at.old answer }
{
    if at.ending {
        if matches!(answer, Answer::Ended | Answer::Exhausted | Answer::Stalled) {
            at.ending = false;
            stepped(calls, at);
        }
    } else if matches!(answer, Answer::Refused(_)) {
        stepped(calls, at);
    } else {
        at.ending = true;
    }
}

// Behind one call of a line, which it makes so often; before the next one its condition is asked anew.
fn stepped(calls: u32, at: &mut Progress)
    requires { at.old.op + 1 < 2 ^ 32 }
    ensures { at.new ≡ stepped calls at.old }
{
    if u64::from(at.done) + 1 < u64::from(calls) {
        at.done += 1;
    } else {
        at.op += 1;
        at.done = 0;
    }
    at.met = false;
}

// A name that the line makes stands for the number in the answer: a new object's, or that of an operation's callback.
fn noted(line: &Line, at: &mut Progress, answer: Answer)
    ensures { at.new ≡ noted line.now at.old answer }
{
    match line.head {
        Word::Let => name(&mut at.locals, line.made, made_in(answer)),
        Word::IssueIo => name(&mut at.operations, line.made, operation_in(answer)),
        _ => {}
    }
}

// One more local name stands for a number.
fn name(names: &mut [u64; 32], made: u16, number: u64)
    ensures { names.new ≡ with_local names.old made number }
{
    if 1 <= made && made <= 32 {
        names[usize::from(made - 1)] = number;
    }
}

fn made_in(answer: Answer) -> u64
    ensures { result ≡ made_in answer }
{
    match answer {
        Answer::Made { number } => u64::from(number),
        _ => 0,
    }
}

fn operation_in(answer: Answer) -> u64
    ensures { result ≡ operation_in answer }
{
    match answer {
        Answer::Operation { callback } => callback,
        _ => 0,
    }
}
