//! How far a script has come: its part, and how many things it has made.

ghost use Rattle.std.specs.Prelude.{◌≡◌};
ghost use Rattle.script_lines.specs.States.{count_of, first_state, is_before_clients, is_declaring, is_in_routine, is_inside, is_outside, is_using, left_place, limit_of, raised, state_after, state_behind, used_after, with_section, with_use};

use crate::line::Line;
use crate::words::{Tally, Word};

/// The most objects that a script may declare: as many as the machine has at most.
pub const OBJECT_LIMIT: u16 = 65_535;

/// The part of the script where a line stands.
#[derive(Clone, Copy)]
pub enum Place {
    /// Before the first routine and the first client.
    Declarations,
    /// Behind a routine's `done`.
    Routines,
    /// Behind a client's `done`.
    Clients,
    InRoutine,
    InClient,
}

/// How far a script has come. Counts go up to their limits and no further.
#[derive(Clone, Copy)]
pub struct State {
    pub place: Place,
    pub pools: u16,
    pub groups: u16,
    pub objects: u16,
    pub kernels: u16,
    pub routines: u16,
    pub memories: u16,
    pub clients: u16,
    /// The local names of this section.
    pub locals: u16,
    /// Routines and clients, the one that was begun last among them: the number of the section. Section 0 is the script.
    pub section: u32,
    /// Whether this section uses the memory of each number, from 1.
    pub used: [bool; 64],
}

impl Place {
    /// Whether a declaration may stand here.
    pub fn is_declaring(self) -> bool
        ensures { result ≡ is_declaring self }
    {
        matches!(self, Place::Declarations)
    }

    /// Whether a routine may begin here.
    pub fn is_before_clients(self) -> bool
        ensures { result ≡ is_before_clients self }
    {
        matches!(self, Place::Declarations | Place::Routines)
    }

    /// Whether a routine or a client was begun and not ended.
    pub fn is_inside(self) -> bool
        ensures { result ≡ is_inside self }
    {
        matches!(self, Place::InRoutine | Place::InClient)
    }

    /// Whether a client may begin here.
    pub fn is_outside(self) -> bool
        ensures { result ≡ is_outside self }
    {
        matches!(self, Place::Declarations | Place::Routines | Place::Clients)
    }

    /// Whether this is within a routine.
    pub fn is_in_routine(self) -> bool
        ensures { result ≡ is_in_routine self }
    {
        matches!(self, Place::InRoutine)
    }

    // Where `done` leads.
    fn left(self) -> Place
        ensures { result ≡ left_place self }
    {
        match self {
            Place::InRoutine => Place::Routines,
            Place::InClient => Place::Clients,
            _ => self,
        }
    }
}

impl State {
    /// Where a script begins.
    pub fn first() -> State
        ensures { result ≡ first_state }
    {
        State {
            place: Place::Declarations,
            pools: 0,
            groups: 0,
            objects: 0,
            kernels: 0,
            routines: 0,
            memories: 0,
            clients: 0,
            locals: 0,
            section: 0,
            used: [false; 64],
        }
    }

    /// How many of these the script has made.
    pub fn count_of(self, tally: Tally) -> u16
        ensures { result ≡ count_of self tally }
    {
        match tally {
            Tally::Pools => self.pools,
            Tally::Groups => self.groups,
            Tally::Objects => self.objects,
            Tally::Kernels => self.kernels,
            Tally::Routines => self.routines,
            Tally::Memories => self.memories,
            Tally::Locals => self.locals,
        }
    }

    /// Whether this section uses the memory of this number.
    pub fn is_using(self, number: u16) -> bool
        ensures { result ≡ is_using self number }
    {
        if number < 1 {
            return false;
        }
        match self.used.get(usize::from(number - 1)) {
            Some(used) => *used,
            None => false,
        }
    }

    /// How far the script has come behind a line.
    pub fn after(self, line: Line) -> State
        ensures { result ≡ state_behind self line }
    {
        let made = self.with_made(line.head);
        State {
            used: used_after(made.used, line.head, line.object.number),
            ..made
        }
    }

    // What the script has made behind a line with this head.
    fn with_made(self, head: Word) -> State
        ensures { result ≡ state_after self head }
    {
        match head {
            Word::Pool => State {
                pools: raised(self.pools, 63),
                ..self
            },
            Word::Group => State {
                groups: raised(self.groups, 255),
                ..self
            },
            Word::Event | Word::Semaphore | Word::Mutex | Word::Section => State {
                kernels: raised(self.kernels, 1_024),
                ..self
            },
            Word::Object(_) => State {
                objects: raised(self.objects, OBJECT_LIMIT),
                ..self
            },
            Word::Memory => State {
                memories: raised(self.memories, 64),
                ..self
            },
            Word::Routine => State {
                routines: raised(self.routines, 65_535),
                ..self.with_section(Place::InRoutine)
            },
            Word::Client => State {
                clients: raised(self.clients, 15),
                ..self.with_section(Place::InClient)
            },
            Word::Done => State {
                place: self.place.left(),
                ..self
            },
            Word::Let | Word::IssueIo => State {
                locals: raised(self.locals, 32),
                ..self
            },
            _ => self,
        }
    }

    // A new section begins, with no local names, and uses no memory.
    fn with_section(self, place: Place) -> State
        ensures { result ≡ with_section self place }
    {
        let section = if self.section < 65_550 {
            self.section + 1
        } else {
            self.section
        };
        State {
            place,
            locals: 0,
            section,
            used: [false; 64],
            ..self
        }
    }
}

/// The greatest count of these in a script, or in a section for local names.
pub fn limit_of(tally: Tally) -> u16
    ensures { result ≡ limit_of tally }
{
    match tally {
        Tally::Pools => 63,
        Tally::Groups => 255,
        Tally::Objects => OBJECT_LIMIT,
        Tally::Kernels => 1_024,
        Tally::Routines => 65_535,
        Tally::Memories => 64,
        Tally::Locals => 32,
    }
}

// Which memories a section uses behind a line with this head, which names the memory of this number.
fn used_after(used: [bool; 64], head: Word, number: u16) -> [bool; 64]
    ensures { result ≡ used_after used head number }
{
    match head {
        Word::Use => with_use(used, number, true),
        Word::Drop => with_use(used, number, false),
        _ => used,
    }
}

// The same where the memory of a number is used from now on, or no longer.
fn with_use(used: [bool; 64], number: u16, now_used: bool) -> [bool; 64]
    ensures { result ≡ with_use used number now_used }
{
    let mut used = used;
    if 1 <= number && number <= 64 {
        used[usize::from(number - 1)] = now_used;
    }
    used
}

// One more, up to the limit.
fn raised(count: u16, limit: u16) -> u16
    ensures { result ≡ raised count limit }
{
    if count < limit { count + 1 } else { count }
}
