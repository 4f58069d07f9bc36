//! Playing of texts on a machine with something above it.
//!
//! What stands above a machine adds lines of its own to those of calls, and text of its own to what calls come to. A
//! `Layer` says what one line comes to; `play` reads the lines of a text, plays each as it is read, and answers what all
//! of them come to on a new machine, or the place of the first fault.
//!
//! What a layer comes to is said as one text: `comes_to` of all lines on a new machine, and `told` of those that follow
//! from where it stands. `step` appends what one line adds, so that `play` needs to know nothing of the machine.
//!
//! ```text
//! play::<LibraryLine, LibraryBook<Book>>(alloc, 4, 65_536, b"c1 load l1\nc1 free l1\n")
//!     // Ok("ok\nok\nunloaded l1\n")
//! play::<LibraryLine, LibraryBook<Book>>(alloc, 4, 65_536, b"c1 load l1\nc1 fre l1\n")
//!     // Err(TextFault::At { line: 2, column: 7 })
//! ```

#![tactic(auto)]

ghost use Rattle.std.specs.Prelude.{◌≡◌, ℕ, ◌≤◌, List, [], ◌∷◌, ◌++◌, IfOk, OnOk};
ghost use Rattle.line_grammar.specs.Language.{IsRead};
ghost use Rattle.tp_base.specs.declared.ids.Who.{Who as Actor};
ghost use Rattle.tp_lines.specs.Calls.{IsWhoInRange};

mod playing;

pub use playing::play;
use std::alloc::{AllocError, Global};
use tp_base::ids::Who;
use tp_lines::print::Lines;

/// A machine with something above it, on which lines are played. A line says an `M`.
pub trait Layer<M: Copy>: Drop {
    /// The language of its lines, without their line feeds.
    ghost lines: { M → List ℕ → Type 0 };

    /// The actor of a line.
    ghost who_of: { M → Actor };

    /// What lines come to on a new machine with so many clients and workers, and room for so many entries.
    ghost comes_to: { ℕ → ℕ → ℕ → List M → List ℕ };

    /// What further lines come to from here on.
    ghost told: { Self → List M → List ℕ };

    /// Opens a new machine with up to 16 clients, from 1 to 64 workers, and room for 16 entries or more. An
    /// `AllocError` comes where the memory isn't there.
    fn open(alloc: Global, clients: u32, workers: u32, capacity: u32) -> Result<Self, AllocError>
    where
        Self: Sized,
        requires clients { clients ≤ 16 }
        requires workers_least { 1 ≤ workers }
        requires workers_most { workers ≤ 64 }
        requires capacity { 16 ≤ capacity }
        ensures { IfOk result (λ layer. (more : List M) → told layer more ≡ comes_to clients workers capacity more) };

    /// Reads a line at the front of a text, to which more may be added. `Err` has the place up to which the text goes
    /// along with the language.
    fn read(text: &[u8]) -> Result<(M, usize), usize>
        ensures { IsRead lines text.now result };

    /// The actor of a line.
    fn who(made: M) -> Who
        requires { (line : List ℕ) × lines made line }
        ensures value { result ≡ who_of made }
        ensures in_range { IsWhoInRange result };

    /// Plays a line, and prints what it comes to. An `AllocError` comes where memory was refused for that.
    fn step(&mut self, made: M, out: &mut Lines) -> Result<(), AllocError>
        requires { (line : List ℕ) × lines made line }
        ensures { OnOk result ((more : List M) → out.old ++ told self.old (made ∷ more) ≡ out.new ++ told self.new more) };

    /// Where no lines follow nothing more is printed. It does nothing: who calls it knows this.
    fn ends(&self)
        ensures { told self.now [] ≡ [] };
}
