//! Scripts that are drawn from a number.
//!
//! `generate` writes the script that stands for a number: a pool, a group, a timer and a few work
//! objects, and four clients that submit, wait, let time pass and close the group at the end. The same
//! number gives the same script, byte for byte. What is drawn, and what is written with it, is
//! `generated` of `specs/Scripts`. That it can be read is a law of its own (`generated_is_script`): no
//! code here reads a script.
//!
//! ```text
//! generate(alloc, 7, 64)?     // b"pool p max 3 min 0\ngroup g\n.."
//! ```

#![tactic(auto)]

ghost use Rattle.std.specs.Prelude.{◌≡◌, ◌≤◌, ◌+◌, ◌*◌, ℕ, List, IfOk, length};
ghost use Rattle.script_lines.specs.declared.line.Line.{Line};
ghost use Rattle.tp_script.specs.Nexts.{clients_of};
ghost use Rattle.tp_script.specs.Scripts.{IsScript};
ghost use Rattle.script_generator.specs.Scripts.{generated, most_of, priority_word};

use itoa::Buffer;
use std::alloc::{AllocError, Global};
use std::marker::Model;

/// How many clients are drawn.
const DRAWN_CLIENTS: u32 = 3;

/// The script of a number. Each of its three drawn clients has `length` lines, from 1 to 10,000.
///
/// `AllocError` comes where memory was refused.
#[tactic(auto, unfolding(crate::specs::Scripts::generated))]
pub fn generate(alloc: Global, number: u64, length: u32) -> Result<Vec<u8>, AllocError>
    requires { (1 ≤ length) × (length ≤ 10000) }
    ensures { IfOk result (λ text. text.items ≡ generated number length) }
{
    let mut script = Generator::new(alloc, number);
    script.head()?;
    script.body(length)?;
    Ok(script.text)
}

/// What is written for a number is a script with four clients behind the one that declares, and a short one, if each
/// drawn client has from 1 to 10,000 lines.
pub fn generated_is_script()
    ensures script { (number each : ℕ) → 1 ≤ each → each ≤ 10000 → (lines : List Line) × IsScript (generated number each) lines × (clients_of lines ≡ 5) }
    ensures short { (number each : ℕ) → 1 ≤ each → each ≤ 10000 → length (generated number each) ≤ 1000 + 45 * each }
{}

/// A script that is being written.
#[derive(Drop)]
struct Generator {
    state: u64,
    text: Vec<u8>,
}

impl Model for Generator {
    ghost use Rattle.script_generator.specs.Scripts.{Generated};

    ghost Value = { Generated };

    ghost view = { λ g. record { state = g.state; text = g.text.items } };
}

impl Generator {
    ghost use Rattle.std.specs.Prelude.{◌≡◌, ◌<◌, ◌≤◌, ◌++◌, [], OnOk, decimal};
    ghost use Rattle.script_generator.specs.Scripts.{draw_of, drawn, last_client, with_body, with_client, with_head, with_line, with_text, with_work};

    // Nothing is drawn and nothing is written.
    fn new(alloc: Global, number: u64) -> Self
        ensures { result ≡ record { state = number; text = [] } }
    {
        Generator {
            state: number,
            text: Vec::new(alloc),
        }
    }

    // Draws a number below this one.
    fn draw(&mut self, below: u64) -> u64
        requires { 0 < below }
        ensures state { self.new ≡ record self.old { state = drawn self.old.state } }
        ensures value { result ≡ draw_of (drawn self.old.state) below }
        ensures below { result < below }
    {
        self.state = self
            .state
            .wrapping_mul(6_364_136_223_846_793_005)
            .wrapping_add(1_442_695_040_888_963_407);
        (self.state >> 33) % below
    }

    // Writes a text.
    fn put(&mut self, text: &str) -> Result<(), AllocError>
        ensures { OnOk result (self.new ≡ with_text text.now self.old) }
    {
        self.text.extend_from_slice(text.as_bytes())
    }

    // Writes a number between two texts.
    fn put_number(&mut self, before: &str, number: u64, behind: &str) -> Result<(), AllocError>
        ensures { OnOk result (self.new ≡ with_text (before.now ++ (decimal number ++ behind.now)) self.old) }
    {
        self.put(before)?;
        self.put(Buffer::new().format(number))?;
        self.put(behind)
    }

    // Writes the pool, the group and the timer.
    fn head(&mut self) -> Result<(), AllocError>
        ensures { OnOk result (self.new ≡ with_head self.old) }
    {
        let most = 1 + self.draw(4);
        self.put_number("pool p max ", most, " min 0\n")?;
        self.put("group g\ntimer t tick in p group g cancel gone\n")
    }

    // Writes all that stands behind them.
    fn body(&mut self, length: u32) -> Result<(), AllocError>
        ensures { OnOk result (self.new ≡ with_body length self.old) }
    {
        let works = 4 + self.draw(5);
        for index in 0..works {
            self.work(index + 1)?;
        }
        self.put("routine body\ndone\nroutine tick\ndone\nroutine gone\ndone\n")?;
        for _ in 0..DRAWN_CLIENTS {
            self.client(works, length)?;
        }
        self.last_client(length)
    }

    // Writes a work object.
    fn work(&mut self, number: u64) -> Result<(), AllocError>
        ensures { OnOk result (self.new ≡ with_work number self.old) }
    {
        let priority = priority(self.draw(3));
        self.put_number("work w", number, " body in p priority ")?;
        self.put(priority)?;
        self.put(" group g cancel gone\n")
    }

    // Writes a client of so many lines.
    fn client(&mut self, works: u64, length: u32) -> Result<(), AllocError>
        requires { (0 < works) × (works ≤ 8) }
        ensures { OnOk result (self.new ≡ with_client works length self.old) }
    {
        self.put("client\n")?;
        for _ in 0..length {
            self.line(works)?;
        }
        self.put("done\n")
    }

    // Writes the client that lets time pass, and closes the group.
    fn last_client(&mut self, length: u32) -> Result<(), AllocError>
        ensures { OnOk result (self.new ≡ with_text (last_client length) self.old) }
    {
        self.put_number(
            "client\nset-timer t -500 1 0\ntimes ",
            u64::from(length),
            " advance 1\nclose-members g cancel 7\ndone\n",
        )
    }

    // Writes a line of a client.
    fn line(&mut self, works: u64) -> Result<(), AllocError>
        requires { (0 < works) × (works ≤ 8) }
        ensures { OnOk result (self.new ≡ with_line works self.old) }
    {
        let kind = self.draw(8);
        let number = 1 + self.draw(most(works, kind));
        if kind < 5 {
            self.put_number("submit w", number, "\n")
        } else if kind == 5 {
            self.put_number("wait w", number, " keep\n")
        } else if kind == 6 {
            self.put_number("wait w", number, " cancel\n")
        } else {
            self.put_number("advance ", number, "\n")
        }
    }
}

// The word of a drawn priority.
fn priority(draw: u64) -> &'static str
    ensures { result.now ≡ priority_word draw }
{
    if draw == 0 {
        "high"
    } else if draw == 1 {
        "normal"
    } else {
        "low"
    }
}

// What the number of a client's line is drawn below.
fn most(works: u64, kind: u64) -> u64
    ensures { result ≡ most_of works kind }
{
    if kind < 7 { works } else { 1000 }
}
