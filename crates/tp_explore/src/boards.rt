//! Boards: what is kept of a scene and of what was noted before it, and the moves from one to the next.

ghost use Rattle.std.specs.Prelude.{◌≡◌, ◌+◌, ℕ, IfOk};
ghost use Rattle.tp_base.specs.declared.answers.Answer.{Answer};
ghost use Rattle.tp_base.specs.declared.limits.Limits.{Limits};
ghost use Rattle.tp_base.specs.declared.plans.Change.{Change};
ghost use Rattle.tp_base.specs.Ranges.{AreLimitsInRange};
ghost use Rattle.tp_model.specs.Support.Allowed.{IsAllowed};
ghost use Rattle.tp_model.specs.Table.{plan_at};
ghost use Rattle.tp_model.specs.World.{World};
ghost use Rattle.tp_explore.specs.Boards.{first_board, moved, planned, to_board};
ghost use Rattle.tp_explore.specs.Closing.{closed_board, closed_came};
ghost use Rattle.tp_explore.specs.Exchanging.{is_whole, key_in_order, order_in, rearranged_board};
ghost use Rattle.tp_explore.specs.Keys.{board_code};
ghost use Rattle.tp_explore.specs.Kept.{board_of};
ghost use Rattle.tp_explore.specs.Scenes.{ample};
ghost use Rattle.tp_explore.specs.Scripts.{watched_but};
ghost use Rattle.tp_explore.specs.Watched.{Watched};

use crate::fault::Fault;
use crate::faults::enter;
use crate::kept::KeptRow;
use crate::keys::{put_notes, put_places};
use crate::notes::Notes;
use crate::passage::Passage;
use crate::places::{Row, call_by, mover, width};
use crate::seen::Moving;
use breadth_first::{Next, System};
use plain_worlds::order_of;
use plan_table::plan_of;
use std::alloc::{AllocError, Global};
use std::marker::{Model, PhantomData};
use tp_base::answers::{Answer, Entry};
use tp_base::calls::Call;
use tp_base::ids::Who;
use tp_base::limits::Limits;
use tp_base::plans::Plan;
use tp_script::Script;

// So much room is as good as any more.
const AMPLE: u64 = 4;

/// A board: a world without what is over, where each actor is, and what the marks left behind.
#[derive(Drop)]
pub struct PlainBoard<V: Moving> {
    world: V,
    places: KeptRow,
    notes: Notes,
}

impl<V: Moving> Model for PlainBoard<V> {
    ghost use Rattle.tp_explore.specs.Boards.{Board};

    ghost Value = { Board };

    ghost view = { λ a. record { world = V.world_of a.world; made = V.made_of a.world; places = a.places; noted = a.notes } };
}

/// The boards of a script, and the moves between them, where some faults are passed over.
#[derive(Drop)]
pub struct Boards<'a, V: Moving> {
    script: &'a Script,
    passed: &'a [Fault],
    limits: Limits,
    worlds: PhantomData<V>,
    ghost in_range: { AreLimitsInRange limits },
}

impl<'a, V: Moving> Boards<'a, V> {
    /// The boards of a script, in machines with these limits, for who passes over these faults.
    pub fn new(script: &'a Script, passed: &'a [Fault], limits: Limits) -> Boards<'a, V>
        requires { AreLimitsInRange limits }
        ensures script { result.script.now ≡ script.now }
        ensures passed { result.passed.now ≡ passed.now }
        ensures limits { result.limits ≡ limits }
    {
        Boards {
            script,
            passed,
            limits,
            worlds: PhantomData,
        }
    }
}

impl<V: Moving> PlainBoard<V> {
    // Before the first call.
    fn first(alloc: Global, limits: Limits) -> Result<PlainBoard<V>, AllocError>
        requires { AreLimitsInRange limits }
        ensures { IfOk result (λ board. board ≡ first_board limits) }
    {
        Ok(PlainBoard {
            world: V::open(alloc, limits)?,
            places: KeptRow::first(alloc, &limits)?,
            notes: Notes::new(alloc),
        })
    }

    // The board with its names forgotten.
    fn close(self, alloc: Global, limits: &Limits) -> Result<PlainBoard<V>, AllocError>
        ensures { IfOk result (λ board. board ≡ closed_board limits.now self) }
    {
        self.world.is_reachable();
        let places = self.places.close(alloc, limits, self.world.callbacks())?;
        Ok(PlainBoard {
            world: self.world.close(),
            places,
            notes: self.notes,
        })
    }

    // The board, unless these are faults that it brings.
    fn unless(self, faults: &[Fault]) -> Next<PlainBoard<V>>
        ensures { (k : Watched) (limits : Limits) → result ≡ to_board k limits self faults.now }
    {
        if faults.is_empty() {
            Next::To(self)
        } else {
            Next::Bad
        }
    }

    // Whether it has a row and a place for each actor.
    fn is_whole(&self, limits: &Limits) -> bool
        ensures { result ≡ is_whole limits.now self.now }
    {
        let actors = limits.clients as usize + limits.workers as usize;
        limits.clients > 0
            && self.world.workers().len() == limits.workers as usize
            && self.places.places().len() == actors
    }

    // The exchanges that bring its workers in order.
    fn order(&self, alloc: Global, limits: &Limits) -> Result<Vec<u16>, AllocError>
        ensures { IfOk result (λ order. order.items ≡ order_in limits.now self.now) }
    {
        if self.is_whole(limits) {
            order_of(alloc, self.world.workers())
        } else {
            Ok(Vec::new(alloc))
        }
    }

    // The code of the board behind these exchanges.
    fn code_behind(
        &self,
        alloc: Global,
        limits: &Limits,
        order: &[u16],
    ) -> Result<Vec<u8>, AllocError>
        ensures { IfOk result (λ key. key.items ≡ board_code (rearranged_board limits.now order.now self.now)) }
    {
        let mut text = Vec::new(alloc);
        self.world.write_behind(alloc, order, &mut text)?;
        let places = self.places.rearranged(alloc, limits, order)?;
        put_places(places.places(), &mut text)?;
        let notes = self.notes.rearranged(alloc, order)?;
        put_notes(&notes, &mut text)?;
        // A text that grew has room to spare, and keys are what a search has most of.
        Vec::from_slice(alloc, &text)
    }

    // The code of the board whose workers are in order.
    fn key(&self, alloc: Global, limits: &Limits) -> Result<Vec<u8>, AllocError>
        ensures { IfOk result (λ key. key.items ≡ key_in_order limits.now self.now) }
    {
        let order = self.order(alloc, limits)?;
        self.code_behind(alloc, limits, &order)
    }
}

impl<'a, V: Moving> Boards<'a, V> {
    // What comes of an entry that leads to a world: the board behind it, unless it brings faults.
    fn behind(
        &self,
        alloc: Global,
        places: &KeptRow,
        notes: &Notes,
        entry: Entry,
        world: V,
    ) -> Result<Next<PlainBoard<V>>, AllocError>
        ensures { (w : World) (made : ℕ) → IfOk result (λ next. next ≡ moved (watched_but self.now.passed.now self.now.script.now) self.now.limits (board_of w made places.now notes.now) entry (V.world_of world) (V.made_of world)) }
    {
        let before = places.at(&self.limits, entry.who);
        let places = places.behind(
            alloc,
            &self.limits,
            self.script,
            entry.who,
            &entry.call,
            &entry.answer,
        )?;
        let after = places.at(&self.limits, entry.who);
        let passage = Passage {
            entry,
            before,
            after,
        };
        let mut notes = notes.copy(alloc)?;
        let faults = enter(
            alloc,
            self.script,
            self.passed,
            self.limits,
            &world,
            &passage,
            &mut notes,
        )?;
        let board = PlainBoard {
            world,
            places,
            notes,
        };
        Ok(board.unless(&faults))
    }

    // What comes of a call with this plan. One that only looks is no move, and costs no copy.
    fn planned(
        &self,
        alloc: Global,
        world: &V,
        places: &KeptRow,
        notes: &Notes,
        who: Who,
        call: &Call,
        plan: Plan,
    ) -> Result<Next<PlainBoard<V>>, AllocError>
        requires { (answer : Answer) (change : Change) → plan ≡ Plan.Does answer change → IsAllowed (V.made_of world.now + 1) (V.world_of world.now) change }
        ensures { IfOk result (λ next. next ≡ planned (watched_but self.now.passed.now self.now.script.now) self.now.limits (board_of (V.world_of world.now) (V.made_of world.now) places.now notes.now) who call.now plan) }
    {
        match plan {
            Plan::Refused(refusal) => {
                let same = world.copy(alloc)?;
                let entry = entry(who, call, Answer::Refused(refusal));
                self.behind(alloc, places, notes, entry, same)
            }
            Plan::Does { answer, change } => {
                let next = world.copy(alloc)?.apply(alloc, &change)?;
                self.behind(alloc, places, notes, entry(who, call, answer), next)
            }
            Plan::Looked(_) => Ok(Next::Nowhere),
        }
    }

    // What comes of a call.
    fn called(
        &self,
        alloc: Global,
        world: &V,
        places: &KeptRow,
        notes: &Notes,
        who: Who,
        call: &Call,
    ) -> Result<Next<PlainBoard<V>>, AllocError>
        ensures { IfOk result (λ next. next ≡ planned (watched_but self.now.passed.now self.now.script.now) self.now.limits (board_of (V.world_of world.now) (V.made_of world.now) places.now notes.now) who call.now (plan_at (V.world_of world.now) (V.made_of world.now + 1) ample who call.now)) }
    {
        // No order is so long.
        if world.made() >= 1 << 63 {
            return Err(AllocError);
        }
        world.is_reachable();
        let plan = plan_of(world, who, call, AMPLE);
        self.planned(alloc, world, places, notes, who, call, plan)
    }
}

// What comes of a move, with its names forgotten.
fn close<V: Moving>(
    alloc: Global,
    limits: &Limits,
    came: Next<PlainBoard<V>>,
) -> Result<Next<PlainBoard<V>>, AllocError>
    ensures { IfOk result (λ closed. closed ≡ closed_came limits.now came) }
{
    match came {
        Next::To(board) => Ok(Next::To(board.close(alloc, limits)?)),
        Next::Bad => Ok(Next::Bad),
        Next::Nowhere => Ok(Next::Nowhere),
    }
}

fn entry(who: Who, call: &Call, answer: Answer) -> Entry
    ensures { result ≡ record { who = who; call = call.now; answer = answer } }
{
    Entry {
        who,
        call: *call,
        answer,
    }
}

impl<'a, V: Moving> System for Boards<'a, V> {
    ghost use Rattle.tp_explore.specs.Closing.{rules_of_closed};
    ghost use Rattle.tp_explore.specs.Exchanging.{key_in_order, AreLike};
    ghost use Rattle.tp_explore.specs.Like.Keys.{like_kept};
    ghost use Rattle.tp_explore.specs.Like.Moves.{keeps_like, like_itself};
    ghost use Rattle.tp_explore.specs.Scripts.{watched_but};

    type State = PlainBoard<V>;

    ghost rules = { λ a. rules_of_closed (watched_but a.passed.now a.script.now) a.limits (key_in_order a.limits) };

    ghost like = { λ a. AreLike a.limits };

    ghost like_itself = { λ a. like_itself a.limits };

    ghost like_kept = { λ a. like_kept a.limits };

    ghost keeps = { λ a. keeps_like (watched_but a.passed.now a.script.now) a.limits (key_in_order a.limits) };

    fn width(&self) -> u32 {
        width(&self.limits)
    }

    fn first(&self, alloc: Global) -> Result<PlainBoard<V>, AllocError> {
        PlainBoard::first(alloc, self.limits)?.close(alloc, &self.limits)
    }

    fn after(
        &self,
        alloc: Global,
        board: &PlainBoard<V>,
        by: u32,
    ) -> Result<Next<PlainBoard<V>>, AllocError> {
        match call_by(&self.limits, &board.places, self.script, by) {
            Some(call) => {
                let came = self.called(
                    alloc,
                    &board.world,
                    &board.places,
                    &board.notes,
                    mover(&self.limits, by),
                    &call,
                )?;
                close(alloc, &self.limits, came)
            }
            None => Ok(Next::Nowhere),
        }
    }

    fn key(&self, alloc: Global, board: &PlainBoard<V>) -> Result<Vec<u8>, AllocError> {
        board.key(alloc, &self.limits)
    }
}
