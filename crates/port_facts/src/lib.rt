//! What the machine answers where devices complete operations.
//!
//! Client 1 makes an I/O object for each device and starts the operations. Each device has a client
//! of its own, device 1 client 2 and so on, which completes them. In what order the devices do so is
//! left open.
//!
//! Nothing here is run, but a caller can know something by it: each function is a fact of the
//! machine, and who calls it knows this.
//!
//! ```text
//! // behind a loop that made the calls of `posted` one after another
//! completions_are_accepted();
//! // the recording is the old one with `completions posted`, so each was answered with its callback
//! ```

#![tactic(auto)]

ghost use Rattle.std.specs.Prelude.{◌≡◌, ℕ, ◌+◌, ◌<◌, ◌≤◌, List, [], ◌∷◌, length};
ghost use Rattle.tp_base.specs.declared.answers.Entry.{Entry};
ghost use Rattle.tp_base.specs.declared.answers.Outcome.TheVariants.{Done};
ghost use Rattle.tp_base.specs.declared.ids.ObjectId.{ObjectId};
ghost use Rattle.tp_model.specs.History.{IsLegal};
ghost use Rattle.recorded.specs.ProgramLimits.{program_limits};
ghost use Rattle.recorded.specs.Recordings.{outcome_behind, room_of, world_behind, Recording};
ghost use Rattle.port_facts.specs.Accepted.{with_entries, AreAccepted, MayCall, MayFollow};
ghost use Rattle.port_facts.specs.Completions.{completions, AreCompletable, HaveCompleted};
ghost use Rattle.port_facts.specs.Interleaved.{completions_by, listed, of, port_history, AreInOrder, AreListed, IsInterleaving};
ghost use Rattle.port_facts.specs.SetUp.{behind_set_up, finishes, IsPort, IsSetUp};
ghost use Rattle.port_facts.specs.declared.Completion.{Completion as Item};
ghost use Rattle.port_facts.specs.declared.Posted.{Posted as Post};

/// An operation is over: its callback, its error, or 0 for none, and the bytes that were moved.
#[derive(Clone, Copy)]
pub struct Completion {
    pub callback: u64,
    pub error: u32,
    pub bytes: u64,
}

/// A completion, and the device that it is from. Devices count from 1.
#[derive(Clone, Copy)]
pub struct Posted {
    pub device: u32,
    pub completion: Completion,
}

/// Where entries may follow on a history, the machine gives their answers: all of them, where the
/// calls are made one after another, and that of the first one, behind which the others may follow. A
/// loop that keeps that what is still to come may follow knows by this what each call is answered.
pub fn legal_is_answered()
    ensures all { (r : Recording) (entries : List Entry) → MayFollow r entries → AreAccepted r entries }
    ensures first { (r : Recording) (entry : Entry) (more : List Entry) → MayFollow r (entry ∷ more) → outcome_behind r entry.who entry.call ≡ Done entry.answer }
    ensures rest { (r : Recording) (entry : Entry) (more : List Entry) → MayFollow r (entry ∷ more) → MayFollow (with_entries r (entry ∷ [])) more }
{}

/// On a new machine of the program, with a client for each of up to 15 devices beside client 1, client 1
/// makes an I/O object for each device, starts and issues up to 8,192 operations of them in any order,
/// and finishes. The machine accepts it all, and numbers the objects and the callbacks from 1 on. Then
/// lists of completions may be posted that have each operation once, in this order.
pub fn set_up_is_accepted()
    ensures accepted { (devices : ℕ) (objects : List ObjectId) → IsPort devices objects → IsSetUp (program_limits (devices + 1) 4) 65536 devices objects }
    ensures listed { (lists : List (List Item)) (objects : List ObjectId) → IsPort (length lists) objects → AreInOrder (length objects) lists → AreListed (world_behind (behind_set_up (program_limits (length lists + 1) 4) 65536 (length lists) objects)) lists }
{}

/// Completions of operations that are under way, no two of one callback, are accepted one after
/// another in any order, where their clients may make calls and the history has room for them. Each
/// is answered with its callback, which is pending then. So those are that several devices list, in
/// whatever order they come, and the history has of each device its list.
pub fn completions_are_accepted()
    ensures accepted { (r : Recording) (posted : List Post) → IsLegal r.limits r.capacity r.history → AreCompletable (world_behind r) posted → length posted ≤ room_of r → HaveCompleted r posted }
    ensures interleaved { (r : Recording) (lists : List (List Item)) (posted : List Post) → IsLegal r.limits r.capacity r.history → AreListed (world_behind r) lists → length (listed lists) ≤ room_of r → IsInterleaving lists posted → HaveCompleted r posted }
    ensures by_device { (device : ℕ) (posted : List Post) → completions_by device (completions posted) ≡ of device posted }
{}

/// Clients that may call finish one after another, from one on. That takes no room, since each of these
/// entries was owed.
pub fn finishes_are_accepted()
    ensures { (r : Recording) (first count : ℕ) → IsLegal r.limits r.capacity r.history → ((client : ℕ) → first ≤ client → client < first + count → MayCall (world_behind r) client) → AreAccepted r (finishes first count) }
{}

/// On a new machine of the program a set-up, the completions of all its operations in whatever order
/// the devices post them, and the finishes of the devices' clients make a legal history, which has of
/// each device what it posted.
pub fn port_history_is_legal()
    ensures legal { (lists : List (List Item)) (objects : List ObjectId) (posted : List Post) → IsPort (length lists) objects → AreInOrder (length objects) lists → IsInterleaving lists posted → IsLegal (program_limits (length lists + 1) 4) 65536 (port_history (length lists) objects posted) }
    ensures by_device { (devices : ℕ) (objects : List ObjectId) (posted : List Post) (device : ℕ) → completions_by device (port_history devices objects posted) ≡ of device posted }
{}
