//! Closes of groups: `CloseThreadpoolCleanupGroupMembers`.

ghost use Rattle.std.specs.Prelude.{◌≡◌, ◌+◌, ◌∷◌, ◌&&◌, None, [], false, filter, length, true};
ghost use Rattle.tp_model.specs.Groups.{first_operating, gets_notice as gets_notice_of, is_group, is_object_that, notices_of};
ghost use Rattle.tp_model.specs.Waits.{is_cancelled_by};
ghost use Rattle.tp_model.specs.Support.Allowed.{IsAllowed, MayClose};
ghost use Rattle.tp_model.specs.Support.Sound.{is_told};
ghost use Rattle.begun_waits.specs.Begun.{is_noticed as is_noticed_by};
ghost use Rattle.live_world.specs.Live.{with_world, moved};

use crate::LiveWorld;
use crate::callbacks::is_pending;
use object_rows::ObjectRows;
use tp_base::ids::{GroupId, ObjectId, Who};
use tp_base::plans::Change;
use tp_base::rows::WaitTarget;

// Whether a close of the group gives a notice of this object.
fn is_noticed(objects: &ObjectRows, group: GroupId, cancel: bool, number: u32) -> bool
    ensures { result ≡ (cancel && is_object_that (gets_notice_of group.0) objects.now.objects number) }
{
    cancel && objects.gets_notice(group, number)
}

impl LiveWorld {
    ghost use Rattle.live_world.specs.Closing.{MayNote, begin_close_wait, closed_members, noted, settled_group};

    // Cancels what is pending of a group. Walks the callbacks of the group.
    fn cancel_group(&mut self, group: GroupId)
        ensures { self.new ≡ settled_group self.old group true }
    {
        self.is_reachable();
        let mut next = self.callbacks.first_of_group(group).copied();
        while let Some(callback) = next {
            self.is_reachable();
            next = self.callbacks.next_of_group(&callback).copied();
            if is_pending(&callback) {
                self.cancel_callback(callback);
            }
        }
        self.is_reachable();
    }

    // With cancel, cancels what is pending of a group.
    fn settle_group(&mut self, group: GroupId, cancel: bool)
        ensures { self.new ≡ settled_group self.old group cancel }
    {
        self.is_reachable();
        if cancel {
            self.cancel_group(group);
        }
    }

    // Notes that an actor's wait has a notice to give, of an object that was released.
    fn note(&mut self, who: Who, object: ObjectId)
        requires may { MayNote self.old.world who }
        requires told { is_object_that is_told self.old.world.objects object.0 ≡ true }
        requires free { is_noticed_by self.old.world.waits object ≡ false }
        ensures { self.new ≡ noted self.old who (object ∷ []) }
    {
        self.waits.note(who, object);
    }

    // Releases the members of a group, one after another. With cancel, an actor's wait gets a notice of
    // each that has a cancel routine. Walks the members.
    fn close_members(&mut self, who: Who, group: GroupId, cancel: bool)
        requires made { is_group self.old.world group.0 ≡ true }
        requires idle { first_operating self.old.world group.0 ≡ None }
        requires may { cancel ≡ true → MayNote self.old.world who }
        ensures { self.new ≡ closed_members self.old who group cancel }
    {
        while let Some(number) = self.objects.first_member(group) {
            self.is_reachable();
            let noticed = is_noticed(&self.objects, group, cancel, number);
            self.release_object(ObjectId(number));
            if noticed {
                self.note(who, ObjectId(number));
            }
        }
        self.is_reachable();
    }

    // Begins a wait for a group that has nothing to cancel any more. It covers all that is outstanding.
    fn begin_close_wait(&mut self, who: Who, group: GroupId, cancel: bool, context: u64)
        requires allowed { MayClose self.old.world who group cancel (length (notices_of self.old.world group.0 cancel)) }
        requires settled { filter (is_cancelled_by (WaitTarget.Group group) cancel) self.old.world.callbacks ≡ [] }
        ensures begun { self.new ≡ with_world self.old (begin_close_wait self.old.world who group cancel context) }
        ensures may { cancel ≡ true → MayNote self.new.world who }
    {
        let waiter = self.waits.place(who).unwrap();
        self.waits
            .begin_close(who, group, cancel, context, &self.callbacks);
        self.covers.cover_up_to(waiter, self.made);
    }

    // An actor begins a wait for a group, and the members are released, with the notices that the wait is
    // to give. With cancel, what is pending is cancelled first. Walks the callbacks of the group and its
    // members.
    pub(crate) fn begin_close(
        &mut self,
        who: Who,
        group: GroupId,
        cancel: bool,
        context: u64,
        _notices: u32,
    )
        requires { IsAllowed (self.old.made + 1) self.old.world (Change.BeginClose who group cancel context _notices) }
        ensures { self.new ≡ moved self.old (Change.BeginClose who group cancel context _notices) }
    {
        self.settle_group(group, cancel);
        self.begin_close_wait(who, group, cancel, context);
        self.close_members(who, group, cancel);
    }

    // The first notice that an actor's wait still has to give is given.
    pub(crate) fn give_notice(&mut self, who: Who)
        requires { IsAllowed (self.old.made + 1) self.old.world (Change.GiveNotice who) }
        ensures { self.new ≡ moved self.old (Change.GiveNotice who) }
    {
        self.waits.give_notice(who);
    }
}
