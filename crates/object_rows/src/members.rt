//! The members of groups: an object's number is its key, and is in the list of its group until the object is
//! released. So nothing is searched, and an object leaves in one step. List 0 has the objects that are of no
//! group. An object of a group above the limit is in no list: nobody asks whether the group of an object was
//! made, and no such group ever is.

ghost use Rattle.std.specs.Prelude.{◌≡◌, ◌+◌, ◌-◌, ◌<◌, ◌^◌, find, is_some, length, true};
ghost use Rattle.std.specs.List.{range_with_len};
ghost use Rattle.linked_lists.specs.Linked.{AreOwned};
ghost use Rattle.tp_model.specs.Counts.{numbered};
ghost use Rattle.tp_model.specs.Groups.{gets_notice as gets_notice_of, is_member as is_member_of, is_object_that, numbers_in};
ghost use Rattle.object_rows.specs.Listed.{MayList, with_member, without_member};
ghost use Rattle.object_rows.specs.Objects.{notices_among};

use crate::ObjectRows;
use linked_lists::LinkedLists;
use steps::Steps;
use tp_base::ids::{GroupId, ObjectId};

// Puts one more object last in the list of its group, if that is one of so many.
pub(crate) fn list_member(members: &mut LinkedLists, groups: u32, group: GroupId, object: u32)
    requires { MayList members.old groups object }
    ensures { members.new ≡ with_member members.old groups group object }
{
    let mut steps = Steps::new();
    if group.0 <= groups {
        members.put_last(group.0, object, &mut steps);
    }
}

// Takes an object out of the list that it is in, if it is in one.
pub(crate) fn unlist_member(members: &mut LinkedLists, groups: u32, object: u32)
    requires lists { length members.old.lists ≡ groups + 1 }
    ensures after { members.new ≡ without_member members.old groups object }
    ensures owned { AreOwned members.old }
{
    let mut steps = Steps::new();
    if members.owner(object) <= groups {
        members.take_out(object, &mut steps);
    }
}

impl ObjectRows {
    /// The least of the group's members, if it has one. It walks nothing.
    pub fn first_member(&self, group: GroupId) -> Option<u32>
        requires { is_some (numbered self.now.groups group.0) ≡ true }
        ensures { result ≡ find (is_object_that (is_member_of group.0) self.now.objects) (numbers_in self.now.objects) }
    {
        let mut steps = Steps::new();
        self.members.first(group.0, &mut steps)
    }

    /// The least of the group's members above this one, if there is one. It walks nothing.
    pub fn next_member(&self, group: GroupId, member: u32) -> Option<u32>
        requires made { is_some (numbered self.now.groups group.0) ≡ true }
        requires member { is_object_that (is_member_of group.0) self.now.objects member ≡ true }
        ensures { result ≡ find (is_object_that (is_member_of group.0) self.now.objects) (range_with_len (member + 1) (length self.now.objects - member)) }
    {
        let mut steps = Steps::new();
        // It is asked for what is known by it: a key of the group's list is in that list.
        let _group = self.members.owner(member);
        self.members.after(member, &mut steps)
    }

    /// Whether the object of this number is a member of the group.
    pub fn is_member(&self, group: GroupId, number: u32) -> bool
        ensures { result ≡ is_object_that (is_member_of group.0) self.now.objects number }
    {
        match self.object(ObjectId(number)) {
            None => false,
            Some(row) => !row.released && row.env.group.0 == group.0,
        }
    }

    /// Whether the object of this number is a member of the group, and has a cancel routine.
    pub fn gets_notice(&self, group: GroupId, number: u32) -> bool
        ensures { result ≡ is_object_that (gets_notice_of group.0) self.now.objects number }
    {
        match self.object(ObjectId(number)) {
            None => false,
            Some(row) => !row.released && row.env.group.0 == group.0 && 0 < row.env.cancel.0,
        }
    }

    /// How many notices a close of the group would give: with cancel one of each member that has a
    /// cancel routine. With cancel it walks the members.
    pub fn count_notices(&self, group: GroupId, cancel: bool) -> u32
        requires { is_some (numbered self.now.groups group.0) ≡ true }
        ensures { result ≡ length (notices_among self.now.objects group.0 cancel) }
    {
        self.is_reachable();
        if !cancel {
            return 0;
        }
        let mut count = 0;
        let mut next = self.first_member(group);
        while let Some(number) = next {
            count += u32::from(self.gets_notice(group, number));
            next = self.next_member(group, number);
        }
        count
    }
}
