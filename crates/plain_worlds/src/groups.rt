//! Cleanup groups and their members.

ghost use Rattle.std.specs.Prelude.{◌≡◌, ◌+◌, ◌++◌, ◌∷◌, IfOk, OnOk, if◌then◌else◌, map, []};
ghost use Rattle.tp_model.specs.Changes.{changed};
ghost use Rattle.tp_model.specs.Groups.{gets_notice as gets_notice_of, is_member as is_member_of, is_object_that, object_id, objects_that, released_from, without_members};

use crate::rows::{Rows, numbered, put};
use std::alloc::{AllocError, Global};
use tp_base::ids::{GroupId, ObjectId};
use tp_base::plans::Change;
use tp_base::rows::{GroupRow, ObjectRow};

fn is_member(group: GroupId, object: &ObjectRow) -> bool
    ensures { result ≡ is_member_of group.0 object.now }
{
    !object.released && object.env.group.0 == group.0
}

/// Whether the object of a number is a member of a group.
pub(crate) fn is_member_at(objects: &[ObjectRow], group: GroupId, object: ObjectId) -> bool
    ensures { result ≡ is_object_that (is_member_of group.0) objects.now object.0 }
{
    match numbered(objects, object.0) {
        Some(row) => is_member(group, &row),
        None => false,
    }
}

/// Whether a close of a group gives a notice of an object.
pub(crate) fn gets_notice(group: GroupId, object: &ObjectRow) -> bool
    ensures { result ≡ gets_notice_of group.0 object.now }
{
    is_member(group, object) && 0 < object.env.cancel.0
}

// Releases the objects that are members of a group.
fn release_all(objects: &mut Vec<ObjectRow>, group: GroupId)
    ensures { objects.new.items ≡ map (released_from group.0) objects.old.items }
{
    for place in 0..objects.len() {
        if is_member(group, &objects[place]) {
            objects[place].released = true;
        }
    }
}

// The next number. An `AllocError` comes where a u32 doesn't hold it.
fn following(number: u32) -> Result<u32, AllocError>
    ensures { IfOk result (λ next. next ≡ number + 1) }
{
    number.checked_add(1).ok_or(AllocError)
}

// Notes an object that gets a notice.
fn note(notices: &mut Vec<ObjectId>, object: ObjectId, gets: bool) -> Result<(), AllocError>
    ensures { OnOk result (notices.new.items ≡ (if gets then notices.old.items ++ object ∷ [] else notices.old.items)) }
{
    if gets {
        notices.push(object)?;
    }
    Ok(())
}

/// The objects of which a close of a group gives a notice. An `AllocError` comes also where there are more objects
/// than a u32 counts.
pub(crate) fn notices_of(
    alloc: Global,
    objects: &[ObjectRow],
    group: GroupId,
    cancel: bool,
) -> Result<Vec<ObjectId>, AllocError>
    ensures { IfOk result (λ notices. notices.items ≡ (if cancel then map object_id (objects_that (gets_notice_of group.0) objects.now) else [])) }
{
    let mut notices = Vec::new(alloc);
    if !cancel {
        return Ok(notices);
    }
    let mut number: u32 = 0;
    for object in objects {
        number = following(number)?;
        note(&mut notices, ObjectId(number), gets_notice(group, object))?;
    }
    Ok(notices)
}

impl Rows {
    pub(crate) fn create_group(&mut self) -> Result<(), AllocError>
        ensures { OnOk result (self.new ≡ changed self.old Change.CreateGroup) }
    {
        self.groups.push(GroupRow { closed: false })?;
        Ok(())
    }

    pub(crate) fn close_group(&mut self, group: GroupId)
        ensures { self.new ≡ changed self.old (Change.CloseGroup group) }
    {
        if numbered(&self.groups, group.0).is_some() {
            put(&mut self.groups, group.0, GroupRow { closed: true });
        }
    }

    /// Releases the members of a group.
    pub(crate) fn release_members(&mut self, group: GroupId)
        ensures { self.new ≡ without_members self.old group.0 }
    {
        self.sources.disarm_members(&self.objects, group);
        release_all(&mut self.objects, group);
    }
}
