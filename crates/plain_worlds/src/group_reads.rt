//! How many groups and objects there are, and which is the first member of a group.

ghost use Rattle.std.specs.Prelude.{◌≡◌, ◌+◌, ◌^◌, ◌<◌, length};
ghost use Rattle.tp_model.specs.Groups.{first_member, first_operating, is_operating_member};

use crate::groups::is_member_at;
use crate::rows::Rows;
use tp_base::ids::{GroupId, ObjectId};

impl Rows {
    pub(crate) fn groups(&self) -> u32
        requires { length self.now.groups < 2 ^ 32 }
        ensures { result ≡ length self.now.groups }
    {
        self.groups.len() as u32
    }

    pub(crate) fn objects(&self) -> u32
        requires { length self.now.objects < 2 ^ 32 }
        ensures { result ≡ length self.now.objects }
    {
        self.objects.len() as u32
    }

    pub(crate) fn first_member(&self, group: GroupId) -> Option<u32>
        requires { length self.now.objects + 1 < 2 ^ 32 }
        ensures { result ≡ first_member self.now group.0 }
    {
        (1..self.objects() + 1).find(|number| is_member_at(&self.objects, group, ObjectId(*number)))
    }

    // Whether an object is a member of the group, and an operation of it is expected or under way.
    fn is_operating_member(&self, group: GroupId, object: ObjectId) -> bool
        ensures { result ≡ is_operating_member self.now group.0 object.0 }
    {
        is_member_at(&self.objects, group, object) && self.is_operating(object)
    }

    pub(crate) fn first_operating(&self, group: GroupId) -> Option<u32>
        requires { length self.now.objects + 1 < 2 ^ 32 }
        ensures { result ≡ first_operating self.now group.0 }
    {
        (1..self.objects() + 1).find(|number| self.is_operating_member(group, ObjectId(*number)))
    }
}
