//! Cleanup groups.

ghost use Rattle.std.specs.Prelude.{◌≡◌, ◌<◌, ◌==◌, ◌||◌, ◌++◌, ◌∷◌, [], false, is_some, length, true};
ghost use Rattle.std.specs.Option.{option_map_or};
ghost use Rattle.tp_model.specs.Counts.{numbered};
ghost use Rattle.tp_model.specs.Groups.{close_row, new_group};

use crate::ObjectRows;
use tp_base::ids::GroupId;
use tp_base::rows::GroupRow;

impl ObjectRows {
    /// Makes a group, which is open. It gets the next number, and there is room for it.
    pub fn create_group(&mut self)
        requires { length self.old.groups < self.old.group_limit }
        ensures { self.new ≡ record self.old { groups = self.old.groups ++ new_group ∷ [] } }
    {
        self.groups.push_reserved(GroupRow { closed: false });
    }

    /// Closes a group that was made. Its members stay as they are.
    pub fn close_group(&mut self, group: GroupId)
        requires { is_some (numbered self.old.groups group.0) ≡ true }
        ensures { self.new ≡ record self.old { groups = close_row self.old.groups group.0 (numbered self.old.groups group.0) } }
    {
        let row = &mut self.groups[group.0 as usize - 1];
        row.closed = true;
    }

    // The row of a group, if one of this number was made.
    fn group(&self, group: GroupId) -> Option<GroupRow>
        ensures { result ≡ numbered self.now.groups group.0 }
    {
        if group.0 == 0 {
            return None;
        }
        self.groups.get(group.0 as usize - 1).copied()
    }

    /// Whether a group of this number was made.
    pub fn is_group(&self, group: GroupId) -> bool
        ensures { result ≡ is_some (numbered self.now.groups group.0) }
    {
        self.group(group).is_some()
    }

    /// Whether this names no group, or a group that was made.
    pub fn is_no_group_or_group(&self, group: GroupId) -> bool
        ensures { result ≡ ((group.0 == 0) || is_some (numbered self.now.groups group.0)) }
    {
        group.0 == 0 || self.is_group(group)
    }

    /// Whether the group was made and closed.
    pub fn is_closed_group(&self, group: GroupId) -> bool
        ensures { result ≡ option_map_or (λ g. g.closed) (numbered self.now.groups group.0) false }
    {
        match self.group(group) {
            None => false,
            Some(row) => row.closed,
        }
    }

    /// How many groups were made, which is also the number of the last one.
    pub fn groups(&self) -> u32
        ensures { result ≡ length self.now.groups }
    {
        self.groups.len() as u32
    }
}
