//! An object is made, and one is released.

ghost use Rattle.std.specs.Prelude.{◌≡◌, ◌+◌};
ghost use Rattle.tp_model.specs.Support.Allowed.{IsAllowed};
ghost use Rattle.live_world.specs.Live.{moved};

use crate::LiveWorld;
use object_rows::is_timed_kind;
use tp_base::ids::ObjectId;
use tp_base::plans::Change;
use tp_base::rows::ObjectRow;

impl LiveWorld {
    // Makes an object.
    pub(crate) fn create_object(&mut self, row: ObjectRow)
        requires { IsAllowed (self.old.made + 1) self.old.world (Change.CreateObject row) }
        ensures { self.new ≡ moved self.old (Change.CreateObject row) }
    {
        self.objects.create(row);
        let number = self.objects.objects();
        if is_timed_kind(row.kind) {
            self.sources.enter(ObjectId(number));
        }
    }

    // Releases an object. What is outstanding for it is left as it is; a timer is unset, and a wait
    // disarmed.
    pub(crate) fn release_object(&mut self, object: ObjectId)
        requires { IsAllowed (self.old.made + 1) self.old.world (Change.ReleaseObject object) }
        ensures { self.new ≡ moved self.old (Change.ReleaseObject object) }
    {
        self.objects.release(object);
        self.sources.strike(object);
    }
}
