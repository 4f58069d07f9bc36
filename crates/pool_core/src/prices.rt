//! What a change costs.

ghost use Rattle.std.specs.Prelude.{◌≡◌};
ghost use Rattle.tp_model.specs.Support.Allowed.{price as price_of};

use tp_base::plans::Change;

/// The entries that a change costs: its own, and those that are owed more than before.
pub(crate) fn price(change: &Change) -> u64
    ensures { result ≡ price_of change.now }
{
    match change {
        Change::Attach { .. } | Change::Take { .. } | Change::BeginWait { .. } => 2,
        Change::BeginClose { notices, .. } => 2 + u64::from(*notices),
        Change::Detach(_)
        | Change::Return { .. }
        | Change::GiveNotice { .. }
        | Change::EndWait { .. }
        | Change::Finish { .. } => 0,
        Change::Keep
        | Change::CreatePool
        | Change::ChangePool { .. }
        | Change::CreateGroup
        | Change::CloseGroup { .. }
        | Change::CreateObject(_)
        | Change::ReleaseObject { .. }
        | Change::QueueCallback(_)
        | Change::ExpectCallback(_)
        | Change::Operate { .. }
        | Change::Fire { .. }
        | Change::CreateKernel(_)
        | Change::ChangeKernel { .. }
        | Change::Mark { .. } => 1,
    }
}
