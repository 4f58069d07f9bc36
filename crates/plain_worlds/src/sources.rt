//! What makes callbacks by itself: the clock with what is set, and the kernel objects with what is armed.

ghost use Rattle.std.specs.Prelude.{◌≡◌, ◌++◌, ◌∷◌, [], IfOk, OnOk, filter, not};
ghost use Rattle.tp_base.specs.Armings.{without_arming};
ghost use Rattle.tp_base.specs.Kernels.{state_after, taken};
ghost use Rattle.tp_model.specs.Groups.{is_member, is_object_that};
ghost use Rattle.tp_model.specs.Kernels.{new_kernel};
ghost use Rattle.tp_model.specs.Sources.{disarmed, with_state};

use crate::groups::is_member_at;
use crate::kernels::{change_kernel, take_signal};
use crate::settings::unset;
use std::alloc::{AllocError, Global};
use std::marker::Model;
use tp_base::ids::{GroupId, KernelId, ObjectId};
use tp_base::plans::KernelChange;
use tp_base::rows::{Arming, KernelRow, KernelState, ObjectRow, TimerSetting};

/// What makes callbacks by itself.
#[derive(Drop)]
pub(crate) struct Sources {
    // In the order in which they expire.
    pub(crate) settings: Vec<TimerSetting>,
    // In the order of arming.
    pub(crate) armings: Vec<Arming>,
    pub(crate) kernels: Vec<KernelRow>,
    pub(crate) clock: u64,
}

impl Model for Sources {
    ghost use Rattle.tp_model.specs.Sources.{Sources as World};

    ghost Value = { World };

    ghost view = { λ a. record {
      settings = a.settings.items;
      armings = a.armings.items;
      kernels = a.kernels.items;
      now = a.clock;
    } };
}

// Disarms a wait.
fn disarm(armings: &mut Vec<Arming>, object: ObjectId)
    ensures { armings.new.items ≡ without_arming object.0 armings.old.items }
{
    armings.retain(|arming| arming.object.0 != object.0);
}

// Disarms the waits that are members of a group.
fn disarm_members(armings: &mut Vec<Arming>, objects: &[ObjectRow], group: GroupId)
    ensures { armings.new.items ≡ filter (λ a. not (is_object_that (is_member group.0) objects.now a.object.0)) armings.old.items }
{
    armings.retain(|arming| !is_member_at(objects, group, arming.object));
}

// Unsets what is set of the members of a group.
fn unset_members(settings: &mut Vec<TimerSetting>, objects: &[ObjectRow], group: GroupId)
    ensures { settings.new.items ≡ filter (λ s. not (is_object_that (is_member group.0) objects.now s.object.0)) settings.old.items }
{
    settings.retain(|setting| !is_member_at(objects, group, setting.object));
}

impl Sources {
    /// Nothing is set and no kernel object made, and the clock is at its beginning.
    pub(crate) fn open(alloc: Global) -> Sources
        ensures { result ≡ record { settings = []; armings = []; kernels = []; now = 0 } }
    {
        Sources {
            settings: Vec::new(alloc),
            armings: Vec::new(alloc),
            kernels: Vec::new(alloc),
            clock: 0,
        }
    }

    /// Further sources that are the same.
    pub(crate) fn copy(&self, alloc: Global) -> Result<Sources, AllocError>
        ensures { IfOk result (λ sources. sources ≡ self.now) }
    {
        Ok(Sources {
            settings: Vec::from_slice(alloc, &self.settings)?,
            armings: Vec::from_slice(alloc, &self.armings)?,
            kernels: Vec::from_slice(alloc, &self.kernels)?,
            clock: self.clock,
        })
    }

    pub(crate) fn create_kernel(&mut self, state: KernelState) -> Result<(), AllocError>
        ensures { OnOk result (self.new ≡ record self.old { kernels = self.old.kernels ++ new_kernel state ∷ [] }) }
    {
        self.kernels.push(KernelRow { state })?;
        Ok(())
    }

    /// Changes the kernel object of a number. Where there is none, nothing changes.
    pub(crate) fn change_kernel(
        &mut self,
        kernel: KernelId,
        how: KernelChange,
    ) -> Result<(), AllocError>
        ensures { OnOk result (self.new ≡ with_state (state_after how) kernel.0 self.old) }
    {
        change_kernel(&mut self.kernels, kernel, how)
    }

    /// Lets a wait that is armed on a kernel object take it.
    pub(crate) fn take_signal(&mut self, kernel: KernelId)
        ensures { self.new ≡ with_state taken kernel.0 self.old }
    {
        take_signal(&mut self.kernels, kernel);
    }

    /// Ends what is set and armed of an object.
    pub(crate) fn disarm(&mut self, object: ObjectId)
        ensures { self.new ≡ disarmed object self.old }
    {
        unset(&mut self.settings, object);
        disarm(&mut self.armings, object);
    }

    /// Ends what is set and armed of the members of a group.
    pub(crate) fn disarm_members(&mut self, objects: &[ObjectRow], group: GroupId)
        ensures { self.new ≡ record self.old {
          settings = filter (λ s. not (is_object_that (is_member group.0) objects.now s.object.0)) self.old.settings;
          armings = filter (λ a. not (is_object_that (is_member group.0) objects.now a.object.0)) self.old.armings;
        } }
    {
        unset_members(&mut self.settings, objects, group);
        disarm_members(&mut self.armings, objects, group);
    }
}
