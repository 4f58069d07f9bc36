//! The wait objects that are armed: a list of all in the order of arming, and one for each kernel
//! object.

ghost use Rattle.std.specs.Prelude.{◌≡◌, ◌≤◌, ◌++◌, ◌∷◌, [], All, IfOk, false, length, min};
ghost use Rattle.tp_base.specs.Armings.{is_armed, without_arming};
ghost use Rattle.kernel_events.specs.Armed.{HasDistinctObjects, first_on, waits_on};

use linked_lists::LinkedLists;
use std::alloc::{AllocError, Global};
use std::marker::Model;
use steps::Steps;
use tp_base::ids::{KernelId, ObjectId};

// What is armed, and on which kernel object.
#[derive(Drop)]
pub(crate) struct Armings {
    // The greatest numbers of a kernel object and of a wait object.
    kernels: u32,
    objects: u32,
    // Its list 0 has the numbers of all that are armed.
    order: LinkedLists,
    // The list of a kernel object's number has those that are armed on it.
    own: LinkedLists,
}

impl Model for Armings {
    ghost use Rattle.linked_lists.specs.Linked.{list_of};
    ghost use Rattle.kernel_events.specs.Armed.{Armed};
    ghost use Rattle.kernel_events.specs.Threaded.{AreThreaded, armings_of};

    ghost Value = { Armed };

    ghost view = { λ a. record {
      kernels = a.kernels;
      objects = a.objects;
      armed = armings_of a.own (list_of a.order 0);
    } };

    ghost invariant = { λ a. AreThreaded a.kernels a.objects a.order a.own };
}

impl Armings {
    // Nothing is armed. There is memory for the kernel objects of the numbers up to `kernels`, and the
    // wait objects of those up to `objects`.
    //
    // An `AllocError` comes where that memory can't be had, or where there would be more of either than a
    // u32 counts.
    pub(crate) fn open(alloc: Global, kernels: u32, objects: u32) -> Result<Armings, AllocError>
        ensures { IfOk result (λ armings. armings ≡ record { kernels = kernels; objects = objects; armed = [] }) }
    {
        if kernels == u32::MAX || objects == u32::MAX {
            return Err(AllocError);
        }
        Ok(Armings {
            kernels,
            objects,
            order: LinkedLists::open(alloc, 1, objects + 1)?,
            own: LinkedLists::open(alloc, kernels + 1, objects + 1)?,
        })
    }

    // Whether a wait object is armed. None is armed twice.
    pub(crate) fn is_armed(&self, object: ObjectId) -> bool
        ensures value { result ≡ is_armed object.0 self.now.armed }
        ensures distinct { HasDistinctObjects self.now.armed }
        ensures least { All (λ a. 1 ≤ a.object.0) self.now.armed }
        ensures most { All (λ a. a.object.0 ≤ self.now.objects) self.now.armed }
    {
        self.order.owner(object.0) == 0
    }

    // The wait object that was armed earliest on a kernel object.
    pub(crate) fn first_on(&self, kernel: KernelId) -> Option<ObjectId>
        ensures { result ≡ first_on kernel.0 self.now.armed }
    {
        if kernel.0 > self.kernels {
            return None;
        }
        let mut steps = Steps::new();
        let object = self.own.first(kernel.0, &mut steps)?;
        Some(ObjectId(object))
    }

    // How many wait objects are armed on a kernel object, but no more than `most`.
    pub(crate) fn count_on(&self, kernel: KernelId, most: u32) -> u32
        ensures { result ≡ min most (length (waits_on kernel.0 self.now.armed)) }
    {
        if kernel.0 > self.kernels {
            return 0;
        }
        most.min(self.own.len(kernel.0))
    }

    // Arms a wait object, behind all others.
    pub(crate) fn arm(&mut self, object: ObjectId, kernel: KernelId)
        requires least { 1 ≤ object.0 }
        requires most { object.0 ≤ self.old.objects }
        requires kernel_most { kernel.0 ≤ self.old.kernels }
        requires free { is_armed object.0 self.old.armed ≡ false }
        ensures { self.new ≡ record self.old { armed = self.old.armed ++ record { object = object; kernel = kernel } ∷ [] } }
    {
        let mut steps = Steps::new();
        // It is asked for what is known by it: a key is in one list at most.
        let _owner = self.order.owner(object.0);
        self.order.put_last(0, object.0, &mut steps);
        self.own.put_last(kernel.0, object.0, &mut steps);
    }

    // Disarms a wait object, and says whether it was armed.
    pub(crate) fn disarm(&mut self, object: ObjectId) -> bool
        ensures was { result ≡ is_armed object.0 self.old.armed }
        ensures after { self.new ≡ record self.old { armed = without_arming object.0 self.old.armed } }
    {
        if self.order.owner(object.0) != 0 {
            return false;
        }
        let mut steps = Steps::new();
        self.order.take_out(object.0, &mut steps);
        self.own.take_out(object.0, &mut steps);
        true
    }
}
