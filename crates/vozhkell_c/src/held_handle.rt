ghost use Rattle.std.specs.Prelude.{◌≡◌, IfSome, IsSome, None, Option};
ghost use Rattle.vms_counters.specs.Handles.{AnyHandle};
ghost use Rattle.vozhkell_c.specs.Owning.{inside, loosely};

use crate::loose::Loose;
use std::alloc::Global;
use std::marker::Model;
use vms_counters::Handle;

/// What a variable of C holds: a handle, or nothing.
#[repr(C)]
#[derive(Drop)]
pub struct HeldHandle {
    at: *mut u8,
    pub(crate) ghost value: { Option AnyHandle },
}

impl Model for HeldHandle {
    ghost use Rattle.vms_counters.specs.contracts.handles.Handle.{the_row as row};
    ghost use Rattle.vozhkell_c.specs.Owning.{held_owns};

    ghost also_owns = { λ held. held_owns row held.at held.value };
}

// Where it is passed on, so is the box that it owns.
unsafe impl Send for HeldHandle {}

impl HeldHandle {
    /// Takes out what the variable holds.
    pub(crate) fn take(&mut self, alloc: Global) -> Option<Box<Option<Handle>, Global>>
        ensures after { self.new.value ≡ None }
        ensures value { inside result ≡ self.old.value }
        ensures some { IfSome result (λ room. IsSome room.value) }
    {
        let held = std::mem::replace(self, HeldHandle::none());
        match held.into_loose(alloc) {
            None => None,
            Some(loose) => Some(loose.into_box()),
        }
    }

    /// Puts it in. What the variable held before is forgotten.
    pub(crate) fn put(&mut self, room: Box<Option<Handle>, Global>)
        requires { IsSome room.value }
        ensures { self.new.value ≡ room.value }
    {
        *self = HeldHandle::of_loose(Loose::of(room));
    }

    fn none() -> HeldHandle
        ensures { result.value ≡ None }
    {
        HeldHandle {
            at: std::ptr::null_mut(),
        }
    }

    fn of_loose(loose: Loose<Option<Handle>, Global>) -> HeldHandle
        requires { IsSome loose.value }
        ensures { result.value ≡ loose.value }
    {
        let Loose { at, alloc: _ } = loose;
        HeldHandle { at: at as *mut u8 }
    }

    fn into_loose(self, alloc: Global) -> Option<Loose<Option<Handle>, Global>>
        ensures { (loosely result ≡ self.value) × IfSome result (λ loose. IsSome loose.value) }
    {
        let at = self.at;
        if at.is_null() {
            return None;
        }
        Some(Loose {
            at: at as *mut Option<Handle>,
            alloc,
        })
    }
}
