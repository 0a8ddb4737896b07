ghost use Rattle.std.specs.Prelude.{◌≡◌, IfSome, IsSome, None, Option};
ghost use Rattle.vms_counters.specs.Opened.{Opened};
ghost use Rattle.vozhkell_c.specs.Owning.{inside, loosely};

use crate::loose::Loose;
use std::alloc::Global;
use std::marker::Model;
use vms_counters::Counters;

/// What a variable of C holds: counters, or nothing.
#[repr(C)]
#[derive(Drop)]
pub struct HeldCounters {
    at: *mut u8,
    pub(crate) ghost value: { Option Opened },
}

impl Model for HeldCounters {
    ghost use Rattle.vms_counters.specs.contracts.counters.Counters.{the_row as row};
    ghost use Rattle.vozhkell_c.specs.Owning.{held_owns};

    ghost also_owns = { λ held. held_owns row held.at held.value };
}

// Where it is passed on, so is the box that it owns.
unsafe impl Send for HeldCounters {}

impl HeldCounters {
    /// Takes out what the variable holds.
    pub(crate) fn take(&mut self, alloc: Global) -> Option<Box<Option<Counters>, Global>>
        ensures after { self.new.value ≡ None }
        ensures value { inside result ≡ self.old.value }
        ensures some { IfSome result (λ room. IsSome room.value) }
    {
        let held = std::mem::replace(self, HeldCounters::none());
        match held.into_loose(alloc) {
            None => None,
            Some(loose) => Some(loose.into_box()),
        }
    }

    /// Puts it in. What the variable held before is forgotten.
    pub(crate) fn put(&mut self, room: Box<Option<Counters>, Global>)
        requires { IsSome room.value }
        ensures { self.new.value ≡ room.value }
    {
        *self = HeldCounters::of_loose(Loose::of(room));
    }

    fn none() -> HeldCounters
        ensures { result.value ≡ None }
    {
        HeldCounters {
            at: std::ptr::null_mut(),
        }
    }

    fn of_loose(loose: Loose<Option<Counters>, Global>) -> HeldCounters
        requires { IsSome loose.value }
        ensures { result.value ≡ loose.value }
    {
        let Loose { at, alloc: _ } = loose;
        HeldCounters { at: at as *mut u8 }
    }

    fn into_loose(self, alloc: Global) -> Option<Loose<Option<Counters>, Global>>
        ensures { (loosely result ≡ self.value) × IfSome result (λ loose. IsSome loose.value) }
    {
        let at = self.at;
        if at.is_null() {
            return None;
        }
        Some(Loose {
            at: at as *mut Option<Counters>,
            alloc,
        })
    }
}
