use std::alloc::Global;
use std::marker::Model;
use vms_base::{Memory, Row};

/// How many passes have begun, and which pass each slot holds.
#[derive(Debug, Drop)]
pub struct Passes {
    begun: u32,
    /// By slot the number of its pass, or 0.
    holders: Row<u32>,
    /// The slot that was found last.
    hint: usize,
}

impl Model for Passes {
    ghost use Rattle.std.specs.Prelude.{◌≤◌, ◌^◌, length};
    ghost use Rattle.vms_registers.specs.Shows.{PassParts};

    ghost Value = { PassParts };

    ghost view = { λ passes. record { begun = passes.begun; holders = passes.holders } };

    ghost invariant = { λ passes. length passes.holders ≤ 2 ^ 32 };
}

impl Passes {
    ghost use Rattle.std.specs.Prelude.{◌≡◌, ◌≢◌, ◌<◌, ◌≤◌, ◌+◌, ℕ, replicate, length, slice_set, IfOk, MatchBool};
    ghost use Rattle.std.specs.Prelude.{MatchOption};
    ghost use Rattle.vms_registers.specs.Shows.{held_by};

    /// No pass has begun, and each slot is free.
    pub fn open(alloc: Global, cpus: u32) -> Result<Passes, Memory>
        requires { cpus ≤ 128 }
        ensures { IfOk result (λ passes. passes ≡ record { begun = 0; holders = replicate (cpus + 1) 0 }) }
    {
        let holders = Row::filled(alloc, cpus as usize + 1, 0)?;
        Ok(Passes {
            begun: 0,
            holders,
            hint: 0,
        })
    }

    #[inline]
    pub fn begun(&self) -> u32
        ensures { result ≡ self.now.begun }
    {
        self.begun
    }

    /// The number of the pass that a slot holds, or 0.
    #[inline]
    pub fn holder(&self, slot: u32) -> u32
        requires { slot < length self.now.holders }
        ensures { result ≡ held_by self.now.holders slot }
    {
        self.holders.get(slot as usize)
    }

    /// The slot that holds a pass. Pass 0 is in none.
    #[inline]
    pub fn slot(&self, pass: u64) -> Option<u32>
        ensures { MatchOption result ((s : ℕ) → held_by self.now.holders s ≡ pass → pass ≡ 0)
            (λ slot. (pass ≢ 0) × (held_by self.now.holders slot ≡ pass) × (slot < length self.now.holders)) }
    {
        if pass == 0 {
            return None;
        }
        if self.hint < self.holders.len() && self.holders.get(self.hint) as u64 == pass {
            return Some(self.hint as u32);
        }
        slot_among(self.holders.as_slice(), pass)
    }

    /// Whether no slot holds a pass.
    pub fn is_empty(&self) -> bool
        ensures { MatchBool result ((s : ℕ) → held_by self.now.holders s ≡ 0)
            ((s : ℕ) × (held_by self.now.holders s ≢ 0)) }
    {
        none_among(self.holders.as_slice())
    }

    /// A slot holds a pass, the newest that has begun.
    #[inline]
    pub fn begin(&mut self, slot: u32, pass: u32)
        requires { slot < length self.old.holders }
        ensures { self.new ≡ record { begun = pass; holders = slice_set self.old.holders slot pass } }
    {
        self.holders.set(slot as usize, pass);
        self.begun = pass;
    }

    /// A slot is free.
    #[inline]
    pub fn end(&mut self, slot: u32)
        requires { slot < length self.old.holders }
        ensures { self.new ≡ record { begun = self.old.begun; holders = slice_set self.old.holders slot 0 } }
    {
        self.holders.set(slot as usize, 0);
    }

    /// The next search begins at this slot.
    #[inline]
    pub fn look_at(&mut self, slot: u32)
        ensures { self.new ≡ self.old }
    {
        self.hint = slot as usize;
    }
}

ghost use Rattle.std.specs.Prelude.{◌≡◌, ◌≢◌, ◌<◌, ◌≤◌, ◌^◌, ℕ, length, MatchBool, MatchOption};
ghost use Rattle.vms_registers.specs.Shows.{held_by};

fn slot_among(holders: &[u32], pass: u64) -> Option<u32>
    requires some { pass ≢ 0 }
    requires few { length holders.now ≤ 2 ^ 32 }
    ensures { MatchOption result ((s : ℕ) → held_by holders.now s ≢ pass)
        (λ slot. (held_by holders.now slot ≡ pass) × (slot < length holders.now)) }
{
    for slot in 0..holders.len() {
        if holders[slot] as u64 == pass {
            return Some(slot as u32);
        }
    }
    None
}

fn none_among(holders: &[u32]) -> bool
    ensures { MatchBool result ((s : ℕ) → held_by holders.now s ≡ 0) ((s : ℕ) × (held_by holders.now s ≢ 0)) }
{
    for slot in 0..holders.len() {
        let holder = holders[slot];
        if holder != 0 {
            return false;
        }
    }
    true
}
