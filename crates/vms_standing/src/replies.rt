use crate::rules::{Answers, Finds, Gives, Opens, Replied};
use atomic_table::Table;
use std::alloc::{AllocError, Global};
use std::hint::spin_loop;
use std::marker::Model;
use std::sync::Wait;
use std::sync::atomic::{AtomicU64, Ordering};

/// Nothing was put yet.
const EMPTY: u64 = 0;

/// Someone is at the slot, or the answer was taken.
const BUSY: u64 = 1;

/// An answer lies in the slot.
const FULL: u64 = 2;

/// How often who waits for an answer looks for it before it sleeps.
const LOOKS: u32 = 100;

/// A place for the answer to one job. Contracts see that job in it: the key of its table, which is fixed when the place
/// is made. It has a word and a slot.
#[derive(Drop)]
pub struct Reply<J, D: Answers<J>> {
    table: Table<Option<D>, J, J, Replied<D>, Global>,
    /// How many times someone was about to sleep until the answer comes.
    sleeps: AtomicU64,
}

impl<J, D: Answers<J>> Model for Reply<J, D> {
    ghost use Rattle.std.specs.Prelude.{◌≡◌};

    ghost Value = { J };

    ghost view = { λ reply. reply.table.shared.key };

    ghost invariant = { λ reply. (reply.table.shared.table_id.words ≡ 1)
        × (reply.table.shared.table_id.slots ≡ 1) };
}

ghost use Rattle.std.specs.Prelude.{◌≡◌, IfOk};

impl<J, D: Answers<J> + Drop> Reply<J, D> {
    /// An empty place for the answer to this job.
    pub fn to(alloc: Global, job: &J) -> Result<Reply<J, D>, AllocError>
        ensures { IfOk result (λ reply. reply ≡ job.now) }
    {
        let (table, _) = Table::vacant(alloc, &[EMPTY], 1, job)?;
        Ok(Reply {
            table,
            sleeps: AtomicU64::new(0),
        })
    }

    /// Puts an answer of the job in, and wakes who waits for it. Where one was put before, this one is dropped.
    pub fn put(&self, done: D)
        requires { D.answers self.now done }
    {
        let shared = &self.table.shared;
        let (found, mut seat) = shared.swap_new_seat::<Opens>(0, BUSY);
        if found == EMPTY {
            drop(shared.exchange(&mut seat, 0, Some(done)));
            shared.store::<Gives>(&mut seat, 0, FULL);
            // Who sleeps was counted before it looked at the word for the last time.
            if self.sleeps.load(Ordering::SeqCst) != 0 {
                shared.wake_one(0);
            }
        }
    }

    /// Waits for the answer, and takes it out. Called once more it waits forever.
    pub fn take<R: Wait>(&self, rt: &R) -> D
        ensures { D.answers self.now result }
    {
        let shared = &self.table.shared;
        self.look();
        for _ in rt.forever() {
            self.sleeps.fetch_add(1, Ordering::SeqCst);
            match shared.peek(0) {
                FULL => {
                    let (found, mut seat) = shared.swap_new_seat::<Finds<D>>(0, BUSY);
                    if found == FULL {
                        return shared.exchange(&mut seat, 0, None).unwrap();
                    }
                }
                EMPTY => shared.park(rt, 0, EMPTY as u32),
                _ => shared.park(rt, 0, BUSY as u32),
            }
        }
        unreachable!()
    }

    /// Looks for the answer for a short time.
    fn look(&self) {
        for _ in 0..LOOKS {
            if self.table.shared.peek(0) == FULL {
                return;
            }
            spin_loop();
        }
    }
}
