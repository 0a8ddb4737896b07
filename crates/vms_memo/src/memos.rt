use atomic_table::{Seat, Table, TableRule};
use std::alloc::Global;
use std::marker::{Model, PhantomData};
use vms_base::Memory;

/// What a value was when the memo was made. Contracts see that value in it. It has no bytes: it is a seat of a table
/// that was told the value, and is gone.
#[derive(Drop)]
pub struct Memo<T> {
    seat: Seat<(), T>,
}

impl<T> Model for Memo<T> {
    ghost Value = { T };

    ghost view = { λ memo. memo.seat.me.0 };
}

// A table whose first seat knows what the table was told.
struct Tells<T> {
    of: PhantomData<T>,
}

impl<T> TableRule<(), T, T> for Tells<T> {
    ghost holds = { λ about s. Unit {0} };

    ghost first = { λ about. about };
}

ghost use Rattle.std.specs.Prelude.{◌≡◌, IfOk};

impl<T> Memo<T> {
    /// A memo of a value. It takes memory for a word, and gives it back at once.
    pub fn of(alloc: Global, value: &T) -> Result<Memo<T>, Memory>
        ensures { IfOk result (λ memo. memo ≡ value.now) }
    {
        let (_, seat) = Table::<(), T, T, Tells<T>, Global>::of_words(alloc, &[0], value)?;
        Ok(Memo { seat })
    }
}
