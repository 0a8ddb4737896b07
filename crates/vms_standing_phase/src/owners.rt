ghost use Rattle.std.specs.Prelude.{◌≡◌};
ghost use Rattle.std.specs.Arc.{arc_value};

use std::alloc::Global;
use std::sync::{Arc, Wait};
use std::thread;

/// The value itself, once this is its only owner.
pub(crate) fn owned<R: Wait, T: Drop>(rt: &R, shared: Arc<T, Global>) -> T
    ensures { result ≡ arc_value shared }
{
    let mut shared = shared;
    for _ in rt.forever() {
        match Arc::try_unwrap(shared) {
            Ok(value) => return value,
            Err(still) => {
                shared = still;
                thread::yield_now();
            }
        }
    }
    unreachable!()
}
