use core::scope::ScopeEnv;
use std::sync::Wait;
use std::thread;
use std::thread::{Scope, Threads};

/// What is done while a scope is open. Its value may hold `&mut`s, of which a scope itself tells nothing: what was
/// written through them is told by what comes back.
pub trait InScope<E> {
    type Output;

    // It may be done.
    ghost may_run: { Self → Type 0 };

    // What comes back then.
    ghost gives: { Self → Self.Output → Type 0 };

    fn run<'s>(self, scope: &'s Scope<'s, E>) -> Self::Output
        requires { may_run self }
        ensures { gives self result };
}

/// What starts a thread in a scope, and says whether it did. Every closure over scopes is one, if it may be called with
/// any: a method of a trait can't start threads by the bounds of its `impl`, and a closure of a function can.
pub trait Starts<E>: Drop {
    // It may be called.
    ghost may_start: { Self → Type 0 };

    fn start_one<'s>(&self, scope: &'s Scope<'s, E>) -> bool
        requires { may_start self.now };
}

impl<E, F: for<'s> Fn(&'s Scope<'s, E>) -> bool> Starts<E> for F {
    ghost may_start = { F.IsAlwaysCallable };

    fn start_one<'s>(&self, scope: &'s Scope<'s, E>) -> bool {
        self(scope)
    }
}

/// Opens a scope, does this in it, and returns once every thread that was started in the scope has ended. `scope_env()`
/// of `std::thread` names what its threads may borrow.
pub fn run_in_scope<E, R: Threads + Wait, T: InScope<E, Output = A> + Drop, A>(
    env: ScopeEnv<E>,
    rt: &R,
    task: T,
) -> A
    requires { T.may_run task }
    ensures { T.gives task result }
{
    thread::scope(
        env,
        rt,
        move |scope| -> A
            requires { T.may_run task }
            ensures { T.gives task result }
        { task.run(scope) },
    )
}
