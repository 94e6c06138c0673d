//! What a message or a second does to a call.

ghost use Rattle.std.specs.Prelude.{◌≡◌};
ghost use Rattle.bx_calls.specs.Steps.{goes_on, ends, breaks};

use bx_q931::Out;

/// Where a call is after a step.
#[derive(Drop)]
pub enum Next<T> {
    /// It goes on so.
    Live(T),
    /// It is over; its channel and its reference are free.
    Over,
    /// It is over without an answer from the other side; its channel goes into maintenance.
    Broken,
}

/// A step: the call after it, and what is sent.
#[derive(Drop)]
pub struct Transition<T> {
    pub next: Next<T>,
    pub reply: Option<Out>,
}

impl<T> Transition<T> {
    pub(crate) fn on(call: T, reply: Option<Out>) -> Transition<T>
        ensures { result ≡ goes_on call reply }
    {
        Transition {
            next: Next::Live(call),
            reply,
        }
    }

    pub(crate) fn over(reply: Option<Out>) -> Transition<T>
        ensures { result ≡ ends reply }
    {
        Transition {
            next: Next::Over,
            reply,
        }
    }

    pub(crate) fn broken() -> Transition<T>
        ensures { result ≡ breaks }
    {
        Transition {
            next: Next::Broken,
            reply: None,
        }
    }
}
