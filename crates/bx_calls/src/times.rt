//! How often a message was sent.

/// How often a message was sent, an answer to which is waited for, since there is a link again.
#[derive(Clone, Copy)]
pub enum Times {
    NotYet,
    Once,
    Twice,
}
