//! Events of a day.

use crate::amendment::Amendment;
use crate::rules::Rules;

/// An event of a day on its link: a second that goes by, or octets that come.
#[derive(Clone, Copy)]
pub enum Event<'a> {
    Tick,
    Receive(&'a [u8]),
}

/// An event of a live day: one on its link, a second without a link, by these rules, what amends its plan, as a line tells it, or octets
/// that came to an exchange of the rules 2, as a journal of such a one has them.
#[derive(Clone, Copy)]
pub enum LiveEvent<'a> {
    OnLink(Event<'a>),
    WithoutLink(Rules),
    Amended(Amendment, &'a [u8]),
    HeardByRulesTwo(&'a [u8]),
}
