//! Two running ends, and all that each ever sent.

use bx_day::Exchange;
use bx_events::Rules;
use bx_far::Far;
use bx_q931::Octets;
use bx_worked_days::{DayEnd, Row, exchange_of_numbers, far_of};
use std::alloc::{AllocError, Global};

/// A tick of one end, a second of one without a link, or a message of the other's list that comes to an end, by
/// its index.
#[derive(Clone, Copy)]
pub(crate) enum Event {
    TickExchange,
    WithoutLink,
    TickFar,
    FarWithoutLink,
    ToExchange(usize),
    ToFar(usize),
}

#[derive(Drop)]
pub(crate) struct Ends {
    pub(crate) exchange: Exchange,
    pub(crate) far: Far,
    pub(crate) sent: Vec<Octets>,
    pub(crate) far_sent: Vec<Octets>,
}

/// A tick of an end, and what it sends then.
fn tick<E: DayEnd>(end: &mut E, sent: &mut Vec<Octets>) -> Result<(), AllocError> {
    for octets in end.next_second() {
        sent.push(octets).map_err(|_| AllocError)?;
    }
    Ok(())
}

/// Brings an end the message of this index, where there is one, and keeps what it answers.
fn bring<E: DayEnd>(
    end: &mut E,
    messages: &[Octets],
    index: usize,
    sent: &mut Vec<Octets>,
) -> Result<(), AllocError> {
    if let Some(octets) = messages.get(index)
        && let Some(reply) = end.hear(octets)
    {
        sent.push(reply).map_err(|_| AllocError)?;
    }
    Ok(())
}

impl Ends {
    pub(crate) fn happens(&mut self, event: Event) -> Result<(), AllocError> {
        match event {
            Event::TickExchange => tick(&mut self.exchange, &mut self.sent),
            Event::WithoutLink => {
                self.exchange.second_without_link(Rules::Three);
                Ok(())
            }
            Event::TickFar => tick(&mut self.far, &mut self.far_sent),
            Event::FarWithoutLink => {
                self.far.second_without_link();
                Ok(())
            }
            Event::ToExchange(index) => {
                bring(&mut self.exchange, &self.far_sent, index, &mut self.sent)
            }
            Event::ToFar(index) => bring(&mut self.far, &self.sent, index, &mut self.far_sent),
        }
    }
}

/// Both ends at the opening of their days; bookings after the numbers are of 1234.
pub(crate) fn opened(alloc: Global, rows: &[Row], numbers: &[&[u8]], script: &str) -> Option<Ends> {
    Some(Ends {
        exchange: exchange_of_numbers(alloc, rows, numbers)?,
        far: far_of(alloc, script)?,
        sent: Vec::new(alloc),
        far_sent: Vec::new(alloc),
    })
}
