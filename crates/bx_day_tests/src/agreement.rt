//! Whether two ends agree, as their readers and their answers to STATUS ENQUIRY tell it.

use crate::two_ends::Ends;
use bx_calls::CallState;
use bx_channels::Channel;
use bx_day::Outcome;
use bx_q931::Octets;
use bx_worked_days::Row;

/// The flag octet of messages from the end that began the call, and of messages to it.
const FROM: u8 = 0x00;

const TO: u8 = 0x80;

const CONNECT: u8 = 0x07;

const CONNECT_ACKNOWLEDGE: u8 = 0x0F;

const STATUS_ENQUIRY: u8 = 0x75;

/// The call states that STATUS tells of no call and of an Active one.
const NULL: u8 = 0;

const ACTIVE: u8 = 10;

/// Calls have references from 1 to this in these runs.
const LAST_REFERENCE: u8 = 9;

const CHANNELS: [u8; 3] = [1, 2, 3];

/// Whether such a message was sent.
fn was_sent(sent: &[Octets], flag: u8, reference: u8, kind: u8) -> bool {
    let prefix = [0x08, 0x02, flag, reference, kind];
    let mut found = false;
    for octets in sent {
        found |= octets.as_slice().starts_with(&prefix);
    }
    found
}

/// The call state that a STATUS reports, which ends it.
fn reported(status: Option<Octets>) -> u8 {
    match status {
        Some(octets) => match octets.as_slice().last() {
            Some(state) => *state,
            None => NULL,
        },
        None => NULL,
    }
}

/// What the far end tells of a call that the exchange began: an enquiry changes nothing.
fn offered_state(ends: &mut Ends, reference: u8) -> u8 {
    reported(
        ends.far
            .receive(&[0x08, 0x02, FROM, reference, STATUS_ENQUIRY]),
    )
}

/// What the far end tells of a call that it began itself.
fn own_state(ends: &mut Ends, reference: u8) -> u8 {
    reported(
        ends.far
            .receive(&[0x08, 0x02, TO, reference, STATUS_ENQUIRY]),
    )
}

/// What the exchange tells of a call that the far end began.
fn taken_state(ends: &mut Ends, reference: u8) -> u8 {
    reported(
        ends.exchange
            .receive(&[0x08, 0x02, FROM, reference, STATUS_ENQUIRY]),
    )
}

fn is_inward(rows: &[Row], row: u16) -> bool {
    match rows.get((row as usize).saturating_sub(1)) {
        Some(row) => row.3,
        None => false,
    }
}

/// While an outward booking is Active on the channel, the far end holds its call there, or has that in maintenance.
fn is_held(ends: &mut Ends, rows: &[Row], channel: Channel) -> bool {
    let Some((row, CallState::Active)) = ends.exchange.on_channel(channel) else {
        return true;
    };
    if is_inward(rows, row) || ends.far.in_maintenance(channel) {
        return true;
    }
    match ends.far.on_channel(channel) {
        Some((reference, _)) => reference == row && offered_state(ends, (row & 0xFF) as u8) != NULL,
        None => false,
    }
}

fn all_held(ends: &mut Ends, rows: &[Row]) -> bool {
    let mut held = true;
    for number in CHANNELS {
        if let Some(channel) = Channel::new(number) {
            held &= is_held(ends, rows, channel);
        }
    }
    held
}

/// A call of the exchange's that is Active at the far end was acknowledged.
fn are_acknowledged(ends: &mut Ends) -> bool {
    let mut acknowledged = true;
    for reference in 1..=LAST_REFERENCE {
        if offered_state(ends, reference) == ACTIVE {
            acknowledged &= was_sent(&ends.sent, FROM, reference, CONNECT_ACKNOWLEDGE);
        }
    }
    acknowledged
}

/// The far end holds its Active call of this reference on the channel, and the exchange holds an inward call there, or
/// has the channel in maintenance.
fn is_taken(ends: &Ends, rows: &[Row], reference: u8, channel: Channel, live: bool) -> bool {
    if ends.far.on_channel(channel) != Some((reference as u16, CallState::Active)) {
        return false;
    }
    if ends.exchange.in_maintenance(channel) {
        return true;
    }
    match ends.exchange.on_channel(channel) {
        Some((row, _)) => live && is_inward(rows, row),
        None => false,
    }
}

/// The exchange holds the far end's Active call of this reference on its channel, and has sent CONNECT.
fn is_connected(ends: &mut Ends, rows: &[Row], reference: u8) -> bool {
    let live = taken_state(ends, reference) != NULL;
    let mut taken = false;
    for number in CHANNELS {
        if let Some(channel) = Channel::new(number) {
            taken |= is_taken(ends, rows, reference, channel, live);
        }
    }
    taken && was_sent(&ends.sent, TO, reference, CONNECT)
}

fn are_connected(ends: &mut Ends, rows: &[Row]) -> bool {
    let mut connected = true;
    for reference in 1..=LAST_REFERENCE {
        if own_state(ends, reference) == ACTIVE {
            connected &= is_connected(ends, rows, reference);
        }
    }
    connected
}

/// As many calls are live at the far end as channels are held there.
fn far_apart(ends: &mut Ends) -> bool {
    let mut live = 0u8;
    for reference in 1..=LAST_REFERENCE {
        live = live.saturating_add(u8::from(offered_state(ends, reference) != NULL));
        live = live.saturating_add(u8::from(own_state(ends, reference) != NULL));
    }
    let mut held = 0u8;
    for number in CHANNELS {
        if let Some(channel) = Channel::new(number) {
            held = held.saturating_add(u8::from(ends.far.on_channel(channel).is_some()));
        }
    }
    live == held
}

/// Each live booking is what the exchange holds on its channel.
fn apart(ends: &Ends, rows: &[Row]) -> bool {
    let mut apart = true;
    let mut name = 0u16;
    for row in rows {
        name = name.saturating_add(1);
        if ends.exchange.outcome(name) == Some(Outcome::Live)
            && let Some(channel) = Channel::new(row.2)
        {
            apart &= match ends.exchange.on_channel(channel) {
                Some((held, _)) => held == name,
                None => false,
            };
        }
    }
    apart
}

/// Whether all that two ends promise of each other holds here.
pub(crate) fn agree(ends: &mut Ends, rows: &[Row]) -> bool {
    all_held(ends, rows)
        && are_acknowledged(ends)
        && are_connected(ends, rows)
        && far_apart(ends)
        && apart(ends, rows)
}
