//! Restarts.

ghost use Rattle.std.specs.Prelude.{◌≡◌, ◌==◌, ◌++◌, length, option_map, is_some};
ghost use Rattle.std.specs.List.{flat_map};
ghost use Rattle.bx_q931.specs.Items.{item_octets};
ghost use Rattle.bx_q931.specs.Kinds.{octet_of};
ghost use Rattle.bx_q931.specs.Restarts.{restart_class, class_in, if_indicated, is_global, is_of_interface, restart_of, restarts_interface, acknowledgement_of, acknowledgement_octets, acknowledgement_at};

use crate::encoding::{Octets, push_all, push_header};
use crate::kind::Kind;
use crate::message::{CHANNEL_IDENTIFICATION, Message};
use crate::reading::{MAX_MESSAGE, read};
use crate::reference::Reference;

/// The type of RESTART (ITU-T Q.931, 4.4).
pub const RESTART: u8 = 0x46;
/// The type of RESTART ACKNOWLEDGE (4.4).
pub const RESTART_ACKNOWLEDGE: u8 = 0x4E;
/// The identifier of a restart indicator (4.5.25).
pub const RESTART_INDICATOR: u8 = 0x79;

/// The octets before the elements, of a message whose reference has two.
const HEADER: usize = 5;

/// What a RESTART returns to idle (ITU-T Q.931, 5.5 and 4.5.25): the channels of its channel identification, or all of the interface, or of
/// each interface.
#[derive(Clone, Copy, Debug, PartialEq, Eq)]
pub enum Restart {
    IndicatedChannels,
    SingleInterface,
    AllInterfaces,
}

impl Restart {
    /// By the class of a restart indicator.
    fn of_class(class: u8) -> Option<Restart>
        ensures { result ≡ restart_class class }
    {
        match class {
            0 => Some(Restart::IndicatedChannels),
            6 => Some(Restart::SingleInterface),
            7 => Some(Restart::AllInterfaces),
            _ => None,
        }
    }

    /// By the contents of a restart indicator.
    fn of(contents: &[u8]) -> Option<Restart>
        ensures { result ≡ class_in contents.now }
    {
        Restart::of_class(*contents.first()? & 0x07)
    }

    /// Where channels are indicated, or all are.
    fn if_indicated(self, is_there: bool) -> Option<Restart>
        ensures { result ≡ if_indicated is_there (Some self) }
    {
        match self {
            Restart::IndicatedChannels if !is_there => None,
            restart => Some(restart),
        }
    }
}

/// Whether this is the global reference, from the end that restarts.
fn is_global(reference: Reference) -> bool
    ensures { result ≡ is_global reference }
{
    match reference {
        Reference::Value { value: 0, flag } => !flag,
        _ => false,
    }
}

/// Whether this is a whole interface, or all.
fn is_of_interface(restart: Option<Restart>) -> bool
    ensures { result ≡ is_of_interface restart }
{
    matches!(
        restart,
        Some(Restart::SingleInterface | Restart::AllInterfaces)
    )
}

impl<'a> Message<'a> {
    /// What this message restarts. None where it is no RESTART of the global reference with flag 0, has no restart indicator of a class
    /// that is known, or indicates channels and names none (profile: 5.8.6.1 would have STATUS 96).
    pub fn restart(&self) -> Option<Restart>
        ensures { result ≡ restart_of self.now }
    {
        if !is_global(self.reference()) || self.kind().octet() != RESTART {
            return None;
        }
        let restart = Restart::of(self.first(RESTART_INDICATOR)?)?;
        restart.if_indicated(self.first(CHANNEL_IDENTIFICATION).is_some())
    }

    /// The answer to a RESTART: RESTART ACKNOWLEDGE with the same elements (5.5.2), a reference of two octets, and flag 1. None where this
    /// is no RESTART, or the answer would have more than `MAX_MESSAGE` octets.
    fn acknowledgement(&self) -> Option<Octets>
        ensures { option_map (λ o. o.items) result ≡ acknowledgement_of self.now }
    {
        let _restart = self.restart()?;
        let elements = self.item_octets();
        if HEADER + elements.len() > MAX_MESSAGE {
            return None;
        }
        let mut octets = Octets::new();
        push_header(&mut octets, 0, true, Kind::Other(RESTART_ACKNOWLEDGE));
        push_all(&mut octets, elements);
        Some(octets)
    }
}

/// Whether these octets are a RESTART of a whole interface, or of all: the end that sends it has no call any more.
pub fn restarts_interface(octets: &[u8]) -> bool
    ensures { result ≡ restarts_interface octets.now }
{
    match read(octets) {
        Ok(message) => is_of_interface(message.restart()),
        Err(_) => false,
    }
}

/// What is answered to these octets where they are a RESTART: RESTART ACKNOWLEDGE with the same elements (ITU-T Q.931, 5.5.2), with the
/// global reference in two octets, and flag 1. None for all other octets, and where the answer would have more than `MAX_MESSAGE`.
pub fn acknowledge_restart(octets: &[u8]) -> Option<Octets>
    ensures answer { option_map (λ o. o.items) result ≡ acknowledgement_at octets.now }
{
    match read(octets) {
        Ok(message) => message.acknowledgement(),
        Err(_) => None,
    }
}
