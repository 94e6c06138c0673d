//! A second reading of messages, apart from the codec: it looks each element up anew (ITU-T Q.931, 4.2 to 4.5).

use bx_q931::MessageFault;

/// What a message says of a channel.
#[derive(Clone, Copy, Debug, PartialEq, Eq)]
pub(crate) enum Naming {
    Absent,
    Any,
    Unread,
    Channel { number: u8, exclusive: bool },
}

/// A message: its reference and flag (none: the dummy reference), its type, and what stands after.
#[derive(Clone, Copy)]
pub(crate) struct Heard<'a> {
    pub(crate) reference: Option<(u16, bool)>,
    pub(crate) kind: u8,
    pub(crate) elements: &'a [u8],
}

/// The octets before the elements.
fn header(octets: &[u8]) -> Result<Heard<'_>, MessageFault> {
    let (reference, following) = match octets {
        [] | [0x08] => return Err(MessageFault::TooShort),
        [0x08, 0, following @ ..] => (None, following),
        [0x08, 1, only, following @ ..] => (
            Some((u16::from(*only & 0x7F), *only >= 0x80)),
            following,
        ),
        [0x08, 2, high, low, following @ ..] => (
            Some((u16::from_be_bytes([*high & 0x7F, *low]), *high >= 0x80)),
            following,
        ),
        [0x08, 1 | 2, ..] => return Err(MessageFault::TooShort),
        [0x08, ..] => return Err(MessageFault::BadCallReference),
        _ => return Err(MessageFault::NotQ931),
    };
    match following {
        [kind, elements @ ..] => Ok(Heard {
            reference,
            kind: *kind,
            elements,
        }),
        [] => Err(MessageFault::TooShort),
    }
}

/// How many octets the first item takes; none where it is torn.
fn item_size(octets: &[u8]) -> Option<usize> {
    match octets {
        [head, ..] if *head >= 0x80 => Some(1),
        [_, length, following @ ..] if following.len() >= *length as usize => Some(
            *length as usize + 2,
        ),
        _ => None,
    }
}

/// The codesets that hold where an item stands: by locking shifts, and by the last shift for one element.
#[derive(Clone, Copy)]
struct Codesets {
    locked: u8,
    once: Option<u8>,
}

impl Codesets {
    /// After an item that begins with this octet.
    fn following(self, head: u8) -> Codesets {
        if head & 0xF8 == 0x90 {
            Codesets {
                locked: self.locked.max(head & 0x07),
                once: self.once,
            }
        } else if head & 0xF8 == 0x98 {
            Codesets {
                locked: self.locked,
                once: Some(head & 0x07),
            }
        } else {
            Codesets {
                locked: self.locked,
                once: None,
            }
        }
    }
}

impl<'a> Heard<'a> {
    /// The contents of the first element in codeset 0 with this identifier, or that an element is torn.
    fn find(&self, id: u8) -> Result<Option<&'a [u8]>, MessageFault> {
        let mut rest = self.elements;
        let mut found = None;
        let mut codesets = Codesets {
            locked: 0,
            once: None,
        };
        for _ in 0..self.elements.len() {
            let Some(head) = rest.first() else {
                break;
            };
            let size = item_size(rest).ok_or(MessageFault::TornElement)?;
            let here = codesets.once.unwrap_or(codesets.locked);
            if *head == id && here == 0 && found.is_none() {
                found = Some(rest.get(2..size).unwrap_or(&[]));
            }
            codesets = codesets.following(*head);
            rest = rest.get(size..).unwrap_or(&[]);
        }
        Ok(found)
    }

    /// The contents of the first element with this identifier; none where there is none.
    pub(crate) fn element(&self, id: u8) -> Option<&'a [u8]> {
        self.find(id).unwrap_or(None)
    }

    /// What it says of a channel (4.5.13).
    pub(crate) fn naming(&self) -> Naming {
        match self.element(0x18) {
            None => Naming::Absent,
            Some([first, ..]) if *first & 0x27 == 0x23 => Naming::Any,
            Some([first, following @ ..]) if *first & 0x67 == 0x21 => numbered(*first, following),
            Some([first, following @ ..]) if *first & 0x67 == 0x61 => {
                numbered(*first, following_interface(following))
            }
            Some(_) => Naming::Unread,
        }
    }

    /// The cause (4.5.12): after octet 3a where there is one.
    pub(crate) fn cause(&self) -> Option<u8> {
        match self.element(0x08)? {
            [0x80..=0xFF, value, ..] | [0x00..=0x7F, _, value, ..] => Some(*value & 0x7F),
            _ => None,
        }
    }

    /// The call state (4.5.7).
    pub(crate) fn state(&self) -> Option<u8> {
        Some(*self.element(0x14)?.first()? & 0x3F)
    }

    /// The digits of the called number (4.5.8).
    pub(crate) fn digits(&self) -> Option<&'a [u8]> {
        let digits = self.element(0x70)?.get(1..)?;
        let is_number = (1..=15).contains(&digits.len()) && digits.iter().all(u8::is_ascii_digit);
        if is_number { Some(digits) } else { None }
    }

    /// The cause that refuses a SETUP for its bearer capability.
    pub(crate) fn bearer_fault(&self) -> Option<u8> {
        match self.element(0x04) {
            None => Some(96),
            Some([0x88, 0x90, ..]) => None,
            Some(_) => Some(88),
        }
    }
}

/// The octets after an interface identifier.
fn following_interface(octets: &[u8]) -> &[u8] {
    match octets.iter().position(|octet| *octet >= 0x80) {
        Some(last) => octets.get(last + 1..).unwrap_or(&[]),
        None => &[],
    }
}

/// A B channel by its number.
fn numbered(first: u8, octets: &[u8]) -> Naming {
    match octets {
        [0x83, slot, ..] => match *slot & 0x7F {
            0 | 16 | 32.. => Naming::Unread,
            number => Naming::Channel {
                number,
                exclusive: first & 0x08 != 0,
            },
        },
        _ => Naming::Unread,
    }
}

/// What the octets say, or their first fault.
pub(crate) fn read_again(octets: &[u8]) -> Result<Heard<'_>, MessageFault> {
    if octets.len() > 260 {
        return Err(MessageFault::TooLong);
    }
    let heard = header(octets)?;
    heard.find(0xFF)?;
    Ok(heard)
}
