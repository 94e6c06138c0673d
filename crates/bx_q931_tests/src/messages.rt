//! Messages that are encoded and read, against worked octets.

use bx_cases::messages::{FAR_RELEASE_COMPLETE_17, SETUP};
use bx_channels::{Channel, Number};
use bx_q931::{Kind, Out, Reference, cause, encode, laws, read};
use std::test::Fail;

/// STATUS with cause 101 and state 10, of reference 258 with flag 1.
pub(crate) static STATUS: [u8; 12] = [
    0x08, 0x02, 0x81, 0x02, 0x7D, 0x08, 0x02, 0x82, 0xE5, 0x14, 0x01, 0x0A,
];

/// CONNECT of reference 5 with flag 1, in one octet.
pub(crate) static ONE_OCTET_REFERENCE: [u8; 4] = [0x08, 0x01, 0x85, 0x07];

pub(crate) static DUMMY_REFERENCE: [u8; 3] = [0x08, 0x00, 0x05];

fn setup() -> Option<Out> {
    let setup = Out::new(1, false, Kind::Setup)?;
    let setup = setup.with_called(Number::new(b"1234")?);
    let setup = setup.with_channel(Channel::new(1)?, true);
    Some(setup.with_bearer().with_sending_complete())
}

fn status() -> Option<Out> {
    let status = Out::new(258, true, Kind::Status)?;
    let status = status.with_state(0xCA);
    Some(status.with_cause(cause::LOCATION_LOCAL_NETWORK, cause::MESSAGE_NOT_COMPATIBLE))
}

fn is_headed(out: &Out, reference: u16, flag: bool, kind: Kind) -> bool {
    out.reference() == reference && out.flag() == flag && out.kind() == kind
}

fn is_encoded(message: Option<Out>, octets: &[u8]) -> bool {
    match message {
        Some(out) => encode(&out).as_slice() == octets,
        None => false,
    }
}

/// References and kinds of which no message is sent.
static UNSENT: [(u16, Kind); 3] = [
    (0, Kind::Setup),
    (32768, Kind::Setup),
    (1, Kind::Other(0x05)),
];

#[test]
fn messages_are_encoded(rt: HostRuntime) -> Result<(), Fail> {
    assert!(rt; is_encoded(setup(), SETUP), "SETUP");
    assert!(rt; is_encoded(status(), &STATUS), "STATUS");
    let status = status().ok_or("status")?;
    assert!(rt; is_headed(&status, 258, true, Kind::Status), "header");
    for (reference, kind) in UNSENT {
        assert!(rt; Out::new(reference, false, kind).is_none(), "{reference}");
    }
    laws::items_are_spelled();
    laws::read_again();
    Ok(())
}

/// The header of a message, where its octets are one.
fn header_of(octets: &[u8]) -> Option<(Kind, Reference)> {
    let message = read(octets).ok()?;
    Some((message.kind(), message.reference()))
}

fn named(value: u16) -> Reference {
    Reference::Value { value, flag: true }
}

#[test]
fn headers_are_read(rt: HostRuntime) {
    let status = Some((Kind::Status, named(258)));
    assert!(rt; header_of(&STATUS) == status, "two octets");
    let connect = Some((Kind::Connect, named(5)));
    assert!(rt; header_of(&ONE_OCTET_REFERENCE) == connect, "one octet");
    let dummy = Some((Kind::Setup, Reference::Dummy));
    assert!(rt; header_of(&DUMMY_REFERENCE) == dummy, "none");
    assert_eq!(rt; Kind::of(0x6F).name(), "UNKNOWN");
    assert_eq!(rt; Kind::of(0x46).name(), "RESTART");
    assert_eq!(rt; Kind::of(0x4E).name(), "RESTART ACKNOWLEDGE");
}

/// Whether STATUS and SETUP say what they say.
fn are_worked_read() -> Option<bool> {
    let status = read(&STATUS).ok()?;
    let setup = read(SETUP).ok()?;
    Some(
        status.cause() == Some(101)
            && status.state() == Some(10)
            && setup.called() == Number::new(b"1234")
            && setup.first(0x04) == Some([0x88, 0x90].as_slice()),
    )
}

/// Whether RELEASE COMPLETE is read, with its one element.
fn is_release_read() -> Option<bool> {
    let release = read(FAR_RELEASE_COMPLETE_17).ok()?;
    let mut elements = release.elements();
    let element = elements.next()?;
    Some(
        release.kind().octet() == 0x5A
            && release.kind().name() == "RELEASE COMPLETE"
            && (element.codeset, element.id) == (0, 0x08)
            && element.contents == [0x80, 0x91].as_slice()
            && elements.next().is_none(),
    )
}

#[test]
fn elements_are_read(rt: HostRuntime) {
    assert!(rt; are_worked_read() == Some(true), "STATUS and SETUP");
    assert!(rt; is_release_read() == Some(true), "RELEASE COMPLETE");
}
