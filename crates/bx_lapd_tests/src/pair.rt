//! An end of a link and its second, which are to do the same.

use crate::drawn::message_of;
use crate::second_check::closed;
use crate::second_link::Second;
use arrayvec::ArrayVec;
use bx_lapd::{Done, Endpoint, ErrorCode, Frame, FrameOctets, Indication, write_frame};

#[derive(Drop)]
pub(crate) struct Pair {
    network: bool,
    end: Endpoint,
    second: Second,
    /// The frames that were sent and have not come.
    pub(crate) line: ArrayVec<FrameOctets, 24>,
    /// What was ever told.
    pub(crate) seen: ArrayVec<u8, 18>,
    /// Whether both did the same up to now.
    pub(crate) same: bool,
}

/// The letter by which Appendix II of ITU-T Q.921 names an error.
fn error_letter(code: ErrorCode) -> u8 {
    match code {
        ErrorCode::UnaskedFinal => b'A',
        ErrorCode::DmFinal => b'B',
        ErrorCode::UaFinal => b'C',
        ErrorCode::Ua => b'D',
        ErrorCode::Dm => b'E',
        ErrorCode::PeerEstablishes => b'F',
        ErrorCode::SabmeUnanswered => b'G',
        ErrorCode::DiscUnanswered => b'H',
        ErrorCode::EnquiryUnanswered => b'I',
        ErrorCode::WrongNumber => b'J',
        ErrorCode::Frmr => b'K',
        ErrorCode::UnknownControl => b'L',
        ErrorCode::UnexpectedInformation => b'M',
        ErrorCode::WrongSize => b'N',
        ErrorCode::TooLong => b'O',
    }
}

pub(crate) fn letter(told: &Indication) -> u8 {
    match told {
        Indication::LinkEstablished => b'+',
        Indication::LinkReleased => b'-',
        Indication::Delivered(_) => b'd',
        Indication::LinkError(code) => error_letter(*code),
    }
}

/// Whether the frames have just these octets.
pub(crate) fn are_sent(network: bool, frames: &[Frame], sent: &[FrameOctets]) -> bool {
    let mut same = frames.len() == sent.len();
    for (frame, octets) in frames.iter().zip(sent) {
        same &= write_frame(network, frame).as_slice() == octets.as_slice();
    }
    same
}

/// Whether the indications have just these letters, and a message that is delivered these octets.
pub(crate) fn are_told(told: &[Indication], letters: &[u8], message: &[u8]) -> bool {
    let mut same = told.len() == letters.len();
    for (indication, expected) in told.iter().zip(letters) {
        same &= letter(indication) == *expected;
        if let Indication::Delivered(octets) = indication {
            same &= octets.as_slice() == message;
        }
    }
    same
}

impl Pair {
    pub(crate) fn new(network: bool) -> Pair {
        Pair {
            network,
            end: Endpoint::new(network),
            second: Second::new(network),
            line: ArrayVec::new(),
            seen: ArrayVec::new(),
            same: true,
        }
    }

    pub(crate) fn dropped(&self) -> u64 {
        self.end.dropped()
    }

    /// Whether a call did what it did at the second link.
    fn agrees(&self, done: &Done) -> bool {
        let second = &self.second;
        are_sent(self.network, done.frames(), second.sent.as_slice())
            && are_told(
                done.told(),
                second.told.as_slice(),
                second.message.as_slice(),
            )
            && self.end.is_up() == second.is_up()
            && self.end.takes() == second.takes()
            && self.end.is_at_rest() == second.is_at_rest()
            && self.end.due() == second.due()
            && self.end.dropped() == second.dropped
    }

    /// Compares what a call did, and puts the frames on the line, as far as it has room.
    fn compares(&mut self, done: &Done) {
        let agrees = self.agrees(done);
        self.same &= agrees;
        for frame in done.frames() {
            let _full = self.line.try_push(write_frame(self.network, frame));
        }
        for told in done.told() {
            let told = letter(told);
            if !self.seen.as_slice().contains(&told) {
                let _full = self.seen.try_push(told);
            }
        }
    }

    pub(crate) fn gives(&mut self, number: u32, now: u32) {
        let now = u64::from(now);
        self.second.give(number, now);
        let done = self.end.give(message_of(number), now);
        self.compares(&done);
    }

    pub(crate) fn hears(&mut self, octets: &[u8], now: u32) {
        let now = u64::from(now);
        self.second.hears(octets, now);
        let done = self.end.receive(octets, now);
        self.compares(&done);
    }

    pub(crate) fn elapses(&mut self, now: u32) {
        let now = u64::from(now);
        self.second.elapse(now);
        let done = self.end.elapse(now);
        self.compares(&done);
    }

    pub(crate) fn polls(&mut self, now: u32) {
        let now = u64::from(now);
        self.second.poll(now);
        let done = self.end.poll(now);
        self.compares(&done);
    }

    pub(crate) fn establishes(&mut self, now: u32) {
        let now = u64::from(now);
        self.second.establish(now);
        let done = self.end.establish(now);
        self.compares(&done);
    }

    pub(crate) fn releases(&mut self, now: u32) {
        let now = u64::from(now);
        self.second.release(now);
        let done = self.end.release(now);
        self.compares(&done);
    }
}

/// The octets of the peer's UA with F = 1.
fn confirmation(network: bool) -> FrameOctets {
    closed(&[if network { 2 } else { 0 }, 1, 0x73])
}

/// An end at instant 0 in this state, as Annex B numbers them, with messages that wait for their acknowledgement in 7 and 8.
pub(crate) fn in_state(network: bool, state: u8) -> Pair {
    let mut pair = Pair::new(network);
    if state == 4 {
        return pair;
    }
    pair.establishes(0);
    if state == 5 {
        return pair;
    }
    pair.hears(confirmation(network).as_slice(), 0);
    if state == 6 {
        pair.releases(0);
        return pair;
    }
    for number in 1..4 {
        pair.gives(number, 0);
    }
    if state == 8 {
        pair.elapses(150);
    }
    pair
}
