//! A data link over its wire.

ghost use Rattle.std.specs.Prelude.{◌≡◌, ◌∷◌, [], ℕ, ◌<◌, ◌^◌, is_ok};
ghost use Rattle.bx_line_world.specs.Posts.{no_post, post_from};
ghost use Rattle.bx_line_world.specs.Lines.{Elapsed, Serves, instant_in, slice_of, sent_as, is_information, is_passed};
ghost use Rattle.bx_line_world.specs.Serving.{AsksLink, is_idle, is_wait_over};
ghost use Rattle.bx_line_world.specs.Seeing.{AsksEnd, is_seen, is_to_ask};
ghost use Rattle.bx_line_world.specs.Steps.{Looks, with_wire, SendsFrames, keeps, CarriesOut, GivesWhere, Waits};

use crate::post::Post;
use crate::wire::Wire;
use bx_devices::WriteFailed;
use bx_lapd::{Done, Endpoint, Frame, Indication, write_frame};
use bx_live::SECOND;
use bx_q931::Octets;

/// A millisecond and the least slice of a wait, in nanoseconds.
const MILLISECOND: u128 = 1_000_000;

const SHORTEST: u128 = 50_000;

/// The last instant of a link, in milliseconds.
const LAST: u128 = 4_611_686_018_427_387_903;

/// A data link with its wire; the last reading of the clock, what has passed by the clock so far, both in nanoseconds; and what the
/// link has told.
#[derive(Drop)]
pub struct Line<W> {
    pub end: Endpoint,
    pub wire: W,
    pub shown: u128,
    pub passed: u128,
    pub post: Post,
}

impl<W> Line<W> {
    /// The network's end of a link that is not there yet, or the user's.
    pub fn new(network: bool, wire: W) -> Line<W>
        ensures side { result.end.network ≡ network }
        ensures wire { result.wire ≡ wire }
        ensures post { result.post ≡ no_post }
        ensures shown { result.shown ≡ 0 }
        ensures passed { result.passed ≡ 0 }
    {
        Line {
            end: Endpoint::new(network),
            wire,
            shown: 0,
            passed: 0,
            post: Post::new(),
        }
    }

    /// The same, for a day that goes on from this moment. Where that is not its first one, the day was started again, and what was said last
    /// may be lost: its first second that is not late goes by without a link (`of_line`, clause `apart`), so that the day asks for each call.
    pub fn going_on(self, moment: u32) -> Line<W>
        ensures { result ≡ record self { post = post_from moment } }
    {
        let mut line = self;
        line.post = Post::from_moment(moment);
        line
    }

    /// The instant of the link.
    fn now(&self) -> u64
        ensures now { result ≡ instant_in self.now.passed }
        ensures small { result < 2 ^ 62 }
    {
        (self.passed / MILLISECOND).min(LAST) as u64
    }

    /// How long a frame is waited for, up to an instant.
    fn slice(&self, until: u128) -> u64
        ensures { result ≡ slice_of self.now until }
    {
        let timer = match self.end.due() {
            Some(due) => (u128::from(due) * MILLISECOND).saturating_sub(self.passed),
            None => SECOND,
        };
        let most = until.saturating_sub(self.shown).min(timer.min(SECOND));
        SHORTEST.max(most) as u64
    }

    /// Whether a wait is over.
    pub(crate) fn is_over(&self, until: u128, in_turn: bool) -> bool
        ensures { result ≡ is_wait_over self.now until in_turn }
    {
        until <= self.shown || (in_turn && self.post.has_news())
    }

    /// Whether the other end was asked in this second of the clock, and has answered and acknowledged all.
    pub(crate) fn is_seen(&self) -> bool
        ensures { result ≡ is_seen self.now }
    {
        self.post.asked && self.end.is_at_rest()
    }

    /// Whether it was not asked yet, and nothing stands in the way.
    fn is_to_ask(&self) -> bool
        ensures { result ≡ is_to_ask self.now }
    {
        !self.post.asked && self.end.is_at_rest()
    }

    /// Whether there is no link, and no attempt runs.
    fn is_idle(&self) -> bool
        ensures { result ≡ is_idle self.now.end.link }
    {
        !self.end.is_up() && !self.end.due().is_some()
    }
}

/// Whether these are the octets of an I frame.
fn is_information(octets: &[u8]) -> bool
    ensures { result ≡ is_information octets.now }
{
    octets.len() > 2 && octets[2] % 2 == 0
}

impl<W> Line<W> {
    /// Whether octets that came are of a message for which there is no room.
    fn passes_over(&self, octets: &[u8]) -> bool
        ensures { result ≡ is_passed self.now.post octets.now }
    {
        self.post.is_full() && is_information(octets)
    }
}

impl<W: Wire> Line<W> {
    /// Looks at the clock.
    fn look(&mut self)
        ensures { Looks W.did self.old self.new }
    {
        let shown = self.wire.shown();
        self.passed = self.passed.saturating_add(shown.saturating_sub(self.shown));
        self.shown = shown;
    }

    /// Sends a frame.
    fn send_one(&mut self, network: bool, frame: &Frame)
        ensures wire { W.did self.old.wire (sent_as network frame.now ∷ []) self.new.wire }
        ensures rest { self.new ≡ with_wire self.old self.new.wire }
    {
        self.wire.send(write_frame(network, frame).as_slice());
    }

    /// Sends frames.
    fn send(&mut self, frames: &[Frame])
        ensures { SendsFrames W.did frames.now self.old self.new }
    {
        let network = self.end.is_network();
        for frame in frames {
            self.send_one(network, frame);
        }
    }

    /// Keeps what was told.
    fn keep(&mut self, told: &[Indication])
        ensures { self.new ≡ keeps self.old told.now }
    {
        for one in told {
            self.post.hear(one);
        }
    }

    /// Does what the link wants.
    fn carry_out(&mut self, done: &Done)
        ensures { CarriesOut W.did done.now self.old self.new }
    {
        self.send(done.frames());
        self.keep(done.told());
    }

    /// Asks for a link where there is none, and no attempt runs.
    pub(crate) fn ask(&mut self)
        ensures { AsksLink W.did (is_idle self.old.end.link) self.old self.new }
    {
        if self.is_idle() {
            self.look();
            let now = self.now();
            let done = self.end.establish(now);
            self.carry_out(&done);
        }
    }

    /// Asks the other end whether it is there, where that is to be done.
    pub(crate) fn ask_end(&mut self)
        ensures { AsksEnd W.did (is_to_ask self.old) self.old self.new }
    {
        if self.is_to_ask() {
            self.look();
            let now = self.now();
            let done = self.end.poll(now);
            self.carry_out(&done);
            self.post.asked = true;
        }
    }

    /// Gives a message, where it is taken.
    pub(crate) fn give(&mut self, message: Octets) -> Result<(), WriteFailed>
        ensures { GivesWhere W.did message (is_ok result) self.old self.new }
    {
        if !self.end.takes() {
            return Err(WriteFailed);
        }
        self.look();
        let now = self.now();
        let done = self.end.give(message, now);
        self.carry_out(&done);
        Ok(())
    }

    /// Looks at the timer.
    pub(crate) fn elapse(&mut self)
        ensures { (shown : ℕ) × Serves W.did self.old (Elapsed shown) self.new }
    {
        self.look();
        let now = self.now();
        let done = self.end.elapse(now);
        self.carry_out(&done);
    }

    /// Waits for a frame up to an instant, or a slice of that. Answers whether one came.
    pub(crate) fn wait(&mut self, until: u128) -> bool
        ensures { Waits W.did until result self.old self.new }
    {
        let slice = self.slice(until);
        let mut room = [0u8; 512];
        let Some(count) = self.wire.receive(&mut room, slice) else {
            return false;
        };
        if self.passes_over(&room[..count]) {
            return true;
        }
        self.look();
        let now = self.now();
        let done = self.end.receive(&room[..count], now);
        self.carry_out(&done);
        true
    }
}
