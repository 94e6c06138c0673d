//! What a link has told, and the day has not heard.

ghost use Rattle.std.specs.Prelude.{◌≡◌, nat_lt, length};
ghost use Rattle.bx_frames.specs.declared.turn.TheConstants.{MAX_MESSAGES};
ghost use Rattle.bx_lapd.specs.declared.indication.Indication.TheVariants.{Delivered};
ghost use Rattle.bx_line_world.specs.Posts.{no_post, post_from, is_full, told_to, put, reset, not_asked, begun_by, dropped_by};
ghost use Rattle.bx_line_world.specs.Serving.{has_news};
ghost use Rattle.bx_line_world.specs.Steps.{TakesFirst};

use arrayvec::ArrayVec;
use bx_frames::{LinkFault, MAX_MESSAGES};
use bx_lapd::{ErrorCode, Indication};
use bx_live::{Begin, Loss};
use bx_q931::{Octets, copied, restarts_interface};

/// The most messages that wait: those of a turn.
const MAX_WAITING: usize = MAX_MESSAGES as usize;

/// The messages that were delivered and not read, at most `MAX_MESSAGES`; whether some may be lost, and why; whether the day has this
/// link; and whether the other end was asked over it, in this second of the clock, if it is there.
#[derive(Drop)]
pub struct Post {
    pub messages: ArrayVec<Octets, MAX_WAITING>,
    pub lost: Option<LinkFault>,
    pub here: bool,
    pub asked: bool,
}

impl Post {
    /// Nothing.
    pub(crate) fn new() -> Post
        ensures { result ≡ no_post }
    {
        Post {
            messages: ArrayVec::new(),
            lost: None,
            here: false,
            asked: false,
        }
    }

    /// What a day finds that goes on from a moment: behind a start what was said last may be lost.
    pub(crate) fn from_moment(moment: u32) -> Post
        ensures { result ≡ post_from moment }
    {
        let mut post = Post::new();
        if moment > 0 {
            post.lost = Some(LinkFault::LinkReset);
        }
        post
    }

    /// What was under way may be lost. What was delivered before was acknowledged, and stays.
    fn lose(&mut self)
        ensures { self.new ≡ reset self.old.here self.old }
    {
        if self.here {
            self.lost = Some(LinkFault::LinkReset);
        }
    }

    /// The same, and the other end has to be asked again.
    fn reset(&mut self)
        ensures { self.new ≡ not_asked (reset self.old.here self.old) }
    {
        self.asked = false;
        self.lose();
    }

    /// One more message, where there is room.
    fn put(&mut self, message: Octets)
        ensures { self.new ≡ put (nat_lt (length self.old.messages.items) MAX_MESSAGES) self.old message }
    {
        if self.messages.len() < MAX_WAITING {
            self.messages.push(message);
        } else {
            self.lost = Some(LinkFault::MoreThan64Messages);
        }
    }

    /// A message was delivered. Where the other end restarts a whole interface by it, it has no call any more (ITU-T Q.931, 5.5.1): the day is
    /// told as of a reset, so that it asks for each call, and clears none that is still up at both ends.
    fn deliver(&mut self, message: Octets)
        ensures { self.new ≡ told_to self.old (Delivered message) }
    {
        let restarts = restarts_interface(&message);
        self.put(message);
        if restarts {
            self.lose();
        }
    }

    /// The link has told this. Where the other end has established it anew, the day is told as of a reset, also where nothing of ours was on
    /// its way: that end may have been started again, and know of no call.
    pub(crate) fn hear(&mut self, told: &Indication)
        ensures { self.new ≡ told_to self.old told.now }
    {
        match told {
            Indication::Delivered(message) => self.deliver(copied(message)),
            Indication::LinkEstablished => self.reset(),
            Indication::LinkReleased => self.reset(),
            Indication::LinkError(ErrorCode::PeerEstablishes) => self.reset(),
            Indication::LinkError(ErrorCode::UnaskedFinal | ErrorCode::UaFinal | ErrorCode::Ua) =>
                {}
            Indication::LinkError(_) => self.asked = false,
        }
    }

    /// Whether a message is there, or one was lost.
    pub(crate) fn has_news(&self) -> bool
        ensures { result ≡ has_news self.now }
    {
        self.lost.is_some() || !self.messages.is_empty()
    }

    /// A second has begun.
    pub(crate) fn begin(&mut self, begin: Begin)
        ensures { self.new ≡ begun_by self.old begin }
    {
        match begin {
            Begin::Late | Begin::Ended => {}
            Begin::Alone => {
                self.here = false;
                self.lost = None;
            }
            Begin::Joined => {
                self.here = true;
                self.lost = None;
            }
        }
    }

    /// The day has dropped the link. After a fault the next second is one without a link, also where it is up again by then: what was under
    /// way is lost, and the day is to ask.
    pub(crate) fn drop_link(&mut self, loss: Loss)
        ensures { self.new ≡ dropped_by self.old loss }
    {
        match loss {
            Loss::Late => {}
            Loss::Fault(fault) => {
                self.here = false;
                self.lost = Some(fault);
            }
        }
    }

    /// The first message, which is taken where it has at most so many octets.
    pub(crate) fn take_first(&mut self, left: u32) -> Option<Octets>
        ensures { TakesFirst left self.old result self.new }
    {
        if self.messages.is_empty() {
            return None;
        }
        if self.messages[0].len() > left as usize {
            return None;
        }
        Some(self.messages.remove(0))
    }

    /// Whether one more message may be put.
    pub(crate) fn is_full(&self) -> bool
        ensures { result ≡ is_full self.now }
    {
        self.messages.len() >= MAX_WAITING
    }
}
