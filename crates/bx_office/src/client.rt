//! A client's connection: octets that came, one request at a time, and octets to be sent.

ghost use Rattle.std.specs.Prelude.{◌≡◌, ◌≤◌, true, length};
ghost use Rattle.bx_office.specs.Sides.{keeps_side};
ghost use Rattle.bx_office.specs.declared.client.TheConstants.{MAX_UNREAD, MAX_BODY};

use crate::gate::{Place, Refusal, Route, Side};
use crate::heads::{gated, is_head, key_in};
use crate::keys::Key;
use crate::refusals::{faulting, giving_up, refusing};
use crate::reply::{Reply, Sending, Status, date_at, write_reply};
use crate::targets::query_in;
use bytes::BytesMut;
use http1::{BodySize, Event, Limits, Server};
use httparse::spans::{EMPTY_HEADER_SPAN, HeaderSpan, RequestSpans, Span};
use httpdate::HttpDate;
use std::alloc::Global;

/// The most octets that came and are not read: a head is no longer.
const MAX_UNREAD: usize = 16_384;

/// The most octets that a body has.
const MAX_BODY: usize = 4_194_304;

/// The most fields that a head has.
const MAX_FIELDS: usize = 64;

/// What a client is at.
#[derive(Clone, Copy, Debug, PartialEq, Eq)]
pub enum Stage {
    /// A head is due.
    Head,
    /// The body of a request that is let through is due.
    Body(Route),
    /// The end of a request that is refused is due, which has no body.
    Refused(Refusal),
    /// A whole request waits for its answer.
    Asked(Route),
    /// Nothing more is read: what is left is sent.
    Last,
}

/// A client's connection, with no socket of its own. It holds one request at most, and reads nothing while an answer is being sent.
#[derive(Drop)]
pub struct Client {
    pub(crate) alloc: Global,
    pub(crate) place: Place,
    pub(crate) server: Server,
    pub(crate) stage: Stage,
    pub(crate) unread: BytesMut,
    pub(crate) has_ended: bool,
    /// What the clock shows, as its answers say.
    pub(crate) date: HttpDate,
    pub(crate) is_head: bool,
    pub(crate) query: BytesMut,
    pub(crate) key: Option<Key>,
    pub(crate) body: BytesMut,
    /// How many octets are kept for the body, from when it is let through until it is answered.
    pub(crate) kept: usize,
    pub(crate) out: BytesMut,
    ghost served: { keeps_side place.side stage ≡ true },
    ghost unread_limit: { length unread.items ≤ MAX_UNREAD },
    ghost body_limit: { length body.items ≤ kept },
    ghost kept_limit: { kept ≤ MAX_BODY },
}

impl Client {
    ghost use Rattle.std.specs.Prelude.{◌⊎◌, ◌++◌, ◌/◌, [], max, min, drop, false, IsTrue, IfSome, IfOk};
    ghost use Rattle.bx_office.specs.Gate.{is_shown_to};
    ghost use Rattle.httpdate.specs.Date.{unix_secs};
    ghost use Rattle.bx_office.specs.Targets.{query_in};
    ghost use Rattle.httparse.specs.Spans.{IsRequestWithin};
    ghost use Rattle.bx_office.specs.Inside.{IsUndue, HasAsked, HasWaited, IsBodyBegun, HasKept, IsBodyDue, IsHeadTaken};
    ghost use Rattle.bx_office.specs.Clients.{IsDueAfter, IsLeft, IsReplySaid, AreOctetsTaken, IsAfterAnswer, is_over, is_between, is_reading, room_to_read};

    /// A client that has sent nothing yet. Takes no memory.
    pub fn new(alloc: Global, place: Place) -> Client
        ensures place { result.place ≡ place }
        ensures stage { result.stage ≡ Stage.Head }
        ensures unread { result.unread.items ≡ [] }
        ensures server { result.server.limits.max_head_len ≡ MAX_UNREAD }
        ensures kept { result.kept ≡ 0 }
    {
        Client {
            alloc,
            place,
            server: Server::new(Limits::default()),
            stage: Stage::Head,
            unread: BytesMut::new(alloc),
            has_ended: false,
            date: date_at(0),
            is_head: false,
            query: BytesMut::new(alloc),
            key: None,
            body: BytesMut::new(alloc),
            kept: 0,
            out: BytesMut::new(alloc),
        }
    }

    /// The clock shows so many nanoseconds since 1970 now, which is what answers from now on have as their date.
    pub fn set_clock(&mut self, shown: u128)
        ensures date { unix_secs self.new.date ≡ min (shown / 1_000_000_000) 253_402_300_799 }
        ensures rest { self.new ≡ record self.old { date = self.new.date } }
    {
        self.date = date_at(shown);
    }

    /// Whether no octet of a request has come.
    pub fn is_between(&self) -> bool
        ensures { result ≡ is_between self.now }
    {
        matches!(self.stage, Stage::Head) && self.unread.is_empty()
    }

    /// How many octets are kept for its body.
    pub fn kept(&self) -> usize
        ensures value { result ≡ self.now.kept }
        ensures bound { result ≤ MAX_BODY }
    {
        self.kept
    }

    /// What it is at.
    pub fn stage(&self) -> Stage
        ensures value { result ≡ self.now.stage }
        ensures served { keeps_side self.now.place.side result ≡ true }
    {
        self.stage
    }

    /// For whom the door is at which it came in.
    pub fn side(&self) -> Side
        ensures { result ≡ self.now.place.side }
    {
        self.place.side
    }

    /// Whether it has nothing more to do.
    pub fn is_over(&self) -> bool
        ensures { result ≡ is_over self.now }
    {
        matches!(self.stage, Stage::Last) && self.out.is_empty()
    }

    /// Whether octets are read now.
    fn is_reading(&self) -> bool
        ensures { result ≡ is_reading self.now }
    {
        self.out.is_empty() && !matches!(self.stage, Stage::Asked(_) | Stage::Last)
    }

    /// How many octets it takes now.
    pub fn room(&self) -> usize
        ensures { result ≡ room_to_read self.now }
    {
        if self.has_ended || !self.is_reading() {
            return 0;
        }
        MAX_UNREAD.saturating_sub(self.unread.len())
    }

    /// Takes octets that came, no more than there is room for. Where memory runs out the client is given up.
    pub fn take(&mut self, octets: &[u8])
        requires { length octets.now ≤ room_to_read self.old }
        ensures taken { IsLeft self.new ⊎ AreOctetsTaken octets.now self.old self.new }
        ensures marks { (self.new.is_head ≡ self.old.is_head) × (self.new.has_ended ≡ self.old.has_ended) }
        ensures kept { self.new.kept ≤ self.old.kept }
    {
        if self.unread.extend_from_slice(octets).is_err() {
            self.leave();
        }
    }

    /// Nothing more comes.
    pub fn end(&mut self)
        ensures { self.new ≡ record self.old { has_ended = true } }
    {
        self.has_ended = true;
    }

    /// The query of the request.
    pub fn query(&self) -> &[u8]
        ensures { result.now ≡ self.now.query.items }
    {
        self.query.as_slice()
    }

    /// The key of the request, where it has one.
    pub fn key(&self) -> Option<Key>
        ensures { result ≡ self.now.key }
    {
        self.key
    }

    /// The body of the request.
    pub fn body(&self) -> &[u8]
        ensures { result.now ≡ self.now.body.items }
    {
        self.body.as_slice()
    }

    /// The octets that are to be sent.
    pub fn pending(&self) -> &[u8]
        ensures { result.now ≡ self.now.out.items }
    {
        self.out.as_slice()
    }

    /// So many of them were sent.
    pub fn sent(&mut self, count: usize)
        requires { count ≤ length self.old.out.items }
        ensures out { self.new.out.items ≡ drop count self.old.out.items }
        ensures rest { self.new ≡ record self.old { out = self.new.out } }
    {
        self.out.advance(count);
    }

    /// Nothing more is done for the client.
    pub fn leave(&mut self)
        ensures left { IsLeft self.new }
        ensures place { self.new.place ≡ self.old.place }
        ensures marks { (self.new.is_head ≡ self.old.is_head) × (self.new.has_ended ≡ self.old.has_ended) }
        ensures kept { self.new.kept ≡ 0 }
    {
        self.out.clear();
        self.body = BytesMut::new(self.alloc);
        self.kept = 0;
        self.stage = Stage::Last;
    }

    /// Reads one thing of what came: a head, a piece of a body, its end. Answers whether there may be more. What is no request of HTTP/1.1
    /// within the limits, and what the gate does not let through, is answered here; so is a body for which more octets would have to be kept
    /// than are free.
    pub fn step(&mut self, free: usize) -> bool
        ensures due { IsDueAfter self.old self.new self.new.stage }
        ensures place { self.new.place ≡ self.old.place }
        ensures kept { self.new.kept ≤ max self.old.kept free }
    {
        if !self.is_reading() {
            return false;
        }
        let mut spans = [EMPTY_HEADER_SPAN; MAX_FIELDS];
        let read = match self.server.read(self.unread.as_slice(), &mut spans) {
            Ok(read) => read,
            Err(fault) => {
                let told = faulting(fault, self.unread.as_slice());
                self.send(told, true);
                return false;
            }
        };
        match read.event {
            Event::Head(head) => self.begin(&head, &spans, free),
            Event::Data(piece) => self.keep(piece),
            Event::End(_) => self.finish(read.consumed),
            Event::NeedMore => {
                self.wait(read.consumed);
                return false;
            }
            _ => self.leave(),
        }
        true
    }

    /// Takes a head, with what the gate answers to it. None where memory ran out.
    fn take_head(
        &mut self,
        head: &RequestSpans,
        spans: &[HeaderSpan],
    ) -> Option<Result<Route, Refusal>>
        requires within { IsRequestWithin self.old.unread.items spans.now head.now }
        requires len { head.now.len ≤ length self.old.unread.items }
        ensures taken { IfSome result (IsHeadTaken spans.now head.now self.old self.new) }
        ensures side { IfSome result (λ verdict. IfOk verdict (λ route. is_shown_to self.old.place.side route ≡ true)) }
        ensures unread { self.new.unread.items ≡ drop head.now.len self.old.unread.items }
        ensures server { self.new.server ≡ self.old.server }
        ensures place { self.new.place ≡ self.old.place }
        ensures kept { self.new.kept ≡ self.old.kept }
    {
        self.query.clear();
        let input = self.unread.as_slice();
        let verdict = gated(self.place, input, head, spans);
        let query = query_in(head.path.of(input));
        self.is_head = is_head(head.method.of(input));
        self.key = key_in(input, head, spans);
        let is_kept = self.query.extend_from_slice(query).is_ok();
        self.unread.advance(head.len);
        if is_kept { Some(verdict) } else { None }
    }

    /// A head was read.
    fn begin(&mut self, head: &RequestSpans, spans: &[HeaderSpan], free: usize)
        requires within { IsRequestWithin self.old.unread.items spans.now head.now }
        requires len { head.now.len ≤ length self.old.unread.items }
        ensures stage { IsUndue self.new.stage ⊎ IsBodyBegun spans.now head.now self.old self.new }
        ensures place { self.new.place ≡ self.old.place }
        ensures kept { self.new.kept ≤ max self.old.kept free }
    {
        let Some(verdict) = self.take_head(head, spans) else {
            return self.leave();
        };
        if self.server.has_codings() {
            return self.send(
                giving_up(Status::NotImplemented, "a coding of the body\n"),
                true,
            );
        }
        match verdict {
            Ok(route) => self.admit(route, free),
            Err(refusal) => self.refuse(refusal),
        }
    }

    /// The request is refused. Where it has a body, that is not read, and nothing after it.
    fn refuse(&mut self, refusal: Refusal)
        ensures stage { IsUndue self.new.stage }
        ensures place { self.new.place ≡ self.old.place }
        ensures kept { self.new.kept ≤ self.old.kept }
    {
        match self.server.unread_size() {
            BodySize::Known(0) => self.stage = Stage::Refused(refusal),
            _ => self.send(refusing(refusal), true),
        }
    }

    /// How many octets are to be kept for the body that is due: its length, or as many as a body may have where that is not said. None where it
    /// is too long.
    fn wanted(&self) -> Option<usize>
        ensures { IfSome result (λ count. count ≤ MAX_BODY) }
    {
        match self.server.unread_size() {
            BodySize::Known(len) if len > MAX_BODY as u64 => None,
            BodySize::Known(len) => Some(len as usize),
            _ => Some(MAX_BODY),
        }
    }

    /// Says that the body is wanted, where the client waits for that. Answers whether memory was had.
    fn ask_for_body(&mut self) -> bool
        ensures rest { self.new ≡ record self.old { server = self.new.server; out = self.new.out } }
        ensures reading { self.new.server.reading ≡ self.old.server.reading }
    {
        !self.server.expects_continue()
            || self
                .server
                .write_informational(&mut self.out, 100, b"Continue", &[])
                .is_ok()
    }

    /// The request is let through: its body is due, where it is not too long, and no longer than is free.
    fn admit(&mut self, route: Route, free: usize)
        requires { is_shown_to self.old.place.side route ≡ true }
        ensures stage { IsUndue self.new.stage ⊎ IsBodyDue route self.old self.new }
        ensures place { self.new.place ≡ self.old.place }
        ensures kept { self.new.kept ≤ max self.old.kept free }
    {
        let Some(wanted) = self.wanted() else {
            return self.send(
                giving_up(Status::ContentTooLarge, "more than 4194304 octets\n"),
                true,
            );
        };
        if wanted > free {
            return self.send(
                giving_up(Status::Unavailable, "too many bodies at once\n"),
                true,
            );
        }
        if !self.ask_for_body() {
            return self.leave();
        }
        self.body.clear();
        self.kept = wanted;
        self.stage = Stage::Body(route);
    }

    /// A piece of a body was read.
    fn keep(&mut self, piece: Span)
        requires { (piece.start ≤ piece.end) × (piece.end ≤ length self.old.unread.items) }
        ensures stage { IsUndue self.new.stage ⊎ HasKept piece self.old self.new }
        ensures place { self.new.place ≡ self.old.place }
        ensures kept { self.new.kept ≤ self.old.kept }
    {
        let count = piece.end - piece.start;
        if count > self.kept.saturating_sub(self.body.len()) {
            return self.send(
                giving_up(Status::ContentTooLarge, "more than 4194304 octets\n"),
                true,
            );
        }
        let octets = piece.of(self.unread.as_slice());
        let is_kept = self.body.extend_from_slice(octets).is_ok();
        self.unread.advance(piece.end);
        if !is_kept {
            self.leave();
        }
    }

    /// The end of a body was read: the request waits for its answer, or is refused.
    fn finish(&mut self, consumed: usize)
        requires { consumed ≤ length self.old.unread.items }
        ensures stage { IsUndue self.new.stage ⊎ HasAsked consumed self.old self.new }
        ensures place { self.new.place ≡ self.old.place }
        ensures kept { self.new.kept ≤ self.old.kept }
    {
        self.unread.advance(consumed);
        match self.stage {
            Stage::Body(route) => self.stage = Stage::Asked(route),
            Stage::Refused(refusal) => self.send(refusing(refusal), false),
            _ => self.leave(),
        }
    }

    /// More octets are wanted. Where none come, or there is no room for them, the client is given up.
    fn wait(&mut self, consumed: usize)
        requires { consumed ≤ length self.old.unread.items }
        ensures stage { IsLeft self.new ⊎ HasWaited consumed self.old self.new }
        ensures place { self.new.place ≡ self.old.place }
        ensures kept { self.new.kept ≤ self.old.kept }
    {
        self.unread.advance(consumed);
        if self.has_ended || self.unread.len() >= MAX_UNREAD {
            self.leave();
        }
    }

    /// Answers the request that waits.
    pub fn answer(&mut self, reply: Reply<'_>)
        ensures said { IsReplySaid reply.entry false self.old self.new }
        ensures next { IsAfterAnswer self.new.stage }
        ensures place { self.new.place ≡ self.old.place }
        ensures ended { self.new.has_ended ≡ self.old.has_ended }
        ensures kept { self.new.kept ≡ 0 }
    {
        self.send(reply, false);
    }

    /// Answers, and reads nothing more. Where no request was read there is no answer.
    pub fn dismiss(&mut self, reply: Reply<'_>)
        ensures said { IsReplySaid reply.entry true self.old self.new }
        ensures last { self.new.stage ≡ Stage.Last }
        ensures place { self.new.place ≡ self.old.place }
        ensures ended { self.new.has_ended ≡ self.old.has_ended }
        ensures kept { self.new.kept ≡ 0 }
    {
        self.send(reply, true);
    }

    /// Writes an answer. After the last one nothing is read.
    fn send(&mut self, reply: Reply<'_>, is_last: bool)
        ensures said { IsReplySaid reply.entry is_last self.old self.new }
        ensures next { IsAfterAnswer self.new.stage }
        ensures last { IsTrue is_last → self.new.stage ≡ Stage.Last }
        ensures place { self.new.place ≡ self.old.place }
        ensures ended { self.new.has_ended ≡ self.old.has_ended }
        ensures kept { self.new.kept ≡ 0 }
    {
        let how = Sending {
            date: self.date,
            is_head: self.is_head,
            is_last,
        };
        if write_reply(&mut self.server, &mut self.out, reply, how).is_err() {
            return self.leave();
        }
        self.query.clear();
        self.key = None;
        self.body = BytesMut::new(self.alloc);
        self.kept = 0;
        self.is_head = false;
        self.stage = if is_last || self.server.is_closed() {
            Stage::Last
        } else {
            Stage::Head
        };
    }
}
