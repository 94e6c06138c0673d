//! Who waits at the door is answered.

ghost use Rattle.std.specs.Prelude.{◌≡◌, ◌-◌, None, true, false, IfOk, IfErr};
ghost use Rattle.bx_office_world.specs.Counting.{begin_counted, is_without_link, IsOutageNoted};
ghost use Rattle.bx_office_door.specs.Doors.{guests_of};
ghost use Rattle.bx_office_world.specs.KnownKeys.{known_keys};
ghost use Rattle.bx_office_world.specs.Keying.{IsKeyPut};
ghost use Rattle.bx_office_world.specs.Offered.{terms_of};
ghost use Rattle.bx_office_world.specs.Ledgers.{tag_asked};
ghost use Rattle.bx_office_world.specs.KeysTaken.{IsKeyTaken, IsBatchKeyTaken};
ghost use Rattle.bx_office_world.specs.Serving.{reply_status_of, book_status, IsRefusing, IsServed, IsBatchIn, IsBadBatch, IsBatchRead, IsToldAgain, IsToldSold, IsPrepared};
ghost use Rattle.bx_office_world.specs.Lines.{line_by};
ghost use Rattle.bx_office_world.specs.Served.{is_long, IsServing};
ghost use Rattle.bx_office_world.specs.TurnsTaken.{IsBatchTaken, IsTurnTaken};
ghost use Rattle.bx_office_door.specs.Guests.{client_of};

use crate::changes::{Changing, next_cancel, next_change};
use crate::counting::{count_begin, is_without_link};
use crate::desk::{Opened, Written, answer_of};
use crate::fault::NoAnswer;
use crate::health::status_at;
use crate::ledger::{Keyed, Ledger, tag_for};
use crate::metrics::{Figures, metrics_text};
use crate::sold::{offered_of, sold_text};
use crate::tariff::Terms;
use crate::words::{Words, answer_words, book_words, line_by, plain};
use bx_base::Bookings;
use bx_book::{BookFault, read_bookings};
use bx_day::{Exchange, GivenUp};
use bx_day_chart::DaySight;
use bx_live::Begin;
use bx_market::{Answer, Batch, Request};
use bx_office::{Allowed, Kind, Reply, Route, Status};
use bx_office_door::{Customer, Door};
use bx_planner::NoQuote;
use bx_sales::Tag;
use std::alloc::Global;

/// The most requests that are answered at a time.
const MAX_ANSWERS: u32 = 16;

/// The most rows of a day whose best plan, or whose picture, takes a small part of a second.
const FEW_ROWS: usize = 4_000;

/// A batch that is being sold: whose it is, whether it is under a key, how many rows the plan has, and all that is wanted, also what is not
/// offered.
#[derive(Drop)]
pub struct Selling {
    customer: Customer,
    pub(crate) is_keyed: bool,
    rows: u16,
    wanted: Bookings,
}

/// Who waits to be told what becomes of what is asked for: of a batch, or of a change.
#[derive(Drop)]
pub enum Pending {
    Sale(Selling),
    Change(Changing),
}

/// The bookings of a request, and those of them that are offered.
#[derive(Drop)]
struct Order {
    wanted: Bookings,
    offered: Bookings,
}

/// What the office is at: what it was opened with, what was counted, where there was no link, and how bookings were given up.
#[derive(Drop)]
pub struct Desk<'a> {
    pub(crate) opened: &'a Opened,
    pub(crate) figures: Figures,
    pub(crate) sight: DaySight,
    pub(crate) given_up: Vec<Option<GivenUp>>,
}

/// A reply of this kind.
pub(crate) fn reply_of(status: Status, kind: Kind, body: &[u8]) -> Reply<'_>
    ensures { (result.status ≡ status) × (result.kind ≡ kind) × (result.allowed ≡ Allowed.Unsaid) × (result.body.now ≡ body.now) }
{
    Reply {
        status,
        kind,
        allowed: Allowed::Unsaid,
        body,
    }
}

/// How an answer that is none begins: a quote that there is not is one too.
fn status_of(why: NoAnswer) -> Status
    ensures { result ≡ reply_status_of why }
{
    match why {
        NoAnswer::Book(_) | NoAnswer::NoTimes | NoAnswer::NoLength => Status::BadRequest,
        NoAnswer::Quote(NoQuote::NoChannel(_) | NoQuote::TooMany) => Status::Fine,
        _ => Status::Unavailable,
    }
}

/// How the answer to bookings begins that have a fault.
pub(crate) fn book_status(fault: BookFault) -> Status
    ensures { result ≡ book_status fault }
{
    match fault {
        BookFault::Memory => Status::Unavailable,
        _ => Status::BadRequest,
    }
}

/// The batch of a text, at an office that was opened with this. Where it has a fault, or memory runs out, there is none.
fn batch_in(alloc: Global, opened: &Opened, text: &[u8]) -> Result<Order, BookFault>
    ensures batch { IfOk result (λ batch. IsBatchIn opened.now text.now batch.wanted batch.offered) }
    ensures fault { IfErr result (IsBadBatch opened.now text.now) }
{
    let wanted = read_bookings(alloc, text, &opened.day)?;
    match offered_of(alloc, opened.terms(), &wanted) {
        Ok(offered) => Ok(Order { wanted, offered }),
        Err(_) => Err(BookFault::Memory),
    }
}

/// Answers the client of this number by why there is no answer, in one line.
pub(crate) fn refuse(alloc: Global, door: &mut Door, number: u64, status: Status, words: Words)
    ensures { IsRefusing status (line_by words) number (guests_of door.old) (guests_of door.new) }
{
    match line_by(alloc, words) {
        Ok(line) => door.answer(number, reply_of(status, Kind::Text, &line)),
        Err(_) => door.answer(number, reply_of(status, Kind::Text, b"Memory\n")),
    }
}

/// The key of the request of this number, and what it asks for, where it has one.
fn tag_of_client(door: &Door, number: u64) -> Option<Tag>
    ensures { result ≡ tag_asked (client_of number (guests_of door.now)) }
{
    let client = door.client(number)?;
    let key = client.key()?;
    Some(tag_for(key.octets(), client.body()))
}

/// Whether an answer may cost a tenth of a second of the processor on a day of so many rows.
fn is_long(rows: usize, route: Route) -> bool
    ensures { result ≡ is_long rows route }
{
    match route {
        Route::Plan | Route::Quote | Route::Chart => rows > FEW_ROWS,
        _ => false,
    }
}

/// Puts down the key of a request of so many bookings, after so many rows of the plan, where it has one, and whether that is done.
fn is_entered(ledger: &mut Ledger, tag: Option<Tag>, rows: u16, count: u16) -> bool
    ensures done { result ≡ true → IsKeyPut (known_keys ledger.old) tag (known_keys ledger.new) }
    ensures kept { result ≡ false → ledger.new.requests.items ≡ ledger.old.requests.items }
{
    match tag {
        Some(tag) => ledger.enter(tag, rows, count).is_ok(),
        None => true,
    }
}

impl Desk<'_> {
    /// Notes how a second begins, after which the day has come to this moment.
    pub(crate) fn note(&mut self, moment: u32, begin: Begin)
        ensures figures { self.new.figures ≡ begin_counted begin self.old.figures }
        ensures outages { IsOutageNoted (is_without_link begin) (moment - 1) self.old.sight.outages.spans.items self.new.sight.outages.spans.items }
        ensures opened { self.new.opened ≡ self.old.opened }
        ensures given_up { self.new.given_up ≡ self.old.given_up }
    {
        count_begin(&mut self.figures, begin);
        if is_without_link(begin) {
            // Where memory runs out the picture lacks this second.
            let _ = self.sight.outages.note(moment.saturating_sub(1));
        }
    }

    /// Answers a request that asks for nothing to be sold.
    fn tell(&self, alloc: Global, door: &mut Door, exchange: &Exchange, number: u64, route: Route)
        ensures { IsServed self.now exchange.now number route (guests_of door.old) (guests_of door.new) }
    {
        let Some(client) = door.client(number) else {
            return;
        };
        let status = status_at(self.opened, exchange, &self.figures, route);
        match answer_of(
            alloc,
            self.opened,
            exchange,
            &self.given_up,
            &self.figures,
            &self.sight,
            route,
            client.query(),
        ) {
            Ok(Written { kind, text }) => door.answer(number, reply_of(status, kind, &text)),
            Err(why) => refuse(alloc, door, number, status_of(why), answer_words(why)),
        }
    }

    /// The batch of a request. Where it has a fault, that is answered, and nothing is sold.
    fn batch(&self, alloc: Global, door: &mut Door, number: u64) -> Option<Order>
        ensures { IsBatchRead self.now number (guests_of door.old) (guests_of door.new) result }
    {
        let client = door.client(number)?;
        match batch_in(alloc, self.opened, client.body()) {
            Ok(batch) => Some(batch),
            Err(fault) => {
                refuse(alloc, door, number, book_status(fault), book_words(fault));
                None
            }
        }
    }

    /// Tells again what was told of a request under this key, where it asked for the same; else that the key is another's.
    fn tell_again(
        &self,
        alloc: Global,
        door: &mut Door,
        exchange: &Exchange,
        number: u64,
        tag: Tag,
        batch: &Order,
        request: &Keyed,
    )
        ensures { IsToldAgain (terms_of self.now.opened.now) exchange.now tag batch.now request.now number (guests_of door.old) (guests_of door.new) }
    {
        if request.tag.body != tag.body {
            let words = plain(b"under this key other bookings were asked for");
            refuse(alloc, door, number, Status::Unprocessable, words);
            return;
        }
        let terms = request.terms(self.opened.terms());
        match request.answers(alloc, terms, &batch.wanted, exchange.entries()) {
            Ok(answers) => tell_batch(
                alloc,
                door,
                terms,
                number,
                request.rows,
                &batch.wanted,
                &answers,
            ),
            Err(_) => refuse(alloc, door, number, Status::Unavailable, plain(b"Memory")),
        }
    }

    /// What is to be sold of the batch of a request: where its body has no fault, nothing was asked for under its key before, its customer is
    /// still there, and its key is put down. Whether the customer is there is looked at last, so that nothing is sold to who has hung up
    /// meanwhile. What was asked for under its key before is told again, and nothing more is sold.
    fn next_batch(
        &self,
        alloc: Global,
        door: &mut Door,
        ledger: &mut Ledger,
        exchange: &Exchange,
        number: u64,
    ) -> Option<(Selling, Batch)>
        ensures taken { IsBatchTaken self.now ledger.old.requests.items exchange.now number (guests_of door.old) (guests_of door.new) result }
        ensures keys { IsBatchKeyTaken (known_keys ledger.old) result (known_keys ledger.new) }
        ensures still { result ≡ None → ledger.new.requests.items ≡ ledger.old.requests.items }
    {
        let tag = tag_of_client(door, number);
        let batch = self.batch(alloc, door, number)?;
        if let Some(tag) = tag {
            if let Some(place) = ledger.place_of(&tag.key) {
                let request = &ledger.requests[place];
                self.tell_again(alloc, door, exchange, number, tag, &batch, request);
                return None;
            }
        }
        let customer = door.customer(number)?;
        // Read for the prover alone, which learns a limit from it.
        let _moment = exchange.moment();
        let rows = exchange.entries().len() as u16;
        let Order { wanted, offered } = batch;
        if !is_entered(ledger, tag, rows, offered.len()) {
            refuse(alloc, door, number, Status::Unavailable, plain(b"Memory"));
            return None;
        }
        let selling = Selling {
            customer,
            is_keyed: tag.is_some(),
            rows,
            wanted,
        };
        let bookings = offered;
        Some((selling, Batch { tag, bookings }))
    }

    /// Answers the client of this number, whose request goes there, or takes what it asks for.
    fn next(
        &self,
        alloc: Global,
        door: &mut Door,
        ledger: &mut Ledger,
        exchange: &Exchange,
        number: u64,
        route: Route,
    ) -> Option<(Pending, Request)>
        ensures turn { IsTurnTaken self.now ledger.old.requests.items exchange.now number route (guests_of door.old) (guests_of door.new) result }
        ensures keys { IsKeyTaken (known_keys ledger.old) result (known_keys ledger.new) }
        ensures still { result ≡ None → ledger.new.requests.items ≡ ledger.old.requests.items }
    {
        match route {
            Route::Bookings => {
                let (selling, batch) = self.next_batch(alloc, door, ledger, exchange, number)?;
                Some((Pending::Sale(selling), Request::Sell(batch)))
            }
            Route::Cancel(row) => {
                let changing = next_cancel(door, number, row)?;
                Some((Pending::Change(changing), Request::Cancel(row)))
            }
            Route::Change(row) => {
                let (changing, booking) = next_change(alloc, self, door, number, row)?;
                Some((Pending::Change(changing), Request::Change(row, booking)))
            }
            _ => {
                self.tell(alloc, door, exchange, number, route);
                None
            }
        }
    }

    /// Keeps the figures of the day as it stands for who asks before it begins.
    pub(crate) fn prepare(&self, alloc: Global, door: &mut Door, exchange: &Exchange)
        ensures { IsPrepared self.now exchange.now door.old door.new }
    {
        if !door.is_early() {
            return;
        }
        match metrics_text(alloc, exchange, &self.figures) {
            Ok(text) => door.keep_figures(Some(text)),
            Err(_) => door.keep_figures(None),
        }
    }

    /// Answers who waits, each in its turn, up to the first that asks for a sale or a change, or up to so many: whose it is, and what is wanted.
    /// Who has hung up by then is sent away, and nothing is sold or changed for it. On a day of more than 4,000 rows an answer that takes
    /// long (`is_long`) is the last: nothing
    /// is wanted then, so that the market does not ask again before the next second, which several of them would make late.
    pub(crate) fn serve(
        &self,
        alloc: Global,
        door: &mut Door,
        ledger: &mut Ledger,
        exchange: &Exchange,
    ) -> Option<(Pending, Request)>
        ensures served { IsServing self.now ledger.old.requests.items exchange.now (guests_of door.old) (guests_of door.new) result }
        ensures keys { IsKeyTaken (known_keys ledger.old) result (known_keys ledger.new) }
    {
        let rows = exchange.entries().len();
        for _answer in 0..MAX_ANSWERS {
            let (number, route) = door.asked()?;
            if let Some(next) = self.next(alloc, door, ledger, exchange, number, route) {
                return Some(next);
            }
            if is_long(rows, route) {
                return None;
            }
        }
        None
    }
}

/// Tells the customer of a batch what is sold of it by these terms.
pub(crate) fn tell_sold(
    alloc: Global,
    door: &mut Door,
    terms: Terms,
    selling: &Selling,
    answers: &[Answer],
)
    ensures { IsToldSold terms selling.now.rows selling.now.wanted answers.now selling.now.customer.number (guests_of door.old) (guests_of door.new) }
{
    let number = selling.customer.number();
    tell_batch(
        alloc,
        door,
        terms,
        number,
        selling.rows,
        &selling.wanted,
        answers,
    );
}

/// Tells the client of this number what was told of a batch: of these bookings, after so many rows of the plan.
fn tell_batch(
    alloc: Global,
    door: &mut Door,
    terms: Terms,
    number: u64,
    rows: u16,
    wanted: &Bookings,
    answers: &[Answer],
)
    ensures { IsToldSold terms rows wanted.now answers.now number (guests_of door.old) (guests_of door.new) }
{
    match sold_text(alloc, terms, rows, wanted, answers) {
        Ok(text) => door.answer(number, reply_of(Status::Fine, Kind::Csv, &text)),
        Err(_) => door.answer(
            number,
            reply_of(
                Status::Unavailable,
                Kind::Text,
                b"Memory: what is sold stands in the plan\n",
            ),
        ),
    }
}
