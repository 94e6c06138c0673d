//! What was asked for under keys, and what was told of it.

ghost use Rattle.std.specs.Prelude.{◌≡◌, ◌⊎◌, ◌<◌, ◌++◌, ◌∷◌, [], length, IfOk, IfSome, IfNone, OnOk, OnErr};
ghost use Rattle.bx_office_world.specs.KnownKeys.{known_keys, key_at, KnowsKey, KnowsTags, IsFull};
ghost use Rattle.bx_office_world.specs.Keying.{LacksKey};
ghost use Rattle.bx_office_world.specs.Ledgers.{digits_of, tag_for, is_same_call, bookings_of, answers_by, terms_again, answers_again};
ghost use Rattle.bx_office_world.specs.KeysTaken.{KeepsKeys, IsKeptTold};

use crate::sold::offered_of;
use crate::tariff::Terms;
use bx_base::{Booking, Bookings};
use bx_day::{Entry, Exchange};
use bx_market::Answer;
use bx_sales::{NoSale, Tag};
use hex::encode_to_slice;
use sha2::{Digest, Sha256};
use std::alloc::{AllocError, Global};

/// The most bookings whose answers are kept under keys.
const MAX_TOLD: usize = 64_000;

/// What was told of a request under a key; or how many of its bookings an exchange before this one sold, as the journal tells.
#[derive(Drop)]
pub(crate) enum Told {
    Answers(Vec<Answer>),
    Sold(u16),
}

/// A request under a key: after how many rows of the plan its bookings stand, and what was told.
#[derive(Drop)]
pub(crate) struct Keyed {
    pub(crate) tag: Tag,
    pub(crate) rows: u16,
    pub(crate) told: Told,
}

/// All requests under keys, of which something was sold or told.
#[derive(Drop)]
pub struct Ledger {
    pub(crate) requests: Vec<Keyed>,
    pub(crate) told: usize,
}

/// The first 32 hexadecimal digits of the SHA-256 digest of a text.
fn digits_of(text: &[u8]) -> [u8; 32]
    ensures { result ≡ digits_of text.now }
{
    let mut hasher = Sha256::new();
    hasher.update(text);
    let digest = hasher.finalize();
    let mut digits = [0; 32];
    let _written = encode_to_slice(&digest[..16], &mut digits);
    digits
}

/// The key of a request and what it asks for, as the line of a sale has them.
pub(crate) fn tag_for(key: &[u8], body: &[u8]) -> Tag
    ensures { result ≡ tag_for key.now body.now }
{
    Tag {
        key: digits_of(key),
        body: digits_of(body),
    }
}

/// Whether two bookings ask for the same call at the same price.
fn is_same_call(one: &Booking, other: &Booking) -> bool
    ensures { result ≡ is_same_call one.now other.now }
{
    one.start() == other.start()
        && one.end() == other.end()
        && one.pay() == other.pay()
        && one.is_inward() == other.is_inward()
        && one.number().digits() == other.number().digits()
}

/// What is told again of bookings of which these were sold, in their order: of the others it is not known any more why they were not.
fn sold_again(alloc: Global, offered: &Bookings, sold: &[Entry]) -> Result<Vec<Answer>, AllocError>
    ensures { IfOk result (λ answers. answers.items ≡ answers_by offered.now (bookings_of sold.now)) }
{
    let mut answers = Vec::new(alloc);
    let mut place = 0;
    for index in 0..offered.len() {
        let booking = offered.nth(index);
        if place < sold.len() && is_same_call(&booking, &sold[place].booking) {
            answers.push(Answer::Accepted)?;
            place += 1;
        } else {
            answers.push(Answer::Refused(NoSale::Memory))?;
        }
    }
    Ok(answers)
}

/// How many of these are accepted.
fn accepted_in(answers: &[Answer]) -> u16 {
    let mut count = 0u16;
    for answer in answers {
        if let Answer::Accepted = answer {
            count = count.saturating_add(1);
        }
    }
    count
}

/// These answers, kept; where memory runs out, how many are accepted.
fn told_of(alloc: Global, answers: &[Answer]) -> Told
    ensures { IsKeptTold answers.now result }
{
    let mut kept = Vec::new(alloc);
    match kept.extend_from_slice(answers) {
        Ok(()) => Told::Answers(kept),
        Err(AllocError) => Told::Sold(accepted_in(answers)),
    }
}

impl Keyed {
    /// By which terms this request is told again: where no answers are kept, at which rate its bookings were sold is not known, and each that was is
    /// told.
    pub(crate) fn terms(&self, terms: Terms) -> Terms
        ensures { result ≡ terms_again terms self.now }
    {
        match &self.told {
            Told::Answers(_) => terms,
            Told::Sold(_) => Terms { rate: 0, ..terms },
        }
    }

    /// What is told again of this request, of whose bookings those were offered that these terms allow, on a day of these entries.
    pub(crate) fn answers(
        &self,
        alloc: Global,
        terms: Terms,
        wanted: &Bookings,
        entries: &[Entry],
    ) -> Result<Vec<Answer>, AllocError>
        ensures { IfOk result (λ answers. answers.items ≡ answers_again self.now terms wanted.now entries.now) }
    {
        match &self.told {
            Told::Answers(answers) => answers.clone(),
            Told::Sold(count) => {
                let offered = offered_of(alloc, terms, wanted)?;
                let first = entries.len().min(self.rows as usize);
                let end = entries.len().min(first + *count as usize);
                sold_again(alloc, &offered, &entries[first..end])
            }
        }
    }
}

impl Ledger {
    /// The requests under keys of the journal of this day, of each of whose sales it is told, in their order, under which key it was asked for.
    /// Where memory runs out nothing is known, and no key is put down.
    pub fn of(alloc: Global, exchange: &Exchange, tags: &[Option<Tag>]) -> Self
        ensures { KnowsTags (known_keys result) tags.now (length tags.now) ⊎ IsFull result.told }
    {
        // Read for the prover alone, which learns a limit from it.
        let _moment = exchange.moment();
        let morning = exchange.entries().len().saturating_sub(tags.len()) as u16;
        match Ledger::new(alloc, tags, morning) {
            Ok(ledger) => ledger,
            Err(AllocError) => Ledger {
                requests: Vec::new(alloc),
                told: usize::MAX,
            },
        }
    }

    /// The same, where the plan of the morning has so many rows. `AllocError` where memory runs out.
    fn new(alloc: Global, tags: &[Option<Tag>], morning: u16) -> Result<Self, AllocError>
        ensures { IfOk result (λ ledger. KnowsTags (known_keys ledger) tags.now (length tags.now)) }
    {
        let mut ledger = Ledger {
            requests: Vec::new(alloc),
            told: 0,
        };
        let mut rows = morning;
        for place in 0..tags.len() {
            if let Some(tag) = tags[place] {
                ledger.sell(tag, rows)?;
            }
            rows = rows.saturating_add(1);
        }
        Ok(ledger)
    }

    /// One more booking that was sold under a key, after so many rows of the plan.
    fn sell(&mut self, tag: Tag, rows: u16) -> Result<(), AllocError>
        ensures { OnOk result (KnowsKey (known_keys self.new) tag.key × KeepsKeys (known_keys self.old) (known_keys self.new)) }
    {
        if let Some(place) = self.place_of(&tag.key) {
            if let Told::Sold(count) = self.requests[place].told {
                self.requests[place].told = Told::Sold(count.saturating_add(1));
            }
            return Ok(());
        }
        self.requests.push(Keyed {
            tag,
            rows,
            told: Told::Sold(1),
        })?;
        Ok(())
    }

    /// The request under this key.
    pub(crate) fn place_of(&self, key: &[u8; 32]) -> Option<usize>
        ensures some { IfSome result (λ place. (place < length self.now.requests.items) × (key_at (known_keys self.now) place ≡ key.now)) }
        ensures none { IfNone result (LacksKey (known_keys self.now) key.now) }
    {
        for place in 0..self.requests.len() {
            if self.requests[place].tag.key == *key {
                return Some(place);
            }
        }
        None
    }

    /// Puts down a request of so many bookings under a key, after so many rows of the plan, before anything of it is sold. `AllocError` where
    /// memory runs out, or too much was told under keys; then nothing is put down.
    pub(crate) fn enter(&mut self, tag: Tag, rows: u16, count: u16) -> Result<(), AllocError>
        ensures full { OnOk result (¬ IsFull self.old.told) }
        ensures entered { OnOk result (known_keys self.new ≡ known_keys self.old ++ tag.key ∷ []) }
        ensures kept { OnErr result (self.new.requests.items ≡ self.old.requests.items) }
    {
        let told = self.told.saturating_add(count as usize);
        if told > MAX_TOLD {
            return Err(AllocError);
        }
        self.requests.push(Keyed {
            tag,
            rows,
            told: Told::Sold(0),
        })?;
        self.told = told;
        Ok(())
    }

    /// Puts down what was told of the last request.
    pub(crate) fn tell(&mut self, alloc: Global, answers: &[Answer])
        ensures { known_keys self.new ≡ known_keys self.old }
    {
        let count = self.requests.len();
        if count > 0 {
            self.requests[count - 1].told = told_of(alloc, answers);
        }
    }
}
