//! The seconds of a day: ticks, and seconds without a link.

ghost use Rattle.std.specs.Prelude.{◌≡◌, ◌≤◌, ◌<◌, ◌==◌, ◌||◌, ℕ, Some, true, length, is_some, slice_set, if◌then◌else◌};
ghost use Rattle.std.specs.List.{AllByRecursion};
ghost use Rattle.bx_day.specs.Ticks.{tick, passed_in, unlinked_after, SaysOnce};
ghost use Rattle.bx_day.specs.Day.{is_back};
ghost use Rattle.bx_day.specs.Outages.{without_link_by};
ghost use Rattle.bx_day.specs.Passing.{AreBlocked, MovesOne, MovesAll, MovesOn, SaysOnEach};
ghost use Rattle.bx_calls.specs.Sending.{in_order, spelled};
ghost use Rattle.bx_day.specs.Reading.{Seated};
ghost use Rattle.bx_day.specs.Slots.{slot_at};
ghost use Rattle.bx_day.specs.SlotSteps.{IsInside};

use crate::entry::{Entry, Link, Moved};
use crate::exchange::Exchange;
use crate::moving::second;
use crate::settling::{followers, settle};
use arrayvec::ArrayVec;
use bx_base::ChannelSet;
use bx_calls::spell;
use bx_channels::Channel;
use bx_events::{LAST_MOMENT, Rules};
use bx_q931::{Octets, Out};

impl Exchange {
    /// The next second: the moment rises by one, live calls follow their table, bookings that start are
    /// offered, and those whose end has come without a call are missed. Answers what is sent, at most one
    /// message for a channel, in rising order of channel. At moment 300,000 nothing happens.
    pub fn tick(&mut self) -> ArrayVec<Octets, 30>
        ensures day { self.new ≡ (tick self.old).day }
        ensures sent { result.items ≡ spelled (tick self.old).sent }
        ensures once { SaysOnce self.old }
    {
        if self.moment >= LAST_MOMENT {
            return ArrayVec::new();
        }
        if self.moment + 1 < self.due {
            self.moment += 1;
            return ArrayVec::new();
        }
        let said = self.pass(Link::Up);
        self.due = self.next_due();
        spell(&said)
    }

    /// The next second, in which there is no link to the far end, by these rules: the moment rises by one, no timer runs, nothing is
    /// offered and nothing is sent. A live booking whose end has come clears its call at the first tick with a link, and
    /// bookings whose end has come without a call are missed. At moment 300,000 nothing happens.
    pub fn second_without_link(&mut self, rules: Rules)
        ensures { self.new ≡ without_link_by rules self.old }
    {
        if self.moment < LAST_MOMENT {
            self.pass(Link::Down(rules));
        }
    }

    /// A second that may do something to some bookings. Answers what is said, by the number of its channel.
    fn pass(&mut self, link: Link) -> [Option<Out>; 32]
        requires { self.old.moment < LAST_MOMENT }
        ensures day { self.new ≡ (passed_in link self.old).day }
        ensures said { SaysOnEach link self.old result }
        ensures slots { length result ≡ 32 }
    {
        let blocked = self.blocked();
        let back = self.is_back();
        let second = followers(&self.following, &self.waiting);
        let said = move_on(
            &mut self.entries,
            &mut self.maintenance,
            &self.live,
            &self.waiting,
            &second,
            blocked,
            self.moment,
            back,
            link,
        );
        self.unlinked = unlinked_after(link, self.moment, self.unlinked);
        settle(
            &self.entries,
            &self.following,
            &mut self.live,
            &mut self.waiting,
        );
        self.moment += 1;
        self.due = 0;
        said
    }

    /// Whether there was no link in the last second.
    pub(crate) fn is_back(&self) -> bool
        ensures { result ≡ is_back self.now }
    {
        self.unlinked == self.moment + 1
    }

    /// The channels that are held by a live booking, or in maintenance.
    pub(crate) fn blocked(&self) -> ChannelSet
        ensures { AreBlocked self.now result }
    {
        let mut blocked = self.maintenance;
        for number in 1..32 {
            if let Some(channel) = Channel::new(number) {
                if self.live[number as usize].is_some() {
                    blocked = blocked.with(channel);
                }
            }
        }
        blocked
    }
}

/// One more than the moment that the last second without a link came to, after a second at this moment.
fn unlinked_after(link: Link, moment: u32, unlinked: u32) -> u32
    requires { moment < LAST_MOMENT }
    ensures { result ≡ unlinked_after link moment unlinked }
{
    match link {
        Link::Up => unlinked,
        Link::Down(_) => moment + 2,
    }
}

/// Puts what is said into the slot of its channel, and a channel that breaks into maintenance.
fn note(said: &mut [Option<Out>; 32], maintenance: &mut ChannelSet, channel: Channel, moved: &Moved)
    ensures said { said.new ≡ (if is_some moved.now.said then slice_set said.old channel moved.now.said else said.old) }
    ensures maintenance { maintenance.new ≡ (if moved.now.broken then slice_set maintenance.old channel true else maintenance.old) }
{
    if moved.said.is_some() {
        said[channel.number() as usize] = moved.said;
    }
    if moved.broken {
        *maintenance = maintenance.with(channel);
    }
}

/// Moves the booking of an index on from this moment.
fn move_one(
    entries: &mut [Entry],
    index: usize,
    said: &mut [Option<Out>; 32],
    maintenance: &mut ChannelSet,
    blocked: ChannelSet,
    moment: u32,
    back: bool,
    link: Link,
)
    requires inside { index < length entries.old }
    requires early { moment < LAST_MOMENT }
    requires seated { AllByRecursion Seated entries.old }
    ensures seated { AllByRecursion Seated entries.new }
    ensures size { length entries.new ≡ length entries.old }
    ensures moved { MovesOne link moment back blocked index entries.old maintenance.old said.old entries.new maintenance.new said.new }
{
    let entry = entries[index];
    if let Some(channel) = Channel::new(entry.channel) {
        let moved = second(
            &entry,
            channel,
            moment + 1,
            back,
            !blocked.has(channel),
            link,
        );
        entries[index].standing = moved.standing;
        note(said, maintenance, channel, &moved);
    }
}

/// Moves the bookings of slots on.
fn move_all(
    entries: &mut [Entry],
    slots: &[Option<u16>; 32],
    said: &mut [Option<Out>; 32],
    maintenance: &mut ChannelSet,
    blocked: ChannelSet,
    moment: u32,
    back: bool,
    link: Link,
)
    requires inside { (c : ℕ) → IsInside entries.old (slot_at slots.now c) }
    requires early { moment < LAST_MOMENT }
    requires seated { AllByRecursion Seated entries.old }
    ensures seated { AllByRecursion Seated entries.new }
    ensures size { length entries.new ≡ length entries.old }
    ensures moved { MovesAll link moment back blocked slots.now entries.old maintenance.old said.old entries.new maintenance.new said.new }
{
    for number in 0..32 {
        if let Some(index) = slots[number] {
            move_one(
                entries,
                index as usize,
                said,
                maintenance,
                blocked,
                moment,
                back,
                link,
            );
        }
    }
}

/// Moves the bookings on to which a second may do something: on each channel the live one, the first that waits, and
/// the second after that, which may start when the first ends. Puts channels that break into maintenance, and answers
/// what is said, by the number of its channel.
fn move_on(
    entries: &mut [Entry],
    maintenance: &mut ChannelSet,
    live: &[Option<u16>; 32],
    waiting: &[Option<u16>; 32],
    second: &[Option<u16>; 32],
    blocked: ChannelSet,
    moment: u32,
    back: bool,
    link: Link,
) -> [Option<Out>; 32]
    requires early { moment < LAST_MOMENT }
    requires seated { AllByRecursion Seated entries.old }
    requires live { (c : ℕ) → IsInside entries.old (slot_at live.now c) }
    requires waiting { (c : ℕ) → IsInside entries.old (slot_at waiting.now c) }
    requires second { (c : ℕ) → IsInside entries.old (slot_at second.now c) }
    ensures { MovesOn link moment back blocked live.now waiting.now second.now entries.old maintenance.old entries.new maintenance.new result }
{
    let mut said = [None; 32];
    move_all(
        entries,
        live,
        &mut said,
        maintenance,
        blocked,
        moment,
        back,
        link,
    );
    move_all(
        entries,
        waiting,
        &mut said,
        maintenance,
        blocked,
        moment,
        back,
        link,
    );
    move_all(
        entries,
        second,
        &mut said,
        maintenance,
        blocked,
        moment,
        back,
        link,
    );
    said
}
