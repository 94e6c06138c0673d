//! How the day goes, and whether a call could be carried now.

ghost use Rattle.std.specs.Prelude.{◌≡◌, IfOk, IfErr};
ghost use Rattle.bx_office_world.specs.Health.{was_joined, pace_words, health_link, health_text, is_served, served, ready_now, ready_words};
ghost use Rattle.bx_office_world.specs.Statuses.{was_late, health_status, ready_status, status_at};

use crate::desk::Opened;
use crate::fault::NoAnswer;
use crate::maintenance::maintained;
use crate::metrics::{Figures, push, push_family};
use bx_base::ChannelSet;
use bx_channels::Channel;
use bx_day::Exchange;
use bx_live::Begin;
use bx_office::{Route, Status};
use std::alloc::{AllocError, Global};

/// Whether a call could be carried now, or the first reason why not.
#[derive(Clone, Copy, Debug, PartialEq, Eq)]
pub enum Readiness {
    Ready,
    /// No second has begun yet.
    NotBegun,
    /// The last second to which the day is run has begun.
    Over,
    /// The last second began without a link.
    NoLink,
    /// No channel is in service that is not in maintenance.
    NoChannel,
}

/// Whether the last second began late.
fn was_late(begun: Option<Begin>) -> bool
    ensures { result ≡ was_late begun }
{
    match begun {
        Some(Begin::Late) => true,
        _ => false,
    }
}

/// Whether the last second began with a link.
fn was_joined(begun: Option<Begin>) -> bool
    ensures { result ≡ was_joined begun }
{
    match begun {
        Some(Begin::Joined) => true,
        _ => false,
    }
}

/// Whether the day goes on in time.
fn pace_words(begun: Option<Begin>) -> &'static str
    ensures { result.now ≡ pace_words begun }
{
    match begun {
        None => "not begun\n",
        Some(Begin::Late) => "late\n",
        Some(_) => "in time\n",
    }
}

/// Whether there is a link.
fn health_link(is_joined: bool) -> &'static str
    ensures { result.now ≡ health_link is_joined }
{
    if is_joined {
        "link up\n"
    } else {
        "link none\n"
    }
}

/// The text of how the day goes.
fn text_of(alloc: Global, exchange: &Exchange, figures: &Figures) -> Result<Vec<u8>, AllocError>
    ensures { IfOk result (λ text. text.items ≡ health_text exchange.now figures.now) }
{
    let mut text = Vec::new(alloc);
    push(&mut text, pace_words(figures.begun))?;
    push(&mut text, health_link(was_joined(figures.begun)))?;
    push_family(&mut text, "late seconds ", figures.late)?;
    push_family(
        &mut text,
        "channels in maintenance ",
        u64::from(maintained(exchange)),
    )?;
    Ok(text)
}

/// How the day goes, in four lines: whether the last second began in time, whether it had a link, how many seconds were late, and how many
/// channels are in maintenance. `Memory` where memory runs out.
pub fn health_text(
    alloc: Global,
    exchange: &Exchange,
    figures: &Figures,
) -> Result<Vec<u8>, NoAnswer>
    ensures text { IfOk result (λ text. text.items ≡ health_text exchange.now figures.now) }
    ensures none { IfErr result (λ why. why ≡ NoAnswer.Memory) }
{
    match text_of(alloc, exchange, figures) {
        Ok(text) => Ok(text),
        Err(_) => Err(NoAnswer::Memory),
    }
}

/// Whether this is the number of a channel that is in service, and not in maintenance.
fn is_served(exchange: &Exchange, channels: ChannelSet, number: u8) -> bool
    ensures { result ≡ is_served exchange.now channels number }
{
    match Channel::new(number) {
        Some(channel) => channels.has(channel) && !exchange.in_maintenance(channel),
        None => false,
    }
}

/// How many channels are in service, and not in maintenance.
fn served(exchange: &Exchange, channels: ChannelSet) -> u8
    ensures { result ≡ served exchange.now channels }
{
    let mut count = 0u8;
    for number in 0..32u8 {
        if is_served(exchange, channels, number) {
            count += 1;
        }
    }
    count
}

/// Whether a call could be carried now, on a day that was opened with this; or the first reason why not.
pub fn ready_now(opened: &Opened, exchange: &Exchange, figures: &Figures) -> Readiness
    ensures { result ≡ ready_now opened.now exchange.now figures.now }
{
    if exchange.moment() == 0 {
        Readiness::NotBegun
    } else if exchange.moment() >= opened.last {
        Readiness::Over
    } else if !was_joined(figures.begun) {
        Readiness::NoLink
    } else if served(exchange, opened.channels) == 0 {
        Readiness::NoChannel
    } else {
        Readiness::Ready
    }
}

/// Its words.
fn ready_words(readiness: Readiness) -> &'static str
    ensures { result.now ≡ ready_words readiness }
{
    match readiness {
        Readiness::Ready => "ready\n",
        Readiness::NotBegun => "the day has not begun\n",
        Readiness::Over => "the day is over\n",
        Readiness::NoLink => "no link\n",
        Readiness::NoChannel => "no channel\n",
    }
}

/// Whether a call could be carried now, in a line. `Memory` where memory runs out.
pub fn ready_text(alloc: Global, readiness: Readiness) -> Result<Vec<u8>, NoAnswer>
    ensures text { IfOk result (λ text. text.items ≡ ready_words readiness) }
    ensures none { IfErr result (λ why. why ≡ NoAnswer.Memory) }
{
    let mut text = Vec::new(alloc);
    match push(&mut text, ready_words(readiness)) {
        Ok(()) => Ok(text),
        Err(_) => Err(NoAnswer::Memory),
    }
}

/// How the answer begins that says how the day goes.
fn health_status(is_late: bool) -> Status
    ensures { result ≡ health_status is_late }
{
    if is_late {
        Status::Unavailable
    } else {
        Status::Fine
    }
}

/// How the answer begins that says whether a call could be carried now.
fn ready_status(readiness: Readiness) -> Status
    ensures { result ≡ ready_status readiness }
{
    match readiness {
        Readiness::Ready => Status::Fine,
        _ => Status::Unavailable,
    }
}

/// How an answer begins that there is: where a monitor asks how the day goes, or whether a call could be carried, it says so too.
pub(crate) fn status_at(
    opened: &Opened,
    exchange: &Exchange,
    figures: &Figures,
    route: Route,
) -> Status
    ensures { result ≡ status_at opened.now exchange.now figures.now route }
{
    match route {
        Route::Health => health_status(was_late(figures.begun)),
        Route::Ready => ready_status(ready_now(opened, exchange, figures)),
        _ => Status::Fine,
    }
}
