//! The booking office of a live day: its door, and how long it is open.

ghost use Rattle.std.specs.Prelude.{◌≡◌, true, IfOk, IfErr, OnErr};
ghost use Rattle.bx_calendar.specs.DayParts.{length_of};
ghost use Rattle.bx_day_openings.specs.OpeningRefusals.{IsUnheard};
ghost use Rattle.bx_live_commands.specs.LiveDays.{has_office, least_turns, AreLiveTurns};
ghost use Rattle.bx_live_commands.specs.LiveInside.{IsOpenAt};
ghost use Rattle.bx_live_commands.specs.LiveRefusals.{IsNoOffice};
ghost use Rattle.bx_live_commands.specs.OfficePlaces.{port_behind, socket_behind, IsOriginNamed, IsListeningAt, IsEntranceAt, IsEntranceWhere};
ghost use Rattle.bx_office.specs.Targets.{text_of};

use crate::by_office::Premises;
use bx_base::ChannelSet;
use bx_calendar::Day;
use bx_day::Exchange;
use bx_day_openings::{
    AFTER_THE_LAST, DayCommandFault, Hours, System, day_turns, listener_at, unheard,
};
use bx_office::{Address, Origin};
use bx_office_door::{Door, Entrance, Listening, Listens, SharedDoor};
use bx_request::{LiveRequest, Place};
use std::alloc::{AllocError, Global};
use std::io;
use std::net::{Ipv4Addr, SocketAddrV4};

/// A listener at a place, which never waits. A file of a socket on which nobody listens is replaced.
fn listening<H: System + Listens>(rt: &H, place: Place<'_>) -> io::Result<Listening>
    ensures { IfOk result (IsListeningAt (H.listens rt.now) place.entry) }
{
    match place {
        Place::Port(port) => Listening::at_port(rt, port),
        Place::Socket(path) => {
            let listener = listener_at(rt, path)?;
            listener.set_nonblocking(true)?;
            Ok(Listening::Path(listener))
        }
    }
}

/// A port as the door knows it, behind a proxy of this origin where there is one.
fn port_behind(port: u16, origin: Option<Origin>) -> Address
    ensures { result ≡ port_behind port origin }
{
    match origin {
        Some(origin) => Address::ProxiedPort(port, origin),
        None => Address::Port(port),
    }
}

/// A socket as the door knows it, behind a proxy of this origin where there is one.
fn socket_behind(origin: Option<Origin>) -> Address
    ensures { result ≡ socket_behind origin }
{
    match origin {
        Some(origin) => Address::ProxiedSocket(origin),
        None => Address::Socket,
    }
}

/// The origin that the words name, which have none of more than 255 octets.
fn origin_of(text: Option<&str>) -> Option<Origin>
    ensures { IsOriginNamed (text_of text.entry) result }
{
    match text {
        Some(text) => Origin::new(text.as_bytes()),
        None => None,
    }
}

/// Where clients come in at a place, behind a proxy of the origin that the words name. `CannotListen` where nobody can be let in there.
fn entrance_at<'a, H: System + Listens>(
    rt: &H,
    place: Place<'a>,
    origin: Option<&str>,
) -> Result<Entrance, DayCommandFault<'a>>
    ensures entrance { IfOk result (IsEntranceAt (H.listens rt.now) place.entry origin.entry) }
    ensures refused { IfErr result IsUnheard }
{
    let origin = origin_of(origin);
    match (listening(rt, place), place) {
        (Ok(listening), Place::Port(port)) => Ok(Entrance {
            address: port_behind(port, origin),
            listening,
        }),
        (Ok(listening), Place::Socket(_)) => Ok(Entrance {
            address: socket_behind(origin),
            listening,
        }),
        (Err(cause), Place::Port(port)) => {
            let place = SocketAddrV4::new(Ipv4Addr::LOCALHOST, port);
            Err(unheard(rt, &place, &cause))
        }
        (Err(cause), Place::Socket(path)) => Err(unheard(rt, &path, &cause)),
    }
}

/// Where customers come in, where the words want a counter.
fn counter_of<'a, H: System + Listens>(
    rt: &H,
    request: LiveRequest<'a>,
) -> Result<Option<Entrance>, DayCommandFault<'a>>
    ensures entrance { IfOk result (IsEntranceWhere (H.listens rt.now) request.entry.counter request.entry.counter_origin) }
    ensures refused { IfErr result IsUnheard }
{
    match request.counter {
        Some(place) => Ok(Some(entrance_at(rt, place, request.counter_origin)?)),
        None => Ok(None),
    }
}

/// The door of an office at a place, with that of its counter where the words want one, of a day that begins then, in nanoseconds since
/// 1970. `CannotListen` where nobody can be let in at one of the two.
fn door_at<'a, H: System + Listens>(
    rt: &H,
    request: LiveRequest<'a>,
    place: Place<'a>,
    opens: u128,
) -> Result<Door, DayCommandFault<'a>>
    ensures office { IfOk result (λ door. IsEntranceAt (H.listens rt.now) place.entry request.entry.origin door.office) }
    ensures counter { IfOk result (λ door. IsEntranceWhere (H.listens rt.now) request.entry.counter request.entry.counter_origin door.counter) }
    ensures opens { IfOk result (λ door. door.opens ≡ opens) }
    ensures refused { IfErr result IsUnheard }
{
    let office = entrance_at(rt, place, request.origin)?;
    let counter = counter_of(rt, request)?;
    Ok(Door::new(rt.alloc(), office, counter, opens))
}

/// What an office at this door is opened with.
fn premises_at(
    alloc: Global,
    door: Door,
    channels: ChannelSet,
    day: Day,
    rate: u32,
) -> Result<Premises<SharedDoor>, AllocError>
    ensures { IfOk result (λ premises. (premises.channels ≡ channels) × (premises.day ≡ day) × (premises.rate ≡ rate)) }
{
    let door = SharedDoor::new(alloc, door)?;
    let beside = door.clone()?;
    let watched = door.clone()?;
    Ok(Premises {
        door,
        beside,
        watched,
        channels,
        day,
        rate,
    })
}

/// What the office that the words want is opened with, where they want one, with its counter. Without a journal there is none: nothing is sold outside the
/// journal. `CannotListen` where nobody can be let in there, `Command`, as `Memory`, where memory runs out.
pub(crate) fn premises_of<'a, H: System + Listens>(
    rt: &H,
    request: LiveRequest<'a>,
    channels: ChannelSet,
    hours: Hours,
) -> Result<Option<Premises<SharedDoor>>, DayCommandFault<'a>>
    ensures opened { IfOk result (IsOpenAt (has_office request.entry) channels hours.day request.entry.rate) }
    ensures wanted { OnErr result (has_office request.entry ≡ true) }
    ensures refused { IfErr result IsNoOffice }
{
    match (request.office, request.journal) {
        (Some(place), Some(_)) => {
            let door = door_at(rt, request, place, hours.schedule.instant(0))?;
            let rate = request.rate.unwrap_or(0);
            let premises = premises_at(rt.alloc(), door, channels, hours.day, rate)?;
            Ok(Some(premises))
        }
        _ => Ok(None),
    }
}

/// The least seconds of a live day: where an office is open it is so all day.
fn least_turns(is_open: bool, day: &Day) -> u32
    ensures { result ≡ least_turns is_open (length_of day.now) }
{
    if is_open { day.length() } else { 1 }
}

/// How many seconds a live day has: as many as were asked for, or up to the end of the last of its accepted bookings, and where an office is open to the end
/// of its date, so that the next day's exchange has the line at once: the run goes on while a call is up.
pub(crate) fn live_turns(exchange: &Exchange, day: &Day, asked: Option<u32>, is_open: bool) -> u32
    ensures { AreLiveTurns is_open asked (length_of day.now) exchange.now.entries result }
{
    let turns = day_turns(exchange, asked);
    if asked.is_some() {
        return turns;
    }
    turns
        .saturating_sub(AFTER_THE_LAST)
        .max(least_turns(is_open, day))
}
