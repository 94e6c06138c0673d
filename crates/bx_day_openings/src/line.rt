//! The line of a data link: datagrams of UDP between two ports of 127.0.0.1.

ghost use Rattle.std.specs.Prelude.{◌⊎◌, MatchResult};
ghost use Rattle.bx_day_openings.specs.Meetings.{IsBetween};
ghost use Rattle.bx_day_openings.specs.OpeningRefusals.{IsUnheard, IsUnconnected};

use crate::causes::{unconnected, unheard};
use crate::datagrams::Datagrams;
use crate::fault::DayCommandFault;
use crate::loopback::place;
use bx_request::LinePorts;
use std::net::UdpSocket;

/// A socket at one port that hears the other alone. `CannotListen` where this end's port cannot be had, `CannotConnect` where the
/// system does not let it speak to the other; whether somebody is there nobody says.
pub fn line_between<'a, H: Datagrams + Eprint>(
    rt: &H,
    line: LinePorts,
) -> Result<UdpSocket, DayCommandFault<'a>>
    ensures { MatchResult result (IsBetween (H.hears_at rt.now) (H.speaks_with rt.now) line) (λ fault. IsUnheard fault ⊎ IsUnconnected fault) }
{
    let here = place(line.here);
    let there = place(line.there);
    let socket = match rt.hear_at(here) {
        Ok(socket) => socket,
        Err(cause) => return Err(unheard(rt, &here, &cause)),
    };
    match rt.speak_with(there, &socket) {
        Ok(()) => Ok(socket),
        Err(cause) => Err(unconnected(rt, &there, &cause)),
    }
}
