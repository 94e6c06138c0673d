//! TCP connections on 127.0.0.1.

ghost use Rattle.std.specs.Prelude.{◌≡◌, ◌⊎◌, IfOk, IfErr};
ghost use Rattle.bx_day_openings.specs.Meetings.{IsLoopback, IsHeardAt, IsReachedAt, IsPeerAt, AreEndsAt};
ghost use Rattle.bx_day_openings.specs.OpeningRefusals.{IsUnheard, IsUnconnected};

use crate::causes::{unconnected, unheard};
use crate::fault::DayCommandFault;
use crate::ports::Ports;
use std::net::{Ipv4Addr, SocketAddrV4, TcpListener, TcpStream};

/// A frame is sent as soon as it is written. A system that cannot is only slower.
fn at_once(stream: TcpStream) -> TcpStream
    ensures { result ≡ stream }
{
    let _ = stream.set_nodelay(true);
    stream
}

/// This port of 127.0.0.1.
pub(crate) fn place(port: u16) -> SocketAddrV4
    ensures { IsLoopback port result }
{
    SocketAddrV4::new(Ipv4Addr::LOCALHOST, port)
}

/// A listener on the port, or on a free one where it is 0.
fn listener<'a, H: Ports + Eprint>(rt: &H, port: u16) -> Result<TcpListener, DayCommandFault<'a>>
    ensures heard { IfOk result (IsHeardAt (H.listens_at rt.now) port) }
    ensures refused { IfErr result IsUnheard }
{
    match rt.listen_at(place(port)) {
        Ok(listener) => Ok(listener),
        Err(cause) => Err(unheard(rt, &place(port), &cause)),
    }
}

/// The next peer that connects to the port.
fn next_peer<'a, H: Ports + Eprint>(
    rt: &H,
    listener: &TcpListener,
    port: u16,
) -> Result<TcpStream, DayCommandFault<'a>>
    ensures peer { IfOk result (H.lets_in rt.now listener.now) }
    ensures refused { IfErr result IsUnheard }
{
    match rt.let_in(listener) {
        Ok(stream) => Ok(at_once(stream)),
        Err(cause) => Err(unheard(rt, &place(port), &cause)),
    }
}

/// The first peer that connects to the port. Waits for it, and says before that it does, where that is to be said. `CannotListen`
/// where the port cannot be listened on, or no peer can be accepted.
pub fn accepted<'a, H: Ports + Eprint>(
    rt: &H,
    port: u16,
    is_said: bool,
) -> Result<TcpStream, DayCommandFault<'a>>
    ensures peer { IfOk result (IsPeerAt (H.listens_at rt.now) (H.lets_in rt.now) port) }
    ensures refused { IfErr result IsUnheard }
{
    let listener = listener(rt, port)?;
    if is_said {
        let _ = eprintln!(rt; "listening on 127.0.0.1:{port}");
    }
    next_peer(rt, &listener, port)
}

/// A connection to the port; `CannotConnect` where there is none.
pub fn connected<'a, H: Ports + Eprint>(rt: &H, port: u16) -> Result<TcpStream, DayCommandFault<'a>>
    ensures reached { IfOk result (IsReachedAt (H.reaches rt.now) port) }
    ensures refused { IfErr result IsUnconnected }
{
    match rt.reach(place(port)) {
        Ok(stream) => Ok(at_once(stream)),
        Err(cause) => Err(unconnected(rt, &place(port), &cause)),
    }
}

/// Both ends of one connection on a free port. `CannotListen` where none can be listened on, or the second end not be accepted;
/// `CannotConnect` where the first end cannot connect.
pub fn connected_ends<'a, H: Ports + Eprint>(
    rt: &H,
) -> Result<(TcpStream, TcpStream), DayCommandFault<'a>>
    ensures ends { IfOk result (λ ends. AreEndsAt (H.listens_at rt.now) (H.lets_in rt.now) (H.reaches rt.now) ends.0 ends.1) }
    ensures refused { IfErr result (λ fault. IsUnheard fault ⊎ IsUnconnected fault) }
{
    let listener = listener(rt, 0)?;
    let port = match listener.local_addr() {
        Ok(address) => address.port(),
        Err(cause) => return Err(unheard(rt, &place(0), &cause)),
    };
    let near = connected(rt, port)?;
    let distant = next_peer(rt, &listener, port)?;
    Ok((near, distant))
}
