//! Connections over Unix sockets.

ghost use Rattle.std.specs.Prelude.{IfOk, IfErr};
ghost use Rattle.bx_day_openings.specs.Meetings.{IsPeerOn};
ghost use Rattle.bx_day_openings.specs.OpeningRefusals.{IsUnheard, IsUnconnected};

use crate::causes::{unconnected, unheard};
use crate::fault::DayCommandFault;
use crate::paths::Paths;
use std::io;
use std::io::{Error, ErrorKind};
use std::os::unix::net::{UnixListener, UnixStream};

/// Takes away the file of a socket on which nobody listens, and no other file: its system can do no more than `Paths`.
fn clear_away<H: Paths>(rt: &H, path: &str) -> io::Result<()> {
    if !rt.has_socket(path)? {
        return Err(Error::from(ErrorKind::AddrInUse));
    }
    if !rt.is_left(path) {
        return Err(Error::from(ErrorKind::AddrInUse));
    }
    rt.remove_socket(path)
}

/// A listener on the socket of this path. A file of a socket on which nobody listens is replaced.
pub fn listener_at<H: Paths>(rt: &H, path: &str) -> io::Result<UnixListener>
    ensures { IfOk result (H.listens_on rt.now path.now) }
{
    match rt.listen_on(path) {
        Ok(listener) => Ok(listener),
        Err(_) => {
            clear_away(rt, path)?;
            rt.listen_on(path)
        }
    }
}

/// The first peer that connects to the socket of this path. Waits for it, and says before that it does, where that is to be said.
/// `CannotListen` where the socket cannot be listened on, or no peer can be accepted.
pub fn accepted_at<'a, H: Paths + Eprint>(
    rt: &H,
    path: &str,
    is_said: bool,
) -> Result<UnixStream, DayCommandFault<'a>>
    ensures peer { IfOk result (IsPeerOn (H.listens_on rt.now) (H.lets_in_on rt.now) path.now) }
    ensures refused { IfErr result IsUnheard }
{
    let listener = match listener_at(rt, path) {
        Ok(listener) => listener,
        Err(cause) => return Err(unheard(rt, &path, &cause)),
    };
    if is_said {
        let _ = eprintln!(rt; "listening on {path}");
    }
    match rt.let_in_on(&listener) {
        Ok(stream) => Ok(stream),
        Err(cause) => Err(unheard(rt, &path, &cause)),
    }
}

/// A connection to the socket of this path; `CannotConnect` where there is none.
pub fn connected_at<'a, H: Paths + Eprint>(
    rt: &H,
    path: &str,
) -> Result<UnixStream, DayCommandFault<'a>>
    ensures reached { IfOk result (H.reaches_on rt.now path.now) }
    ensures refused { IfErr result IsUnconnected }
{
    match rt.reach_on(path) {
        Ok(stream) => Ok(stream),
        Err(cause) => Err(unconnected(rt, &path, &cause)),
    }
}
