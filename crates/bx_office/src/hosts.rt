//! Who asks: the host that a request names, and the origin of the page that has sent it.

ghost use Rattle.std.specs.Prelude.{◌≡◌, ◌+◌, ◌≤◌, ◌++◌, length, decimal};
ghost use Rattle.arrayvec.specs.ArrayVec.{array_vec_len};
ghost use Rattle.http1.specs.Text.{eq_ignore_case};
ghost use Rattle.bx_office.specs.Targets.{text_of};
ghost use Rattle.bx_office.specs.Hosts.{is_loopback, is_own_host, is_host, is_host_of, is_origin_of, is_own_origin};
ghost use Rattle.bx_office.specs.Origins.{origin_text};

use crate::gate::Address;
use crate::origins::Origin;
use crate::targets::past;
use arrayvec::ArrayVec;
use http1::text::eq_ignore_case;
use itoa::Buffer;

/// Adds octets to a text. They have to have room.
fn put(text: &mut ArrayVec<u8, 64>, octets: &[u8])
    requires { array_vec_len text.old + length octets.now ≤ 64 }
    ensures items { text.new.items ≡ text.old.items ++ octets.now }
    ensures len { array_vec_len text.new ≡ array_vec_len text.old + length octets.now }
{
    match text.try_extend_from_slice(octets) {
        Ok(()) => {}
        Err(_) => unreachable!(),
    }
}

/// The text of a name and a port.
fn with_port(name: &[u8], port: u16) -> ArrayVec<u8, 64>
    requires { length name.now ≤ 20 }
    ensures { result.items ≡ name.now ++ decimal port }
{
    let mut text = ArrayVec::new();
    let mut digits = Buffer::new();
    put(&mut text, name);
    put(&mut text, digits.format(port).as_bytes());
    text
}

/// Whether a host is a loopback name with this port, whatever its case.
fn is_loopback(port: u16, host: &[u8]) -> bool
    ensures { result ≡ is_loopback port host.now }
{
    eq_ignore_case(host, with_port(b"localhost:", port).as_slice())
        || eq_ignore_case(host, with_port(b"127.0.0.1:", port).as_slice())
        || eq_ignore_case(host, with_port(b"[::1]:", port).as_slice())
        || (port == 80
            && (eq_ignore_case(host, b"localhost")
                || eq_ignore_case(host, b"127.0.0.1")
                || eq_ignore_case(host, b"[::1]")))
}

/// Whether what stands after the scheme of an origin is this host, whatever its case.
fn is_host(rest: Option<&[u8]>, host: &[u8]) -> bool
    ensures { result ≡ is_host (text_of rest.entry) host.now }
{
    match rest {
        Some(rest) => eq_ignore_case(rest, host),
        None => false,
    }
}

/// Whether an origin is one of this host.
fn is_host_of(origin: &[u8], host: &[u8]) -> bool
    ensures { result ≡ is_host_of origin.now host.now }
{
    is_host(past(origin, b"http://"), host) || is_host(past(origin, b"https://"), host)
}

/// Whether the host that a request names is this office.
pub(crate) fn is_own_host(address: Address, host: Option<&[u8]>) -> bool
    ensures { result ≡ is_own_host address (text_of host.entry) }
{
    match (address, host) {
        (Address::Socket | Address::ProxiedSocket(_), _) => true,
        (_, None) => false,
        (Address::Port(port), Some(host)) => is_loopback(port, host),
        (Address::ProxiedPort(port, outside), Some(host)) => {
            is_loopback(port, host) || is_host_of(outside.octets(), host)
        }
    }
}

/// Whether an origin is this one, whatever its case.
fn is_outside(outside: &Origin, origin: &[u8]) -> bool
    ensures { result ≡ eq_ignore_case origin.now (origin_text outside.now) }
{
    eq_ignore_case(origin, outside.octets())
}

/// Whether a page of this host has such an origin. That of a proxy is its own whatever host it names, and at a port no other is one of the
/// host of its origin.
fn is_origin_of(address: Address, host: &[u8], origin: &[u8]) -> bool
    ensures { result ≡ is_origin_of address host.now origin.now }
{
    match address {
        Address::Port(_) => is_host(past(origin, b"http://"), host),
        Address::Socket => is_host_of(origin, host),
        Address::ProxiedPort(port, outside) => is_outside(&outside, origin)
            || (is_loopback(port, host) && is_host(past(origin, b"http://"), host)),
        Address::ProxiedSocket(outside) => is_outside(&outside, origin) || is_host_of(origin, host),
    }
}

/// Whether no page of another origin has sent the request.
pub(crate) fn is_own_origin(address: Address, host: Option<&[u8]>, origin: Option<&[u8]>) -> bool
    ensures { result ≡ is_own_origin address (text_of host.entry) (text_of origin.entry) }
{
    let Some(origin) = origin else {
        return true;
    };
    let Some(host) = host else {
        return false;
    };
    is_origin_of(address, host, origin)
}
