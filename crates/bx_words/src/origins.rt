//! Origins, as the command line has them.

ghost use Rattle.std.specs.Prelude.{◌≡◌, ◌++◌, ℕ, List, IfSome};

use crate::line_ports::port_in;

/// The most octets of an origin.
const MAX_ORIGIN: usize = 255;

/// Whether a text is a name of a host: letters, digits, `-` and `.`.
fn is_name(host: &str) -> bool {
    !host.is_empty()
        && host.bytes().all(|octet| octet.is_ascii_alphanumeric() || octet == b'-' || octet == b'.')
}

/// Whether a text is what stands in the brackets of an address of a host.
fn is_address(inside: &str) -> bool {
    !inside.is_empty()
        && inside.bytes().all(|octet| octet.is_ascii_hexdigit() || octet == b':' || octet == b'.')
}

/// Whether a text is a host: a name, or an address in brackets.
fn is_host(host: &str) -> bool {
    match host.strip_prefix('[') {
        Some(rest) => match rest.strip_suffix(']') {
            Some(inside) => is_address(inside),
            None => false,
        },
        None => is_name(host),
    }
}

/// A host, and its port where it has one.
fn parted(site: &str) -> (&str, Option<&str>) {
    if site.ends_with(']') {
        return (site, None);
    }
    match site.rsplit_once(':') {
        Some((host, port)) => (host, Some(port)),
        None => (site, None),
    }
}

/// Whether a host may have this port: none, or one of 1 to 65535 without zeros before it.
fn is_port(port: Option<&str>) -> bool {
    match port {
        Some(port) => !port.starts_with('0') && port_in(port).is_some(),
        None => true,
    }
}

/// The origin that a text is, of `http://` or `https://`, a host, and a port where it has one, in 255 octets at most, as a browser says it:
/// without the port of its scheme (RFC 6454, section 6.2). None where the text has another form.
pub(crate) fn origin_in(text: &str) -> Option<&str>
    ensures { IfSome result (λ origin. (rest : List ℕ) × (text.now ≡ origin.now ++ rest)) }
{
    let (scheme, site) = text.split_once("://")?;
    let own = match scheme {
        "http" => ":80",
        "https" => ":443",
        _ => return None,
    };
    let (host, port) = parted(site);
    if text.len() > MAX_ORIGIN || !is_host(host) || !is_port(port) {
        return None;
    }
    Some(text.strip_suffix(own).unwrap_or(text))
}
