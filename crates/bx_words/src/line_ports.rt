//! Lines of data links, as the command line has them.

ghost use Rattle.std.specs.Prelude.{◌≡◌, IfSome};
ghost use Rattle.std.specs.Str.Parse.{digits_value, without_leading_plus};
ghost use Rattle.bx_words.specs.Filled.{IsLineText};

use bx_request::LinePorts;

/// A port, 1 to 65535.
pub(crate) fn port_in(text: &str) -> Option<u16>
    ensures { IfSome result (λ port. port ≡ digits_value 10 (without_leading_plus text.now)) }
{
    let is_short = !text.is_empty() && text.len() <= 5;
    if !is_short || !text.bytes().all(|digit| digit.is_ascii_digit()) {
        return None;
    }
    match text.parse::<u16>() {
        Ok(port) if port > 0 => Some(port),
        _ => None,
    }
}

/// The two ports of `HERE:THERE`, each 1 to 65535, which differ: a socket that hears itself is no line.
pub(crate) fn ports_in(text: &str) -> Option<LinePorts>
    ensures { IfSome result (IsLineText text.now) }
{
    let (here, there) = text.split_once(':')?;
    let line = LinePorts {
        here: port_in(here)?,
        there: port_in(there)?,
    };
    if line.here == line.there {
        return None;
    }
    Some(line)
}
