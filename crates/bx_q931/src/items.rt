//! The items of a message: shifts and elements, from the octets after its type.

ghost use Rattle.std.specs.Prelude.{◌≡◌, option_map, is_some};
ghost use Rattle.bx_q931.specs.Items.{item_at, all_items};
ghost use Rattle.bx_q931.specs.Inside.{item_view};

/// An item: its first octet, and what it contains.
#[derive(Clone, Copy)]
pub struct Item<'a> {
    pub first: u8,
    pub contents: &'a [u8],
}

/// The item at the start, and the octets after it; none where it is torn.
pub(crate) fn first_item(octets: &[u8]) -> Option<(Item<'_>, &[u8])>
    ensures { option_map (λ p. (item_view p.0, p.1.now)) result ≡ item_at octets.now }
{
    let (first, rest) = octets.split_first()?;
    if *first >= 0x80 {
        let item = Item {
            first: *first,
            contents: &[],
        };
        return Some((item, rest));
    }
    let (len, rest) = rest.split_first()?;
    let len = *len as usize;
    if rest.len() < len {
        return None;
    }
    let (contents, after) = rest.split_at(len);
    let item = Item {
        first: *first,
        contents,
    };
    Some((item, after))
}

/// Whether the octets are whole items.
pub(crate) fn are_items(octets: &[u8]) -> bool
    ensures { result ≡ is_some (all_items octets.now) }
{
    let mut rest = octets;
    while !rest.is_empty() {
        match first_item(rest) {
            Some((_, after)) => rest = after,
            None => return false,
        }
    }
    true
}
