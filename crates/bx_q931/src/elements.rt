//! The information elements of a message, each with its codeset.

ghost use Rattle.std.specs.Prelude.{◌≡◌, IsSome};
ghost use Rattle.std.specs.Iterator.{YieldsFirstBy, item_count};
ghost use Rattle.bx_q931.specs.Items.{all_items, items_in};
ghost use Rattle.bx_q931.specs.Elements.{elements_of};
ghost use Rattle.bx_q931.specs.ElementViews.{element_view};

use crate::items::first_item;
use std::marker::Model;

/// An information element (ITU-T Q.931, 4.5): its codeset, its identifier, and what it contains. One
/// whose first octet has bit 8 set is that octet alone, and its contents are empty.
#[derive(Clone, Copy, Debug, PartialEq, Eq)]
pub struct Element<'a> {
    pub codeset: u8,
    pub id: u8,
    pub contents: &'a [u8],
}

/// The elements that are left, in order; shifts (ITU-T Q.931, 4.5.2 to 4.5.4) are not among them.
#[derive(Drop)]
pub struct Elements<'a> {
    rest: &'a [u8],
    locked: u8,
    single: Option<u8>,
}

impl<'a> Model for Elements<'a> {
    ghost use Rattle.std.specs.Prelude.{List, IsSome};
    ghost use Rattle.bx_q931.specs.Items.{all_items, items_in};
    ghost use Rattle.bx_q931.specs.Elements.{PlainElement};
    ghost use Rattle.bx_q931.specs.Passing.{passed};

    ghost Value = { List PlainElement };

    ghost view = { λ s. passed s.locked s.single (items_in s.rest.now) };

    ghost invariant = { λ s. IsSome (all_items s.rest.now) };
}

impl<'a> Elements<'a> {
    /// The elements of octets that are whole items.
    pub(crate) fn new(items: &'a [u8]) -> Elements<'a>
        requires { IsSome (all_items items.now) }
        ensures { result ≡ elements_of (items_in items.now) }
    {
        Elements {
            rest: items,
            locked: 0,
            single: None,
        }
    }
}

impl<'a> Iterator for Elements<'a> {
    type Item = Element<'a>;

    ghost next_gives = { YieldsFirstBy element_view (λ s. s) };

    ghost remaining = { item_count (λ s. s) };

    fn next(&mut self) -> Option<Element<'a>> {
        while let Some((item, after)) = first_item(self.rest) {
            self.rest = after;
            let codeset = item.first % 8;
            if item.first / 16 != 9 {
                let codeset = self.single.unwrap_or(self.locked);
                self.single = None;
                return Some(Element {
                    codeset,
                    id: item.first,
                    contents: item.contents,
                });
            }
            if item.first % 16 < 8 {
                self.locked = self.locked.max(codeset);
            } else {
                self.single = Some(codeset);
            }
        }
        None
    }
}
