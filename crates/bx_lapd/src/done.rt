//! What a call of a link sends and tells.

ghost use Rattle.std.specs.Prelude.{◌≡◌, ◌+◌, ◌<◌, ◌≤◌, [], ◌∷◌, ◌++◌, length, option_to_list};

use crate::frame::Frame;
use crate::indication::Indication;
use crate::row::Row;
use arrayvec::ArrayVec;
use std::marker::Model;

/// The frames that a call sends, in their order, and what it tells.
#[derive(Drop)]
pub struct Done {
    frames: ArrayVec<Frame, 9>,
    told: ArrayVec<Indication, 4>,
}

impl Model for Done {
    ghost use Rattle.bx_lapd.specs.Links.{Did};

    ghost Value = { Did };

    ghost view = { λ d. record { frames = d.frames.items; told = d.told.items } };
}

impl Done {
    /// Nothing.
    pub(crate) fn new() -> Done
        ensures frames { result.frames ≡ [] }
        ensures told { result.told ≡ [] }
    {
        Done {
            frames: ArrayVec::new(),
            told: ArrayVec::new(),
        }
    }

    /// The frames to send.
    pub fn frames(&self) -> &[Frame]
        ensures { result.now ≡ self.now.frames }
    {
        self.frames.as_slice()
    }

    /// What is told.
    pub fn told(&self) -> &[Indication]
        ensures { result.now ≡ self.now.told }
    {
        self.told.as_slice()
    }

    /// One more frame.
    pub(crate) fn send(&mut self, frame: Frame)
        requires { length self.old.frames < 9 }
        ensures frames { self.new.frames ≡ self.old.frames ++ frame ∷ [] }
        ensures told { self.new.told ≡ self.old.told }
    {
        self.frames.push(frame);
    }

    /// One more indication.
    pub(crate) fn tell(&mut self, indication: Indication)
        requires { length self.old.told < 4 }
        ensures frames { self.new.frames ≡ self.old.frames }
        ensures told { self.new.told ≡ self.old.told ++ indication ∷ [] }
    {
        self.told.push(indication);
    }

    /// What a row sends and tells.
    pub(crate) fn add(&mut self, row: Row)
        requires frames { length self.old.frames < 9 }
        requires told { length self.old.told ≤ 2 }
        ensures frames { self.new.frames ≡ self.old.frames ++ option_to_list row.frame }
        ensures told { self.new.told ≡ self.old.told ++ (option_to_list row.first ++ option_to_list row.second) }
        ensures few { length self.new.frames ≤ length self.old.frames + 1 }
        ensures few_told { length self.new.told ≤ length self.old.told + 2 }
    {
        let Row {
            frame,
            first,
            second,
        } = row;
        if let Some(frame) = frame {
            self.send(frame);
        }
        if let Some(first) = first {
            self.tell(first);
        }
        if let Some(second) = second {
            self.tell(second);
        }
    }
}
