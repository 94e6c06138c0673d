//! A door that others hold too.

ghost use Rattle.std.specs.Prelude.{◌∷◌, []};
ghost use Rattle.bx_office_door.specs.Lending.{Lending, Taken, PutBack};
ghost use Rattle.bx_office_door.specs.Attending.{Attended, AreAttended};

use crate::door::Door;
use std::alloc::{AllocError, Global};
use std::cell::RefCell;
use std::rc::Rc;

/// Where a door is kept that more than one use: whoever uses it takes it, and puts it back. `lent` says which of the two may lie between two
/// states of it.
pub trait Lends {
    ghost lent: { Self → Lending → Self → Type 0 };

    /// Takes the door, where it is there.
    fn take(&mut self) -> Option<Door>
        ensures { lent self.old (Taken result) self.new };

    /// Puts this door back.
    fn put_back(&mut self, door: Door)
        ensures { lent self.old (PutBack door) self.new };
}

/// A door in a cell, which the wire, the office and who tells of it hold.
#[derive(Clone, Drop)]
pub struct SharedDoor(Rc<RefCell<Option<Door>>>);

impl SharedDoor {
    /// This door, of which each clone is another hold.
    pub fn new(alloc: Global, door: Door) -> Result<SharedDoor, AllocError> {
        match Rc::new(alloc, RefCell::new(Some(door))) {
            Ok(cell) => Ok(SharedDoor(cell)),
            Err(_) => Err(AllocError),
        }
    }
}

/// Of what stands in a cell nothing is known.
impl Lends for SharedDoor {
    ghost use Rattle.bx_office_door.specs.SharedDoors.{lent_on};

    ghost lent = { λ s act t. lent_on s act t };

    fn take(&mut self) -> Option<Door> {
        self.0.try_replace(None).ok()?
    }

    fn put_back(&mut self, door: Door) {
        let _ = self.0.try_replace(Some(door));
    }
}

/// Moves what is ready at a door, where the clock shows this, and the other end of the line was heard of late or not.
pub(crate) fn attend<S: Lends>(holder: &mut S, now: u128, is_heard: bool)
    ensures { AreAttended S.lent (Attended now is_heard ∷ []) holder.old holder.new }
{
    if let Some(mut door) = holder.take() {
        door.attend(now, is_heard);
        holder.put_back(door);
    }
}
