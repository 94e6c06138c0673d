//! Files that one program at a time writes.

ghost use Rattle.std.specs.Prelude.{IfOk, IsTrue};

use std::fs::{File, Files, TryLockError};
use std::io;

/// A system whose open files can be locked.
pub trait Locks: Files {
    /// It has said that this file is locked, for as long as it is open, and by no other program.
    ghost locked: { Self → Self.File → Type 0 };

    /// Locks a file for as long as it is open. False where another program holds it.
    fn try_lock(&self, file: &Self::File) -> io::Result<bool>
        ensures { IfOk result (λ told. IsTrue told → locked self.now file.now) };
}

impl<H: Files<File = File>> Locks for H {
    ghost locked = { λ system file. Unit {0} };

    fn try_lock(&self, file: &File) -> io::Result<bool> {
        match file.try_lock() {
            Ok(()) => Ok(true),
            Err(TryLockError::WouldBlock) => Ok(false),
            Err(TryLockError::Error(fault)) => Err(fault),
        }
    }
}
