//! Sessions: the turns of the exchange, opened and closed one after another, until a fault.

ghost use Rattle.std.specs.Prelude.{◌≡◌, ◌∷◌, [], true, false, is_ok, is_err, Err};
ghost use Rattle.bx_events.specs.Events.{Tick};
ghost use Rattle.bx_sessions.specs.Hearing.{Opens};
ghost use Rattle.bx_sessions.specs.Sessions.{is_turn_open, is_closed};
ghost use Rattle.bx_frames.specs.declared.fault.LinkFault.TheVariants.{Closed};
ghost use Rattle.bx_sessions.specs.Kept.{HearsIfOpen};

use bx_day::Exchange;
use bx_devices::Watched;
use bx_frames::{End, LinkFault, Receiver, hear_turn, write_tick};
use std::io::{Read, Write};

/// Where a session stands.
#[derive(Clone, Copy)]
enum Stage {
    BetweenTurns,
    InTurn,
    Over,
}

/// A session of the exchange. Its turns are opened and closed one after another; after a fault it is closed,
/// and neither reads nor writes.
#[derive(Drop)]
pub struct Session {
    stage: Stage,
}

impl Session {
    /// A session before its first turn.
    pub fn new() -> Self
        ensures turn { is_turn_open result ≡ false }
        ensures closed { is_closed result ≡ false }
    {
        Session {
            stage: Stage::BetweenTurns,
        }
    }

    /// Whether a turn is open, so that `close_turn` comes next. It is not where the session is closed.
    pub fn turn_is_open(&self) -> bool
        ensures { result ≡ is_turn_open self.now }
    {
        match self.stage {
            Stage::InTurn => true,
            Stage::BetweenTurns | Stage::Over => false,
        }
    }

    /// Opens a turn, where none is open: the exchange ticks, and each message that it sends is written as a frame, in
    /// order, and then the end of turn with its moment. Takes no memory. A closed session answers `Closed`, and neither
    /// ticks nor writes. At `WriteFailed` the session is closed: the tick has happened, and a prefix of
    /// these octets was written, but not all of them.
    pub fn open_turn<E: End<Exchange>, W: Write>(
        &mut self,
        exchange: &mut E,
        writer: &mut Watched<W>,
    ) -> Result<(), LinkFault>
        requires { is_turn_open self.old ≡ false }
        ensures opened { is_closed self.old ≡ false → Opens W.contents writer.old writer.new (E.day exchange.old) (E.day exchange.new) result }
        ensures kept { is_closed self.old ≡ false → E.kept exchange.old (Tick ∷ []) exchange.new }
        ensures refused { is_closed self.old ≡ true → result ≡ Err Closed }
        ensures exchange { is_closed self.old ≡ true → exchange.new ≡ exchange.old }
        ensures writer { is_closed self.old ≡ true → writer.new ≡ writer.old }
        ensures turn { is_turn_open self.new ≡ is_ok result }
        ensures closed { is_closed self.new ≡ is_err result }
    {
        if let Stage::Over = self.stage {
            return Err(LinkFault::Closed);
        }
        match write_tick(exchange, writer) {
            Ok(()) => {
                self.stage = Stage::InTurn;
                Ok(())
            }
            Err(_) => {
                self.stage = Stage::Over;
                Err(LinkFault::WriteFailed)
            }
        }
    }

    /// Closes a turn: one is open, unless the session is closed. Each message that comes is received by the exchange, and the
    /// reply is written, up to the end of turn with the exchange's moment. Nothing is read after it. Takes no memory. A closed
    /// session answers `Closed`, and neither reads nor writes. At any other fault, which is one of `hear_turn`, the session is
    /// closed: the exchange has received each message that came whole, and no more. At `WriteFailed` the write was that of the
    /// reply to the last message that was received: it was not written whole, nothing was read after that message, and all
    /// replies before were written whole.
    pub fn close_turn<E: End<Exchange>, R: Read, W: Write>(
        &mut self,
        exchange: &mut E,
        reader: &mut Watched<R>,
        writer: &mut Watched<W>,
    ) -> Result<(), LinkFault>
        requires { is_closed self.old ≡ false → is_turn_open self.old ≡ true }
        ensures heard { HearsIfOpen self.old E.day E.kept R.remaining W.contents exchange.old exchange.new reader.old reader.new writer.old writer.new result }
        ensures refused { is_closed self.old ≡ true → result ≡ Err Closed }
        ensures exchange { is_closed self.old ≡ true → exchange.new ≡ exchange.old }
        ensures reader { is_closed self.old ≡ true → reader.new ≡ reader.old }
        ensures writer { is_closed self.old ≡ true → writer.new ≡ writer.old }
        ensures turn { is_turn_open self.new ≡ false }
        ensures closed { is_closed self.new ≡ is_err result }
    {
        if let Stage::Over = self.stage {
            return Err(LinkFault::Closed);
        }
        let moment = exchange.turn();
        match hear_turn(exchange, Receiver::Exchange, moment, reader, writer) {
            Ok(_) => {
                self.stage = Stage::BetweenTurns;
                Ok(())
            }
            Err(fault) => {
                self.stage = Stage::Over;
                Err(fault)
            }
        }
    }
}
