//! What holds of every run of a far end's day.

ghost use Rattle.bx_link.specs.Laws.{IsWrittenForLast, IsAllWritten};

/// Whatever is written to the exchange is what the far end sends for the last event, which came on a link.
pub fn written_for_last()
    ensures { IsWrittenForLast }
{}

/// From one place of a run to another, where no write fails: what is written is just what the day's definition gives for the events that
/// the acts tell, in order and once, but for what is still owed. In seconds without a link that is nothing.
pub fn all_is_written()
    ensures { IsAllWritten }
{}
