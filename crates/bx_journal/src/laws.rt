//! Laws of the definitions, each of which is on a function's contract.

ghost use Rattle.std.specs.Prelude.{◌≡◌, ℕ, List, Err, None};
ghost use Rattle.bx_journal.specs.Logging.{LeavesDone};
ghost use Rattle.bx_journal.specs.Reading.{recovered};
ghost use Rattle.bx_journal.specs.declared.fault.JournalFault.TheVariants.{OtherDay};
ghost use Rattle.bx_journal.specs.declared.head.Wanted.{Wanted};
ghost use Rattle.bx_journal.specs.Laws.{IsOwnTextReadAgain, IsWantedTextReadAgain, IsSpelledAsRead, HasOneHeadAndEvents};
ghost use Rattle.bx_journal.specs.Laws.{IsReadWithItsHeadAlone, IsOlderOfNoDay, IsReadByKnownRules, IsReadAlikeWithLess};

use crate::disk::Disk;

/// The text of events is read as these events, whatever stands after it that no LF ends: where its own head is wanted, or only
/// its plan; and so is one by the older rules, or of version 1, where no day is wanted, with what came to an exchange of these rules, and
/// what it sold.
pub fn read_again()
    ensures own { IsOwnTextReadAgain }
    ensures wanted { IsWantedTextReadAgain }
{}

/// What is read is spelled so: the whole lines are a text of the events that is wanted, by the rules that its first line names, and no
/// LF stands after them.
pub fn spelled()
    ensures { IsSpelledAsRead }
{}

/// One head and one list of events have one text, and one text has one of each. So two heads that differ, by the plan or by the day,
/// have no text in common.
pub fn one_text()
    ensures { HasOneHeadAndEvents }
{}

/// A journal is never taken for that of another head, whatever a crash left after its whole lines: what is read where a head is
/// wanted was written with this head, one by the older rules, or of version 1, is none of any day, and one by any other rules is refused
/// by all.
pub fn never_of_another()
    ensures head { IsReadWithItsHeadAlone }
    ensures older { IsOlderOfNoDay }
    ensures rules { IsReadByKnownRules }
{}

/// What an exchange reads that goes on, also after a crash, is read alike where less is wanted of it.
pub fn read_with_less()
    ensures { IsReadAlikeWithLess }
{}

/// Where no day is wanted, as by those who audit a journal, none is refused for its day.
pub fn no_other_day()
    ensures { (wanted : Wanted) (text : List ℕ) → wanted.day ≡ None → recovered wanted text ≡ Err OtherDay → ⊥ }
{}

/// Whatever was logged, event by event, and whenever a crash comes: what it leaves is read as a prefix of the events, with
/// each whose logging was done. (Those of `done` were, before any moment from `mid` on.) So nothing was ever sent for an event that
/// a restart does not know.
pub fn prefix_is_left<D: Disk>()
    ensures { LeavesDone D.holds D.may_leave D.moment D.left_since }
{}
