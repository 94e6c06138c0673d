//! What holds of every run with an office.

ghost use Rattle.bx_office_world.specs.Keying.{IsSoldOncePerKey};
ghost use Rattle.bx_office_world.specs.FreeLaws.{IsFreeWhereItFits};

/// Of all that an office asks a run to sell no two batches are under one key, and none is under a key that was known when it was opened: that of a
/// sale in the journal of the day (`Ledger::of`). Since each sale is logged under the key of its batch (`nothing_off_log` of `bx_market`), two
/// requests with one key sell once, across restarts too.
pub fn once_per_key()
    ensures { IsSoldOncePerKey }
{}

/// On a day whose channels carry all that is promised, and whose plan has a row left, a batch of one booking of the wished length may be sold
/// (`IsChoice` of `bx_market`) just where its start is one of those that `free_text` tells.
pub fn free_where_it_fits()
    ensures { IsFreeWhereItFits }
{}
