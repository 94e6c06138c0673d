//! What holds of every live run.

ghost use Rattle.std.specs.Prelude.{◌≡◌, ◌≤◌, ◌+◌, ◌++◌, ◌∷◌, List};
ghost use Rattle.bx_day.specs.Day.{Day};
ghost use Rattle.bx_live.specs.Acts.{Act, logged_by};
ghost use Rattle.bx_live.specs.Runs.{Place, Between, IsRun};
ghost use Rattle.bx_live.specs.Syncs.{syncs_in, waits_in};
ghost use Rattle.bx_live.specs.Written.{filed, written, AllIsLogged, AllIsWritten};

/// Whatever is written to a peer is what the exchange sends for the last event in the journal; where messages are sent for it, all that
/// is logged is on the disk by then. What is logged is on the disk, or after the last sync.
pub fn written_is_logged()
    ensures written { AllIsLogged }
    ensures filed { (acts : List Act) → (filed acts).disk ++ (filed acts).more ≡ logged_by acts }
{}

/// From one place of a run to another, where no logging, sync or write fails: what is written is just what the day's definition
/// gives for the logged events, in order and once, but for what is still owed.
pub fn all_is_written()
    ensures { AllIsWritten }
{}

/// A run waits for the disk at most once for each second and each frame that it waited for, and once at its end: what was there already when
/// something was heard is brought to the disk with it, however much that is.
pub fn syncs_are_shared()
    ensures { (d : Day) (acts : List Act) (to : Place) → IsRun (Between d) acts to → syncs_in acts ≤ 1 + waits_in acts }
{}
