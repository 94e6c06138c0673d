//! Marks on the bars of calls of which not all was carried.

ghost use Rattle.std.specs.Prelude.{◌≡◌, ◌++◌, true, OnOk};
ghost use Rattle.bx_chart.specs.Plain.{is_plain};
ghost use Rattle.bx_day_chart.specs.Marks.{crossed, fallen, mark_of, point, risen};

use bx_base::Booking;
use bx_chart::Picture;
use bx_day::Standing;
use std::alloc::AllocError;

/// How far down a bar begins, and how far down it ends.
#[derive(Clone, Copy)]
pub(crate) struct Edges {
    pub top: u64,
    pub bottom: u64,
}

/// Adds a point of a stroke.
fn add_point(picture: &mut Picture, word: &[u8], across: u32, down: u64) -> Result<(), AllocError>
    requires { is_plain word.now ≡ true }
    ensures { OnOk result (picture.new.text.items ≡ picture.old.text.items ++ point word.now across down) }
{
    picture.add_number(word, u64::from(across))?;
    picture.add_number(b" ", down)
}

/// Adds a stroke that rises from the lower left to the upper right.
fn add_risen(picture: &mut Picture, from: u32, until: u32, edges: Edges) -> Result<(), AllocError>
    ensures { OnOk result (picture.new.text.items ≡ picture.old.text.items ++ risen from until edges.top edges.bottom) }
{
    add_point(picture, b"<path class='mark' d='M", from, edges.bottom)?;
    add_point(picture, b"L", until, edges.top)?;
    picture.add(b"'/>")
}

/// Adds one that falls from the upper left to the lower right.
fn add_fallen(picture: &mut Picture, from: u32, until: u32, edges: Edges) -> Result<(), AllocError>
    ensures { OnOk result (picture.new.text.items ≡ picture.old.text.items ++ fallen from until edges.top edges.bottom) }
{
    add_point(picture, b"<path class='mark' d='M", from, edges.top)?;
    add_point(picture, b"L", until, edges.bottom)?;
    picture.add(b"'/>")
}

/// Adds both.
fn add_crossed(picture: &mut Picture, from: u32, until: u32, edges: Edges) -> Result<(), AllocError>
    ensures { OnOk result (picture.new.text.items ≡ picture.old.text.items ++ crossed from until edges.top edges.bottom) }
{
    add_risen(picture, from, until, edges)?;
    add_fallen(picture, from, until, edges)
}

/// Adds the mark of a booking of which this has become: a rising stroke where it was missed, a cross where it was not answered, and a falling stroke over what
/// was not carried after a call that ended early.
pub(crate) fn add_mark(
    picture: &mut Picture,
    booking: &Booking,
    standing: &Standing,
    edges: Edges,
) -> Result<(), AllocError>
    ensures { OnOk result (picture.new.text.items ≡ picture.old.text.items ++ mark_of booking.now edges.top edges.bottom standing.now) }
{
    let (start, end) = (booking.start(), booking.end());
    match standing {
        Standing::Missed => add_risen(picture, start, end, edges),
        Standing::Unanswered => add_crossed(picture, start, end, edges),
        Standing::Carried { until, .. } if *until < end => add_fallen(picture, *until, end, edges),
        _ => Ok(()),
    }
}
