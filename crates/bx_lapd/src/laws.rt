//! What holds of the two ends of a link over every list of events.

ghost use Rattle.bx_lapd.specs.Anew.{Anew, SameLinks};
ghost use Rattle.bx_lapd.specs.Bounds.{Within};
ghost use Rattle.bx_lapd.specs.Law.{InOrder};
ghost use Rattle.bx_lapd.specs.Once.{Once};
ghost use Rattle.bx_lapd.specs.ReadBack.{ReadsBack};

/// A link delivers in order, at most once, and skips nothing (ITU-T Q.921, 5.6), whatever is lost or delayed between its ends, as long
/// as it stays up.
pub fn in_order()
    ensures { InOrder }
{}

/// Between two establishments a link skips nothing either, over any number of them, where layer 3 releases no link and T200 of an establishment
/// is due only once its SABME and the answer to that have come or were lost, as on a line whose round trip is below T200. To count from the
/// last establishment on changes nothing of the ends, or of the frames on the way (`links`).
pub fn in_order_anew()
    ensures order { Anew }
    ensures links { SameLinks }
{}

/// Every call keeps a link within its limits, whatever the peer sends: at most 7 I frames outstanding, at most 32 messages kept, numbers
/// below 128; and it sends at most 9 frames, each of at most 264 octets.
pub fn within()
    ensures { Within }
{}

/// A link delivers in order and at most once (ITU-T Q.921, 5.5 and 5.6), over any establishments and releases too, whatever is lost or
/// delayed between its ends.
pub fn once()
    ensures { Once }
{}

/// What an end writes, the other end reads as it was meant (ITU-T Q.921, 2.2 to 3.6).
pub fn reads_back()
    ensures { ReadsBack }
{}
