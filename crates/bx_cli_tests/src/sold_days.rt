//! Days on which bookings were sold, by journals that were written by hand: told, billed, printed, and gone on with.

use crate::file_commands::{Case, first_wrong};
use crate::files::{folder, parted, placed};
use crate::live_days::ends_with;
use crate::program::Answer::{Fails, FailsForGood, Misused, Prints};
use crate::program::run;
use std::alloc::{AllocError, Global};
use std::fs;
use std::test::Fail;

/// A plan of another hand, which is proved and not first fit, and is run and sold on as it is; and journals of it and of the plan in `two.txt`, two of
/// them by the rules 2.
static FILES: [(&str, &str); 27] = [
    (
        "hand.txt",
        "bx-plan 3\nchannels 1 2\nbookings 1\n0 60 5 1234 2 free out\nprices 0\ntotal 5\nend\n",
    ),
    (
        "sold.journal",
        "bx-journal 2 rules 3\nplan 7c35ee9492f27e9c9fec6d438270c41290c5bc10066cef31da15ea69a39e4bae\nday live 1577836800 1\ntick\nheard 0802800107\nsold 30 50 6 5678 - free out\nsold 60 90 2 99 - must out\ntick\ntick\ntick\ntick\ntick\ntick\ntick\ntick\ntick\ntick\ntick\ntick\ntick\ntick\ntick\ntick\ntick\ntick\ntick\ntick\ntick\ntick\ntick\ntick\ntick\ntick\ntick\ntick\ntick\nheard 0802800407\n",
    ),
    (
        "keyed.journal",
        "bx-journal 2 rules 3\nplan 7c35ee9492f27e9c9fec6d438270c41290c5bc10066cef31da15ea69a39e4bae\nday live 1577836800 1\ntick\nheard 0802800107\nsold under 0123456789abcdef0123456789abcdef fedcba9876543210fedcba9876543210 30 50 6 5678 - free out\nsold 60 90 2 99 - must out\ntick\ntick\ntick\ntick\ntick\ntick\ntick\ntick\ntick\ntick\ntick\ntick\ntick\ntick\ntick\ntick\ntick\ntick\ntick\ntick\ntick\ntick\ntick\ntick\ntick\ntick\ntick\ntick\ntick\nheard 0802800407\n",
    ),
    (
        "older.journal",
        "bx-journal 2 rules 2\nplan 7c35ee9492f27e9c9fec6d438270c41290c5bc10066cef31da15ea69a39e4bae\nday live 1577836800 1\ntick\nheard 0802800107\nsold 30 50 6 5678 - free out\nsold 60 90 2 99 - must out\ntick\ntick\ntick\ntick\ntick\ntick\ntick\ntick\ntick\ntick\ntick\ntick\ntick\ntick\ntick\ntick\ntick\ntick\ntick\ntick\ntick\ntick\ntick\ntick\ntick\ntick\ntick\ntick\ntick\nheard 0802800407\n",
    ),
    (
        "lacked.journal",
        "bx-journal 2 rules 3\nplan 7c35ee9492f27e9c9fec6d438270c41290c5bc10066cef31da15ea69a39e4bae\nday live 1577836800 1\ntick\ndown\ntick\nheard 080280015A080280D1\ntick\nheard 0802800107\ntick\n",
    ),
    (
        "lacked_older.journal",
        "bx-journal 2 rules 2\nplan 7c35ee9492f27e9c9fec6d438270c41290c5bc10066cef31da15ea69a39e4bae\nday live 1577836800 1\ntick\ndown\ntick\nheard 080280015A080280D1\ntick\nheard 0802800107\ntick\n",
    ),
    ("front.journal", PREFIX),
    (
        "unsold.journal",
        "bx-journal 2 rules 3\nplan 7c35ee9492f27e9c9fec6d438270c41290c5bc10066cef31da15ea69a39e4bae\nday live 1577836800 1\ntick\n",
    ),
    (
        "bad.journal",
        "bx-journal 2 rules 3\nplan 7c35ee9492f27e9c9fec6d438270c41290c5bc10066cef31da15ea69a39e4bae\nday live 1577836800 1\ntick\nsold nonsense\nbroken\n",
    ),
    (
        "given.journal",
        "bx-journal 2 rules 3\nplan 7c35ee9492f27e9c9fec6d438270c41290c5bc10066cef31da15ea69a39e4bae\nday live 1577836800 1\nsold 30 50 6 5678 2 free out\n",
    ),
    (
        "broken.journal",
        "bx-journal 2 rules 3\nplan 7c35ee9492f27e9c9fec6d438270c41290c5bc10066cef31da15ea69a39e4bae\nday live 1577836800 1\ntick\nbroken\nsold nonsense\n",
    ),
    (
        "late.journal",
        "bx-journal 2 rules 3\nplan 7c35ee9492f27e9c9fec6d438270c41290c5bc10066cef31da15ea69a39e4bae\nday live 1577836800 1\ntick\nsold 1 60 7 5678 - free out\n",
    ),
    (
        "full.journal",
        "bx-journal 2 rules 3\nplan 7c35ee9492f27e9c9fec6d438270c41290c5bc10066cef31da15ea69a39e4bae\nday live 1577836800 1\ntick\nsold 19 21 7 5678 - free out\n",
    ),
    (
        "hand.journal",
        "bx-journal 2 rules 3\nplan 0ff099e32eb798fba570fdff4d9ec7fe7ce093238c3b5f4a4285f72034822534\nday live 1577836800 1\ntick\nsold 60 90 7 5678 - free out\n",
    ),
    (
        "outage.journal",
        "bx-journal 2 rules 3\nplan 7c35ee9492f27e9c9fec6d438270c41290c5bc10066cef31da15ea69a39e4bae\nday live 1577836800 1\ntick\nheard 0802800107\ntick\ndown\ndown\ndown\ntick\ntick\ndown\n",
    ),
    (
        "empty.journal",
        "bx-journal 2 rules 3\nplan f1c4bdbd2170909011bcbfb1e2a2796df8052fa76528b23fbd4c6ad235334272\nday live 1577836800 1\ntick\n",
    ),
    (
        "amended.journal",
        "bx-journal 2 rules 3\nplan 7c35ee9492f27e9c9fec6d438270c41290c5bc10066cef31da15ea69a39e4bae\nday live 1577836800 1\ntick\nheard 0802800107\ncancelled 2\nchanged 1 0 70 6 1234 - free out\nsold 12 18 2 55 - free out\n",
    ),
    (
        "given_up.journal",
        "bx-journal 2 rules 3\nplan 7c35ee9492f27e9c9fec6d438270c41290c5bc10066cef31da15ea69a39e4bae\nday live 1577836800 1\ndown\ncancelled 2\n",
    ),
    (
        "gone.journal",
        "bx-journal 2 rules 3\nplan 7c35ee9492f27e9c9fec6d438270c41290c5bc10066cef31da15ea69a39e4bae\nday live 1577836800 1\ntick\ncancelled 3\n",
    ),
    (
        "twice.journal",
        "bx-journal 2 rules 3\nplan 7c35ee9492f27e9c9fec6d438270c41290c5bc10066cef31da15ea69a39e4bae\nday live 1577836800 1\ntick\ncancelled 2\ncancelled 2\n",
    ),
    (
        "begun.journal",
        "bx-journal 2 rules 3\nplan 7c35ee9492f27e9c9fec6d438270c41290c5bc10066cef31da15ea69a39e4bae\nday live 1577836800 1\ntick\ncancelled 1\n",
    ),
    (
        "moved.journal",
        "bx-journal 2 rules 3\nplan 7c35ee9492f27e9c9fec6d438270c41290c5bc10066cef31da15ea69a39e4bae\nday live 1577836800 1\ntick\nchanged 1 2 60 5 1234 - free out\n",
    ),
    (
        "crowded.journal",
        "bx-journal 2 rules 3\nplan 7c35ee9492f27e9c9fec6d438270c41290c5bc10066cef31da15ea69a39e4bae\nday live 1577836800 1\ntick\nsold 30 50 6 5678 - free out\nchanged 2 40 45 4 1234 - free in\n",
    ),
    (
        "unnamed.journal",
        "bx-journal 2 rules 3\nplan 7c35ee9492f27e9c9fec6d438270c41290c5bc10066cef31da15ea69a39e4bae\nday live 1577836800 1\ntick\ncancelled two\n",
    ),
    (
        "unchanged.journal",
        "bx-journal 2 rules 3\nplan 7c35ee9492f27e9c9fec6d438270c41290c5bc10066cef31da15ea69a39e4bae\nday live 1577836800 1\ntick\nchanged 2 nonsense\n",
    ),
    (
        "cancelled_older.journal",
        "bx-journal 2 rules 2\nplan 7c35ee9492f27e9c9fec6d438270c41290c5bc10066cef31da15ea69a39e4bae\nday live 1577836800 1\ntick\ncancelled 2\n",
    ),
    ("same.journal", SAME),
];

/// The journal in `front.journal`, and that in `same.journal`.
const PREFIX: &str =
    "bx-journal 2 rules 3\nplan 7c35ee9492f27e9c9fec6d438270c41290c5bc10066cef31da15ea69a39e4bae\nday live 1577836800 1\ndown\nsold 30 50 6 5678 - free out\nsold 60 90 2 99 - must out\n";

const SAME: &str =
    "bx-journal 2 rules 3\nplan 0ff099e32eb798fba570fdff4d9ec7fe7ce093238c3b5f4a4285f72034822534\nday live 1577836800 1\ndown\nsold 30 50 6 5678 - free out\n";

/// What the journals tell of their days: of one by the rules 2 the same as of one by the rules 3, where these hear all alike, and where the
/// far end lacks a call it is asked for, what each of them makes of it.
static CASES: [Case; 38] = [
    (
        "audit @two.txt @sold.journal",
        Prints("1 live\n2 missed\n3 refused\n4 live\n5 waiting\nmaintenance none\n"),
    ),
    (
        "records @two.txt @sold.journal --quiet",
        Prints(
            "row,direction,number,channel,start,end,pay,outcome,from,until,seconds\n1,out,1234,1,0,60,5,live,1,,\n2,in,1234,2,10,20,4,missed,,,\n3,out,77,,15,20,1,refused,,,\n4,out,5678,2,30,50,6,live,30,,\n5,out,99,1,60,90,2,waiting,,,\n",
        ),
    ),
    (
        "sold @two.txt @sold.journal",
        Prints(
            "bx-plan 3\nchannels 1 2\nbookings 5\n0 60 5 1234 1 free out\n10 20 4 1234 2 free in\n15 20 1 77 - free out\n30 50 6 5678 2 free out\n60 90 2 99 1 must out\nprices 1\n15 1\ntotal 17\nend\n",
        ),
    ),
    (
        "sold @two.txt @keyed.journal",
        Prints(
            "bx-plan 3\nchannels 1 2\nbookings 5\n0 60 5 1234 1 free out\n10 20 4 1234 2 free in\n15 20 1 77 - free out\n30 50 6 5678 2 free out\n60 90 2 99 1 must out\nprices 1\n15 1\ntotal 17\nend\n",
        ),
    ),
    (
        "audit @two.txt @sold.journal --capture @sold.pcap",
        Prints("1 live\n2 missed\n3 refused\n4 live\n5 waiting\nmaintenance none\n"),
    ),
    (
        "audit @two.txt @older.journal --capture @older.pcap",
        Prints("1 live\n2 missed\n3 refused\n4 live\n5 waiting\nmaintenance none\n"),
    ),
    (
        "records @two.txt @older.journal --quiet",
        Prints(
            "row,direction,number,channel,start,end,pay,outcome,from,until,seconds\n1,out,1234,1,0,60,5,live,1,,\n2,in,1234,2,10,20,4,missed,,,\n3,out,77,,15,20,1,refused,,,\n4,out,5678,2,30,50,6,live,30,,\n5,out,99,1,60,90,2,waiting,,,\n",
        ),
    ),
    (
        "audit @two.txt @lacked.journal",
        Prints("1 live\n2 waiting\n3 refused\nmaintenance none\n"),
    ),
    (
        "audit @two.txt @lacked_older.journal",
        Prints("1 unanswered\n2 waiting\n3 refused\nmaintenance none\n"),
    ),
    (
        "sold @two.txt @unsold.journal",
        Prints(
            "bx-plan 3\nchannels 1 2\nbookings 3\n0 60 5 1234 1 free out\n10 20 4 1234 2 free in\n15 20 1 77 - free out\nprices 1\n15 1\ntotal 9\nend\n",
        ),
    ),
    (
        "audit @two.txt @amended.journal",
        Prints("1 live\n2 cancelled\n3 refused\n4 waiting\nmaintenance none\n"),
    ),
    (
        "records @two.txt @amended.journal --quiet",
        Prints(
            "row,direction,number,channel,start,end,pay,outcome,from,until,seconds\n1,out,1234,1,0,70,6,live,1,,\n2,in,1234,,10,20,4,refused,,,\n3,out,77,,15,20,1,refused,,,\n4,out,55,2,12,18,2,waiting,,,\n",
        ),
    ),
    (
        "sold @two.txt @amended.journal",
        Prints(
            "bx-plan 3\nchannels 1 2\nbookings 4\n0 70 6 1234 1 free out\n10 20 4 1234 - free in\n15 20 1 77 - free out\n12 18 2 55 2 free out\nprices 1\n15 2\ntotal 8\nend\n",
        ),
    ),
    ("audit @two.txt @gone.journal", Fails("bx: J14 NoBooking\n")),
    (
        "audit @two.txt @twice.journal",
        Fails("bx: J14 NoBooking\n"),
    ),
    (
        "audit @two.txt @begun.journal",
        Fails("bx: J15 LateChange\n"),
    ),
    (
        "audit @two.txt @moved.journal",
        Fails("bx: J15 LateChange\n"),
    ),
    (
        "audit @two.txt @crowded.journal",
        Fails("bx: J12 NotCarried\n"),
    ),
    ("sold @two.txt @unnamed.journal", Fails("bx: J9 BadSale\n")),
    (
        "sold @two.txt @unchanged.journal",
        Fails("bx: J9 BadSale\n"),
    ),
    (
        "audit @two.txt @cancelled_older.journal",
        Fails("bx: J1 BadLine 5\n"),
    ),
    ("sold @one.txt @none.txt", Fails("bx: J1 BadLine 1\n")),
    (
        "audit @hand.txt @same.journal",
        Prints("1 waiting\n2 waiting\nmaintenance none\n"),
    ),
    ("audit @two.txt @bad.journal", Fails("bx: J9 BadSale\n")),
    ("audit @two.txt @given.journal", Fails("bx: J9 BadSale\n")),
    ("records @two.txt @bad.journal", Fails("bx: J9 BadSale\n")),
    ("sold @two.txt @bad.journal", Fails("bx: J9 BadSale\n")),
    (
        "audit @two.txt @bad.journal --capture @gone/day.pcap",
        Fails("bx: J9 BadSale\n"),
    ),
    (
        "audit @two.txt @broken.journal",
        Fails("bx: J1 BadLine 5\n"),
    ),
    ("audit @two.txt @late.journal", Fails("bx: J10 LateSale\n")),
    (
        "audit @two.txt @full.journal",
        Fails("bx: J12 NotCarried\n"),
    ),
    (
        "audit @hand.txt @hand.journal",
        Prints("1 live\n2 waiting\nmaintenance none\n"),
    ),
    (
        "sold @hand.txt @hand.journal",
        Prints(
            "bx-plan 3\nchannels 1 2\nbookings 2\n0 60 5 1234 2 free out\n60 90 7 5678 1 free out\nprices 0\ntotal 12\nend\n",
        ),
    ),
    ("sold @one.txt @sold.journal", Fails("bx: J2 OtherPlan\n")),
    ("sold @two.txt @gone", Fails("bx: F1 CannotRead @gone\n")),
    ("sold @unproved.txt @gone", Fails("bx: C7 NotProved 5\n")),
    ("sold @two.txt", Misused),
    ("sold @two.txt @sold.journal --date 2026-01-05", Misused),
];

/// Days that go on after what was sold, until their last booking is over; and days that do not go on.
static LIVE: [Case; 13] = [
    (
        "serve @two.txt --live --line 19809:19810 --date 2020-01-01 --journal @front.journal",
        Prints("1 missed\n2 missed\n3 refused\n4 missed\n5 missed\nmaintenance none\n"),
    ),
    (
        "audit @two.txt @front.journal",
        Prints("1 missed\n2 missed\n3 refused\n4 missed\n5 missed\nmaintenance none\n"),
    ),
    (
        "sold @two.txt @front.journal",
        Prints(
            "bx-plan 3\nchannels 1 2\nbookings 5\n0 60 5 1234 1 free out\n10 20 4 1234 2 free in\n15 20 1 77 - free out\n30 50 6 5678 2 free out\n60 90 2 99 1 must out\nprices 1\n15 1\ntotal 17\nend\n",
        ),
    ),
    (
        "audit @two.txt @given_up.journal",
        Prints("1 waiting\n2 cancelled\n3 refused\nmaintenance none\n"),
    ),
    (
        "serve @two.txt --live --line 19809:19810 --date 2020-01-01 --journal @given_up.journal",
        Prints("1 missed\n2 cancelled\n3 refused\nmaintenance none\n"),
    ),
    (
        "audit @two.txt @given_up.journal",
        Prints("1 missed\n2 cancelled\n3 refused\nmaintenance none\n"),
    ),
    (
        "serve @two.txt --live --line 19809:19810 --date 2020-01-01 --journal @bad.journal",
        FailsForGood("bx: J9 BadSale\n"),
    ),
    (
        "serve @two.txt --live --line 19809:19810 --date 2020-01-01 --journal @late.journal",
        FailsForGood("bx: J10 LateSale\n"),
    ),
    (
        "serve @two.txt --live --line 19809:19810 --date 2020-01-01 --journal @begun.journal",
        FailsForGood("bx: J15 LateChange\n"),
    ),
    (
        "serve @two.txt --live --line 19809:19810 --date 2020-01-01 --journal @older.journal",
        FailsForGood("bx: J8 OtherRules\n"),
    ),
    (
        "serve @hand.txt --live --line 19809:19810 --date 2020-01-01 --journal @same.journal",
        Prints("1 missed\n2 missed\nmaintenance none\n"),
    ),
    (
        "sold @hand.txt @same.journal",
        Prints(
            "bx-plan 3\nchannels 1 2\nbookings 2\n0 60 5 1234 2 free out\n30 50 6 5678 1 free out\nprices 0\ntotal 11\nend\n",
        ),
    ),
    (
        "serve @hand.txt --live --line 19809:19810 --date 2020-01-01",
        Prints("1 missed\nmaintenance none\n"),
    ),
];

/// Days with a booking office beside them; and why others have none. The first three stand at one place one after another.
static OFFICES: [Case; 11] = [
    (
        "serve @two.txt --live --line 19811:19812 --date 2020-01-01 --journal @office.journal --turns 130 --office @office.sock",
        Prints("1 missed\n2 missed\n3 refused\nmaintenance none\n"),
    ),
    (
        "serve @two.txt --live --line 19811:19812 --date 2020-01-01 --journal @office.journal --turns 131 --office @office.sock",
        Prints("1 missed\n2 missed\n3 refused\nmaintenance none\n"),
    ),
    (
        "serve @two.txt --live --line 19811:19812 --date 2020-01-01 --journal @late.journal --turns 130 --office @office.sock",
        FailsForGood("bx: J10 LateSale\n"),
    ),
    (
        "serve @two.txt --live --line 19811:19812 --date 2020-01-01 --journal @new.journal --office @gone/office.sock",
        Fails("bx: F3 CannotListen\n"),
    ),
    (
        "serve @two.txt --live --line 19811:19812 --date 2020-01-01 --journal @new.journal --office @one.txt",
        Fails("bx: F3 CannotListen\n"),
    ),
    (
        "serve @hand.txt --live --line 19811:19812 --date 2020-01-01 --journal @new.journal --turns 130 --office @office.sock",
        Prints("1 missed\nmaintenance none\n"),
    ),
    (
        "serve @two.txt --live --line 19811:19812 --date 2020-01-01 --office @office.sock",
        Misused,
    ),
    (
        "serve @two.txt --live --line 19811:19812 --date 2020-01-01 --journal @new.journal --office @office.sock --office-port 19813",
        Misused,
    ),
    (
        "serve @two.txt --live --line 19811:19812 --date 2020-01-01 --journal @new.journal --office-port 0",
        Misused,
    ),
    (
        "serve @two.txt --port 19811 --journal @new.journal --office @office.sock",
        Misused,
    ),
    (
        "day @two.txt @script.csv --journal @new.journal --office @office.sock",
        Misused,
    ),
];

/// What is drawn of days by their journals: what the head of a picture says, the line at now, and all that stands in the part whose units are
/// seconds. Bookings were sold on the first, the link was lost twice on the second, and the last one has no calls.
static DRAWN: [(&str, &str); 3] = [
    (
        "chart @two.txt --journal @sold.journal",
        "<text class='head' x='56' y='26'>Paid 0 of 17, as far as 0:00:30</text>\n<text x='56' y='46'>0 of 4 calls carried, 2 live, 1 waiting, 0 unanswered, 1 missed; outages of the link: 0</text>\n<g><title>row 1: 1234 pays 5, 0:00:00 to 0:01:00; live; carried from 0:00:01 until 0:00:30</title><rect class='free out planned live' x='0' y='3' width='60' height='5'/><rect class='free out carried' x='1' y='3' width='29' height='5'/></g>\n<g><title>row 2: 1234 pays 4, 0:00:10 to 0:00:20; missed</title><rect class='free in planned' x='10' y='13' width='10' height='5'/><path class='mark' d='M10 18L20 13'/></g>\n<g><title>row 4: 5678 pays 6, 0:00:30 to 0:00:50; live; carried from 0:00:30 until 0:00:30</title><rect class='free out planned live' x='30' y='13' width='20' height='5'/><rect class='free out carried' x='30' y='13' width='0' height='5'/></g>\n<g><title>row 5: 99 pays 2, 0:01:00 to 0:01:30; waiting</title><rect class='must out planned' x='60' y='1' width='30' height='9'/></g>\n<path class='now' d='M56.3 92V124'/>\n",
    ),
    (
        "chart @two.txt --journal @outage.journal",
        "<text class='head' x='56' y='26'>Paid 0 of 9, as far as 0:00:08</text>\n<text x='56' y='46'>0 of 2 calls carried, 1 live, 1 waiting, 0 unanswered, 0 missed; outages of the link: 2</text>\n<g><title>row 1: 1234 pays 5, 0:00:00 to 0:01:00; live; carried from 0:00:01 until 0:00:08</title><rect class='free out planned live' x='0' y='3' width='60' height='5'/><rect class='free out carried' x='1' y='3' width='7' height='5'/></g>\n<g><title>row 2: 1234 pays 4, 0:00:10 to 0:00:20; waiting</title><rect class='free in planned' x='10' y='13' width='10' height='5'/></g>\n<rect class='outage' x='2' y='0' width='3' height='20'><title>no link from 0:00:02 until 0:00:05</title></rect>\n<rect class='outage' x='7' y='0' width='1' height='20'><title>no link from 0:00:07 until 0:00:08</title></rect>\n<path class='now' d='M56.1 92V124'/>\n",
    ),
    (
        "chart @none.txt --journal @empty.journal",
        "<text class='head' x='56' y='26'>Paid 0 of 0</text>\n<text x='56' y='46'>0 of 0 calls carried, 0 live, 0 waiting, 0 unanswered, 0 missed; outages of the link: 0</text>\n",
    ),
];

/// How that part begins, and how it ends.
const PART: &[u8] = b"<svg x='56' y='92' ";

const PART_END: &[u8] = b"</svg>";

/// Whether a line of a picture is looked at outside of that part.
fn is_told(line: &[u8]) -> bool {
    line.starts_with(b"<text class='head' ")
        || line.starts_with(b"<text x='56' ")
        || line.starts_with(b"<path class='now' ")
}

/// These lines of a picture, and that part of it.
fn pieces_of(alloc: Global, picture: &[u8]) -> Result<Vec<u8>, AllocError> {
    let mut pieces = Vec::new(alloc);
    let mut is_inside = false;
    for line in picture.split(|octet| *octet == b'\n') {
        let is_end = line == PART_END;
        if is_inside && !is_end || is_told(line) {
            pieces.extend_from_slice(line)?;
            pieces.push(b'\n')?;
        }
        is_inside = !is_end && (is_inside || line.starts_with(PART));
    }
    Ok(pieces)
}

/// The first of these words for which another picture is drawn, or none.
fn drawn_otherwise(rt: &HostRuntime, folder: &str) -> Result<Option<&'static str>, Fail> {
    for (words, pieces) in &DRAWN {
        let placed = placed(rt.alloc(), words, folder)?;
        let done = run(rt, &parted(rt.alloc(), &placed)?, "");
        let drawn = pieces_of(rt.alloc(), &done.output)?;
        if done.status != 0 || drawn.as_slice() != pieces.as_bytes() {
            return Ok(Some(*words));
        }
    }
    Ok(None)
}

/// Why a day is not drawn by its journal.
static UNDRAWN: [Case; 6] = [
    (
        "chart @two.txt --journal @bad.journal",
        Fails("bx: J9 BadSale\n"),
    ),
    (
        "chart @one.txt --journal @sold.journal",
        Fails("bx: J2 OtherPlan\n"),
    ),
    (
        "chart @two.txt --journal @gone",
        Fails("bx: F1 CannotRead @gone\n"),
    ),
    (
        "chart @unproved.txt --journal @gone",
        Fails("bx: C7 NotProved 5\n"),
    ),
    (
        "chart @gone --journal @gone --date 2026-02-29",
        Fails("bx: A1 BadDate\n"),
    ),
    ("chart @two.txt --journal", Misused),
];

#[test]
fn days_with_sales(rt: HostRuntime) -> Result<(), Fail> {
    let folder = folder(&rt)?;
    for (name, text) in &FILES {
        let path = format!(in rt.alloc(); "{folder}/{name}")?;
        fs::write(&rt, path.as_str(), *text)?;
    }
    assert_eq!(rt; first_wrong(&rt, &folder, &CASES)?, None);
    assert_eq!(rt; first_wrong(&rt, &folder, &LIVE)?, None);
    assert_eq!(rt; first_wrong(&rt, &folder, &OFFICES)?, None);
    assert_eq!(rt; drawn_otherwise(&rt, &folder)?, None);
    assert_eq!(rt; first_wrong(&rt, &folder, &UNDRAWN)?, None);
    let path = placed(rt.alloc(), "@front.journal", &folder)?;
    let octets = fs::read(&rt, path.as_str())?;
    assert!(rt;
        ends_with(&octets, PREFIX.as_bytes(), 89),
        "each second up to the last"
    );
    let path = placed(rt.alloc(), "@same.journal", &folder)?;
    let octets = fs::read(&rt, path.as_str())?;
    assert!(rt;
        ends_with(&octets, SAME.as_bytes(), 59),
        "each second up to the last, of a plan that is not first fit too"
    );
    fs::remove_dir_all(&rt, folder.as_str())?;
    Ok(())
}
