//! What each fault means, in one line.

/// The faults in the order of the documents: what is printed after `bx: `, and what it means. A letter in small print stands
/// for a number.
pub const FAULTS: &str =
    "P1 BadLine n          line n of a plan has another form than the line that stands in its place, or is missing
P2 BadCount           a plan announces more than 16,000 bookings or 32,000 prices
P3 OutOfLimits n      line n of a plan has the right form, and a value outside its limits
P4 Trailing           octets follow the end of a plan
C1 OtherBookings      the plan states other bookings, or in another order
C2 OtherChannels      the plan states other channels
C3 NotInService b     accepted row b has a channel that is not in service
C4 Overlap a b        accepted rows a and b overlap on one channel
C5 WrongTotal         the total of the plan is not what its accepted rows pay
C6 PricesOutOfOrder   the moments of the prices do not rise
C7 NotProved bound    the prices set this bound, above the total: they do not prove the plan best
C8 MustLeftOut b      row b must be held, and is not accepted
F1 CannotRead NAME    the file cannot be opened or read, or has more than 4,194,304 octets
F2 CannotWrite        standard output failed
F3 CannotListen       the port or the socket cannot be listened on, or the line's own port cannot be had
F4 CannotConnect      nobody listens on the port or the socket, or the line's other port cannot be spoken to
F5 CannotWrite NAME   the file of the capture or of the records cannot be created, or a write of it failed
F6 SameFile NAME      the file is to be written, and is read too, or written twice; nothing was opened
G1 ReadFailed         a read of the bookings failed
G2 TooLong            the bookings have more than 4,194,304 octets
G4 WriteFailed        standard output failed while the plan was written
G5 TooManyMust t      at second t more bookings must be held than there are channels
K1 TooManyMust t      at second t more promised and must bookings run than there are channels
K2 TooMany            the plan and the bookings together have more than 16,000 rows
Q1 NoChannel t        at second t must bookings have all channels
Q2 NoSuchRow          the plan has no row of this number
Q3 Accepted r         the plan accepts row r
A1 BadDate            the date is not of the form YYYY-MM-DD, or names no day
A2 BadZone            the zone rule cannot be read
A3 OutOfRange         the day is outside the calendar's range
A4 OddDay             the day is not 1 to 200,000 seconds long
A5 BeyondCapture      a capture or a live day cannot name the seconds of the day: it begins before 1970, or after 2106-02-03T19:08:15Z
B1 BadHeader          the first line of the bookings is none of the headers
B2 WrongColumns r     row r has another number of fields than the header
B3 NotATime r         a field of row r is not a time
B4 NotWholeSeconds r  a time of row r has a fraction of a second
B5 OutsideDay r       a time of row r is before the day, or after its end
B6 EndNotAfterStart r row r ends at its start, or before it
B7 BadNumber r        the number of row r is not 1 to 15 digits
B8 BadPay r           the pay of row r is not 1 to 1,000,000,000
B9 TooMany            there are more than 16,000 bookings
B10 BadMust r         the mark of row r is neither yes nor no
B11 BadDirection r    the direction of row r is neither out nor in
S1 BadHeader          the first line of the script is neither header
S2 WrongColumns r     row r of the script has another number of fields than the header
S3 BadEntry r         a field of row r of the script is none that may stand there
S4 TooMany            the script has more than 16,000 rows
J1 BadLine n          line n of the journal has another form than the line that stands in its place; where it is the first, the journal was cut: join what was cut off with it
J2 OtherPlan          the journal is that of another plan
J3 NotEmpty NAME      the file that is to take the journal of a new day holds something
J4 CannotRecord NAME  the journal cannot be written, or it was removed, renamed or cut while its day ran
J5 OtherDay           the journal is that of another day: of another date, zone or pace, or of a rehearsal
J6 InUse NAME         another program writes the journal
J7 NotAFile NAME      what is to be the journal is no plain file
J8 OtherRules         the journal has other rules than 3, by which bx 0.2.0 goes on with a day; of days by the rules 2 it only tells
J9 BadSale            a line of the journal says what became of a booking, and tells no booking, or names no row by its number
J10 LateSale          the journal says that a booking was sold which had started by then
J11 TooMany           the journal says that a booking was sold when the day had 16,000
J12 NotCarried        the journal says that a booking was sold or changed which does not fit beside what was promised
J13 TookOver          the journal says that a booking was sold on a day that took over from another, where it has no reference of its own
J14 NoBooking         the journal says that a booking was given up or changed, and the day had none of that row that was promised
J15 LateChange        the journal says that a booking was given up or changed which could not be so any more
J16 BadChannel        the journal says that a channel was left which is none of the plan, or was not in maintenance
L1 ReadFailed         the link: a read failed
L2 WriteFailed        the link: a write failed
L3 EndedInFrame       the link: it ended inside a frame, or before the end of a turn
L4 BadLength          the link: a frame has a wrong length
L5 UnknownKind        the link: a frame has an unknown kind
L6 MoreThan64Messages the link: more than 64 messages came in one turn
L7 WrongMoment        the link: an end of turn has another moment
L8 Closed             the link: the session was closed before
L9 LinkReset          the link: the data link was released or established anew
L10 StillUp           the live day has come to second 300,000, and a call is up
N1 NotABChannel n     n is no B channel: 0, 16, or above 31
N2 Repeated n         channel n stands twice
H1 NotHex             the word is not pairs of hexadecimal digits
M1 TooShort           the octets end inside the head of a message
M2 NotQ931            the first octet is not 08
M3 BadCallReference   the length of the call reference is wrong
M4 TornElement        an information element is not whole
M5 TooLong            the message has more than 260 octets
Memory                memory ran out
";
