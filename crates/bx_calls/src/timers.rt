//! Timers, in seconds (ITU-T Q.931, 9.1 and 9.2). A timer started at moment m for n seconds is due at a tick
//! to moment m + n or later.

/// The network waits for CONNECT after ALERTING; Q.931 has at least 3 minutes.
pub const T301: u32 = 180;
/// A side waits for the first answer to its SETUP.
pub const T303: u32 = 4;
/// A side waits for RELEASE after its DISCONNECT.
pub const T305: u32 = 30;
/// A side waits for RELEASE COMPLETE after its RELEASE.
pub const T308: u32 = 4;
/// The network waits for ALERTING or CONNECT after CALL PROCEEDING.
pub const T310: u32 = 10;
/// The user waits for CONNECT after CALL PROCEEDING; Q.931 has 30 to 120 seconds.
pub const T310_USER: u32 = 30;
/// The network waits for what shows that a call is up, after its STATUS ENQUIRY.
pub const T322: u32 = 4;
/// The user waits for CONNECT ACKNOWLEDGE after CONNECT.
pub const T313: u32 = 4;
