//! Cause values and locations (ITU-T Q.931, 4.5.12; their numbers are those of Q.850).

/// The cause is given by the user.
pub const LOCATION_USER: u8 = 0;
/// The cause is given by the public network that serves the local user.
pub const LOCATION_LOCAL_NETWORK: u8 = 2;

pub const CHANNEL_UNACCEPTABLE: u8 = 6;

pub const NORMAL_CALL_CLEARING: u8 = 16;

pub const USER_BUSY: u8 = 17;

pub const CALL_REJECTED: u8 = 21;

pub const RESPONSE_TO_STATUS_ENQUIRY: u8 = 30;

pub const NO_CHANNEL_AVAILABLE: u8 = 34;

pub const TEMPORARY_FAILURE: u8 = 41;

pub const SWITCHING_EQUIPMENT_CONGESTION: u8 = 42;

pub const REQUESTED_CHANNEL_NOT_AVAILABLE: u8 = 44;

pub const RESOURCE_UNAVAILABLE: u8 = 47;

pub const INVALID_CALL_REFERENCE: u8 = 81;

pub const INCOMPATIBLE_DESTINATION: u8 = 88;

pub const MANDATORY_ELEMENT_MISSING: u8 = 96;

pub const MESSAGE_TYPE_UNKNOWN: u8 = 97;

pub const MESSAGE_NOT_COMPATIBLE: u8 = 101;

pub const RECOVERY_ON_TIMER_EXPIRY: u8 = 102;
