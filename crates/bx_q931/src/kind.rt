//! The types of messages.

ghost use Rattle.std.specs.Prelude.{◌≡◌};
ghost use Rattle.bx_q931.specs.Kinds.{kind_of, octet_of, name_of};

/// The type of a message (ITU-T Q.931, 4.4).
#[derive(Clone, Copy, Debug, PartialEq, Eq)]
pub enum Kind {
    Alerting,
    CallProceeding,
    Progress,
    Setup,
    Connect,
    SetupAcknowledge,
    ConnectAcknowledge,
    Disconnect,
    Release,
    ReleaseComplete,
    Notify,
    StatusEnquiry,
    Information,
    Status,
    /// Any other octet.
    Other(u8),
}

impl Kind {
    /// The type with this octet.
    pub fn of(octet: u8) -> Kind
        ensures { result ≡ kind_of octet }
    {
        match octet {
            0x01 => Kind::Alerting,
            0x02 => Kind::CallProceeding,
            0x03 => Kind::Progress,
            0x05 => Kind::Setup,
            0x07 => Kind::Connect,
            0x0D => Kind::SetupAcknowledge,
            0x0F => Kind::ConnectAcknowledge,
            0x45 => Kind::Disconnect,
            0x4D => Kind::Release,
            0x5A => Kind::ReleaseComplete,
            0x6E => Kind::Notify,
            0x75 => Kind::StatusEnquiry,
            0x7B => Kind::Information,
            0x7D => Kind::Status,
            other => Kind::Other(other),
        }
    }

    /// The octet of this type.
    pub fn octet(self) -> u8
        ensures { result ≡ octet_of self }
    {
        match self {
            Kind::Alerting => 0x01,
            Kind::CallProceeding => 0x02,
            Kind::Progress => 0x03,
            Kind::Setup => 0x05,
            Kind::Connect => 0x07,
            Kind::SetupAcknowledge => 0x0D,
            Kind::ConnectAcknowledge => 0x0F,
            Kind::Disconnect => 0x45,
            Kind::Release => 0x4D,
            Kind::ReleaseComplete => 0x5A,
            Kind::Notify => 0x6E,
            Kind::StatusEnquiry => 0x75,
            Kind::Information => 0x7B,
            Kind::Status => 0x7D,
            Kind::Other(octet) => octet,
        }
    }

    /// The name of this type in capitals, `UNKNOWN` for one that Q.931 does not name.
    pub fn name(self) -> &'static str
        ensures { result.now ≡ name_of self }
    {
        match self {
            Kind::Alerting => "ALERTING",
            Kind::CallProceeding => "CALL PROCEEDING",
            Kind::Progress => "PROGRESS",
            Kind::Setup => "SETUP",
            Kind::Connect => "CONNECT",
            Kind::SetupAcknowledge => "SETUP ACKNOWLEDGE",
            Kind::ConnectAcknowledge => "CONNECT ACKNOWLEDGE",
            Kind::Disconnect => "DISCONNECT",
            Kind::Release => "RELEASE",
            Kind::ReleaseComplete => "RELEASE COMPLETE",
            Kind::Notify => "NOTIFY",
            Kind::StatusEnquiry => "STATUS ENQUIRY",
            Kind::Information => "INFORMATION",
            Kind::Status => "STATUS",
            Kind::Other(0x46) => "RESTART",
            Kind::Other(0x4E) => "RESTART ACKNOWLEDGE",
            Kind::Other(_) => "UNKNOWN",
        }
    }
}
