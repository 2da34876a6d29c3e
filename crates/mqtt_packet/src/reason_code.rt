//! Reason Codes (section 2.4).

ghost use Rattle.std.specs.Prelude.{◌≡◌, ◌≤◌, ◌↔◌, IsTrue};

use std::marker::Model;

/// A Reason Code: a byte that says what became of a request, a failure from 80 on (section 2.4).
///
/// The constants are the codes that this broker sends, by the standard's names; any other byte may be read.
#[derive(Clone, Copy, Debug, PartialEq, Eq)]
pub struct ReasonCode {
    code: u8,
}

impl Model for ReasonCode {
    ghost use Rattle.std.specs.Prelude.{ℕ};

    ghost Value = { ℕ };

    ghost view = { λ reason. reason.code };

    ghost inverse = { λ number. record { code = number } };
}

impl ReasonCode {
    pub const SUCCESS: ReasonCode = ReasonCode { code: 0x00 };

    pub const GRANTED_QOS_1: ReasonCode = ReasonCode { code: 0x01 };

    pub const NO_MATCHING_SUBSCRIBERS: ReasonCode = ReasonCode { code: 0x10 };

    pub const NO_SUBSCRIPTION_EXISTED: ReasonCode = ReasonCode { code: 0x11 };

    pub const MALFORMED_PACKET: ReasonCode = ReasonCode { code: 0x81 };

    pub const PROTOCOL_ERROR: ReasonCode = ReasonCode { code: 0x82 };

    pub const IMPLEMENTATION_SPECIFIC_ERROR: ReasonCode = ReasonCode { code: 0x83 };

    pub const UNSUPPORTED_PROTOCOL_VERSION: ReasonCode = ReasonCode { code: 0x84 };

    pub const CLIENT_IDENTIFIER_NOT_VALID: ReasonCode = ReasonCode { code: 0x85 };

    pub const BAD_USER_NAME_OR_PASSWORD: ReasonCode = ReasonCode { code: 0x86 };

    pub const NOT_AUTHORIZED: ReasonCode = ReasonCode { code: 0x87 };

    pub const SERVER_BUSY: ReasonCode = ReasonCode { code: 0x89 };

    pub const SERVER_SHUTTING_DOWN: ReasonCode = ReasonCode { code: 0x8B };

    pub const BAD_AUTHENTICATION_METHOD: ReasonCode = ReasonCode { code: 0x8C };

    pub const KEEP_ALIVE_TIMEOUT: ReasonCode = ReasonCode { code: 0x8D };

    pub const SESSION_TAKEN_OVER: ReasonCode = ReasonCode { code: 0x8E };

    pub const TOPIC_FILTER_INVALID: ReasonCode = ReasonCode { code: 0x8F };

    pub const TOPIC_ALIAS_INVALID: ReasonCode = ReasonCode { code: 0x94 };

    pub const PACKET_TOO_LARGE: ReasonCode = ReasonCode { code: 0x95 };

    pub const QUOTA_EXCEEDED: ReasonCode = ReasonCode { code: 0x97 };

    pub const RETAIN_NOT_SUPPORTED: ReasonCode = ReasonCode { code: 0x9A };

    pub const QOS_NOT_SUPPORTED: ReasonCode = ReasonCode { code: 0x9B };

    pub const SUBSCRIPTION_IDENTIFIERS_NOT_SUPPORTED: ReasonCode = ReasonCode { code: 0xA1 };

    /// The code of that byte.
    pub fn new(code: u8) -> ReasonCode
        ensures { result ≡ code }
    {
        ReasonCode { code }
    }

    /// Its byte.
    pub fn get(self) -> u8
        ensures { result ≡ self }
    {
        self.code
    }

    /// Whether it says that the request failed.
    pub fn is_failure(self) -> bool
        ensures { IsTrue result ↔ (0x80 ≤ self) }
    {
        self.code >= 0x80
    }
}
