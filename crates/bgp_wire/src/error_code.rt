//! What kind of error a NOTIFICATION reports (RFC 4271, 4.5).

ghost use Rattle.std.specs.Prelude.{◌≡◌, IfSome, IfNone};
ghost use Rattle.bgp_wire.specs.ErrorCode.{error_code, IsUnassigned};

/// What kind of error a NOTIFICATION reports, by its Error code.
#[derive(Clone, Copy, Debug, PartialEq, Eq)]
pub enum ErrorCode {
    /// RFC 4271, 6.1.
    MessageHeader = 1,
    /// RFC 4271, 6.2.
    OpenMessage = 2,
    /// RFC 4271, 6.3.
    UpdateMessage = 3,
    /// RFC 4271, 6.5.
    HoldTimerExpired = 4,
    /// RFC 4271, 6.6.
    FiniteStateMachine = 5,
    /// RFC 4271, 6.7.
    Cease = 6,
    /// RFC 7313, 5.
    RouteRefreshMessage = 7,
    /// RFC 9687, 4.
    SendHoldTimerExpired = 8,
}

impl ErrorCode {
    /// Returns the number of the Error code.
    pub fn code(self) -> u8
        ensures { result ≡ error_code self }
    {
        self as u8
    }

    /// Returns the kind of error that a number stands for, or `None` for a number without one.
    pub fn from_code(code: u8) -> Option<ErrorCode>
        ensures known { IfSome result (λ error. error_code error ≡ code) }
        ensures unassigned { IfNone result (IsUnassigned code) }
    {
        match code {
            1 => Some(ErrorCode::MessageHeader),
            2 => Some(ErrorCode::OpenMessage),
            3 => Some(ErrorCode::UpdateMessage),
            4 => Some(ErrorCode::HoldTimerExpired),
            5 => Some(ErrorCode::FiniteStateMachine),
            6 => Some(ErrorCode::Cease),
            7 => Some(ErrorCode::RouteRefreshMessage),
            8 => Some(ErrorCode::SendHoldTimerExpired),
            _ => None,
        }
    }
}
