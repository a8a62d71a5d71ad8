//! The names of the session machine's rows: what a state does by itself in the order of the
//! standard's events (RFC 4271, 8.1), what it does about messages in the order of messages.

use bgp_open::Families;

/// What a state does by itself.
#[derive(Clone, Copy, Debug, PartialEq, Eq)]
pub enum HiddenRow {
    /// A manual or automatic start: events 1 and 3.
    Starts,
    /// A start with passive establishment: events 4 and 5.
    Listens,
    /// A manual or automatic stop without a word: events 2 and 8.
    Stops,
    /// A stop with a NOTIFICATION to the peer, or a connection that lost a collision: events 2, 8
    /// and 23.
    Ceases,
    /// The ConnectRetryTimer expires: event 9.
    RetryExpires,
    /// The HoldTimer expires: event 10.
    HoldExpires,
    /// The SendHoldTimer expires, since the peer reads nothing more: event 29 (RFC 9687, 4).
    SendHoldExpires,
    /// The KeepaliveTimer expires: event 11.
    KeepaliveExpires,
    /// The DelayOpenTimer expires: event 12.
    DelayExpires,
    /// The connection is up, and the OPEN is sent: events 16 and 17.
    ConnectionOpens,
    /// The connection is up, and the OPEN is delayed: events 16 and 17.
    DelayBegins,
    /// The connection fails: event 18.
    ConnectionFails,
    /// Routes are announced or withdrawn (RFC 4271, 9.2).
    Announces,
    /// An MRT file shows a state that didn't change.
    Notes,
}

/// What a state does about a message.
#[derive(Clone, Copy, Debug, PartialEq, Eq)]
pub enum ReceivedRow {
    /// Nothing is done: there is no session.
    Ignores,
    /// An OPEN is accepted: events 19 and 20.
    Accepts,
    /// An OPEN changes nothing: event 19.
    Overlooks,
    /// The connection lost a collision: event 23.
    Collides,
    /// The connection is closed without a word.
    Drops,
    /// A NOTIFICATION names one of the faults: events 21, 22 and 28.
    NamesFault,
    /// A NOTIFICATION says that the message isn't expected.
    ReportsError,
    /// A KEEPALIVE confirms the OPEN: event 26.
    Establishes,
    /// A KEEPALIVE sets the HoldTimer again: event 26.
    Renews,
    /// An UPDATE is applied, and these families are disabled: event 27.
    Applies(Families),
}
