//! A connection as either of its systems has it.

ghost use Rattle.std.specs.Prelude.{◌≡◌};
ghost use Rattle.bgp_check_tool.specs.Seen.{seen_from, session_from};

use bgp_import::other_side;
use bgp_prefix::Session;
use streams::{Connection, End, Side};

/// The connection as this of its systems has it: what that system sent is sent.
pub fn seen_from<'a>(connection: &Connection<'a>, side: Side) -> Connection<'a>
    ensures { result ≡ seen_from side connection.now }
{
    match side {
        Side::Local => *connection,
        Side::Peer => Connection {
            local_port: connection.peer_port,
            peer_port: connection.local_port,
            opened_by: other_side(connection.opened_by),
            received: connection.sent,
            sent: connection.received,
            end: match connection.end {
                Some(end) => Some(End {
                    side: other_side(end.side),
                    ..end
                }),
                None => None,
            },
            ..*connection
        },
    }
}

/// The session as this of its systems has it.
pub(crate) fn session_from(session: &Session, side: Side) -> Session
    ensures { result ≡ session_from side session.now }
{
    match side {
        Side::Local => *session,
        Side::Peer => Session {
            peer: session.local,
            local: session.peer,
            ..*session
        },
    }
}
