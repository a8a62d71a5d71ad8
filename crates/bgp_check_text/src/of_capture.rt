//! Whether `bgp judge` reads of a capture the same records as are told.

ghost use Rattle.std.specs.Prelude.{◌≡◌, ◌↔◌, IsFalse, IsTrue, map};
ghost use Rattle.std.specs.List.{AllByRecursion};
ghost use Rattle.mrt.specs.Reader.{shown_of};
ghost use Rattle.mrt_sessions.specs.Located.{located};
ghost use Rattle.bgp_recording.specs.Captured.{IsNoRefresh};
ghost use Rattle.bgp_check_text.specs.OfCapture.{AreCaptureOptions, IsReadAlike, session_by};

use crate::options::{Asked, JudgeOptions};
use bgp_open::Config;
use bgp_prefix::{RouteRefresh, Session};
use mrt::{Record, is_route_refresh};
use mrt_sessions::{NamedRecord, reads_as};

/// Of a capture no connection is asked for.
const NOTHING_ASKED: Asked = Asked {
    port: None,
    local_port: None,
    connection: None,
    within: None,
};

/// Whether a record's message is a ROUTE-REFRESH.
fn is_refresh(shown: &Record<'_>) -> bool
    ensures { IsFalse result ↔ IsNoRefresh (shown_of shown.now) }
{
    match *shown {
        Record::In(_, octets) | Record::Out(_, octets) => is_route_refresh(octets),
        Record::Change(..) => false,
    }
}

/// Whether that of one of these is.
fn has_refresh(records: &[Record<'_>]) -> bool
    ensures { IsFalse result ↔ AllByRecursion IsNoRefresh (map shown_of records.now) }
{
    for shown in records {
        if is_refresh(shown) {
            return true;
        }
    }
    false
}

/// The session of which `bgp judge` reads a capture by these options.
fn session_by(session: &Session, skips_refresh: bool, no_refresh: bool) -> Session
    ensures { result ≡ session_by session.now skips_refresh no_refresh }
{
    let refresh = if skips_refresh {
        RouteRefresh::PassedOver
    } else {
        RouteRefresh::with_offer(!no_refresh)
    };
    Session {
        refresh,
        ..*session
    }
}

/// Whether `bgp judge` reads just these records of the session, where a file has those of it.
fn is_read_alike(
    session: &Session,
    is_plain: bool,
    named: &[NamedRecord<'_>],
    records: &[Record<'_>],
) -> bool
    ensures { IsTrue result ↔ IsReadAlike session.now is_plain (map located named.now)
        (map shown_of records.now) }
{
    (is_plain || session.extended) && reads_as(session, named, records)
}

/// The options by which `bgp judge` gives the verdict on these records that is told under this
/// configuration, where a capture without a refusal has these records of the session: ROUTE-REFRESH
/// messages may be passed over. `None` where it reads others, or refuses the capture: it reads the
/// messages of both directions by what the local system offers alone, and passes over a whole
/// ROUTE-REFRESH in both or in neither.
pub fn capture_options(
    config: Config,
    is_plain: bool,
    named: &[NamedRecord<'_>],
    records: &[Record<'_>],
    skips_refresh: bool,
) -> Option<JudgeOptions>
    ensures { AreCaptureOptions config is_plain (map located named.now)
        (map shown_of records.now) skips_refresh result }
{
    let no_refresh = has_refresh(records);
    let session = session_by(&config.parts.session, skips_refresh, no_refresh);
    if !is_read_alike(&session, is_plain, named, records) {
        return None;
    }
    Some(JudgeOptions {
        config,
        skips_refresh,
        no_refresh,
        asked: NOTHING_ASKED,
    })
}
