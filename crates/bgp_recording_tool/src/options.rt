//! What is imported of a recording, and where none can be meant.

ghost use Rattle.std.specs.Prelude.{◌≡◌, None};
ghost use Rattle.bgp_recording_tool.specs.Options.{IsMisfit, import_of};
ghost use Rattle.bgp_recording_tool.specs.Remarks.{remark_on};

use crate::remark::{Remark, RemarkKind};
use bgp_import::{Import, RecordingOptions, Selection};
use bgp_prefix::Session;

/// What is imported of a recording that is read so, for this session.
pub fn import_of(session: &Session, options: &RecordingOptions) -> Import
    ensures { result ≡ import_of session.now options.now }
{
    Import {
        selection: Selection {
            session: *session,
            port: options.port,
            local_port: options.local_port,
        },
        connection: options.connection,
        within: options.within,
    }
}

/// What is told of no connection.
fn misfit(kind: RemarkKind) -> Remark
    ensures { result ≡ remark_on None kind }
{
    Remark {
        connection: None,
        kind,
    }
}

/// Why no recording can be read so, if none can: packets don't go between addresses of two
/// families, and both systems of one address are told apart by the local system's port alone.
pub(crate) fn misfit_of(import: &Import) -> Option<Remark>
    ensures { IsMisfit import.now result }
{
    let session = &import.selection.session;
    if session.peer.family() != session.local.family() {
        Some(misfit(RemarkKind::TwoFamilies))
    } else if session.peer == session.local && import.selection.local_port.is_none() {
        Some(misfit(RemarkKind::OneAddress))
    } else {
        None
    }
}
