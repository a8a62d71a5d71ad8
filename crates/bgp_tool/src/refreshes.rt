//! What is told of the ROUTE-REFRESH messages of a capture that were passed over.

ghost use Rattle.std.specs.Prelude.{◌≡◌};
ghost use Rattle.bgp_tool.specs.declared.note.Note.TheVariants as notes;
ghost use Rattle.bgp_tool.specs.OpenedCapture.{counted};

use crate::note::Note;
use mrt::SkippedRecords;

/// What to tell of the ROUTE-REFRESH messages that were passed over: of those that the local system
/// received, and then of those that it sent, where there are any.
pub fn passed_over(skipped: &SkippedRecords) -> (Option<Note<'static>>, Option<Note<'static>>)
    ensures received { result.0 ≡ counted notes.ReceivedPassedOver skipped.now.received_refreshes }
    ensures sent { result.1 ≡ counted notes.SentPassedOver skipped.now.sent_refreshes }
{
    let received = match skipped.received_refreshes {
        0 => None,
        count => Some(Note::ReceivedPassedOver { count }),
    };
    let sent = match skipped.sent_refreshes {
        0 => None,
        count => Some(Note::SentPassedOver { count }),
    };
    (received, sent)
}
