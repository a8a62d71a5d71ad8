//! A verdict that is explained into a sink that fails and with little memory, and what is told of
//! the end of a file.

use bgp_compact::CompactTracker;
use bgp_explain::{JudgedCapture, Report, explain_capture, judge_opened};
use bgp_open::{Config, ConfigParts};
use bgp_tool::{CaptureCommand, Form, Note};
use bgp_vectors::ROUTER_A;
use bgp_verdict_lines::VerdictForm;
use linked_list_allocator::LocalHeap;
use mrt::{FromWrite, MemSink, MemSource, SinkUpset};
use std::alloc::Global;
use std::io::{self, ErrorKind};

/// AS 65001 with AS 65002, where this Hold Time is configured.
pub(crate) fn config_with(hold: u16) -> Option<Config> {
    Config::new(ConfigParts { hold, ..ROUTER_A })
}

/// A session in which an OPEN is sent, at second 100 (RFC 6396, 4.4, of 4-octet AS numbers).
pub(crate) static OPENED: [u8; 153] = [
    0x00, 0x00, 0x00, 0x64, 0x00, 0x10, 0x00, 0x05, 0x00, 0x00, 0x00, 0x18, // a change of state
    0x00, 0x00, 0xfd, 0xea, 0x00, 0x00, 0xfd, 0xe9, 0x00, 0x00, 0x00, 0x01, // AS numbers, AFI
    0xc0, 0x00, 0x02, 0x02, 0xc0, 0x00, 0x02, 0x01, 0x00, 0x01, 0x00, 0x02, // Idle to Connect
    0x00, 0x00, 0x00, 0x64, 0x00, 0x10, 0x00, 0x07, 0x00, 0x00, 0x00, 0x45, // a sent message
    0x00, 0x00, 0xfd, 0xea, 0x00, 0x00, 0xfd, 0xe9, 0x00, 0x00, 0x00, 0x01, // AS numbers, AFI
    0xc0, 0x00, 0x02, 0x02, 0xc0, 0x00, 0x02, 0x01, // addresses
    0xff, 0xff, 0xff, 0xff, 0xff, 0xff, 0xff, 0xff, 0xff, 0xff, 0xff, 0xff, 0xff, 0xff, 0xff, 0xff,
    0x00, 0x31, 0x01, // an OPEN
    0x04, 0xfd, 0xe9, 0x00, 0x5a, 0xc0, 0x00, 0x02, 0x01, // version, AS, Hold Time, identifier
    0x14, 0x02, 0x12, 0x01, 0x04, 0x00, 0x01, 0x00, 0x01, // capabilities: IPv4,
    0x01, 0x04, 0x00, 0x02, 0x00, 0x01, 0x41, 0x04, 0x00, 0x00, 0xfd, 0xe9, // IPv6, the AS
    0x00, 0x00, 0x00, 0x64, 0x00, 0x10, 0x00, 0x05, 0x00, 0x00, 0x00, 0x18, // a change of state
    0x00, 0x00, 0xfd, 0xea, 0x00, 0x00, 0xfd, 0xe9, 0x00, 0x00, 0x00, 0x01, // AS numbers, AFI
    0xc0, 0x00, 0x02, 0x02, 0xc0, 0x00, 0x02, 0x01, 0x00, 0x02, 0x00, 0x04, // Connect to OpenSent
];

/// The octets of the capture.
fn opened(alloc: Global) -> Option<Vec<u8>> {
    Vec::from_slice(alloc, &OPENED).ok()
}

/// Whether a sink that fails at once is told by status 5.
fn is_broken(alloc: Global) -> Option<bool> {
    let (config, capture) = (config_with(90)?, opened(alloc)?);
    let mut source = MemSource::new(capture);
    let mut sink = MemSink::new(alloc).upset_at(0, SinkUpset::Fail);
    let status = explain_capture::<Global, CompactTracker, _, _>(
        alloc,
        &config,
        VerdictForm::Text,
        &mut source,
        &mut sink,
    );
    Some(status == 5)
}

#[test]
fn a_failing_sink_is_told(rt: HostRuntime) {
    assert!(rt; is_broken(rt.alloc()) == Some(true));
}

/// What is written of an OPEN that the configuration doesn't have, where another Hold Time is
/// configured.
const WRONG_HOLD: &str = "\
no at record 2
  record 2, 1970-01-01 00:01:40 UTC: 192.0.2.1 sent OPEN to 192.0.2.2, not allowed here: \
  Hold Time 90, configured 180
  message: open as 65001 hold 90 id 192.0.2.1 | Multiprotocol IPv4 unicast \
  | Multiprotocol IPv6 unicast | Four-octet AS 65001
  state: Connect since record 1, 00:01:40
  could come here: any message received
  or: OPEN sent [RFC 4271 4.2]; this one: Hold Time 90, configured 180
  or: the session ends, Connect to Idle [RFC 4271 8.2.2]
  or: the same state once more, Connect
  or: change of state, Connect to OpenSent [RFC 4271 8.2.2]
";

/// The same where memory is refused for the reason.
const WITHOUT_REASON: &str = "no at record 2\n  note: out of memory for the reason\n";

/// What reading a capture takes: a buffer for the body of one record.
const READING: usize = 65_583;

/// What comes of a verdict that wants a reason, with little memory.
#[derive(Clone, Copy, PartialEq, Eq)]
enum Outcome {
    /// The verdict and its reason.
    Explained,
    /// The verdict alone, and that memory was refused for its reason.
    Unexplained,
    /// That memory was refused for the verdict.
    Refused,
}

/// Which it is that was written with this status.
fn outcome_of(text: &[u8], status: u8) -> Option<Outcome> {
    match status {
        1 if text == WRONG_HOLD.as_bytes() => Some(Outcome::Explained),
        1 if text == WITHOUT_REASON.as_bytes() => Some(Outcome::Unexplained),
        4 => Some(Outcome::Refused),
        _ => None,
    }
}

/// What comes of a no with a heap of this size; `None` where something else is written.
fn explained_with(alloc: Global, size: usize) -> Option<Outcome> {
    let (config, capture) = (config_with(180)?, opened(alloc)?);
    let heap = LocalHeap::new(alloc, size).ok()?;
    let mut source = MemSource::new(capture);
    let mut sink = MemSink::new(alloc);
    let status = explain_capture::<&LocalHeap, CompactTracker<&LocalHeap>, _, _>(
        &heap,
        &config,
        VerdictForm::Text,
        &mut source,
        &mut sink,
    );
    outcome_of(sink.octets(), status)
}

/// Whether some heaps are enough for the reason too, and some for the verdict alone.
fn is_told_without_reason(alloc: Global) -> Option<bool> {
    let (mut explained, mut unexplained) = (false, false);
    for step in 1..128 {
        let outcome = explained_with(alloc, READING + 32 * step)?;
        explained = explained || outcome == Outcome::Explained;
        unexplained = unexplained || outcome == Outcome::Unexplained;
    }
    Some(explained && unexplained)
}

#[test]
fn a_verdict_is_told_without_memory_for_its_reason(rt: HostRuntime) {
    assert!(rt; is_told_without_reason(rt.alloc()) == Some(true));
}

/// The verdict of the same in JSON.
const WRONG_VERDICT: &str = "{\"type\":\"verdict\",\"judged\":1,\"answer\":\"no\",\"record\":2}\n";

/// Its reason in JSON.
const WRONG_REASON: &str = "\
{\"type\":\"record\",\"judged\":1,\"record\":2,\"second\":100,\"address\":\"192.0.2.1\",\
\"deed\":\"sent OPEN to 192.0.2.2, not allowed here: Hold Time 90, configured 180\"}
{\"type\":\"message\",\"judged\":1,\
\"line\":\"open as 65001 hold 90 id 192.0.2.1 | Multiprotocol IPv4 unicast | \
Multiprotocol IPv6 unicast | Four-octet AS 65001\"}
{\"type\":\"state\",\"judged\":1,\"state\":\"Connect\",\"record\":1,\"second\":100}
{\"type\":\"possible\",\"judged\":1,\"owed\":false,\"next\":false,\"first\":true,\
\"item\":\"any message received\"}
{\"type\":\"possible\",\"judged\":1,\"owed\":false,\"next\":false,\"first\":false,\
\"item\":\"OPEN sent [RFC 4271 4.2]\",\"but\":\"this one: Hold Time 90, configured 180\"}
{\"type\":\"possible\",\"judged\":1,\"owed\":false,\"next\":false,\"first\":false,\
\"item\":\"the session ends, Connect to Idle [RFC 4271 8.2.2]\"}
{\"type\":\"possible\",\"judged\":1,\"owed\":false,\"next\":false,\"first\":false,\
\"item\":\"the same state once more, Connect\"}
{\"type\":\"possible\",\"judged\":1,\"owed\":false,\"next\":false,\"first\":false,\
\"item\":\"change of state, Connect to OpenSent [RFC 4271 8.2.2]\"}
";

/// What is written in JSON in place of the reason, if memory is refused for it.
const NO_REASON: &str =
    "{\"type\":\"note\",\"judged\":1,\"text\":\"out of memory for the reason\"}\n";

/// What is written in JSON, if memory is refused for the verdict.
const NO_VERDICT: &str = "{\"type\":\"refused\",\"what\":\"capture\",\"number\":10";

/// Whether a text is a beginning of one line after another, or of others.
fn is_beginning(text: &str) -> bool {
    let reason = match text.strip_prefix(WRONG_VERDICT) {
        Some(reason) => reason,
        None => return text.is_empty() || text.starts_with(NO_VERDICT),
    };
    (reason.is_empty() || reason.ends_with('\n')) && WRONG_REASON.starts_with(reason)
}

/// What comes of a no in JSON with a heap of this size; `None` where something else is written.
fn told_with(alloc: Global, size: usize) -> Option<Outcome> {
    let (config, capture) = (config_with(180)?, opened(alloc)?);
    let heap = LocalHeap::new(alloc, size).ok()?;
    let mut source = MemSource::new(capture);
    let mut sink = MemSink::new(alloc);
    let status = explain_capture::<&LocalHeap, CompactTracker<&LocalHeap>, _, _>(
        &heap,
        &config,
        VerdictForm::Json,
        &mut source,
        &mut sink,
    );
    let text = std::str::from_utf8(sink.octets()).ok()?;
    let reason = text.strip_prefix(WRONG_VERDICT);
    match status {
        1 if reason == Some(WRONG_REASON) => Some(Outcome::Explained),
        1 if reason == Some(NO_REASON) => Some(Outcome::Unexplained),
        4 if is_beginning(text) => Some(Outcome::Refused),
        _ => None,
    }
}

/// Whether with each heap whole lines in JSON are written, and if memory is refused for one, those
/// before it, with the status of memory.
fn is_told_as_far(alloc: Global) -> Option<bool> {
    let (mut explained, mut refused) = (false, false);
    for step in 1..256 {
        let outcome = told_with(alloc, READING + 32 * step)?;
        explained = explained || outcome == Outcome::Explained;
        refused = refused || outcome == Outcome::Refused;
    }
    Some(explained && refused)
}

#[test]
fn lines_in_json_are_told_as_far_as_memory_goes(rt: HostRuntime) {
    assert!(rt; is_told_as_far(rt.alloc()) == Some(true));
}

/// Whether this is told of a file, with this exit status.
fn is_told(
    alloc: Global,
    opened: io::Result<&[u8]>,
    (note, status): (Option<Note<'_>>, u8),
) -> Option<bool> {
    let config = config_with(90)?;
    let mut sink = FromWrite::new(Vec::new(alloc));
    let judged = judge_opened::<Global, CompactTracker, _, _>(
        alloc,
        &config,
        Report::WithReason,
        VerdictForm::Text,
        "a.mrt",
        opened,
        &mut sink,
    );
    let JudgedCapture {
        outcome,
        confederation,
        ..
    } = judged;
    Some(outcome.note == note && outcome.status == status && !confederation)
}

/// It is said that a file is empty, and that one couldn't be opened; and nothing of a capture that
/// is explained.
fn are_ends_told(alloc: Global) -> bool {
    let file = "a.mrt";
    let error = ErrorKind::NotFound;
    let empty = Some(Note::NoCapture {
        file,
        form: Form::Empty,
        command: CaptureCommand::Judge,
    });
    let unopened = Some(Note::Unopened { file, error });
    is_told(alloc, Ok(&[]), (empty, 0)) == Some(true)
        && is_told(alloc, Err(io::Error::from(error)), (unopened, 5)) == Some(true)
        && is_told(alloc, Ok(&OPENED), (None, 0)) == Some(true)
}

#[test]
fn an_end_is_told(rt: HostRuntime) {
    assert!(rt; are_ends_told(rt.alloc()));
}
