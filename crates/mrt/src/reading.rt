//! One record, read from a source: its header, and then its body or what is passed over.

ghost use Rattle.std.specs.Prelude.{◌≡◌, ◌<◌, ◌≤◌, ◌+◌, ◌++◌, ℕ, List, Option, IfOk, OnErr};
ghost use Rattle.std.specs.Prelude.{IsTrue, length};
ghost use Rattle.mrt.specs.Failures.{failures_after};
ghost use Rattle.mrt.specs.Layout.{header_in, IsBgp4mp};
ghost use Rattle.mrt.specs.Capture.{IsBegun};
ghost use Rattle.mrt.specs.Found.{header_value};
ghost use Rattle.mrt.specs.Reading.{IsRead};
ghost use Rattle.mrt.specs.Rules.{body_limit};

use crate::failure::Failed;
use crate::fault::FaultKind;
use crate::filling::{fill, pass_over};
use crate::judging::{Found, Judged, judge};
use crate::layout::{HEADER, LONGEST_BODY, RecordHeader, body_limit, is_bgp4mp, read_header};
use crate::skipped::Skip;
use crate::source::Source;
use bgp_prefix::{Seconds, Session};

/// What was read, and of a skipped record why it is and how many octets it has.
#[derive(Clone, Copy)]
pub(crate) enum Read {
    /// The source ended where a record could begin.
    End,
    /// A record that is skipped.
    Skipped(Skip, u64),
    /// The capture is refused.
    Refused(FaultKind),
    /// A record of the session.
    OfSession(Found),
}

/// How many octets a record with this header has.
fn record_len(header: &RecordHeader) -> u64
    ensures { result ≡ 12 + header.now.count }
{
    HEADER as u64 + u64::from(header.count)
}

/// Passes over the body of a record of another type.
fn skip_body<S: Source>(
    source: &mut S,
    buffer: &mut [u8],
    header: &RecordHeader,
) -> Result<Read, Failed>
    requires room { length buffer.old ≡ LONGEST_BODY }
    requires failures { S.failures source.old < u64.MAX }
    requires other { ¬ IsBgp4mp header.now.kind }
    ensures room { length buffer.new ≡ length buffer.old }
    ensures ok { IfOk result (λ read. (body : List ℕ) × S.gives source.old source.new body
        × ((session : Session) (last : Option ℕ) (front : List ℕ) → length front ≡ 12
        → header_value header.now ≡ header_in front
        → IsRead session last (front ++ body) (S.has_ended source.new) buffer.new read)) }
    ensures err { OnErr result ((taken : List ℕ) × S.gives source.old source.new taken
        × (length taken < header.now.count)) }
    ensures failures { S.failures source.new ≡ failures_after (S.failures source.old) result }
{
    if pass_over(source, buffer, header.count)? {
        Ok(Read::Skipped(Skip::OtherKind, record_len(header)))
    } else {
        Ok(Read::Refused(FaultKind::Truncated))
    }
}

/// Reads the body of a record of type BGP4MP or BGP4MP_ET, and judges the record.
fn read_body<S: Source>(
    source: &mut S,
    buffer: &mut [u8],
    header: &RecordHeader,
    session: &Session,
    last: Option<Seconds>,
) -> Result<Read, Failed>
    requires room { length buffer.old ≡ LONGEST_BODY }
    requires failures { S.failures source.old < u64.MAX }
    requires kind { IsBgp4mp header.now.kind }
    requires count { header.now.count ≤ body_limit session.now }
    requires fits { header.now.count ≤ LONGEST_BODY }
    ensures room { length buffer.new ≡ length buffer.old }
    ensures ok { IfOk result (λ read. (body : List ℕ) × S.gives source.old source.new body
        × ((front : List ℕ) → length front ≡ 12 → header_value header.now ≡ header_in front
        → IsRead session.now last (front ++ body) (S.has_ended source.new) buffer.new read)) }
    ensures err { OnErr result ((taken : List ℕ) × S.gives source.old source.new taken
        × (length taken < header.now.count)) }
    ensures failures { S.failures source.new ≡ failures_after (S.failures source.old) result }
{
    let count = header.count as usize;
    let filled = fill(source, &mut buffer[..count])?;
    if filled < count {
        return Ok(Read::Refused(FaultKind::Truncated));
    }
    match judge(header, &buffer[..count], session, last) {
        Judged::Skipped(skip) => Ok(Read::Skipped(skip, record_len(header))),
        Judged::Refused(kind) => Ok(Read::Refused(kind)),
        Judged::OfSession(found) => Ok(Read::OfSession(found)),
    }
}

/// Reads one record, and takes no more octets than it has. Where it is one of the session, the
/// buffer holds its body then.
pub(crate) fn read_record<S: Source>(
    source: &mut S,
    buffer: &mut [u8],
    session: &Session,
    last: Option<Seconds>,
) -> Result<Read, Failed>
    requires room { length buffer.old ≡ LONGEST_BODY }
    requires failures { S.failures source.old < u64.MAX }
    ensures room { length buffer.new ≡ length buffer.old }
    ensures ok { IfOk result (λ read. (octets : List ℕ) × S.gives source.old source.new octets
        × IsRead session.now last octets (S.has_ended source.new) buffer.new read) }
    ensures err { OnErr result ((taken : List ℕ) × S.gives source.old source.new taken
        × IsBegun session.now taken) }
    ensures failures { S.failures source.new ≡ failures_after (S.failures source.old) result }
{
    let mut octets = [0; HEADER];
    let filled = fill(source, &mut octets)?;
    if filled == 0 {
        return Ok(Read::End);
    }
    if filled < HEADER {
        return Ok(Read::Refused(FaultKind::Truncated));
    }
    let header = read_header(&octets);
    if !is_bgp4mp(header.kind) {
        return skip_body(source, buffer, &header);
    }
    if header.count as usize > body_limit(session) {
        return Ok(Read::Refused(FaultKind::TooLong));
    }
    read_body(source, buffer, &header, session, last)
}
