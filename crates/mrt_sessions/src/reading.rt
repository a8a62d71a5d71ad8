//! The records of one session of a file.

ghost use Rattle.std.specs.Prelude.{◌≡◌, IfErr, IfOk, map};
ghost use Rattle.mrt.specs.Capture as capture;
ghost use Rattle.mrt.specs.Found.{header_value};
ghost use Rattle.mrt.specs.Layout.{form_of};
ghost use Rattle.mrt.specs.Reader.{shown_of};
ghost use Rattle.mrt.specs.Rules.{OfSession, Refused};
ghost use Rattle.mrt_sessions.specs.File.{addresses_of};
ghost use Rattle.mrt_sessions.specs.Located.{located};
ghost use Rattle.mrt_sessions.specs.Sessions.{is_between, records_between};
ghost use Rattle.mrt_sessions.specs.Reading.{IsJudgedHere, IsReading, may_be_extended};

use crate::addresses::Addresses;
use crate::lengths::ExtendedMessages;
use crate::named::NamedRecord;
use crate::taking::{TakenAs, second_of, taken_as};
use bgp_prefix::{RouteRefresh, Seconds, Session};
use mrt::{CaptureFault, FaultKind, Form, Record, RecordHeader, form_of};
use std::alloc::{AllocError, Allocator, Global};

/// The records of a session, up to the first that is refused.
#[derive(Drop)]
pub struct SessionRecords<'a, A: Allocator = Global> {
    /// The records, in their order.
    pub records: Vec<Record<'a>, A>,
    /// Why the next one is refused, if one is, and its offset in the file.
    pub fault: Option<CaptureFault>,
}

/// Whether a record with this header has a message that may be an extended one (RFC 8654).
fn may_be_extended(header: &RecordHeader, extended: ExtendedMessages) -> bool
    ensures { result ≡ may_be_extended extended
        (form_of (header_value header.now).subtype) }
{
    match form_of(header.subtype) {
        Some(Form::Received) => extended.received,
        Some(Form::Sent) => extended.sent,
        Some(Form::Change | Form::AddPath) | None => false,
    }
}

/// What a record of the session shows, behind one of the second `last`, or why it is refused.
fn read_record<'a>(
    addresses: Addresses,
    extended: ExtendedMessages,
    last: Option<Seconds>,
    named: &NamedRecord<'a>,
) -> Result<Record<'a>, FaultKind>
    requires { addresses_of named.now.octets.now ≡ addresses }
    ensures ok { IfOk result (λ shown.
        IsJudgedHere addresses extended last named.now.octets.now OfSession
        × (shown_of shown ≡ capture.shown_of named.now.octets.now)) }
    ensures err { IfErr result (λ kind.
        IsJudgedHere addresses extended last named.now.octets.now (Refused kind)) }
{
    let session = Session {
        peer: addresses.peer,
        local: addresses.local,
        refresh: RouteRefresh::NotOffered,
        extended: may_be_extended(&named.header(), extended),
    };
    match taken_as(&session, last, named) {
        TakenAs::Shown(shown) => Ok(shown),
        TakenAs::Refused(kind) => Err(kind),
        TakenAs::Skipped(_) => unreachable!(),
    }
}

/// Whether the record names these addresses.
fn is_between(named: &NamedRecord<'_>, addresses: Addresses) -> bool
    ensures { result ≡ is_between addresses (located named.now) }
{
    addresses.cmp(&named.addresses()).is_eq()
}

/// Reads the records of the session between these addresses, of records of a file in their order:
/// those of other sessions are skipped. ROUTE-REFRESH messages (RFC 2918) are records as others.
///
/// `AllocError` is answered where there was no memory for the list.
pub fn read_session<'a, A: Allocator + Copy>(
    alloc: A,
    addresses: Addresses,
    extended: ExtendedMessages,
    records: &[NamedRecord<'a>],
) -> Result<SessionRecords<'a, A>, AllocError>
    ensures { IfOk result (λ read. IsReading addresses extended
        (records_between addresses (map located records.now))
        (map shown_of read.records.items) read.fault) }
{
    let mut shown = Vec::new(alloc);
    let mut last = None;
    for named in records {
        if !is_between(named, addresses) {
            continue;
        }
        match read_record(addresses, extended, last, named) {
            Ok(next) => {
                last = Some(second_of(&next));
                shown.push(next)?;
            }
            Err(kind) => {
                return Ok(SessionRecords {
                    records: shown,
                    fault: Some(CaptureFault {
                        kind,
                        offset: named.offset,
                    }),
                });
            }
        }
    }
    Ok(SessionRecords {
        records: shown,
        fault: None,
    })
}
