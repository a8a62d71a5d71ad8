//! The records of a file, whichever sessions they are of.

ghost use Rattle.std.specs.Prelude.{◌≡◌, ◌≤◌, ◌↔◌, IfOk, IsTrue, length, map};
ghost use Rattle.mrt_sessions.specs.File.{HasExtendedBody, HasRecords, HasSuchRecords};
ghost use Rattle.mrt_sessions.specs.File.{fault_by, kind_by, wants_more};
ghost use Rattle.mrt_sessions.specs.Located.{located};

use crate::front::{Front, front_of, has_extended_body, header_of};
use crate::holding::Ending;
use crate::named::NamedRecord;
use mrt::{CaptureFault, FaultKind};
use std::alloc::{AllocError, Allocator, Global};

/// The records of a file that are of some session, and where it is read no further.
#[derive(Drop)]
pub struct FileRecords<'a, A: Allocator = Global> {
    /// The records, in their order.
    pub records: Vec<NamedRecord<'a>, A>,
    /// The offset of the end, or of the record that the file is refused for.
    pub offset: u64,
    /// What it is refused for, whichever session is asked for.
    pub refusal: Option<FaultKind>,
    /// Whether no body of type BGP4MP or BGP4MP_ET, up to there, is longer than
    /// [`PLAIN_BODY`](mrt::PLAIN_BODY): the file is read to there, too, where the local system
    /// offers no extended messages (RFC 8654).
    pub is_plain: bool,
}

/// Whether no body is longer than that of a plain message may be, with that of one record more.
fn stays_plain(is_plain: bool, octets: &[u8]) -> bool
    requires { 12 ≤ length octets.now }
    ensures { IsTrue result ↔ (IsTrue is_plain × ¬ HasExtendedBody octets.now) }
{
    is_plain && !has_extended_body(&header_of(octets))
}

/// Reads the records of a file. Bodies may be as long as any that is read (RFC 8654).
///
/// `AllocError` is answered where there was no memory for the list.
pub fn records_in<'a, A: Allocator + Copy>(
    alloc: A,
    octets: &'a [u8],
) -> Result<FileRecords<'a, A>, AllocError>
    ensures has { IfOk result (λ file. HasRecords octets.entry.now
        (map located file.records.items) file.offset file.refusal) }
    ensures plain { IfOk result (λ file. HasSuchRecords octets.entry.now
        (map located file.records.items) file.offset file.refusal file.is_plain) }
{
    let mut records = Vec::new(alloc);
    let mut offset = 0;
    let mut is_plain = true;
    let mut rest = octets;
    loop {
        match front_of(rest) {
            Front::Stop(refusal) => {
                return Ok(FileRecords {
                    records,
                    offset,
                    refusal,
                    is_plain,
                });
            }
            Front::Other(record, behind) => {
                is_plain = stays_plain(is_plain, record);
                offset += record.len() as u64;
                rest = behind;
            }
            Front::Named(record, behind) => {
                records.push(NamedRecord {
                    offset,
                    octets: record,
                })?;
                is_plain = stays_plain(is_plain, record);
                offset += record.len() as u64;
                rest = behind;
            }
        }
    }
}

/// Whether a file ends where a record could begin, or inside of one.
fn wants_more(refusal: Option<FaultKind>) -> bool
    ensures { result ≡ wants_more refusal }
{
    match refusal {
        Some(kind) => kind.number() == FaultKind::Truncated.number(),
        None => true,
    }
}

/// Why a file isn't read on that is held up to this.
fn kind_by(ending: Ending, refusal: Option<FaultKind>) -> Option<FaultKind>
    ensures { result ≡ kind_by ending refusal }
{
    match ending {
        Ending::End => refusal,
        Ending::Device if wants_more(refusal) => Some(FaultKind::Device),
        Ending::Memory if wants_more(refusal) => Some(FaultKind::Memory),
        Ending::Device | Ending::Memory => refusal,
    }
}

impl<'a, A: Allocator> FileRecords<'a, A> {
    /// Why the file isn't read to its end, which was held up to there: where it stops short of what
    /// is wanted, and a read failed or there was no memory, that.
    pub fn fault(&self, ending: Ending) -> Option<CaptureFault>
        ensures { result ≡ fault_by ending self.now.refusal self.now.offset }
    {
        let kind = kind_by(ending, self.refusal)?;
        Some(CaptureFault {
            kind,
            offset: self.offset,
        })
    }
}
