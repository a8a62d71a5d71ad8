//! The sentences of what is known.

ghost use Rattle.std.specs.Prelude.{◌≡◌, option_map};
ghost use Rattle.bgp_tool.specs.declared.note.Note.TheVariants as notes;
ghost use Rattle.bgp_commands.specs.Sentences as specs;
ghost use Rattle.bgp_commands.specs.declared.sentence.Sentence.TheVariants as sentences;

use crate::answer::Destination;
use crate::ends::{Ends, Output};
use crate::sentence::Sentence;
use bgp_import::{self as import, Cause, CutShort, NotLookedInto, Refusal};
use bgp_list::{ListedRecording, NothingListed};
use bgp_open::RouteOffer;
use bgp_tool::{Note, passed_over};
use mrt::{CaptureFault, FaultKind, SkippedRecords};
use std::io::ErrorKind;

/// Returns that a pcap file is cut short, if it is.
pub(crate) fn cut_short_sentence<'a>(cut_short: Option<CutShort>) -> Option<Sentence<'a>>
    ensures { result ≡ option_map sentences.CutShort cut_short }
{
    cut_short.map(|cut_short| Sentence::CutShort(cut_short))
}

/// Returns how many ROUTE-REFRESH messages of an MRT file are passed over, received and sent, if
/// any are.
pub(crate) fn passed_over_sentences<'a>(
    skipped: Option<SkippedRecords>,
) -> (Option<Sentence<'a>>, Option<Sentence<'a>>)
    ensures received { result.0 ≡ specs.received_sentence skipped }
    ensures sent { result.1 ≡ specs.sent_sentence skipped }
{
    let Some(skipped) = skipped else {
        return (None, None);
    };
    let (received, sent) = passed_over(&skipped);
    (
        received.map(|note| Sentence::Note(note)),
        sent.map(|note| Sentence::Note(note)),
    )
}

/// Returns a note, if there is one.
pub(crate) fn note_sentence<'a>(note: Option<Note<'a>>) -> Option<Sentence<'a>>
    ensures { result ≡ option_map sentences.Note note.entry }
{
    note.map(|note| Sentence::Note(note))
}

/// Returns that an UPDATE of a confederation is among the records, if one is.
pub(crate) fn confederation_sentence<'a>(is_there: bool) -> Option<Sentence<'a>>
    ensures { result ≡ specs.confederation_sentence is_there }
{
    if is_there {
        Some(Sentence::Note(Note::Confederation))
    } else {
        None
    }
}

/// Returns that a file is judged without what both OPENs offer, if it is, and what the OPEN offers
/// that was sent.
pub(crate) fn without_sentence<'a>(without: Option<RouteOffer>) -> Option<Sentence<'a>>
    ensures { result ≡ specs.without_sentence without }
{
    match without {
        Some(offer) => Some(Sentence::Note(Note::Without { offer })),
        None => None,
    }
}

/// Returns what helps against a refusal, if anything does.
pub(crate) fn help_sentence<'a>(refusal: Refusal) -> Option<Sentence<'a>>
    ensures { result ≡ specs.help_sentence refusal }
{
    let help = refusal.help()?;
    Some(Sentence::Help(help))
}

/// The same of a refusal that there may be.
pub(crate) fn one_help<'a>(refusal: Option<Refusal>) -> Option<Sentence<'a>>
    ensures { result ≡ specs.one_help refusal }
{
    help_sentence(refusal?)
}

/// Returns that memory was refused or that the file can't be read, if a pcap file is refused for
/// that.
pub(crate) fn cause_sentence<'a>(ends: &Ends<'a>, refusal: Option<Refusal>) -> Option<Sentence<'a>>
    ensures { result ≡ specs.cause_sentence ends.now refusal }
{
    let Ends {
        file,
        octet,
        error,
        ..
    } = *ends;
    let refusal = refusal?;
    match refusal.cause() {
        Cause::Recording => None,
        Cause::Memory => Some(Sentence::Note(Note::OutOfMemory { file, octet })),
        Cause::Device => Some(Sentence::Note(Note::Unread { file, octet, error })),
    }
}

/// Returns what is wrong with an MRT file or with one of its sessions, if something is.
pub(crate) fn fault_sentence<'a>(
    ends: &Ends<'a>,
    fault: Option<CaptureFault>,
) -> Option<Sentence<'a>>
    ensures { result ≡ specs.fault_sentence ends.now fault }
{
    let Ends {
        file,
        octet,
        error,
        ..
    } = *ends;
    let fault = fault?;
    let sentence = match fault.kind {
        FaultKind::Memory => Sentence::Note(Note::OutOfMemory { file, octet }),
        FaultKind::Device => Sentence::Note(Note::Unread { file, octet, error }),
        FaultKind::TooLong => Sentence::NoRecord {
            file,
            offset: fault.offset,
        },
        FaultKind::Truncated
        | FaultKind::Body
        | FaultKind::BadState
        | FaultKind::NotAMessage
        | FaultKind::TimeBack
        | FaultKind::RouteRefresh
        | FaultKind::AddPath => {
            let unmet = None;
            Sentence::Note(Note::Refused { file, fault, unmet })
        }
    };
    Some(sentence)
}

/// Returns what the file is, if a command found nothing in it of what it reads, or else this.
pub(crate) fn note_or<'a>(ends: &Ends<'a>, other: Option<Sentence<'a>>) -> Option<Sentence<'a>>
    ensures { result ≡ specs.note_or ends.now other.entry }
{
    match ends.note {
        Some(note) => Some(Sentence::Note(note)),
        None => other,
    }
}

/// Returns a note on how an MRT file was made, if there is one.
pub(crate) fn made_sentence<'a>(note: Option<import::Note>) -> Option<Sentence<'a>>
    ensures { result ≡ specs.made_sentence note }
{
    note.map(|note| Sentence::Made(note))
}

/// Returns what isn't looked into, if anything isn't.
pub(crate) fn wrapped_sentence<'a>(wrapped: Option<NotLookedInto>) -> Option<Sentence<'a>>
    ensures { result ≡ specs.wrapped_sentence wrapped }
{
    wrapped.map(|wrapped| Sentence::NotLookedInto(wrapped))
}

/// Returns that nothing is listed of a pcap file that was read to its end, if so.
pub(crate) fn nothing_listed(listed: &ListedRecording) -> Option<NothingListed>
    ensures { result ≡ specs.nothing_of listed.now }
{
    listed.nothing()
}

/// Returns that standard output failed, if it did. A pipe that was closed isn't a failure.
pub(crate) fn unwritten_sentence<'a>(output: Output) -> Option<Sentence<'a>>
    ensures { result ≡ specs.unwritten_sentence output }
{
    match output {
        Output::Whole | Output::Closed { .. } => None,
        Output::Failed { octet, error } => {
            Some(Sentence::Note(Note::Unwritten { octet, error }))
        }
    }
}

/// Returns that the MRT file can't be written, if so: standard output as above; a file of this name
/// can't be made, or not be written further.
pub(crate) fn unmade_sentence<'a>(to: Destination<'a>, output: Output) -> Option<Sentence<'a>>
    ensures { result ≡ specs.unmade_sentence to.entry output }
{
    match to {
        Destination::StandardOutput => unwritten_sentence(output),
        Destination::File(file) => file_sentence(file, output),
    }
}

/// The same of a file.
fn file_sentence<'a>(file: &'a str, output: Output) -> Option<Sentence<'a>>
    ensures { result ≡ specs.file_sentence file.entry output }
{
    match output {
        Output::Whole => None,
        Output::Closed { octet } => Some(broken_sentence(file, octet, ErrorKind::BrokenPipe)),
        Output::Failed {
            octet,
            error: Some(error),
        } => Some(broken_sentence(file, octet, error)),
        Output::Failed { octet, error: None } => {
            let error = None;
            Some(Sentence::Unwritten { file, octet, error })
        }
    }
}

/// Returns that a file can't be made, or not be written further than so many octets.
fn broken_sentence<'a>(file: &'a str, octet: u64, error: ErrorKind) -> Sentence<'a>
    ensures { result ≡ specs.broken_sentence file.entry octet error }
{
    if octet == 0 {
        return Sentence::Note(Note::Unopened { file, error });
    }
    let error = Some(error);
    Sentence::Unwritten { file, octet, error }
}
