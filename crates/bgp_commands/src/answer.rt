//! How a command ended: its exit status, and what it says on standard error.

ghost use Rattle.std.specs.Prelude.{◌≡◌};
ghost use Rattle.bgp_import.specs.declared.importing.Stopped.{Stopped as Ended};
ghost use Rattle.bgp_tool.specs.Status.{code_of};
ghost use Rattle.bgp_commands.specs.Sentences.{import_status, sentences_of, status_of};

use crate::ends::Ends;
use crate::saying;
use crate::voice::Voice;
use bgp_import::{Imported, Notes, Stopped};
use bgp_list::{ListedCapture, ListedRecording};
use bgp_recording_tool::FileOutcome;
use bgp_report::{CheckedCapture, CheckedRecording};
use bgp_tool::{Outcome, Status};
use std::alloc::{Allocator, Global};

/// Where `import` writes its MRT file.
#[derive(Clone, Copy, Debug)]
pub enum Destination<'a> {
    /// To standard output.
    StandardOutput,
    /// To a file of this name.
    File(&'a str),
}

/// How a command ended.
#[derive(Drop)]
pub enum Answer<'a, A: Allocator = Global> {
    /// `decode` of a stream, `pair`, or a command whose file can't be opened.
    Ended(Outcome<'a>),
    /// `decode --mrt` or `judge`.
    Read(FileOutcome<'a, A>),
    /// `import`.
    Imported(Imported, Destination<'a>, Ends<'a>),
    /// `import` of a file to itself: nothing is read or written.
    OneName(&'a str),
    /// `list` of a pcap file.
    ListedRecording(ListedRecording, Ends<'a>),
    /// `list` of an MRT file.
    ListedCapture(ListedCapture, Ends<'a>),
    /// `check` of a pcap file.
    CheckedRecording(CheckedRecording, Ends<'a>),
    /// `check` of an MRT file.
    CheckedCapture(CheckedCapture, Ends<'a>),
}

/// Returns the exit status of an import that ended so.
fn import_status(ended: Result<Notes, Stopped>) -> Status
    ensures { code_of result ≡ import_status ended }
{
    match ended {
        Ok(_) => Status::Done,
        Err(Stopped::Refused(refusal)) => bgp_recording_tool::status_of(refusal),
        Err(Stopped::Unwritten) => Status::Device,
    }
}

impl<A: Allocator> Answer<'_, A> {
    /// Returns the exit status.
    pub fn status(&self) -> u8
        ensures { result ≡ status_of self.now }
    {
        match self {
            Answer::Ended(outcome) => outcome.status,
            Answer::Read(outcome) => outcome.status,
            Answer::Imported(imported, _, _) => import_status(imported.ended).code(),
            Answer::OneName(_) => Status::Usage.code(),
            Answer::ListedRecording(listed, _) => listed.status,
            Answer::ListedCapture(listed, _) => listed.status,
            Answer::CheckedRecording(checked, _) => checked.status,
            Answer::CheckedCapture(checked, _) => checked.status,
        }
    }

    /// Says all that there is to say of it besides the exit status and what is printed.
    pub fn say<V: Voice>(&self, voice: &mut V)
        ensures { V.says voice.old voice.new (sentences_of self.now) }
    {
        match self {
            Answer::Ended(outcome) => saying::ended(voice, outcome),
            Answer::Read(outcome) => saying::read(voice, outcome),
            Answer::Imported(imported, to, ends) => saying::imported(voice, imported, *to, ends),
            Answer::OneName(file) => saying::one_name(voice, file),
            Answer::ListedRecording(listed, ends) => {
                saying::listed_recording(voice, listed, ends);
            }
            Answer::ListedCapture(listed, ends) => saying::listed_capture(voice, listed, ends),
            Answer::CheckedRecording(checked, ends) => {
                saying::checked_recording(voice, checked, ends);
            }
            Answer::CheckedCapture(checked, ends) => {
                saying::checked_capture(voice, checked, ends);
            }
        }
    }
}
