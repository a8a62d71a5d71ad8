//! How far a command came with its file and its output.

ghost use Rattle.std.specs.Prelude.{◌≡◌, ◌<◌, ◌≤◌};
ghost use Rattle.mrt.specs.FromRead.{reader_state};
ghost use Rattle.mrt.specs.FromWrite.{writer_state};
ghost use Rattle.bgp_commands.specs.Ends.{AreEnds, IsOutput};

use bgp_tool::Note;
use mrt::{FromRead, FromWrite, Sink, Source};
use std::io::{ErrorKind, Read, Write};

/// Whether the output took all that was written to it.
#[derive(Clone, Copy, Debug)]
pub enum Output {
    /// It did.
    Whole,
    /// It is a pipe, which was closed after it took so many octets.
    Closed {
        /// How many.
        octet: u64,
    },
    /// It failed after it took so many octets.
    Failed {
        /// How many.
        octet: u64,
        /// Why: `None` if the writer didn't say.
        error: Option<ErrorKind>,
    },
}

/// How far a command came with its file and its output.
#[derive(Clone, Copy, Debug)]
pub struct Ends<'a> {
    /// The file's name, or `-` for standard input.
    pub file: &'a str,
    /// How many octets of the file were read.
    pub octet: u64,
    /// The error of the read that failed last, if one did.
    pub error: Option<ErrorKind>,
    /// Whether the output took all.
    pub output: Output,
    /// What the file is, if a command found nothing in it of what it reads.
    pub note: Option<Note<'a>>,
}

/// Returns the state of a sink that had failed so often before.
pub(crate) fn output_of<W: Write>(sink: &FromWrite<W>, failures: u64) -> Output
    ensures { IsOutput (writer_state sink.now) failures result }
{
    if sink.failures() <= failures {
        return Output::Whole;
    }
    let octet = sink.taken();
    match sink.last_error() {
        Some(ErrorKind::BrokenPipe) => Output::Closed { octet },
        error => Output::Failed { octet, error },
    }
}

impl<'a> Ends<'a> {
    /// Returns how far a source and a sink came, with what the file is. The sink had failed so often
    /// before.
    pub(crate) fn of<R: Read, W: Write>(
        file: &'a str,
        source: &FromRead<R>,
        sink: &FromWrite<W>,
        failures: u64,
        note: Option<Note<'a>>,
    ) -> Ends<'a>
        ensures { AreEnds file.entry (reader_state source.now) (writer_state sink.now) failures
            note.entry result }
    {
        Ends {
            file,
            octet: source.given(),
            error: source.last_error(),
            output: output_of(sink, failures),
            note,
        }
    }
}
