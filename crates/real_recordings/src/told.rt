//! What a command answers, told by lines.

use bgp_commands::{Sentence, Voice};
use bgp_tool::Note;
use std::alloc::{AllocError, Global};
use std::fmt::{Display, Write};
use std::io;

/// Lines that tell an answer. Where memory is refused for a piece, that is told when they end.
#[derive(Drop)]
pub(crate) struct Told {
    text: String,
    lacks: bool,
}

impl Told {
    /// The line of a status.
    pub(crate) fn with_status(alloc: Global, status: u8) -> Told {
        let mut told = Told {
            text: String::new(alloc),
            lacks: false,
        };
        told.put("status ");
        told.put(status);
        told
    }

    /// Appends a piece.
    pub(crate) fn put<T: Display + Drop>(&mut self, piece: T) {
        if write!(self.text, "{piece}").is_err() {
            self.lacks = true;
        }
    }

    /// Appends a line with what is told on standard error, if anything is.
    pub(crate) fn put_note<T: Display + Drop>(&mut self, note: Option<T>) {
        if let Some(note) = note {
            self.put("\nnote ");
            self.put(note);
        }
    }

    /// Appends the lines that were printed.
    pub(crate) fn put_printed(&mut self, octets: &[u8]) {
        let Ok(text) = std::str::from_utf8(octets) else {
            self.put("\nno text");
            return;
        };
        for line in text.split_terminator('\n') {
            self.put("\n> ");
            self.put(line);
        }
        if !text.is_empty() && !text.ends_with('\n') {
            self.put(", without an end");
        }
    }

    /// The text.
    pub(crate) fn end(self) -> io::Result<String> {
        if self.lacks {
            Err(io::Error::from(AllocError))
        } else {
            Ok(self.text)
        }
    }
}

impl Voice for Told {
    ghost use Rattle.std.specs.Prelude.{⊤};

    ghost says = { λ _ _ _. ⊤ };

    ghost nothing = { λ _. tt };

    ghost joined = { λ _ _ _ _ _ _ _. tt };

    fn say(&mut self, sentence: Sentence<'_>) {
        if is_compared(&sentence) {
            self.put_note(Some(sentence));
        }
    }
}

/// Whether cases have such a sentence. What to record is told of many files; that nothing helps is
/// what cases say.
fn is_compared(sentence: &Sentence<'_>) -> bool {
    match sentence {
        Sentence::CutShort(_)
        | Sentence::Remark(_)
        | Sentence::Help(_)
        | Sentence::NothingListed(_)
        | Sentence::NotLookedInto(_) => true,
        Sentence::Note(note) => matches!(note, Note::NoCapture { .. } | Note::NoSessions { .. }),
        Sentence::NoEndOfRecording(nothing) => !nothing.is_incomplete,
        Sentence::NoEndOfCapture(nothing) => !nothing.is_incomplete,
        _ => false,
    }
}
