//! A voice in memory.

ghost use Rattle.std.specs.Prelude.{◌≡◌, []};
ghost use Rattle.bgp_commands.specs.MemVoice.{voice_text};

use crate::sentence::Sentence;
use crate::voice::Voice;
use std::alloc::{Allocator, Global};
use std::fmt::Write;

/// A voice that keeps what the program writes to standard error: each sentence is a line after the
/// program's name. A line for which memory is refused is cut off or left out.
#[derive(Drop)]
pub struct MemVoice<A: Allocator = Global> {
    text: String<A>,
}

impl<A: Allocator> MemVoice<A> {
    /// Makes a voice that has said nothing yet.
    pub fn new(alloc: A) -> MemVoice<A>
        ensures { voice_text result ≡ [] }
    {
        MemVoice {
            text: String::new(alloc),
        }
    }

    /// Returns the lines.
    pub fn text(&self) -> &str
        ensures { result.now ≡ voice_text self.now }
    {
        self.text.as_str()
    }
}

impl<A: Allocator> Voice for MemVoice<A> {
    ghost use Rattle.std.specs.Prelude.{⊤};

    ghost says = { λ _ _ _. ⊤ };

    ghost nothing = { λ _. tt };

    ghost joined = { λ _ _ _ _ _ _ _. tt };

    fn say(&mut self, sentence: Sentence<'_>) {
        let _ = writeln!(self.text, "bgp: {sentence}");
    }
}
