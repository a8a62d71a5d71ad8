//! The export.

ghost use Rattle.std.specs.Prelude.{◌≡◌, IsUtf8};
ghost use Rattle.bgp_page.specs.Checks.{Checks};

use crate::answer::{Answer, put_into};
use arena::{Arena, Memory};
use bgp_commands::{MemVoice, report_over};
use bgp_compact::CompactTracker;
use mrt::FromWrite;

/// The exit status for a name that isn't text: that of a command line that the program can't read.
const NO_NAME: u8 = 64;

/// Puts the report of `bgp check --html` on a file with these octets under this name into a room,
/// with this port and so many seconds, and what the program says on standard error into the notes.
/// All memory that it needs is taken from `memory`, which is lost to the caller.
#[unsafe(no_mangle)]
pub extern "C" fn bgp_page_check(
    memory: Memory,
    file: &[u8],
    name: &[u8],
    port: u16,
    within: u16,
    room: &mut [u8],
    notes: &mut [u8],
) -> Answer
    ensures named { IsUtf8 name.now → Checks port within file.entry name.now room.old room.new
        notes.old notes.new result }
    ensures unnamed { ¬ (IsUtf8 name.now) → (result.status ≡ 64) × (result.text ≡ 0)
        × (result.notes ≡ 0) × (room.new ≡ room.old) × (notes.new ≡ notes.old) }
{
    let Ok(name) = str::from_utf8(name) else {
        return Answer {
            status: NO_NAME,
            refused: false,
            text: 0,
            notes: 0,
        };
    };
    let arena = Arena::new(memory);
    let mut sink = FromWrite::new(Vec::new(&arena));
    let mut voice = MemVoice::new(&arena);
    let status = report_over::<_, CompactTracker<_>, _, _, _>(
        &arena, port, within, name, file, &mut sink, &mut voice,
    );
    let report = sink.into_inner();
    Answer {
        status,
        refused: arena.has_refused(),
        text: put_into(room, report.as_slice()),
        notes: put_into(notes, voice.text().as_bytes()),
    }
}
