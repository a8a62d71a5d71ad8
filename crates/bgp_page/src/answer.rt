//! What a call answers, and the texts that it leaves.

ghost use Rattle.std.specs.Prelude.{◌≡◌, ◌-◌, length, min};
ghost use Rattle.bgp_page.specs.Stands.{Stands};

/// What a call answers.
#[repr(C)]
#[derive(Clone, Copy)]
pub struct Answer {
    /// The exit status of the program.
    pub status: u8,
    /// Whether memory was refused: more of it may give another report.
    pub refused: bool,
    /// How many octets the report has.
    pub text: usize,
    /// How many octets the sentences on standard error have.
    pub notes: usize,
}

/// Copies as much of a text to the front of a place as fits, and returns how long the text is.
pub(crate) fn put_into(room: &mut [u8], text: &[u8]) -> usize
    ensures { Stands text.now result room.old room.new }
{
    let count = text.len().min(room.len());
    room[..count].copy_from_slice(&text[..count]);
    text.len()
}
