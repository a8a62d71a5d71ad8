//! What was listed of a recording, and what is told where it was nothing.

ghost use Rattle.std.specs.Prelude.{◌≡◌, ◌<◌, ◌⊎◌, None, IfSome, IfNone, IsSome};

use crate::firsts::NUMBERS;
use arrayvec::ArrayVec;
use bgp_import::{CutShort, Refusal, Wrapped};
use std::fmt;

/// What was listed of a recording.
#[derive(Clone, Drop)]
pub struct ListedRecording {
    /// The exit status.
    pub status: u8,
    /// The port whose connections were listed.
    pub port: u16,
    /// How many are listed: connections, and pairs of addresses of whose connections none can be
    /// told.
    pub lines: usize,
    /// How many packets were looked at: all that the recording has, where it can be read on.
    pub packets: u64,
    /// How many of these are wrapped: to be told where there is no line.
    pub wrapped: Wrapped,
    /// That it was cut short, where it was: to be told first.
    pub cut_short: Option<CutShort>,
    /// The refusals in the lines, of each number the first, in their order: what helps against each
    /// is to be told. None of them is `None`.
    pub refusals: ArrayVec<Option<Refusal>, NUMBERS>,
    /// Why the recording can't be read on, if it can't; else that there was no memory for a list of
    /// its connections, if there was none.
    pub refusal: Option<Refusal>,
}

/// That a recording has no line: nothing at the port holds octets.
#[derive(Clone, Copy, Debug, PartialEq, Eq)]
pub struct NothingListed {
    /// The port.
    pub port: u16,
    /// How many packets the recording has.
    pub packets: u64,
}

impl ListedRecording {
    /// What is told where nothing was listed of a recording that was read to its end: one sentence.
    pub fn nothing(&self) -> Option<NothingListed>
        ensures some { IfSome result (λ nothing. (self.now.lines ≡ 0)
            × (self.now.refusal ≡ None)
            × (nothing.port ≡ self.now.port) × (nothing.packets ≡ self.now.packets)) }
        ensures none { IfNone result ((0 < self.now.lines) ⊎ IsSome self.now.refusal) }
    {
        if self.lines > 0 || self.refusal.is_some() {
            return None;
        }
        Some(NothingListed {
            port: self.port,
            packets: self.packets,
        })
    }
}

impl fmt::Display for NothingListed {
    fn fmt<W: fmt::Write>(&self, f: &mut fmt::Formatter<W>) -> fmt::Result {
        write!(
            f,
            "no connection at port {} holds octets, in {} packets: name another by --port, or \
             record elsewhere",
            self.port, self.packets
        )
    }
}
