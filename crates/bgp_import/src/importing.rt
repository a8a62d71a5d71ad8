//! `bgp import`: the capture that is made of one connection of a recording.

ghost use Rattle.std.specs.Prelude.{◌≡◌, ◌<◌, ◌+◌, List, length, map, reverse, IfOk};
ghost use Rattle.std.specs.Prelude.{MatchResult};
ghost use Rattle.mrt.specs.Reader.{shown_of};
ghost use Rattle.bgp_prefix.specs.Address.{family_of};
ghost use Rattle.packets.specs.Packet.{Recorded};
ghost use Rattle.streams.specs.Passed.{Segment};
ghost use Rattle.bgp_recording.specs.Captured as captured;
ghost use Rattle.bgp_import.specs.Gathers.{HoldsSession};
ghost use Rattle.bgp_import.specs.Imports.{Imports, source_failures, sink_failures};
ghost use Rattle.bgp_import.specs.Making.{HoldsTaken, TellsOne, IsTurnedDown, ImportsTaken};
ghost use Rattle.bgp_import.specs.Selecting.{AreTaken};

use crate::capture::{notes_on, write_capture};
use crate::cut_short::CutShort;
use crate::gathering::{Gathered, gather};
use crate::note::Notes;
use crate::refusal::Refusal;
use crate::selection::Selection;
use bgp_recording::{Framings, Recording, make_records};
use mrt::{Sink, Source};
use std::alloc::{AllocError, Allocator};

/// What is imported.
#[derive(Clone, Copy, Debug, PartialEq, Eq)]
pub struct Import {
    /// Which session.
    pub selection: Selection,
    /// Which of its connections that hold octets, counted from 1: `None` for the only one.
    pub connection: Option<usize>,
    /// How many seconds after it came a message is handled at the latest.
    pub within: u16,
}

/// Why a command over a recording doesn't end well.
#[derive(Clone, Copy, Debug, PartialEq, Eq)]
pub enum Stopped {
    /// The recording is refused.
    Refused(Refusal),
    /// The sink failed.
    Unwritten,
}

/// How an import ended.
#[derive(Clone, Copy, Debug, PartialEq, Eq)]
pub struct Imported {
    /// That the recording was cut short, where it was: to be told first.
    pub cut_short: Option<CutShort>,
    /// What there is to tell of the capture, or why there is none.
    pub ended: Result<Notes, Stopped>,
}

/// The records that tell the connection of this number, counted from 1, or the only one. Refused
/// where there is none or there are several, where its segments spell no two streams, and for
/// memory.
///
/// Both addresses of the session have to be of one family, as those of a packet are.
pub fn records_of<'a, A: Allocator + Copy>(
    alloc: A,
    import: &Import,
    gathered: &'a Gathered<A>,
    number: Option<usize>,
) -> Result<Recording<'a, A>, Refusal>
    requires families { family_of import.now.selection.session.peer
        ≡ family_of import.now.selection.session.local }
    requires holds { HoldsTaken import.now.selection gathered.now }
    ensures told { (packets : List Recorded) (segments : List Segment)
        → AreTaken import.now.selection 0 packets segments
        → HoldsSession (reverse segments) (length packets) gathered.entry.now
        → MatchResult result (TellsOne import.now number packets segments)
        (IsTurnedDown number packets segments) }
    ensures records { IfOk result (λ made.
        map shown_of made.records.items ≡ captured.records_of made.entries.items) }
{
    let connection = match gathered.choose(number) {
        Ok(connection) => connection,
        Err(refusal) => return Err(refusal),
    };
    let framings = Framings::of_session(&import.selection.session);
    match make_records(alloc, &connection, framings, import.within) {
        Ok(made) => Ok(made),
        Err(AllocError) => Err(gathered.no_memory()),
    }
}

/// Writes the capture that is made of the connection that is meant.
fn import_gathered<A: Allocator + Copy, W: Sink>(
    alloc: A,
    import: &Import,
    gathered: &Gathered<A>,
    sink: &mut W,
) -> Result<Notes, Stopped>
    requires failures { W.failures sink.old < u64.MAX }
    requires families { family_of import.now.selection.session.peer
        ≡ family_of import.now.selection.session.local }
    requires holds { HoldsTaken import.now.selection gathered.now }
    ensures imports { (packets : List Recorded) (segments : List Segment)
        → AreTaken import.now.selection 0 packets segments
        → HoldsSession (reverse segments) (length packets) gathered.now
        → ImportsTaken W.takes import.now packets segments sink.old sink.new result }
    ensures failures { W.failures sink.new ≡ W.failures sink.old + sink_failures result }
{
    let made = match records_of(alloc, import, gathered, import.connection) {
        Ok(made) => made,
        Err(refusal) => return Err(Stopped::Refused(refusal)),
    };
    match write_capture(sink, &import.selection.session, made.entries.as_slice()) {
        Ok(()) => Ok(notes_on(&made)),
        Err(_) => Err(Stopped::Unwritten),
    }
}

/// Writes the capture that is made of one connection of a recording, also of what there is of one
/// that was cut short, and answers what there is to tell of it. Where the recording is refused
/// nothing is written; and where the sink fails, a beginning of the capture.
///
/// Both addresses of the session have to be of one family, as those of a packet are. Messages are
/// as long as the session's may be (RFC 8654), and a ROUTE-REFRESH (RFC 2918) is passed over where
/// it says so.
pub fn import_recording<A: Allocator + Copy, R: Source, W: Sink>(
    alloc: A,
    import: &Import,
    source: &mut R,
    sink: &mut W,
) -> Imported
    requires families { family_of import.now.selection.session.peer
        ≡ family_of import.now.selection.session.local }
    requires source_failures { R.failures source.old < u64.MAX }
    requires sink_failures { W.failures sink.old < u64.MAX }
    ensures imports { Imports R.gives R.has_ended W.takes import.now source.old source.new
        sink.old sink.new result }
    ensures source_failures { R.failures source.new
        ≡ R.failures source.old + source_failures result.ended }
    ensures sink_failures { W.failures sink.new ≡ W.failures sink.old
        + sink_failures result.ended }
{
    match gather(alloc, &import.selection, source) {
        Ok(gathered) => Imported {
            cut_short: gathered.cut_short(),
            ended: import_gathered(alloc, import, &gathered, sink),
        },
        Err(refusal) => Imported {
            cut_short: None,
            ended: Err(Stopped::Refused(refusal)),
        },
    }
}
