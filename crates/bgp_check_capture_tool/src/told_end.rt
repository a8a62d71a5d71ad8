//! How a stretch ended, as its line tells it.

ghost use Rattle.std.specs.Prelude.{◌≡◌, ◌+◌, ◌<◌, length, map, option_map};
ghost use Rattle.bgp_judge.specs.Ends.{end_value};
ghost use Rattle.mrt.specs.Reader.{shown_of};
ghost use Rattle.mrt_sessions.specs.Located.{located};
ghost use Rattle.bgp_check_lines.specs.Lines.{PutsLines};
ghost use Rattle.bgp_check_capture_tool.specs.ToldEnd.{IsEndTold, address_of, is_over};
ghost use Rattle.bgp_check_capture_tool.specs.ToldEnd.{open_text, told_end_line, told_end_value};

use crate::naming::endpoint_of;
use crate::places::micro_after;
use bgp_check_lines::{CheckLines, EndedStretch, ended_in, first_second, put_ended, put_open};
use bgp_judge::End;
use bgp_machine::Fsm;
use bgp_prefix::{Address, Seconds, Session};
use bgp_why::Endpoint;
use mrt::{Record, Sink};
use mrt_sessions::NamedRecord;
use std::alloc::Allocator;
use streams::Side;

/// The end of a stretch.
#[derive(Clone, Copy)]
pub(crate) struct ToldEnd<'a> {
    /// The second of the session's first record.
    pub(crate) first: Seconds,
    /// The number in the session of the record that shows it.
    pub(crate) number: u64,
    /// The fraction of that record's second, if it has one.
    pub(crate) micro: Option<u32>,
    /// Who ended the stretch.
    pub(crate) by: Endpoint,
    /// How.
    pub(crate) ended: EndedStretch<'a>,
}

/// The address of one of a session's systems.
fn address_of(side: Side, session: &Session) -> Address
    ensures { result ≡ address_of side session.now }
{
    match side {
        Side::Local => session.local,
        Side::Peer => session.peer,
    }
}

/// How a stretch of a session, which has these records in the file, ended, if it did: so many of
/// them stand before it.
pub(crate) fn told_end<'a>(
    session: &Session,
    named: &[NamedRecord<'_>],
    before: usize,
    stretch: &[Record<'a>],
) -> Option<ToldEnd<'a>>
    requires { before + length stretch.now < usize.MAX }
    ensures { IsEndTold (map located named.now) session.now before (map shown_of stretch.now)
        (option_map told_end_value result) }
{
    let ended = ended_in(stretch)?;
    Some(ToldEnd {
        first: first_second(named),
        number: (before + ended.before) as u64 + 1,
        micro: micro_after(named, before + ended.before),
        by: endpoint_of(address_of(ended.by, session)),
        ended,
    })
}

/// Whether the session is over if it may have ended in these ways: in Idle. All are in one state,
/// since the records determine it.
pub(crate) fn is_over<A: Allocator>(endings: &[End<A>]) -> bool
    ensures { result ≡ is_over (map end_value endings.now) }
{
    match endings.first() {
        Some(end) => matches!(end.fsm, Fsm::Idle),
        None => false,
    }
}

/// Puts the line of a session that is open, and nothing of one that is over.
fn put_if_open<A: Allocator + Copy, W: Sink>(lines: &mut CheckLines<'_, A, W>, is_over: bool)
    ensures { PutsLines lines.old lines.new (open_text is_over) }
{
    if is_over {
        return;
    }
    put_open(lines);
}

/// Puts the line of a stretch's end; or that it is open, unless the session is over.
pub(crate) fn put_told_end<A: Allocator + Copy, W: Sink>(
    lines: &mut CheckLines<'_, A, W>,
    told: Option<ToldEnd<'_>>,
    is_over: bool,
)
    ensures { PutsLines lines.old lines.new
        (told_end_line is_over (option_map told_end_value told.entry)) }
{
    match told {
        Some(told) => put_ended(
            lines,
            told.first,
            told.number,
            told.micro,
            &told.by,
            &told.ended,
        ),
        None => put_if_open(lines, is_over),
    }
}
