//! `bgp judge` of a recording.

ghost use Rattle.std.specs.Prelude.{◌≡◌, ◌<◌, ◌⊎◌, ◌∷◌, [], List, None, length, reverse};
ghost use Rattle.packets.specs.Packet.{Recorded};
ghost use Rattle.streams.specs.Connections.{numbered};
ghost use Rattle.streams.specs.Passed.{Segment};
ghost use Rattle.bgp_tool.specs.Status.{code_of};
ghost use Rattle.bgp_import.specs.Gathers.{HoldsSession};
ghost use Rattle.bgp_import.specs.Making.{HoldsTaken};
ghost use Rattle.bgp_import.specs.Selecting.{AreTaken};
ghost use Rattle.bgp_recording_tool.specs.Connections.{AreTold, AllAreTold};
ghost use Rattle.bgp_recording_tool.specs.Judging.{TellsRecording, Puts};
ghost use Rattle.bgp_recording_tool.specs.Options.{IsOneFamily};
ghost use Rattle.bgp_judge.specs.Verdict.{verdict_value};
ghost use Rattle.bgp_recording_tool.specs.Told.{refused_status, status_over, value_status};

use crate::connection::{put_refused, report_connection};
use crate::remark::{Remark, add_remarks};
use bgp_explain::Report;
use bgp_import::{Cause, CutShort, Gathered, Import, Refusal, gather};
use bgp_judge::{Tracker, Verdict};
use bgp_open::Config;
use bgp_tool::Status;
use bgp_verdict_lines::{VerdictLines, put_opening};
use mrt::{Sink, Source};
use std::alloc::Allocator;

/// How judging a recording ended.
#[derive(Drop)]
pub struct Judged<A: Allocator> {
    /// The exit status.
    pub status: u8,
    /// That the recording was cut short, where it was: to be told first.
    pub cut_short: Option<CutShort>,
    /// What there is to tell of the connections, in their order, or of the recording.
    pub remarks: Vec<Remark, A>,
}

/// The exit status of a recording that is refused.
pub fn status_of(refusal: Refusal) -> Status
    ensures { code_of result ≡ refused_status refusal }
{
    match refusal.cause() {
        Cause::Recording => Status::Refused,
        Cause::Memory => Status::Memory,
        Cause::Device => Status::Device,
    }
}

/// The exit status over two connections: where a device or memory failed, not all was judged; then
/// a no, which nothing told of the other hides.
pub(crate) fn status_over(status: Status, other: Status) -> Status
    ensures { code_of result ≡ status_over (code_of status ∷ code_of other ∷ []) }
{
    match (status, other) {
        (Status::Device, _) | (_, Status::Device) => Status::Device,
        (Status::Memory, _) | (_, Status::Memory) => Status::Memory,
        (Status::No, _) | (_, Status::No) => Status::No,
        (Status::Refused, _) | (_, Status::Refused) => Status::Refused,
        (Status::Unfinished, _) | (_, Status::Unfinished) => Status::Unfinished,
        _ => Status::Done,
    }
}

/// The exit status of a verdict.
pub(crate) fn verdict_status<A: Allocator>(verdict: &Verdict<A>) -> Status
    ensures { code_of result ≡ value_status (verdict_value verdict.now) }
{
    match verdict {
        Verdict::Yes(_) => Status::Done,
        Verdict::No(_) => Status::No,
        Verdict::Unfinished => Status::Unfinished,
    }
}

/// Judges each connection that holds octets, under a line that names it, and answers the exit
/// status over them.
fn judge_each<A: Allocator + Copy, T: Tracker<A>, W: Sink>(
    alloc: A,
    config: &Config,
    report: Report,
    import: &Import,
    gathered: &Gathered<A>,
    lines: &mut VerdictLines<'_, A, W>,
    remarks: &mut Vec<Remark, A>,
) -> Status
    requires session { import.now.selection.session ≡ config.now.parts.session }
    requires family { IsOneFamily import.now.selection.session }
    requires holds { HoldsTaken import.now.selection gathered.now }
    ensures { (packets : List Recorded) (segments : List Segment)
        → AreTaken import.now.selection 0 packets segments
        → HoldsSession (reverse segments) (length packets) gathered.now
        → Puts lines.old lines.new remarks.old.items remarks.new.items (code_of result)
        (AreTold config.now report import.now packets segments
        (length (numbered (reverse segments)))) }
{
    let mut status = Status::Done;
    for index in 0..gathered.count() {
        let number = index + 1;
        let Some(opening) = gathered.opening(number) else {
            unreachable!();
        };
        put_opening(lines, &config.parts.session, opening);
        let told = report_connection::<A, T, W>(
            alloc,
            config,
            report,
            import,
            gathered,
            Some(number),
            Some(number),
            lines,
            remarks,
        );
        status = status_over(status, told);
    }
    status
}

/// Judges the connection that is named or the only one, or where there are several each.
fn judge_gathered<A: Allocator + Copy, T: Tracker<A>, W: Sink>(
    alloc: A,
    config: &Config,
    report: Report,
    import: &Import,
    gathered: &Gathered<A>,
    lines: &mut VerdictLines<'_, A, W>,
    remarks: &mut Vec<Remark, A>,
) -> Status
    requires session { import.now.selection.session ≡ config.now.parts.session }
    requires family { IsOneFamily import.now.selection.session }
    requires holds { HoldsTaken import.now.selection gathered.now }
    ensures { (packets : List Recorded) (segments : List Segment)
        → AreTaken import.now.selection 0 packets segments
        → HoldsSession (reverse segments) (length packets) gathered.now
        → Puts lines.old lines.new remarks.old.items remarks.new.items (code_of result)
        (AllAreTold config.now report import.now packets segments) }
{
    if import.connection.is_none() && gathered.count() > 1 {
        return judge_each::<A, T, W>(alloc, config, report, import, gathered, lines, remarks);
    }
    let number = import.connection;
    report_connection::<A, T, W>(
        alloc, config, report, import, gathered, number, None, lines, remarks,
    )
}

/// Judges what is read of a recording, and answers the exit status; and that the recording was cut
/// short, where it was.
pub(crate) fn judge_source<A: Allocator + Copy, T: Tracker<A>, R: Source, W: Sink>(
    alloc: A,
    config: &Config,
    report: Report,
    import: &Import,
    source: &mut R,
    lines: &mut VerdictLines<'_, A, W>,
    remarks: &mut Vec<Remark, A>,
) -> (Status, Option<CutShort>)
    requires session { import.now.selection.session ≡ config.now.parts.session }
    requires family { IsOneFamily import.now.selection.session }
    requires failures { R.failures source.old < u64.MAX }
    ensures { Puts lines.old lines.new remarks.old.items remarks.new.items (code_of result.0)
        (TellsRecording R.gives R.has_ended R.failures config.now report import.now
        source.old source.new result.1) }
{
    match gather(alloc, &import.selection, source) {
        Ok(gathered) => {
            let status = judge_gathered::<A, T, W>(
                alloc, config, report, import, &gathered, lines, remarks,
            );
            (status, gathered.cut_short())
        }
        Err(refusal) => (put_refused(lines, remarks, None, refusal), None),
    }
}

/// How a command over a recording ends where none can be meant, and why.
pub(crate) fn misfit<A: Allocator + Copy>(alloc: A, remark: Remark) -> Judged<A>
    ensures told { ((result.status ≡ 64) × (result.remarks.items ≡ remark ∷ []))
        ⊎ ((result.status ≡ 4) × (result.remarks.items ≡ [])) }
    ensures uncut { result.cut_short ≡ None }
{
    let mut remarks = Vec::new(alloc);
    let status = match add_remarks(&mut remarks, &[Some(remark)]) {
        Ok(()) => Status::Usage,
        Err(_) => Status::Memory,
    };
    Judged {
        status: status.code(),
        cut_short: None,
        remarks,
    }
}
