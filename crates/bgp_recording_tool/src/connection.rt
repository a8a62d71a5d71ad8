//! What is reported on one of a recording's connections: the verdict on its records, and why it is
//! so.

ghost use Rattle.std.specs.Prelude.{◌≡◌, [], ℕ, List, Some, length, map, reverse};
ghost use Rattle.std.specs.Prelude.{IfNone, IfSome, MatchResult};
ghost use Rattle.mrt.specs.Reader.{shown_of};
ghost use Rattle.bgp_prefix.specs.Shown.{second_of};
ghost use Rattle.std.specs.List.{AllByRecursion};
ghost use Rattle.packets.specs.Packet.{Recorded};
ghost use Rattle.streams.specs.Passed.{Segment};
ghost use Rattle.bgp_prefix.specs.declared.session.RouteRefresh.TheVariants.{Refused};
ghost use Rattle.bgp_judge.specs.Verdict.{verdict_value};
ghost use Rattle.bgp_tool.specs.Status.{code_of};
ghost use Rattle.bgp_import.specs.Gathers.{HoldsSession};
ghost use Rattle.bgp_import.specs.Making.{HoldsTaken, TellsOne};
ghost use Rattle.bgp_import.specs.Refreshes.{IsRefreshIn};
ghost use Rattle.bgp_import.specs.Refusals.{refusal_line};
ghost use Rattle.bgp_import.specs.Selecting.{AreTaken};
ghost use Rattle.bgp_recording.specs.Captured as captured;
ghost use Rattle.bgp_recording.specs.Captured.{IsNoRefresh};
ghost use Rattle.bgp_verdict_lines.specs.Lines.{PutsLines};
ghost use Rattle.bgp_explain.specs.Moments.{first_second};
ghost use Rattle.bgp_explain.specs.Places.{shown_places};
ghost use Rattle.bgp_explain.specs.Records.{AreExplained, CanBeShown, SaysOrNot};
ghost use Rattle.bgp_explain.specs.Text.{CanBePutOf};
ghost use Rattle.bgp_recording_tool.specs.Connections.{IsMore, IsMoreOf, IsToldAs};
ghost use Rattle.bgp_recording_tool.specs.Connections.{made_style};
ghost use Rattle.bgp_why.specs.declared.other_orders.OtherOrders.TheVariants.{Unasked};
ghost use Rattle.bgp_recording_tool.specs.Found.{IsSought, entries_of, found_of};
ghost use Rattle.bgp_recording_tool.specs.Judging.{Puts};
ghost use Rattle.bgp_recording_tool.specs.Options.{IsOneFamily};
ghost use Rattle.bgp_recording_tool.specs.Putting.{PutsNothing, PutsReport};
ghost use Rattle.bgp_recording_tool.specs.Remarks.{AddsTold, IsHelp, notes_of};
ghost use Rattle.bgp_recording_tool.specs.Told.{UnfinishedOverAll, refused_status};
ghost use Rattle.bgp_recording_tool.specs.Told.{told_of, told_status, told_text, told_with};

use crate::judging::{status_of, verdict_status};
use crate::orders::{Searched, search_orders};
use crate::remark::{Remark, add_help};
use crate::remarking::add_remarks_on;
use bgp_explain::{ExplainedRecords, Places, Report, explain_records, put_explained_records};
use bgp_import::{Gathered, Import, Refusal, records_of, refresh_in};
use bgp_judge::{Tracker, Verdict};
use bgp_open::Config;
use bgp_orders::Unexplained;
use bgp_parts::some_show_confederations;
use bgp_prefix::{RouteRefresh, Seconds, Session};
use bgp_recording::{Entry, Recording};
use bgp_tool::Status;
use bgp_verdict_lines::{VerdictLines, put_no_order, put_refusal, put_unfinished, put_verdict};
use bgp_why::{OtherOrders, Style};
use mrt::{Record, Sink};
use std::alloc::{AllocError, Allocator};

/// Why the records of a connection aren't judged, if they aren't: its session may have a
/// ROUTE-REFRESH, which the machine doesn't know, nothing says that such are to be passed over, and
/// there is one.
fn refused_refresh<A: Allocator>(session: &Session, made: &Recording<'_, A>) -> Option<Refusal>
    ensures some { IfSome result (λ refusal. (session.now.refresh ≡ Refused)
        × IsRefreshIn made.now.entries.items made.now.received.rest made.now.sent.rest
        (Some refusal)) }
    ensures none { IfNone result (session.now.refresh ≡ Refused
        → AllByRecursion IsNoRefresh (captured.records_of made.now.entries.items)) }
{
    if session.refresh == RouteRefresh::Refused {
        refresh_in(made)
    } else {
        None
    }
}

/// Returns the second of a record.
fn second_of(shown: &Record<'_>) -> Seconds
    ensures { result ≡ second_of (shown_of shown.now) }
{
    match *shown {
        Record::In(second, _) => second,
        Record::Out(second, _) => second,
        Record::Change(second, _, _) => second,
    }
}

/// Returns the second of the first record of these entries, 0 if there is none.
fn first_second_of(entries: &[Entry<'_>]) -> Seconds
    ensures { result ≡ first_second (captured.records_of entries.now) }
{
    match entries {
        [] => 0,
        [first, ..] => second_of(&first.record),
    }
}

/// Puts what explains the verdict on the records of these entries, with what is said of other
/// orders, or that memory was refused for the reason.
fn put_reason<A: Allocator + Copy, W: Sink>(
    lines: &mut VerdictLines<'_, A, W>,
    alloc: A,
    config: &Config,
    entries: &[Entry<'_>],
    explained: &ExplainedRecords<A>,
    instead: OtherOrders,
)
    requires explained { AreExplained config.now (captured.records_of entries.now) explained.now }
    requires can { CanBePutOf config.now.parts.session explained.now.reason }
    ensures { (more : List ℕ)
        × SaysOrNot config.now (made_style entries.now instead) config.now.parts.session
        (shown_places entries.now) (captured.records_of entries.now)
        (verdict_value explained.now.verdict) more
        × PutsLines lines.old lines.new more }
{
    let (session, places) = (&config.parts.session, Places::Shown(entries));
    let details = explained.details(alloc, config);
    let style = Style {
        other_orders: instead,
        ..Style::plain(first_second_of(entries), true)
    };
    put_explained_records(lines, config, &style, session, places, explained, &details);
}

/// Puts what stands after the verdict on the records of these entries.
fn put_more<A: Allocator + Copy, W: Sink>(
    lines: &mut VerdictLines<'_, A, W>,
    alloc: A,
    config: &Config,
    report: Report,
    entries: &[Entry<'_>],
    explained: &ExplainedRecords<A>,
    instead: OtherOrders,
)
    requires explained { AreExplained config.now (captured.records_of entries.now) explained.now }
    requires can { CanBePutOf config.now.parts.session explained.now.reason }
    ensures { (more : List ℕ)
        × IsMore report config.now entries.now instead (verdict_value explained.now.verdict) more
        × PutsLines lines.old lines.new more }
{
    match report {
        Report::VerdictAlone => {}
        Report::WithReason => put_reason(lines, alloc, config, entries, explained, instead),
    }
}

/// Puts the text of the verdict, or the line of the sent message that no order explains, if there
/// is one.
fn put_answer<A: Allocator + Copy, W: Sink>(
    lines: &mut VerdictLines<'_, A, W>,
    verdict: &Verdict<A>,
    unexplained: Option<Unexplained>,
)
    ensures { PutsLines lines.old lines.new (told_text
        (told_of (verdict_value verdict.now) unexplained [])) }
{
    match unexplained {
        None => put_verdict(lines, verdict),
        Some(unexplained) => put_no_order(lines, unexplained.packet),
    }
}

/// Returns the exit status of the verdict, or of a no over all orders, if a sent message is known
/// that no order explains.
fn answer_status<A: Allocator>(verdict: &Verdict<A>, unexplained: Option<Unexplained>) -> Status
    ensures { (more : List ℕ)
        → code_of result ≡ told_status (told_of (verdict_value verdict.now) unexplained more) }
{
    match unexplained {
        None => verdict_status(verdict),
        Some(_) => Status::No,
    }
}

/// Puts the verdict on the records of these entries, or the sent message that no order explains,
/// and what stands after it, and answers its exit status.
fn put_report<A: Allocator + Copy, W: Sink>(
    lines: &mut VerdictLines<'_, A, W>,
    alloc: A,
    config: &Config,
    report: Report,
    entries: &[Entry<'_>],
    explained: &ExplainedRecords<A>,
    unexplained: Option<Unexplained>,
    instead: OtherOrders,
) -> Status
    requires explained { AreExplained config.now (captured.records_of entries.now) explained.now }
    requires can { CanBePutOf config.now.parts.session explained.now.reason }
    ensures { (more : List ℕ)
        × IsMore report config.now entries.now instead (verdict_value explained.now.verdict) more
        × PutsLines lines.old lines.new (told_text
        (told_of (verdict_value explained.now.verdict) unexplained more))
        × (code_of result
        ≡ told_status (told_of (verdict_value explained.now.verdict) unexplained more)) }
{
    put_answer(lines, &explained.verdict, unexplained);
    put_more(lines, alloc, config, report, entries, explained, instead);
    answer_status(&explained.verdict, unexplained)
}

/// Puts that it is unfinished over all orders, and what stands after the verdict on the records of
/// these entries, a no; and answers its exit status.
fn put_over_all<A: Allocator + Copy, W: Sink>(
    lines: &mut VerdictLines<'_, A, W>,
    alloc: A,
    config: &Config,
    report: Report,
    entries: &[Entry<'_>],
    explained: &ExplainedRecords<A>,
) -> Status
    requires explained { AreExplained config.now (captured.records_of entries.now) explained.now }
    requires can { CanBePutOf config.now.parts.session explained.now.reason }
    ensures put { (more : List ℕ)
        × IsMore report config.now entries.now Unasked (verdict_value explained.now.verdict) more
        × PutsLines lines.old lines.new (told_text (UnfinishedOverAll more)) }
    ensures status { code_of result ≡ 2 }
{
    put_unfinished(lines);
    let instead = OtherOrders::Unasked;
    put_more(lines, alloc, config, report, entries, explained, instead);
    Status::Unfinished
}

/// Puts what is reported on the records of these entries, or on those of another order that is a
/// yes, and answers its exit status.
fn put_searched<A: Allocator + Copy, W: Sink>(
    lines: &mut VerdictLines<'_, A, W>,
    alloc: A,
    config: &Config,
    report: Report,
    entries: &[Entry<'_>],
    explained: &ExplainedRecords<A>,
    searched: &Searched<'_, A>,
) -> Status
    requires explained { AreExplained config.now (captured.records_of entries.now) explained.now }
    requires can { CanBePutOf config.now.parts.session explained.now.reason }
    requires sought { IsSought config.now (verdict_value explained.now.verdict) searched.now }
    ensures { (more : List ℕ)
        × IsMoreOf report config.now entries.now (entries_of searched.now)
        (verdict_value explained.now.verdict) (found_of searched.now) more
        × PutsLines lines.old lines.new (told_text
        (told_with (verdict_value explained.now.verdict) (found_of searched.now) more))
        × (code_of result ≡ told_status
        (told_with (verdict_value explained.now.verdict) (found_of searched.now) more)) }
{
    match searched {
        Searched::Nothing | Searched::TooMany => {
            let instead = OtherOrders::Unasked;
            put_report(
                lines, alloc, config, report, entries, explained, None, instead,
            )
        }
        Searched::NoOrder(unexplained, instead) => {
            let unexplained = Some(*unexplained);
            put_report(
                lines,
                alloc,
                config,
                report,
                entries,
                explained,
                unexplained,
                *instead,
            )
        }
        Searched::Unfinished => put_over_all(lines, alloc, config, report, entries, explained),
        Searched::Another(another) => {
            let entries = another.recording.entries.as_slice();
            put_report(
                lines,
                alloc,
                config,
                report,
                entries,
                &another.explained,
                None,
                OtherOrders::Unasked,
            )
        }
    }
}

/// Judges the records that are made of a connection, puts what is reported on them, adds the
/// remarks, with a number if several connections are reported, and answers the exit status. If they
/// aren't a yes, all orders are searched: another that is one is reported in place of the made one,
/// and for a no a sent message that none explains in place of the record. If memory is refused for
/// the verdict, for that search or for the remarks, nothing is put or added.
fn report_made<A: Allocator + Copy, T: Tracker<A>, W: Sink>(
    alloc: A,
    config: &Config,
    report: Report,
    import: &Import,
    gathered: &Gathered<A>,
    number: Option<usize>,
    named: Option<usize>,
    made: &Recording<'_, A>,
    lines: &mut VerdictLines<'_, A, W>,
    remarks: &mut Vec<Remark, A>,
) -> Result<Status, AllocError>
    requires holds { HoldsTaken import.now.selection gathered.now }
    requires records { map shown_of made.now.records.items
        ≡ captured.records_of made.now.entries.items }
    requires can { AllByRecursion (CanBeShown config.now.parts.session)
        made.now.entries.items }
    ensures { (packets : List Recorded) (segments : List Segment)
        → AreTaken import.now.selection 0 packets segments
        → HoldsSession (reverse segments) (length packets) gathered.now
        → MatchResult result
        (λ status. TellsOne import.now number packets segments made.now
        → PutsReport config.now report import.now packets segments number named
        made.now.entries.items (notes_of made.now) lines.old lines.new remarks.old.items
        remarks.new.items (code_of status))
        (λ error. PutsNothing lines.old lines.new remarks.old.items remarks.new.items) }
{
    let entries = made.entries.as_slice();
    let explained = explain_records::<A, T>(alloc, config, &made.records)?;
    let verdict = &explained.verdict;
    let searched = search_orders::<A, T>(
        alloc, config, report, import, gathered, number, entries, verdict,
    )?;
    let confederation = some_show_confederations(&made.records);
    add_remarks_on(
        remarks,
        named,
        import.within,
        made,
        confederation,
        explained.left_out,
        verdict,
        &searched,
    )?;
    Ok(put_searched(lines, alloc, config, report, entries, &explained, &searched))
}

/// Puts the line of a refusal, adds what helps, and answers its exit status.
pub(crate) fn put_refused<A: Allocator + Copy, W: Sink>(
    lines: &mut VerdictLines<'_, A, W>,
    remarks: &mut Vec<Remark, A>,
    named: Option<usize>,
    refusal: Refusal,
) -> Status
    ensures writes { PutsLines lines.old lines.new (refusal_line refusal) }
    ensures helps { AddsTold remarks.old.items remarks.new.items (IsHelp named refusal) }
    ensures status { code_of result ≡ refused_status refusal }
{
    put_refusal(lines, refusal);
    add_help(remarks, named, refusal);
    status_of(refusal)
}

/// Judges the connection of this number, or the only one, puts what is reported on it, adds what
/// there is to tell besides, with a number where several are told of, and answers the exit status.
pub(crate) fn report_connection<A: Allocator + Copy, T: Tracker<A>, W: Sink>(
    alloc: A,
    config: &Config,
    report: Report,
    import: &Import,
    gathered: &Gathered<A>,
    number: Option<usize>,
    named: Option<usize>,
    lines: &mut VerdictLines<'_, A, W>,
    remarks: &mut Vec<Remark, A>,
) -> Status
    requires session { import.now.selection.session ≡ config.now.parts.session }
    requires family { IsOneFamily import.now.selection.session }
    requires holds { HoldsTaken import.now.selection gathered.now }
    ensures { (packets : List Recorded) (segments : List Segment)
        → AreTaken import.now.selection 0 packets segments
        → HoldsSession (reverse segments) (length packets) gathered.now
        → Puts lines.old lines.new remarks.old.items remarks.new.items (code_of result)
        (IsToldAs config.now report import.now packets segments number named) }
{
    let made = match records_of(alloc, import, gathered, number) {
        Ok(made) => made,
        Err(refusal) => return put_refused(lines, remarks, named, refusal),
    };
    if let Some(refusal) = refused_refresh(&import.selection.session, &made) {
        return put_refused(lines, remarks, named, refusal);
    }
    let reported = report_made::<A, T, W>(
        alloc, config, report, import, gathered, number, named, &made, lines, remarks,
    );
    match reported {
        Ok(status) => status,
        Err(AllocError) => put_refused(lines, remarks, named, gathered.no_memory()),
    }
}
