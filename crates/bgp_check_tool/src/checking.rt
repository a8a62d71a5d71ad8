//! `bgp check` of a recording.

ghost use Rattle.std.specs.Prelude.{◌≡◌, ◌<◌, ◌^◌, [], List, Some};
ghost use Rattle.packets.specs.Packet.{Recorded};
ghost use Rattle.bgp_check_lines.specs.Lines.{PutsLines};
ghost use Rattle.bgp_check_tool.specs.Checking.{ChecksMarked, PutsAll, PutsBlock, file_text};
ghost use Rattle.bgp_check_tool.specs.Checking.{cut_note, nothing_by, with_file};
ghost use Rattle.bgp_check_tool.specs.Judging.{settings_by};
ghost use Rattle.bgp_list.specs.Firsts.{AreApart, with_first};
ghost use Rattle.bgp_import.specs.Listed.{CanBeTold, IsListed};
ghost use Rattle.bgp_import.specs.Talks.{HoldsEach, HoldsSome};
ghost use Rattle.bgp_import.specs.Wrapped.{AreCounted};

use crate::blocks::put_block;
use crate::connection::{Between, check_connection};
use crate::counted::Counted;
use crate::marks::Marks;
use crate::nothing::{NothingJudged, put_nothing};
use crate::options::CheckOptions;
use arrayvec::ArrayVec;
use bgp_check_lines::{CheckLines, Settings, Tally, put_last, put_refused, put_refused_between};
use bgp_import::{
    CutShort, Listed, Refusal, Talks, cut_short_at, listed_in, refused, selection_of, take_all,
};
use bgp_judge::Tracker;
use bgp_list::NUMBERS;
use mrt::{Sink, Source};
use packets::Reader;
use std::alloc::{AllocError, Allocator};

/// How checking a recording ended.
#[derive(Clone, Drop)]
pub struct CheckedRecording {
    /// The exit status.
    pub status: u8,
    /// That the file was cut short, where it was: a line says so.
    pub cut_short: Option<CutShort>,
    /// The refusals in the lines, of each number the first, in their order: what helps against each
    /// is to be told. None of them is `None`.
    pub refusals: ArrayVec<Option<Refusal>, NUMBERS>,
    /// Why the file wasn't read to its end, if it wasn't; else that there was no memory for a list
    /// of what it holds, if there was none.
    pub refusal: Option<Refusal>,
    /// That no end is judged, of a file that was read to its end.
    pub nothing: Option<NothingJudged>,
}

/// Checks what is listed at this packet, puts what is told of it, and counts it.
fn put_listed<A: Allocator + Copy, T: Tracker<A>, W: Sink>(
    alloc: A,
    options: &CheckOptions,
    last_packet: u64,
    packet: u64,
    listed: &Listed<'_, A>,
    lines: &mut CheckLines<'_, A, W>,
    counted: &mut Counted,
    marks: &mut Marks<A>,
)
    requires told { CanBeTold listed.now }
    requires apart { AreApart counted.old.refusals.items }
    ensures puts { (packets : List Recorded) → IsListed options.now.port packets packet listed.now
        → PutsBlock options.now packets last_packet packet lines.old lines.new counted.old.tally
        counted.new.tally counted.old.refusals.items counted.new.refusals.items marks.old
        marks.new }
    ensures apart { AreApart counted.new.refusals.items }
{
    match *listed {
        Listed::Connection(addresses, talk, opening) => {
            let between = Between {
                session: selection_of(addresses, options.port).session,
                options: *options,
                last_packet,
            };
            let told = check_connection::<A, T>(alloc, &between, &talk.connections, opening);
            put_block(lines, &between.session, opening, &told, options.printing);
            counted.add_connection(&between.session, opening, &told);
            marks.add_connection(&between.session, opening, options.printing, &told);
        }
        Listed::Refused(addresses, fault) => {
            let refusal = refused(fault, packet);
            put_refused_between(lines, addresses, refusal);
            counted.add_refusal(refusal);
        }
    }
}

/// Checks all that was gathered, in the order of packets, and counts it. Nothing is put, and the
/// refusal answered, where there is no memory for the list.
fn put_all<A: Allocator + Copy, T: Tracker<A>, W: Sink>(
    alloc: A,
    options: &CheckOptions,
    talks: &Talks<A>,
    last_packet: u64,
    lines: &mut CheckLines<'_, A, W>,
    counted: &mut Counted,
    marks: &mut Marks<A>,
) -> Option<Refusal>
    requires holds { (packets : List Recorded) × HoldsSome options.now.port packets talks.now }
    requires apart { AreApart counted.old.refusals.items }
    ensures puts { (packets : List Recorded) → HoldsSome options.now.port packets talks.now
        → PutsAll options.now packets talks.now last_packet lines.old lines.new counted.old.tally
        counted.new.tally counted.old.refusals.items counted.new.refusals.items marks.old
        marks.new result }
    ensures apart { AreApart counted.new.refusals.items }
{
    let listed = match listed_in(alloc, talks) {
        Ok(listed) => listed,
        Err(AllocError) => {
            return Some(Refusal::Memory {
                packet: last_packet,
            });
        }
    };
    for (packet, one) in &listed {
        let packet = *packet;
        put_listed::<A, T, W>(
            alloc,
            options,
            last_packet,
            packet,
            one,
            lines,
            counted,
            marks,
        );
    }
    None
}

/// Puts why the file is refused, if it is, and counts that.
fn put_file<A: Allocator + Copy, W: Sink>(
    lines: &mut CheckLines<'_, A, W>,
    counted: &mut Counted,
    refusal: Option<Refusal>,
)
    requires { AreApart counted.old.refusals.items }
    ensures wrote { PutsLines lines.old lines.new (file_text refusal) }
    ensures tallied { counted.new.tally ≡ with_file counted.old.tally refusal }
    ensures added { counted.new.refusals.items ≡ with_first counted.old.refusals.items refusal }
    ensures apart { AreApart counted.new.refusals.items }
{
    match refusal {
        Some(refusal) => {
            put_refused(lines, refusal);
            counted.add_refusal(refusal);
        }
        None => {}
    }
}

/// Puts that the file was cut short behind this packet, unless what is well is left out.
fn put_cut_behind<A: Allocator + Copy, W: Sink>(
    lines: &mut CheckLines<'_, A, W>,
    quiet: bool,
    before: u64,
)
    ensures { PutsLines lines.old lines.new (cut_note quiet (Some (record { before = before }))) }
{
    if quiet {
        return;
    }
    bgp_check_lines::put_cut_short(lines, before);
}

/// Puts that the file was cut short, where it was, unless what is well is left out.
fn put_cut_short<A: Allocator + Copy, W: Sink>(
    lines: &mut CheckLines<'_, A, W>,
    quiet: bool,
    cut_short: Option<CutShort>,
)
    ensures { PutsLines lines.old lines.new (cut_note quiet cut_short) }
{
    match cut_short {
        Some(CutShort { before }) => put_cut_behind(lines, quiet, before),
        None => {}
    }
}

/// That no end is judged, if the file was read to its end.
fn nothing_by(port: u16, tally: Tally, refusal: Option<Refusal>) -> Option<NothingJudged>
    ensures { result ≡ nothing_by port tally refusal }
{
    let is_incomplete = tally.is_incomplete();
    match (tally.has_verdict(), refusal) {
        (true, _) | (false, Some(_)) => None,
        (false, None) => Some(NothingJudged {
            port,
            is_incomplete,
        }),
    }
}

/// Whether the `bgp judge` command is told that reproduces a verdict: it isn't if the file is
/// refused.
fn settings_by(stopped: Option<Refusal>, settings: Settings) -> Settings
    ensures { result ≡ settings_by stopped settings }
{
    match stopped {
        None => settings,
        Some(_) => Settings::Never,
    }
}

/// Reads the recording, and checks all that is listed of it: what
/// [`check_recording`](crate::check_recording) is made of, on whose page its sentence stands. Adds
/// where the noes stand.
pub(crate) fn check_recording<A: Allocator + Copy, T: Tracker<A>, R: Source, W: Sink>(
    alloc: A,
    options: &CheckOptions,
    source: &mut R,
    sink: &mut W,
    talks: &mut Talks<A>,
    marks: &mut Marks<A>,
) -> CheckedRecording
    requires source { R.failures source.old < 2 ^ 63 }
    requires sink { W.failures sink.old < 2 ^ 63 }
    requires empty { HoldsEach options.now.port [] talks.old }
    requires none { AreCounted [] talks.old.wrapped }
    ensures { ChecksMarked R.gives R.has_ended W.takes R.failures W.failures options.now
        source.old source.new sink.old sink.new result.status result.cut_short
        result.refusals.items result.refusal result.nothing talks.new marks.old marks.new }
{
    let mut reader = Reader::new(alloc);
    let stopped = take_all(&mut reader, talks, source).err();
    let cut_short = cut_short_at(reader.number(), reader.is_cut_short(), stopped);
    let mut lines = CheckLines::new(options.form, alloc, sink);
    let mut counted = Counted::new();
    let last = reader.number();
    let told = CheckOptions {
        settings: settings_by(stopped, options.settings),
        ..*options
    };
    let lacking = put_all::<A, T, W>(alloc, &told, talks, last, &mut lines, &mut counted, marks);
    put_file(&mut lines, &mut counted, stopped);
    put_file(&mut lines, &mut counted, lacking);
    let quiet = options.printing.quiet;
    put_cut_short(&mut lines, quiet, cut_short);
    let refusal = stopped.or(lacking);
    let Counted { tally, refusals } = counted;
    put_nothing(&mut lines, tally, options.port);
    put_last(&mut lines, &tally, quiet);
    let status = lines.finish(tally.status());
    // No effect: it ends the loan of the sink.
    lines.into_sink();
    CheckedRecording {
        status: status.code(),
        cut_short,
        refusals,
        refusal,
        nothing: nothing_by(options.port, tally, refusal),
    }
}
