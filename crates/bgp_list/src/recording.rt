//! `bgp list` of a recording.

ghost use Rattle.std.specs.Prelude.{◌≡◌, ◌<◌, IfOk, List, map};
ghost use Rattle.std.specs.List.{flat_map};
ghost use Rattle.packets.specs.Packet.{Recorded};
ghost use Rattle.bgp_import.specs.Talks.{HoldsSome};
ghost use Rattle.bgp_text.specs.Lines.{Writes};
ghost use Rattle.bgp_tool.specs.Status.{code_of};
ghost use Rattle.bgp_list.specs.Firsts.{AreApart, firsts_after};
ghost use Rattle.bgp_list.specs.Forms.{IsInForm, refused_in};
ghost use Rattle.bgp_list.specs.Lines.{line_text, line_value, refusal_in};
ghost use Rattle.bgp_list.specs.Recording.{AreLinesOf, IsFileInForm, ListsRecording, PutsAll};
ghost use Rattle.bgp_list.specs.Recording.{PutsInForm, file_in, status_of, status_over};

use crate::connection::put_refused;
use crate::firsts::{NUMBERS, add_first};
use crate::form::ListForm;
use crate::json_text::objects_of;
use crate::line::Line;
use crate::listed::ListedRecording;
use crate::refusal_json::put_refused_json;
use arrayvec::ArrayVec;
use bgp_import::{Cause, Refusal, Talks, cut_short_at, listed_in, take_all};
use bgp_text::Lines;
use bgp_tool::{Status, hand_over};
use mrt::{Sink, Source};
use packets::Reader;
use std::alloc::{AllocError, Allocator};

/// The lines of all that was gathered, in the order of packets. `AllocError` is answered where
/// memory is refused for them.
fn lines_of<'a, A: Allocator + Copy>(
    alloc: A,
    port: u16,
    talks: &'a Talks<A>,
    last_packet: u64,
) -> Result<Vec<Line<'a>, A>, AllocError>
    requires { (packets : List Recorded) × HoldsSome port packets talks.now }
    ensures { (packets : List Recorded) → HoldsSome port packets talks.entry.now
        → IfOk result (λ list. AreLinesOf port packets talks.entry.now last_packet
        (map line_value list.items)) }
{
    let listed = listed_in(alloc, talks)?;
    let mut list = Vec::new(alloc);
    for (packet, one) in &listed {
        let line = Line::at(alloc, port, last_packet, *packet, one)?;
        list.push(line)?;
    }
    Ok(list)
}

/// Puts these lines as text.
fn put_texts<W: Sink>(lines: &mut Lines<'_, W>, list: &[Line<'_>])
    ensures { Writes lines.old lines.new (flat_map line_text (map line_value list.now)) }
{
    for line in list {
        line.put(lines);
    }
}

/// Puts these lines as JSON, or none where there is no memory for all of them.
fn put_objects<A: Allocator + Copy, W: Sink>(
    alloc: A,
    lines: &mut Lines<'_, W>,
    list: &[Line<'_>],
) -> Result<(), AllocError>
    ensures { PutsInForm result ListForm.Json lines.old lines.new (map line_value list.now) }
{
    match objects_of(alloc, list) {
        Ok(text) => {
            lines.put(text.as_slice());
            Ok(())
        }
        Err(fault) => Err(fault),
    }
}

/// Puts these lines, or none where there is no memory for all of them.
fn put_lines<A: Allocator + Copy, W: Sink>(
    alloc: A,
    lines: &mut Lines<'_, W>,
    form: ListForm,
    list: &[Line<'_>],
) -> Result<(), AllocError>
    ensures { PutsInForm result form lines.old lines.new (map line_value list.now) }
{
    match form {
        ListForm::Text => {
            put_texts(lines, list);
            Ok(())
        }
        ListForm::Json => put_objects(alloc, lines, list),
    }
}

/// Adds the refusals in these lines.
fn add_refusals(list: &[Line<'_>], refusals: &mut ArrayVec<Option<Refusal>, NUMBERS>)
    requires { AreApart refusals.old.items }
    ensures added { refusals.new.items
        ≡ firsts_after refusals.old.items (map refusal_in (map line_value list.now)) }
    ensures apart { AreApart refusals.new.items }
{
    for line in list {
        add_first(refusals, line.refusal());
    }
}

/// Puts the lines of all that was gathered, in the order of packets, adds the refusals in them, and
/// answers how many there are. Nothing is put, and the refusal answered, where there is no memory
/// for the list.
fn put_all<A: Allocator + Copy, W: Sink>(
    alloc: A,
    port: u16,
    form: ListForm,
    talks: &Talks<A>,
    last_packet: u64,
    lines: &mut Lines<'_, W>,
    refusals: &mut ArrayVec<Option<Refusal>, NUMBERS>,
) -> Result<usize, Refusal>
    requires holds { (packets : List Recorded) × HoldsSome port packets talks.now }
    requires apart { AreApart refusals.old.items }
    ensures puts { (packets : List Recorded) → HoldsSome port packets talks.now
        → PutsAll port form packets talks.now last_packet lines.old lines.new refusals.old.items
        refusals.new.items result }
    ensures apart { AreApart refusals.new.items }
{
    let Ok(list) = lines_of(alloc, port, talks, last_packet) else {
        return Err(Refusal::Memory {
            packet: last_packet,
        });
    };
    let Ok(()) = put_lines(alloc, lines, form, &list) else {
        return Err(Refusal::Memory {
            packet: last_packet,
        });
    };
    add_refusals(&list, refusals);
    Ok(list.len())
}

/// Puts why the file is refused.
fn put_stopped<W: Sink>(lines: &mut Lines<'_, W>, form: ListForm, refusal: Refusal)
    ensures wrote { Writes lines.old lines.new (refused_in form refusal) }
    ensures in_form { IsInForm form (refused_in form refusal) }
{
    match form {
        ListForm::Text => put_refused(lines, refusal),
        ListForm::Json => put_refused_json(lines, refusal),
    }
}

/// Puts why the file is refused, if it is.
fn put_file<W: Sink>(lines: &mut Lines<'_, W>, form: ListForm, refusal: Option<Refusal>)
    ensures wrote { Writes lines.old lines.new (file_in form refusal) }
    ensures in_form { IsFileInForm form refusal }
{
    match refusal {
        Some(refusal) => put_stopped(lines, form, refusal),
        None => lines.put(b""),
    }
}

/// The exit status of a recording that is refused so, if it is.
fn status_of(refusal: Option<Refusal>) -> Status
    ensures { code_of result ≡ status_of refusal }
{
    let Some(refusal) = refusal else {
        return Status::Done;
    };
    match refusal.cause() {
        Cause::Recording => Status::Refused,
        Cause::Memory => Status::Memory,
        Cause::Device => Status::Device,
    }
}

/// The same where memory may have lacked for the list, too: the greater one.
fn status_over(stopped: Option<Refusal>, lacking: Option<Refusal>) -> Status
    ensures { code_of result ≡ status_over stopped lacking }
{
    let (first, second) = (status_of(stopped), status_of(lacking));
    if first.code() < second.code() {
        second
    } else {
        first
    }
}

/// Writes a line in this form for each connection in a recording that holds octets and one of whose
/// ports is this one, in the order of their first packets; for two addresses of whose connections
/// none can be told a line that says why, at the packet that is refused; then, where the recording
/// can't be read on, that refusal; and last, where there was no memory for a list of the lines, that,
/// and no line. It answers the exit status, the greatest that holds:
///
/// * 0: the recording was read to its end, or to where it was cut short. A connection that is
///   refused is no refusal of the recording.
/// * 3: the recording is refused.
/// * 4: memory was refused.
/// * 5: a device failed.
///
/// A recording holds its packets one at a time; of all connections it holds the streams.
pub fn list_recording<A: Allocator + Copy, R: Source, W: Sink>(
    alloc: A,
    port: u16,
    form: ListForm,
    source: &mut R,
    sink: &mut W,
) -> ListedRecording
    requires source { R.failures source.old < u64.MAX }
    requires sink { W.failures sink.old < u64.MAX }
    ensures { ListsRecording R.gives R.has_ended W.takes R.failures W.failures port
        form source.old source.new sink.old sink.new result }
{
    let mut reader = Reader::new(alloc);
    let mut talks = Talks::new(alloc, port);
    let stopped = take_all(&mut reader, &mut talks, source).err();
    let packets = reader.number();
    let mut refusals = ArrayVec::new();
    let mut lines = Lines::new(sink);
    let put = put_all(
        alloc,
        port,
        form,
        &talks,
        packets,
        &mut lines,
        &mut refusals,
    );
    let lacking = put.err();
    put_file(&mut lines, form, stopped);
    put_file(&mut lines, form, lacking);
    add_first(&mut refusals, stopped);
    add_first(&mut refusals, lacking);
    let status = hand_over(&mut lines, status_over(stopped, lacking));
    // No effect: it ends the loan of the sink.
    lines.into_sink();
    ListedRecording {
        status: status.code(),
        port,
        lines: put.unwrap_or(0),
        packets,
        wrapped: talks.wrapped,
        cut_short: cut_short_at(packets, reader.is_cut_short(), stopped),
        refusals,
        refusal: stopped.or(lacking),
    }
}
