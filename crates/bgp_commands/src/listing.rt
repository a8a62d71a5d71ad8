//! `bgp list` over any reader and any writer.

ghost use Rattle.std.specs.Prelude.{◌≡◌, ◌<◌, ◌^◌};
ghost use Rattle.mrt.specs.FromWrite.{writer_state};
ghost use Rattle.bgp_commands.specs.Answers.{ListsFile, ListsPackets, ListsRecords, list_form};

use crate::answer::Answer;
use crate::ends::Ends;
use bgp_list::{ListForm, ListedCapture, ListedRecording, list_capture, list_recording};
use bgp_recording_tool::Peeked;
use bgp_tool::WithFront;
use mrt::{FromRead, FromWrite, Sink};
use std::alloc::Allocator;
use std::io::{Read, Write};

/// Returns the form of a list, by whether JSON is wanted.
pub(crate) fn list_form(json: bool) -> ListForm
    ensures { result ≡ list_form json }
{
    if json { ListForm::Json } else { ListForm::Text }
}

/// Lists the connections of a pcap file, or the sessions of an MRT file. The first four octets say
/// which it is.
pub(crate) fn list<'a, A: Allocator + Copy, R: Read + Drop, W: Write>(
    alloc: A,
    port: u16,
    form: ListForm,
    file: &'a str,
    reader: R,
    sink: &mut FromWrite<W>,
) -> Answer<'a, A>
    requires { (writer_state sink.old).failures < 2 ^ 63 }
    ensures { ListsFile R.remaining W.contents file.entry reader sink.old sink.new result port
        form }
{
    let peeked = Peeked::new(reader);
    if peeked.is_recording() {
        let (listed, ends) = list_packets(alloc, port, form, file, peeked, sink);
        Answer::ListedRecording(listed, ends)
    } else {
        let (listed, ends) = list_records(alloc, form, file, peeked, sink);
        Answer::ListedCapture(listed, ends)
    }
}

/// Lists the connections of a pcap file.
fn list_packets<'a, A: Allocator + Copy, R: Read + Drop, W: Write>(
    alloc: A,
    port: u16,
    form: ListForm,
    file: &'a str,
    reader: R,
    sink: &mut FromWrite<W>,
) -> (ListedRecording, Ends<'a>)
    requires { (writer_state sink.old).failures < 2 ^ 63 }
    ensures { ListsPackets R.remaining W.contents file.entry reader sink.old sink.new port form
        result.0 result.1 }
{
    let mut source = FromRead::new(reader);
    let failures = sink.failures();
    let listed = list_recording(alloc, port, form, &mut source, sink);
    let ends = Ends::of(file, &source, sink, failures, None);
    (listed, ends)
}

/// Lists the sessions of an MRT file.
fn list_records<'a, A: Allocator + Copy, R: Read + Drop, W: Write>(
    alloc: A,
    form: ListForm,
    file: &'a str,
    reader: R,
    sink: &mut FromWrite<W>,
) -> (ListedCapture, Ends<'a>)
    requires { (writer_state sink.old).failures < 2 ^ 63 }
    ensures { ListsRecords R.remaining W.contents file.entry reader sink.old sink.new form
        result.0 result.1 }
{
    let mut source = WithFront::new(FromRead::new(reader));
    let failures = sink.failures();
    let listed = list_capture(alloc, form, &mut source, sink);
    let note = listed.file_note(file, source.front());
    let ends = Ends::of(file, source.source(), sink, failures, note);
    (listed, ends)
}
