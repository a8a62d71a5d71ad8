//! Both ends of one loopback connection in one process, and the verdicts on their captures.

ghost use Rattle.std.specs.Prelude.{◌≤◌, ◌<◌, ◌^◌, IfOk};
ghost use Rattle.mrt.specs.FromWrite.{writer_state};
ghost use Rattle.bgp_tool.specs.Status.{code_of};

use crate::pair_end::{End, converse, left_settings, right_settings};
use crate::pair_judging::judge_pair;
use bgp_judge::Tracker;
use bgp_text::Lines;
use bgp_tool::{Note, Outcome, PairEnd, PairFault, Status, hand_over, unwritten};
use mrt::{FromRead, FromWrite, Sink, Source};
use std::alloc::{AllocError, Allocator};
use std::io::{BufReader, BufWriter, ErrorKind, Read, Write};
use std::net::{
    Ipv4Addr, Net, OpenListener, OpenStream, SocketAddr, SocketAddrV4, TcpListener, TcpStream,
};
use std::rt::Files;
use std::time::Duration;
use std::{fs, io};

/// How long a read waits for octets that the peer has written, in seconds.
const READ_LIMIT: u64 = 1;

/// The exit status of a pair that gave up.
fn status_of(fault: PairFault) -> Status
    ensures { code_of result ≤ 5 }
{
    match fault {
        PairFault::Memory => Status::Memory,
        PairFault::Capture(_, _) | PairFault::Connection(_) => Status::Device,
    }
}

/// The fault of an end's capture by such an error.
fn capture_fault(end: PairEnd, error: ErrorKind) -> PairFault {
    match error {
        ErrorKind::OutOfMemory => PairFault::Memory,
        _ => PairFault::Capture(end, Some(error)),
    }
}

/// An address on this machine.
fn loopback(port: u16) -> SocketAddr {
    SocketAddr::V4(SocketAddrV4::new(Ipv4Addr::LOCALHOST, port))
}

/// Both streams of a connection on a port that the system picks: the left one connected, the right
/// one was accepted.
fn connect<R: Net>(rt: &R) -> io::Result<(R::Stream, R::Stream)> {
    let listener = TcpListener::bind(rt, loopback(0))?;
    let port = listener.local_addr()?.port();
    let left = TcpStream::connect(rt, loopback(port))?;
    let (right, from) = listener.accept()?;
    if from != left.local_addr()? {
        return Err(io::Error::from(ErrorKind::ConnectionAborted));
    }
    left.set_read_timeout(Some(Duration::from_secs(READ_LIMIT)))?;
    right.set_read_timeout(Some(Duration::from_secs(READ_LIMIT)))?;
    Ok((left, right))
}

/// Makes the file of an end's capture, or empties it.
fn create<R: Files, A: Allocator + Copy>(
    alloc: A,
    rt: &R,
    end: PairEnd,
    file: &str,
) -> Result<BufWriter<R::File, A>, PairFault> {
    let opened = match fs::create(rt, file) {
        Ok(opened) => opened,
        Err(error) => return Err(capture_fault(end, error.kind())),
    };
    match BufWriter::new(alloc, opened) {
        Ok(writer) => Ok(writer),
        Err(error) => Err(capture_fault(end, error.kind())),
    }
}

/// Opens the file of an end's capture again.
fn reopen<R: Files, A: Allocator + Copy>(
    alloc: A,
    rt: &R,
    end: PairEnd,
    file: &str,
) -> Result<BufReader<R::File, A>, PairFault> {
    let opened = match fs::open(rt, file) {
        Ok(opened) => opened,
        Err(error) => return Err(capture_fault(end, error.kind())),
    };
    match BufReader::new(alloc, opened) {
        Ok(reader) => Ok(reader),
        Err(error) => Err(capture_fault(end, error.kind())),
    }
}

/// The name of the right end's capture: that of the left one's, with `.right` added.
fn right_file<A: Allocator + Copy>(alloc: A, file: &str) -> Result<String<A>, AllocError> {
    let mut name = String::new(alloc);
    name.push_str(file)?;
    name.push_str(".right")?;
    Ok(name)
}

/// Both ends talk over their streams. Answers whether both came to Established.
fn talk<S: Read + Write + Drop, W: Write + Drop, A: Allocator + Copy>(
    alloc: A,
    streams: (S, S),
    left_writer: W,
    right_writer: W,
) -> Result<bool, PairFault> {
    let (left_stream, right_stream) = streams;
    let mut left = End::new(
        alloc,
        PairEnd::Left,
        &left_settings(),
        left_stream,
        left_writer,
    );
    let mut right = End::new(
        alloc,
        PairEnd::Right,
        &right_settings(),
        right_stream,
        right_writer,
    );
    let settled = converse(&mut left, &mut right);
    let left_kept = left.keep();
    let right_kept = right.keep();
    let settled = settled?;
    left_kept?;
    right_kept?;
    Ok(settled)
}

/// Both ends talk over a loopback connection, and their captures are written. Answers whether both
/// came to Established.
fn talk_on_loopback<R: Net + Files, A: Allocator + Copy>(
    alloc: A,
    rt: &R,
    left_file: &str,
    right_file: &str,
) -> Result<bool, PairFault> {
    let left = create(alloc, rt, PairEnd::Left, left_file)?;
    let right = create(alloc, rt, PairEnd::Right, right_file)?;
    match connect(rt) {
        Ok(streams) => talk(alloc, streams, left, right),
        Err(error) => Err(PairFault::Connection(error.kind())),
    }
}

/// Says that the ends didn't come to Established.
fn write_unestablished<W: Write>(sink: &mut FromWrite<W>) -> u8
    requires { (writer_state sink.old).failures < 2 ^ 63 }
    ensures { result ≤ 5 }
{
    let mut lines = Lines::new(sink);
    lines.put(b"pair not established\n");
    let status = hand_over(&mut lines, Status::No);
    // No effect: it ends the loan of the sink.
    lines.into_sink();
    status.code()
}

/// Why a capture wasn't judged, if its reader failed.
fn unread<R: Read>(end: PairEnd, source: &FromRead<R>) -> Option<PairFault> {
    if source.failures() > 0 {
        Some(PairFault::Capture(end, source.last_error()))
    } else {
        None
    }
}

/// Reads both captures again and judges them. Answers the status, and why one wasn't judged, if a
/// reader failed or memory was refused.
fn judge_files<A: Allocator + Copy, T: Tracker<A>, R: Files, W: Write>(
    alloc: A,
    rt: &R,
    left_file: &str,
    right_file: &str,
    sink: &mut FromWrite<W>,
) -> Result<(u8, Option<PairFault>), PairFault>
    requires { (writer_state sink.old).failures < 2 ^ 63 }
    ensures { IfOk result (λ judged. judged.0 ≤ 5) }
{
    let mut left = FromRead::new(reopen(alloc, rt, PairEnd::Left, left_file)?);
    let mut right = FromRead::new(reopen(alloc, rt, PairEnd::Right, right_file)?);
    let status = judge_pair::<A, T, _, _, _>(
        alloc,
        &left_settings().config,
        &mut left,
        &right_settings().config,
        &mut right,
        sink,
    );
    let fault = unread(PairEnd::Left, &left).or(unread(PairEnd::Right, &right));
    if status == Status::Memory.code() && fault.is_none() {
        return Ok((status, Some(PairFault::Memory)));
    }
    Ok((status, fault))
}

/// Both ends talk, and their captures are judged. Answers the status, and why one wasn't judged.
fn run<A: Allocator + Copy, T: Tracker<A>, R: Net + Files, W: Write>(
    alloc: A,
    rt: &R,
    file: &str,
    sink: &mut FromWrite<W>,
) -> Result<(u8, Option<PairFault>), PairFault>
    requires { (writer_state sink.old).failures < 2 ^ 63 }
    ensures { IfOk result (λ ran. ran.0 ≤ 5) }
{
    let Ok(right_file) = right_file(alloc, file) else {
        return Err(PairFault::Memory);
    };
    if talk_on_loopback(alloc, rt, file, right_file.as_str())? {
        judge_files::<A, T, R, W>(alloc, rt, file, right_file.as_str(), sink)
    } else {
        Ok((write_unestablished(sink), None))
    }
}

/// Both ends of one BGP-4 session in one process, over a TCP connection on 127.0.0.1 at a port that
/// the system picks: the left one connects and is AS 65001 at 192.0.2.1, the right one listens and
/// is AS 65002 at 192.0.2.2; each announces a prefix, 10.1.0.0/16 and 10.2.0.0/16. They take turns,
/// in rounds whose seconds count from 1000, until both are Established and have read all.
///
/// Their captures are written to the file and to one with `.right` added to its name; what stood
/// there is lost. Then they are read again and judged: the output is `left ` and the text of the
/// left one's verdict, `right ` and that of the right one's, and the status the greater one of both
/// ([`judge_pair`]).
///
/// Where they aren't Established after 20 rounds the output is `pair not established`, and the
/// status 1. Where a file can't be opened or written, or the connection fails, nothing is printed,
/// and the status is 5; where memory was refused, 4. Where a capture can't be read again to its
/// end, or can't be judged for want of memory, its text says so, with the same statuses. In each
/// case the note tells what went wrong.
pub fn pair_session<'a, A: Allocator + Copy, T: Tracker<A>, R: Net + Files, W: Write>(
    alloc: A,
    rt: &R,
    file: &'a str,
    sink: &mut FromWrite<W>,
) -> Outcome<'a>
    requires { (writer_state sink.old).failures < 2 ^ 63 }
    ensures statuses { result.status ≤ 5 }
{
    let failures = sink.failures();
    let (status, fault) = match run::<A, T, R, W>(alloc, rt, file, sink) {
        Ok(ran) => ran,
        Err(fault) => (status_of(fault).code(), Some(fault)),
    };
    let note = if sink.failures() > failures {
        unwritten(sink)
    } else {
        fault.map(|fault| Note::Pair { file, fault })
    };
    Outcome {
        status,
        skipped: None,
        note,
    }
}
