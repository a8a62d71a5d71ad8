//! The first octets of a source, which tell what it is.

ghost use Rattle.std.specs.Prelude.{◌≡◌, ◌≤◌, ◌<◌, ◌^◌, ◌++◌, List, ℕ, [], length, take};
ghost use Rattle.bgp_tool.specs.Front.{kept};
ghost use Rattle.bgp_tool.specs.Front as spec;

use crate::ready::Ready;
use arrayvec::ArrayVec;
use mrt::{Failed, Source};

/// How many octets are kept: up to the end of tar's magic number, which is the latest of all.
const FRONT: usize = 262;

/// How many octets are looked at for text.
const TEXT: usize = 16;

/// What a file is, by its first octets.
#[derive(Clone, Copy, Debug, PartialEq, Eq)]
pub enum Form {
    /// A packet capture as libpcap writes it.
    Pcap,
    /// A packet capture of the newer form.
    Pcapng,
    /// Compressed by gzip (RFC 1952).
    Gzip,
    /// Compressed by bzip2.
    Bzip2,
    /// Compressed by xz.
    Xz,
    /// Compressed by zstd (RFC 8878).
    Zstd,
    /// An archive of zip.
    Zip,
    /// An archive of tar (POSIX's `ustar`).
    Tar,
    /// Records of RFC 6396.
    Mrt,
    /// A raw stream: messages, one after another (RFC 4271, 4.1).
    Stream,
    /// Text: a hexadecimal dump with an address in each line, as `xxd` prints it.
    Dump,
    /// Text: hexadecimal digits.
    Digits,
    /// Another text.
    Text,
    /// A file without an octet.
    Empty,
    /// None of these.
    Other,
}

/// A source that keeps the first 262 octets that it gave.
#[derive(Drop)]
pub struct WithFront<S> {
    source: S,
    front: ArrayVec<u8, FRONT>,
    ghost within: { length front.items ≤ 262 },
}

impl<S: Source> WithFront<S> {
    /// A source that has given nothing yet.
    pub fn new(source: S) -> WithFront<S>
        ensures source { result.source ≡ source }
        ensures front { result.front.items ≡ [] }
    {
        WithFront {
            source,
            front: ArrayVec::new(),
        }
    }

    /// The source itself.
    pub fn source(&self) -> &S
        ensures { result.now ≡ self.now.source }
    {
        &self.source
    }

    /// The octets that it keeps.
    pub fn front(&self) -> &[u8]
        ensures { result.now ≡ self.now.front.items }
    {
        self.front.as_slice()
    }

    // Keeps what there is room for.
    fn keep(&mut self, octets: &[u8])
        ensures source { self.new.source ≡ self.old.source }
        ensures front { self.new.front.items ≡ kept (self.old.front.items ++ octets.now) }
    {
        let room = self.front.remaining_capacity();
        match self
            .front
            .try_extend_from_slice(&octets[..room.min(octets.len())])
        {
            Ok(()) => {}
            Err(_) => unreachable!(),
        }
    }
}

impl<S: Source> Source for WithFront<S> {
    ghost use Rattle.bgp_tool.specs.FrontLaws.{kept_nothing, kept_joined};

    ghost gives = { λ a b octets. S.gives a.source b.source octets
        × (b.front.items ≡ kept (a.front.items ++ octets)) };

    ghost given_count = { λ a. S.given_count a.source };

    ghost failures = { λ a. S.failures a.source };

    ghost has_ended = { λ a. S.has_ended a.source };

    ghost nothing = { λ a. (S.nothing a.source, kept_nothing a.front.items a.within) };

    ghost joined = { λ a b c xs ys first second. (
      S.joined a.source b.source c.source xs ys first.0 second.0,
      kept_joined a.front.items b.front.items c.front.items xs ys first.1 second.1,
    ) };

    ghost counted = { λ a b xs given. S.counted a.source b.source xs given.0 };

    ghost below = { λ a. S.below a.source };

    fn read(&mut self, buffer: &mut [u8]) -> Result<usize, Failed> {
        let count = self.source.read(buffer)?;
        self.keep(&buffer[..count]);
        Ok(count)
    }

    fn failures(&self) -> u64 {
        self.source.failures()
    }
}

impl<S: Source + Ready> Ready for WithFront<S> {
    ghost is_ready = { λ a. S.is_ready a.source };

    fn is_ready(&self) -> bool {
        self.source.is_ready()
    }
}

/// Returns what a file with this front is, if it is no raw stream and that can be known.
pub(crate) fn no_stream(front: &[u8]) -> Option<Form>
    ensures { result ≡ spec.no_stream front.now }
{
    if is_stream(front) {
        None
    } else {
        form_of(front)
    }
}

/// Returns what a file with this front is, if it is no capture.
pub(crate) fn no_capture(front: &[u8]) -> Option<Form>
    ensures { result ≡ spec.no_capture front.now }
{
    if is_mrt(front) {
        None
    } else {
        form_or_other(front)
    }
}

/// Returns what a file with this front is, if it is no recording of packets.
pub(crate) fn no_recording(front: &[u8]) -> Option<Form>
    ensures { result ≡ spec.no_recording front.now }
{
    if is_pcap(front) || is_pcapng(front) {
        None
    } else {
        form_or_other(front)
    }
}

/// Returns what a file with this front is: another one, if it is long enough to have a record's type
/// and nothing known begins so.
fn form_or_other(front: &[u8]) -> Option<Form>
    ensures { result ≡ spec.form_or_other front.now }
{
    match form_of(front) {
        Some(form) => Some(form),
        None if front.len() < 8 => None,
        None => Some(Form::Other),
    }
}

/// Returns what a file with this front is, if that can be known.
#[tactic(auto, unfolding(crate::specs::Front::form_of))]
fn form_of(front: &[u8]) -> Option<Form>
    ensures { result ≡ spec.form_of front.now }
{
    if front.is_empty() {
        Some(Form::Empty)
    } else if is_pcap(front) {
        Some(Form::Pcap)
    } else if is_pcapng(front) {
        Some(Form::Pcapng)
    } else if is_mrt(front) {
        Some(Form::Mrt)
    } else if is_stream(front) {
        Some(Form::Stream)
    } else {
        packed_or_text(front)
    }
}

/// Returns the same of a file that no command reads.
#[tactic(auto, unfolding(crate::specs::Front::packed_or_text))]
fn packed_or_text(front: &[u8]) -> Option<Form>
    ensures { result ≡ spec.packed_or_text front.now }
{
    if is_gzip(front) {
        Some(Form::Gzip)
    } else if is_bzip2(front) {
        Some(Form::Bzip2)
    } else if is_xz(front) {
        Some(Form::Xz)
    } else if is_zstd(front) {
        Some(Form::Zstd)
    } else if is_zip(front) {
        Some(Form::Zip)
    } else if is_tar(front) {
        Some(Form::Tar)
    } else {
        text_of(front)
    }
}

/// Returns which text a file is that begins so. Of fewer than eight octets it isn't said.
#[tactic(auto, unfolding(crate::specs::Front::text_of))]
fn text_of(front: &[u8]) -> Option<Form>
    ensures { result ≡ spec.text_of front.now }
{
    if front.len() >= 8 {
        text_form(start_of(front))
    } else {
        None
    }
}

/// Returns as much of a front as is looked at for text.
fn start_of(front: &[u8]) -> &[u8]
    ensures { result.now ≡ take 16 front.now }
{
    &front[..TEXT.min(front.len())]
}

/// Returns which text begins so, if one does.
#[tactic(auto, unfolding(crate::specs::Front::text_form))]
fn text_form(start: &[u8]) -> Option<Form>
    ensures { result ≡ spec.text_form start.now }
{
    if is_dump(start) {
        Some(Form::Dump)
    } else if is_digits(start) {
        Some(Form::Digits)
    } else if is_text(start) {
        Some(Form::Text)
    } else {
        None
    }
}

/// Whether a packet capture of libpcap begins so: with its magic number in either order, of
/// microseconds or of nanoseconds.
fn is_pcap(front: &[u8]) -> bool
    ensures { result ≡ spec.is_pcap front.now }
{
    front.starts_with(&[0xa1, 0xb2, 0xc3, 0xd4])
        || front.starts_with(&[0xd4, 0xc3, 0xb2, 0xa1])
        || front.starts_with(&[0xa1, 0xb2, 0x3c, 0x4d])
        || front.starts_with(&[0x4d, 0x3c, 0xb2, 0xa1])
}

/// Whether a packet capture of the newer form begins so: with a Section Header Block.
fn is_pcapng(front: &[u8]) -> bool
    ensures { result ≡ spec.is_pcapng front.now }
{
    front.starts_with(&[0x0a, 0x0d, 0x0d, 0x0a])
}

/// Whether what gzip compressed begins so (RFC 1952, 2.3.1).
fn is_gzip(front: &[u8]) -> bool
    ensures { result ≡ spec.is_gzip front.now }
{
    front.starts_with(&[0x1f, 0x8b, 0x08])
}

/// Whether what bzip2 compressed begins so.
fn is_bzip2(front: &[u8]) -> bool
    ensures { result ≡ spec.is_bzip2 front.now }
{
    front.starts_with(b"BZh") && front.len() >= 4 && is_level(front[3])
}

/// Whether bzip2 compresses with this level: a digit, but not 0.
fn is_level(octet: u8) -> bool
    ensures { result ≡ spec.is_level octet }
{
    matches!(octet, b'1'..=b'9')
}

/// Whether what xz compressed begins so.
fn is_xz(front: &[u8]) -> bool
    ensures { result ≡ spec.is_xz front.now }
{
    front.starts_with(&[0xfd, 0x37, 0x7a, 0x58, 0x5a, 0x00])
}

/// Whether what zstd compressed begins so (RFC 8878, 3.1.1).
fn is_zstd(front: &[u8]) -> bool
    ensures { result ≡ spec.is_zstd front.now }
{
    front.starts_with(&[0x28, 0xb5, 0x2f, 0xfd])
}

/// Whether an archive of zip begins so: with the header of a file in it.
fn is_zip(front: &[u8]) -> bool
    ensures { result ≡ spec.is_zip front.now }
{
    front.starts_with(&[0x50, 0x4b, 0x03, 0x04])
}

/// Whether an archive of tar begins so: `ustar` stands behind the first 257 octets of the header.
fn is_tar(front: &[u8]) -> bool
    ensures { result ≡ spec.is_tar front.now }
{
    front.len() >= FRONT
        && front[257] == b'u'
        && front[258] == b's'
        && front[259] == b't'
        && front[260] == b'a'
        && front[261] == b'r'
}

/// Whether a record of RFC 6396 begins so: behind its timestamp TABLE_DUMP, TABLE_DUMP_V2, BGP4MP
/// or BGP4MP_ET, and a subtype.
fn is_mrt(front: &[u8]) -> bool
    ensures { result ≡ spec.is_mrt front.now }
{
    match front {
        [_, _, _, _, 0, kind, 0, _, ..] => matches!(*kind, 12 | 13 | 16 | 17),
        _ => false,
    }
}

/// Whether a raw stream begins so: with the Marker of a message (RFC 4271, 4.1).
fn is_stream(front: &[u8]) -> bool
    ensures { result ≡ spec.is_stream front.now }
{
    front.starts_with(&[
        0xff, 0xff, 0xff, 0xff, 0xff, 0xff, 0xff, 0xff, 0xff, 0xff, 0xff, 0xff, 0xff, 0xff, 0xff,
        0xff,
    ])
}

/// Whether a hexadecimal dump of `xxd` begins so: with the address 0 and a colon.
fn is_dump(start: &[u8]) -> bool
    ensures { result ≡ spec.is_dump start.now }
{
    start.starts_with(b"00000000:")
}

/// Whether hexadecimal digits begin so, and not what may be an address.
fn is_digits(start: &[u8]) -> bool
    ensures { result ≡ spec.is_digits start.now }
{
    !begins_with_address(start) && are_digits(start)
}

/// Whether the address 0 begins so, as dumps have it: six digits or more, or four and a blank.
fn begins_with_address(start: &[u8]) -> bool
    ensures { result ≡ spec.begins_with_address start.now }
{
    start.starts_with(b"000000") || start.starts_with(b"0000 ")
}

/// Whether all of these octets are hexadecimal digits, or stand between two.
fn are_digits(start: &[u8]) -> bool
    ensures { result ≡ spec.are_digits start.now }
{
    start.iter().all(|octet| is_digits_octet(*octet))
}

/// Whether a text begins so.
fn is_text(start: &[u8]) -> bool
    ensures { result ≡ spec.is_text start.now }
{
    start.iter().all(|octet| is_text_octet(*octet))
}

/// Whether this octet is a hexadecimal digit, or stands between two.
fn is_digits_octet(octet: u8) -> bool
    ensures { result ≡ spec.is_digits_octet octet }
{
    matches!(
        octet,
        b'0'..=b'9' | b'a'..=b'f' | b'A'..=b'F' | b' ' | b'\t' | b'\n' | b'\r'
    )
}

/// Whether this octet stands in a text.
fn is_text_octet(octet: u8) -> bool
    ensures { result ≡ spec.is_text_octet octet }
{
    matches!(octet, b' '..=b'~' | b'\t' | b'\n' | b'\r')
}
