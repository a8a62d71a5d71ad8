//! What is told of a file by its front: what it is, and the line to type.

use crate::front::Form;
use crate::note::Told;
use std::fmt;

/// A file's name as a word of a line to type: `FILE` for standard input, and where a shell would
/// read the name as something else.
#[derive(Clone, Copy)]
pub(crate) struct Word<'a>(pub(crate) &'a str);

impl fmt::Display for Word<'_> {
    fn fmt<W: fmt::Write>(&self, f: &mut fmt::Formatter<W>) -> fmt::Result {
        let name = self.0;
        if name.is_empty() || name.starts_with('-') || name.contains(wants_quotes) {
            f.write_str("FILE")
        } else {
            f.write_str(name)
        }
    }
}

/// Whether a shell may read this character as something else.
fn wants_quotes(character: char) -> bool {
    !matches!(
        character,
        'a'..='z' | 'A'..='Z' | '0'..='9' | '.' | '_' | '/' | '-' | '+' | ',' | ':' | '@' | '%'
    )
}

/// The sentence on a file that isn't what a command reads: what it is, and the line to type. The
/// command is given as it is typed to read standard input.
pub(crate) fn put_form<W: fmt::Write>(
    f: &mut fmt::Formatter<W>,
    file: &str,
    form: Form,
    command: &str,
) -> fmt::Result {
    let (told, word) = (Told(file), Word(file));
    match form {
        Form::Pcap | Form::Pcapng => put_recording(f, file),
        Form::Gzip => put_compressed(f, file, "gzip", "zcat", command),
        Form::Bzip2 => put_compressed(f, file, "bzip2", "bzcat", command),
        Form::Xz => put_compressed(f, file, "xz", "xzcat", command),
        Form::Zstd => put_compressed(f, file, "zstd", "zstdcat", command),
        Form::Zip => put_archive(f, file, "zip", ["unzip -p", "unzip -l"], command),
        Form::Tar => put_archive(f, file, "tar", ["tar -xOf", "tar -tf"], command),
        Form::Mrt => write!(
            f,
            "{told} seems to be a capture of MRT records: name one session of it, as in `bgp \
             decode --mrt --peer 192.0.2.2 --local 192.0.2.1 {word}`"
        ),
        Form::Stream => write!(
            f,
            "{told} is a raw stream, the messages of one direction of a connection without their \
             times: `bgp decode {word}` prints them"
        ),
        Form::Dump => put_digits(f, file, "a dump of them", "xxd -r", command),
        Form::Digits => put_digits(f, file, "their hexadecimal digits", "xxd -r -p", command),
        Form::Text => write!(
            f,
            "{told} seems to be text: give octets, and not what a program printed of them"
        ),
        Form::Empty => write!(f, "{told} is empty"),
        Form::Other => write!(
            f,
            "{told} begins neither as a pcap file nor as an MRT file of BGP does: `file {word}` may \
             say what it is"
        ),
    }
}

/// The sentence on a recording of packets.
fn put_recording<W: fmt::Write>(f: &mut fmt::Formatter<W>, file: &str) -> fmt::Result {
    let (told, word) = (Told(file), Word(file));
    write!(
        f,
        "{told} is a recording of packets, which `bgp judge`, `bgp import` and `bgp decode --mrt` \
         read: name one session of it, as in `bgp decode --mrt --peer 192.0.2.2 --local 192.0.2.1 \
         {word}`; `bgp list {word}` tells the sessions"
    )
}

/// The sentence on a compressed file.
fn put_compressed<W: fmt::Write>(
    f: &mut fmt::Formatter<W>,
    file: &str,
    by: &str,
    reader: &str,
    command: &str,
) -> fmt::Result {
    let (told, word) = (Told(file), Word(file));
    write!(
        f,
        "{told} is compressed by {by}: `{reader} {word} | {command}`"
    )
}

/// The sentence on an archive: with what a file of it is read, and with what its files are listed.
fn put_archive<W: fmt::Write>(
    f: &mut fmt::Formatter<W>,
    file: &str,
    of: &str,
    [reader, lister]: [&str; 2],
    command: &str,
) -> fmt::Result {
    let (told, word) = (Told(file), Word(file));
    write!(
        f,
        "{told} is an archive of {of}: `{reader} {word} NAME | {command}` reads a file that \
         `{lister} {word}` lists"
    )
}

/// The sentence on the digits of octets.
fn put_digits<W: fmt::Write>(
    f: &mut fmt::Formatter<W>,
    file: &str,
    digits: &str,
    reader: &str,
    command: &str,
) -> fmt::Result {
    let (told, word) = (Told(file), Word(file));
    write!(
        f,
        "{told} seems to be text: give octets, and not {digits}, as in `{reader} {word} | \
         {command}`"
    )
}
