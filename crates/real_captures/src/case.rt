//! A capture and its answer, told by a block of lines.

use bgp_json::OutputForm;
use bgp_lines::LineForm;
use bgp_prefix::{Address, RouteRefresh, Session, read_address};
use bgp_tool::SessionOptions;
use hex::FromHexError;
use std::alloc::{AllocError, Global};
use std::io;

/// A record's octets, or what is there of it, and the lines that are printed for it.
#[derive(Drop)]
pub(crate) struct Piece {
    pub(crate) octets: Vec<u8>,
    pub(crate) text: String,
}

/// A capture of one session or a stream, how it is decoded, and the status that this answers. Of a
/// stream the session says how long a message may be.
#[derive(Drop)]
pub(crate) struct Case {
    pub(crate) options: SessionOptions,
    pub(crate) pieces: Vec<Piece>,
    pub(crate) status: u8,
}

/// Reads a block of lines: `case` and what it teaches; `args` and the words of the command, which a
/// stream needs none of; `refresh`, where the session may have route refresh; `octets` and a piece of
/// the capture; `>` and a line that is printed for it; `status` and a number.
pub(crate) fn read_case(alloc: Global, block: &str) -> io::Result<Case> {
    let mut case = Case {
        options: options_of("")?,
        pieces: Vec::new(alloc),
        status: 0,
    };
    for line in block.split('\n') {
        take_line(alloc, &mut case, line)?;
    }
    Ok(case)
}

/// Takes what a line tells of a case.
fn take_line(alloc: Global, case: &mut Case, line: &str) -> io::Result<()> {
    let (word, rest) = line.split_once(' ').unwrap_or((line, ""));
    match word {
        "case" => Ok(()),
        "args" => {
            case.options = options_of(rest)?;
            Ok(())
        }
        "refresh" => {
            case.options.session.refresh = RouteRefresh::Refused;
            Ok(())
        }
        "octets" => push_piece(alloc, &mut case.pieces, rest),
        ">" => push_line(&mut case.pieces, rest),
        "status" => {
            case.status = rest.parse::<u8>().map_err(|_| malformed())?;
            Ok(())
        }
        _ => Err(malformed()),
    }
}

/// What the words of `decode` tell: the form of what is printed, how long a message may be, and the
/// session of a capture.
pub(crate) fn options_of(words: &str) -> io::Result<SessionOptions> {
    Ok(SessionOptions {
        session: session_of(words)?,
        form: form_of(words),
    })
}

/// The form of what is printed.
fn form_of(words: &str) -> OutputForm {
    let as2 = has_word(words, "--as2");
    if has_word(words, "--json") {
        OutputForm::Json { as2 }
    } else if has_word(words, "--names") {
        OutputForm::Text(LineForm::Names { as2 })
    } else {
        OutputForm::Text(LineForm::Plain)
    }
}

/// The session of a capture; of a stream only how long a message may be.
fn session_of(words: &str) -> io::Result<Session> {
    let extended = has_word(words, "--extended");
    if !has_word(words, "--mrt") {
        return Ok(Session {
            peer: Address::V4(0),
            local: Address::V4(0),
            refresh: RouteRefresh::NotOffered,
            extended,
        });
    }
    Ok(Session {
        peer: address_behind(words, "--peer")?,
        local: address_behind(words, "--local")?,
        refresh: if has_word(words, "--skip-refresh") {
            RouteRefresh::PassedOver
        } else {
            RouteRefresh::NotOffered
        },
        extended,
    })
}

/// Whether a word is among those of the command.
pub(crate) fn has_word(words: &str, wanted: &str) -> bool {
    words.split(' ').any(|word| word == wanted)
}

/// Appends a piece, for which nothing is printed yet.
fn push_piece(alloc: Global, pieces: &mut Vec<Piece>, digits: &str) -> io::Result<()> {
    let octets = octets_of(alloc, digits)?;
    Ok(pieces.push(Piece {
        octets,
        text: String::new(alloc),
    })?)
}

/// Appends a line to what is printed for the last piece.
fn push_line(pieces: &mut Vec<Piece>, line: &str) -> io::Result<()> {
    let Some(piece) = pieces.last_mut() else {
        return Err(malformed());
    };
    piece.text.push_str(line)?;
    Ok(piece.text.push_str("\n")?)
}

pub(crate) fn malformed() -> io::Error {
    io::Error::from(io::ErrorKind::InvalidData)
}

/// The address behind an option.
fn address_behind(words: &str, option: &str) -> io::Result<Address> {
    let mut words = words.split(' ').skip_while(|word| *word != option);
    match words.nth(1).and_then(|word| read_address(word)) {
        Some(address) => Ok(address),
        None => Err(malformed()),
    }
}

/// The octets that hexadecimal digits spell, in groups; a dash spells none.
pub(crate) fn octets_of(alloc: Global, digits: &str) -> io::Result<Vec<u8>> {
    let mut octets = Vec::new(alloc);
    for group in digits.split(' ') {
        if group == "-" {
            continue;
        }
        match hex::decode(alloc, group) {
            Ok(some) => octets.extend_from_slice(some.as_slice())?,
            Err(FromHexError::OutOfMemory) => return Err(io::Error::from(AllocError)),
            Err(_) => return Err(malformed()),
        }
    }
    Ok(octets)
}
