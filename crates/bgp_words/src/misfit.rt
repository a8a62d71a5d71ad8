//! Why words that clap takes spell no command.

use std::fmt;
use std::fmt::Display;

/// What an option wants for its value.
#[derive(Clone, Copy)]
pub(crate) enum Wanted {
    /// An address of either family.
    Address,
    /// A BGP Identifier (RFC 6286, 2.1).
    Identifier,
    /// A number of 32 bits that isn't 0.
    Positive,
    /// A Hold Time (RFC 4271, 4.2).
    HoldTime,
    /// The families that are offered.
    Families,
    /// A TCP port.
    Port,
    /// An IPv4 address.
    Ipv4,
    /// An IPv6 address.
    Ipv6,
    /// A prefix of either family.
    Prefix,
    /// A count of turns.
    Turns,
    /// A count of seconds.
    Seconds,
    /// What an OPEN offers about routes.
    Offers,
}

impl Display for Wanted {
    fn fmt<W: fmt::Write>(&self, f: &mut fmt::Formatter<W>) -> fmt::Result {
        f.write_str(match self {
            Wanted::Address => "an address, as 192.0.2.1 or 2001:db8::1",
            Wanted::Identifier => "an IPv4 address that isn't 0.0.0.0, as 192.0.2.1",
            Wanted::Positive => "a number from 1 to 4294967295",
            Wanted::HoldTime => "0 or a number of seconds from 3 to 65535",
            Wanted::Families => "v4, v6 or both",
            Wanted::Port => "a port from 1 to 65535",
            Wanted::Ipv4 => "an IPv4 address, as 192.0.2.1",
            Wanted::Ipv6 => "an IPv6 address, as 2001:db8::1",
            Wanted::Prefix => "a prefix, as 10.1.0.0/16 or 2001:db8:1::/48",
            Wanted::Turns => "a number from 0 to 9223372036854775807",
            Wanted::Seconds => "a number of seconds from 0 to 65535",
            Wanted::Offers => {
                "some of send-v4, send-v6, receive-v4, receive-v6 and next-hops, each once, as \
                 send-v4,next-hops"
            }
        })
    }
}

/// Why words that clap takes are no command: one sentence.
#[derive(Clone, Copy)]
pub(crate) enum Misfit<'a> {
    /// A sentence in which none of the words stands.
    Sentence(&'a str),
    /// The word after the program's name is none.
    UnknownCommand {
        /// The word.
        word: &'a str,
        /// The command that is most like it, if one is like it.
        near: Option<&'a str>,
    },
    /// A word is written as an option, and the command has no such option.
    UnknownOption {
        /// The word.
        word: &'a str,
        /// The command.
        command: &'a str,
        /// The option that is most like it, if one is like it.
        near: Option<&'a str>,
    },
    /// There are more words than the command has files.
    ExtraWord {
        /// The first of them.
        word: &'a str,
        /// The command.
        command: &'a str,
    },
    /// An option has no value.
    NoValue {
        /// The option's name.
        name: &'a str,
    },
    /// A flag has a value.
    NoFlag {
        /// The flag's name.
        name: &'a str,
    },
    /// An option is given twice.
    Twice {
        /// The option's name.
        name: &'a str,
    },
    /// An option that has to be given isn't.
    Lacking {
        /// The option's name.
        name: &'a str,
        /// The command.
        command: &'a str,
    },
    /// No file is named.
    NoFile {
        /// The command.
        command: &'a str,
    },
    /// An option is missing beside others.
    Missing {
        /// The option's name.
        name: &'a str,
    },
    /// The value of an option isn't what it wants.
    Value {
        /// The option's name.
        name: &'a str,
        /// Its value.
        word: &'a str,
        /// What it wants.
        wanted: Wanted,
    },
}

impl Misfit<'static> {
    /// None was named.
    pub(crate) const NO_COMMAND: Misfit<'static> = Misfit::Sentence(
        "no command is named, as in `bgp check FILE`: `bgp help` lists them",
    );

    /// `import` names no file to write.
    pub(crate) const NO_OUT: Misfit<'static> = Misfit::Sentence(
        "OUT is missing, the MRT file to write: `-` is standard output",
    );

    /// The messages to pass over are a stream's, and not a session's.
    pub(crate) const SKIPS_IN_STREAM: Misfit<'static> = Misfit::Sentence(
        "--skip-refresh wants --mrt, --peer and --local: of a raw stream all is printed",
    );

    /// AS numbers are to have two octets, and what is printed shows none.
    pub(crate) const AS2_ALONE: Misfit<'static> = Misfit::Sentence(
        "--as2 wants --names or --json: without them no AS path is read",
    );

    /// Both words and JSON are to be printed.
    pub(crate) const TWO_FORMS: Misfit<'static> = Misfit::Sentence(
        "--names and --json are both given: decode prints one of both",
    );

    /// Both JSON and HTML are to be printed.
    pub(crate) const TWO_CHECK_FORMS: Misfit<'static> = Misfit::Sentence(
        "--json and --html are both given: check prints one of both",
    );

    /// An AS number has more than two octets, and four-octet ones aren't offered.
    pub(crate) const FOUR_OCTETS: Misfit<'static> = Misfit::Sentence(
        "with --as2, --local-as and --peer-as want numbers up to 65535",
    );

    /// Neither way is given in which a connection may come to be.
    pub(crate) const NO_START: Misfit<'static> = Misfit::Sentence(
        "--connect or --listen is missing: speak wants one of both",
    );

    /// Both are.
    pub(crate) const TWO_STARTS: Misfit<'static> = Misfit::Sentence(
        "--connect and --listen are both given: speak wants one of both",
    );

    /// The two addresses of a session to speak in or to import are of two families.
    pub(crate) const TWO_FAMILIES: Misfit<'static> = Misfit::Sentence(
        "--local and --peer want addresses of one family: both IPv4 or both IPv6",
    );

    /// They are one, and the port that tells the two ends apart isn't given.
    pub(crate) const ONE_ADDRESS: Misfit<'static> = Misfit::Sentence(
        "where --local and --peer are one address, --local-port is wanted too",
    );
}

impl Display for Misfit<'_> {
    fn fmt<W: fmt::Write>(&self, f: &mut fmt::Formatter<W>) -> fmt::Result {
        match *self {
            Misfit::Sentence(sentence) => f.write_str(sentence),
            Misfit::UnknownCommand { word, near } => put_unknown_command(f, word, near),
            Misfit::UnknownOption {
                word,
                command,
                near,
            } => put_unknown_option(f, word, command, near),
            Misfit::ExtraWord { word, command } => put_extra_word(f, word, command),
            Misfit::NoValue { name } => put_option(f, name, "wants a value after it"),
            Misfit::NoFlag { name } => put_option(f, name, "takes no value"),
            Misfit::Twice { name } => put_option(f, name, "is given twice"),
            Misfit::Lacking { name, command } => put_lacking(f, name, command),
            Misfit::NoFile { command } => put_no_file(f, command),
            Misfit::Missing { name } => {
                put_option(f, name, "is missing: --mrt, --peer and --local go together")
            }
            Misfit::Value { name, word, wanted } => put_value(f, name, word, wanted),
        }
    }
}

/// The sentence that says this of an option.
fn put_option<W: fmt::Write>(f: &mut fmt::Formatter<W>, name: &str, told: &str) -> fmt::Result {
    write!(f, "--{name} {told}")
}

/// The sentence on an option that has to be given.
fn put_lacking<W: fmt::Write>(f: &mut fmt::Formatter<W>, name: &str, command: &str) -> fmt::Result {
    write!(
        f,
        "--{name} is missing: `bgp help {command}` says what it is"
    )
}

/// The sentence on a file that isn't named.
fn put_no_file<W: fmt::Write>(f: &mut fmt::Formatter<W>, command: &str) -> fmt::Result {
    write!(
        f,
        "FILE is missing, as in `bgp {command} FILE`: `bgp help {command}` says what it is"
    )
}

/// The sentence on a value that isn't what its option wants.
fn put_value<W: fmt::Write>(
    f: &mut fmt::Formatter<W>,
    name: &str,
    word: &str,
    wanted: Wanted,
) -> fmt::Result {
    write!(f, "--{name} wants {wanted}, and {word:?} is none")
}

/// The sentence on a word that the command has no place for.
fn put_extra_word<W: fmt::Write>(
    f: &mut fmt::Formatter<W>,
    word: &str,
    command: &str,
) -> fmt::Result {
    write!(
        f,
        "{word:?} is one word too many: `bgp help {command}` has the words of the command"
    )
}

/// The sentence on a word that is no command, and the command that is most like it.
fn put_unknown_command<W: fmt::Write>(
    f: &mut fmt::Formatter<W>,
    word: &str,
    near: Option<&str>,
) -> fmt::Result {
    match near {
        Some(name) => write!(f, "{word:?} is no command: did you mean `bgp {name}`?"),
        None => write!(f, "{word:?} is no command: `bgp help` lists them"),
    }
}

/// The sentence on a word that is no option, and the option that is most like it.
fn put_unknown_option<W: fmt::Write>(
    f: &mut fmt::Formatter<W>,
    word: &str,
    command: &str,
    near: Option<&str>,
) -> fmt::Result {
    match near {
        Some(name) => write!(
            f,
            "{word:?} is no option of `bgp {command}`: did you mean --{name}?"
        ),
        None => write!(
            f,
            "{word:?} is no option of `bgp {command}`: `bgp help {command}` lists them"
        ),
    }
}
