//! Command lines, run as `bgp` does over the real files that lie in the folder that the program is
//! run in. Of each it prints the words, what the command prints, the exit status, and whether the
//! file that `bgp import` may write has then the octets that it has to have.
//!
//! `session.pcap` is a recording by hand, `session.mrt` its capture, which another program made,
//! and `half.pcap` has the packets of one of its sides alone. Standard input is `session.pcap`.

use bgp_commands::run_words;
use std::alloc::Global;
use std::net::Net;
use std::rt::{Clock, Files};
use std::{fs, io};

/// A command line that may write a file.
struct Import {
    words: &'static str,
    /// The file.
    out: &'static str,
    /// That whose octets it has before, where it is there.
    before: Option<&'static str>,
    /// That whose octets it has to have then, where it has to be there.
    after: Option<&'static str>,
}

/// A capture is made, of a file or of standard input; one that was there is replaced, though it was
/// longer. Where the recording is refused, or can't be opened, what was there stays, and nothing is
/// made; so it is where one name is given for both. No capture is made where there is no folder. Last
/// a report on a file whose name is to be shown, and no markup, though it has brackets, quotation
/// marks and a tab: nothing is written to it.
static IMPORTS: [Import; 9] = [
    Import {
        words: "bgp import --local 192.0.2.1 --peer 192.0.2.2 session.pcap made.mrt",
        out: "made.mrt",
        before: None,
        after: Some("session.mrt"),
    },
    Import {
        words: "bgp import --local 192.0.2.1 --peer 192.0.2.2 - piped.mrt",
        out: "piped.mrt",
        before: None,
        after: Some("session.mrt"),
    },
    Import {
        words: "bgp import --local 192.0.2.1 --peer 192.0.2.2 session.pcap old.mrt",
        out: "old.mrt",
        before: Some("session.pcap"),
        after: Some("session.mrt"),
    },
    Import {
        words: "bgp import --local 192.0.2.1 --peer 192.0.2.2 half.pcap kept.mrt",
        out: "kept.mrt",
        before: Some("session.mrt"),
        after: Some("session.mrt"),
    },
    Import {
        words: "bgp import --local 192.0.2.1 --peer 192.0.2.2 half.pcap none.mrt",
        out: "none.mrt",
        before: None,
        after: None,
    },
    Import {
        words: "bgp import --local 192.0.2.1 --peer 192.0.2.2 none.pcap kept.mrt",
        out: "kept.mrt",
        before: Some("session.mrt"),
        after: Some("session.mrt"),
    },
    Import {
        words: "bgp import --local 192.0.2.1 --peer 192.0.2.2 both.pcap both.pcap",
        out: "both.pcap",
        before: Some("session.pcap"),
        after: Some("session.pcap"),
    },
    Import {
        words: "bgp import --local 192.0.2.1 --peer 192.0.2.2 session.pcap no_folder/made.mrt",
        out: "no_folder/made.mrt",
        before: None,
        after: None,
    },
    Import {
        words: "bgp check --html <b>&amp;\"'\t.pcap",
        out: "<b>&amp;\"'\t.pcap",
        before: Some("half.pcap"),
        after: Some("half.pcap"),
    },
];

/// Command lines that write no file. `made.mrt` is there by now. By then standard input has ended,
/// so that `-` is a file of no octet; a file of that name isn't there.
static READERS: [&str; 28] = [
    "bgp list session.pcap",
    "bgp list half.pcap",
    "bgp list --port 1179 session.pcap",
    "bgp list none.pcap",
    "bgp decode --mrt --peer 192.0.2.2 --local 192.0.2.1 made.mrt",
    "bgp decode --mrt --peer 192.0.2.2 --local 192.0.2.1 session.pcap",
    "bgp judge --local-as 65001 --peer-as 65002 --local-id 192.0.2.1 --local 192.0.2.1 \
     --peer 192.0.2.2 --families both made.mrt",
    "bgp judge --explain --local-as 65001 --peer-as 65003 --local-id 192.0.2.1 --local 192.0.2.1 \
     --peer 192.0.2.2 --families both session.pcap",
    "bgp check --routes session.pcap",
    "bgp check --routes --settings made.mrt",
    "bgp check --html made.mrt",
    "bgp list",
    "bgp list -",
    "bgp check -",
    "bgp decode -",
    "bgp decode --mrt --peer 192.0.2.2 --local 192.0.2.1 -",
    "bgp judge --local-as 65001 --peer-as 65002 --local-id 192.0.2.1 --local 192.0.2.1 \
     --peer 192.0.2.2 -",
    "bgp list sessions",
    "bgp check none.pcap",
    "bgp decode none.pcap",
    "bgp decode session.pcap",
    "bgp judge --hold 180 --local-as 65001 --peer-as 65002 --local-id 192.0.2.1 --local 192.0.2.1 \
     --peer 192.0.2.2 --families both made.mrt",
    "bgp judge --connection 2 --local-as 65001 --peer-as 65002 --local-id 192.0.2.1 \
     --local 192.0.2.1 --peer 192.0.2.2 --families both session.pcap",
    "bgp judge --local-port 40000 --local-as 65001 --peer-as 65002 --local-id 192.0.2.1 \
     --local 192.0.2.1 --peer 192.0.2.2 --families both session.pcap",
    "bgp check --port 1179 session.pcap",
    "bgp check half.pcap",
    "bgp --version",
    "bgp lost",
];

/// Runs all command lines, in this order.
pub(crate) fn run_all<R: Files + Net + Clock + Input + Print + Eprint + AllocGlobal, E: Print>(
    rt: &R,
    errors: &E,
) -> io::Result<()> {
    for import in &IMPORTS {
        run_import(rt, errors, import)?;
    }
    for words in &READERS {
        run(rt, errors, words)?;
    }
    Ok(())
}

/// The words of a command line.
pub(crate) fn words_in<'a>(alloc: Global, line: &'a str) -> io::Result<Vec<&'a str>> {
    let mut words = Vec::new(alloc);
    for word in line.split(' ') {
        words.push(word)?;
    }
    Ok(words)
}

/// Prints a command line, what it prints, and its status.
pub(crate) fn run<R: Files + Net + Clock + Input + Print + Eprint + AllocGlobal, E: Print>(
    rt: &R,
    errors: &E,
    line: &str,
) -> io::Result<()> {
    let words = words_in(rt.alloc(), line)?;
    println!(rt; "> {line}")?;
    let status = run_words(rt, errors, words.as_slice());
    println!(rt; "status {status}")
}

/// The same of one that may write a file, and whether that is then as it has to be.
fn run_import<R: Files + Net + Clock + Input + Print + Eprint + AllocGlobal, E: Print>(
    rt: &R,
    errors: &E,
    import: &Import,
) -> io::Result<()> {
    if let Some(before) = import.before {
        let octets = fs::read(rt, before)?;
        fs::write(rt, import.out, octets.as_slice())?;
    }
    run(rt, errors, import.words)?;
    print_file(rt, import.out, import.after)
}

/// Prints whether a file has the octets of another one, or whether it is there if it hasn't to be.
pub(crate) fn print_file<R: Files + Print + AllocGlobal>(
    rt: &R,
    out: &str,
    after: Option<&str>,
) -> io::Result<()> {
    match (fs::read(rt, out), after) {
        (Ok(octets), Some(after)) => {
            let is_so = octets.as_slice() == fs::read(rt, after)?.as_slice();
            println!(rt; "{out} is {after}: {is_so}")
        }
        (Ok(_), None) => println!(rt; "{out} is there"),
        (Err(_), _) => println!(rt; "{out} isn't there"),
    }
}
