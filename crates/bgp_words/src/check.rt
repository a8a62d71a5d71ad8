//! The words of `check`.

ghost use Rattle.std.specs.Prelude.{◌≡◌, ◌↔◌, ℕ, List, IfOk, IsErr, IsOkAnd, false, codes};
ghost use Rattle.clap.specs.Words.{app_of, found_of, rows_of};
ghost use Rattle.clap.specs.declared.builder.command.Command.TheViews.{out-Command as fields_of};
ghost use Rattle.bgp_words.specs.declared.check.CheckForm.{CheckForm as Form};
ghost use Rattle.bgp_words.specs.declared.check.Checking.{Checking as TheChecking};
ghost use Rattle.bgp_words.specs.Words.{check_words};
ghost use Rattle.bgp_words.specs.Import.{IsCheckForm, IsChecking};
ghost use Rattle.bgp_words.specs.Spelled.{NamesBy};

use crate::misfit::Misfit;
use crate::options::{READ, Word, new_command, with_words};
use crate::recording::{PORT, WITHIN};
use crate::values::{has_flag, port_of, seconds_of, value_of};
use crate::words::Command;
use clap::ArgMatches;
use std::alloc::{AllocError, Global};

/// What help says after the words of `check`: what it prints, and the statuses.
const CHECKED: &str = "\
check says for both ends of each session in FILE whether they kept to the standard. It needs no
settings: it reads them off the OPEN that each end sent, and leaves free what an OPEN doesn't say.
FILE is a pcap file, as tcpdump -w writes it (pcap or pcapng), or an MRT file.

For each connection at --port in a pcap file:
  connection 1: 192.0.2.2:40000 (AS 65002) to 192.0.2.1:179 (AS 65001) at 2017-07-14 02:40:00 ..
                        as bgp list prints it, with a line on how it ended; its two ends follow,
                        first that which opened it
  yes: 192.0.2.2:40000 (AS 65002): Established, routes from its peer: 2
                        the standard allows all that it did; the AS number of its OPEN, and the
                        state in which it may be. The line says if its peer has to have another AS
                        number than the peer's OPEN says
  no at packet 8, 2017-07-14 02:40:02.133606 UTC: 192.0.2.2:40000 (AS 65002) sent UPDATE to ..
                        no configuration that its OPEN allows explains what it did, in any order
                        that the packets allow within --within; if only one order was tried, a note
                        says so. The line goes on with what is wrong
  unfinished after packet 9, 2017-07-14 02:40:02.133606 UTC: 192.0.2.2:40000 (AS 65002) has not ..
                        it still owes something, in each such order; if only one order was tried, a
                        note says so
  not judged: 192.0.2.1:179 (AS unknown): the file has no message that it sent
                        why nothing can be said of it
for each session in an MRT file:
  session: 192.0.2.1 with peer 192.0.2.2, 2017-07-14 02:40:00 to 02:41:00 UTC, records 9: ..
                        as bgp list prints it; the answers on its local end follow, one for each
                        part of its records that begins with a change from Idle:
  yes: 192.0.2.1 (AS 65001, records 1 to 9): Established, routes from its peer: 1
                        or another answer as above, with a record in place of a packet. If there are
                        several parts, the line says which records of the session it is about
and last:
  ends 2: 1 yes, 0 no, 0 unfinished, 1 not judged; refused 0

After a no and an unfinished the reason follows, indented, as judge --explain prints it: what was
sent, the state, what was received last, and all that could have come instead. With --settings each
end has a line
  repeat: bgp judge --local-as 65001 --peer-as 65002 --local-id 192.0.2.1 .. FILE
with options for which judge gives the same answer, if there are some. They are the most permissive
configuration that the OPEN allows, and not the router's own.

With -q check prints only what is a no, unfinished or refused, each under the line of its connection
or session. If there is nothing of that, it prints nothing, unless the file has no session at all.
The exit status is the same as without -q.

check --json prints the same as JSON objects, one a line: for each connection or session, for the
answer on each end and each thing that is said beside it, and last for the counts.

check --html prints the same with --routes and --settings as a report for a browser: one HTML file
that runs no script and loads nothing.

ROUTE-REFRESH messages that their receiver's OPEN offers to read are left out, and a note counts
them. If a connection, a session or the file can't be read, a line says so, as in bgp list.

Exit status, the first of 5, 4, 1, 3, 2, 0 for which there is something:
  0   a yes; or help was asked for
  1   a no
  2   an end is unfinished
  3   the file, a connection or a session is refused, or no end is judged
  4   memory was refused
  5   a file can't be opened or read, or output can't be written
  64  the command line is none that the program knows

The manual is docs/bgp.1.md, at the top of the repository.";

/// In which form `check` prints.
#[derive(Clone, Copy, Debug, PartialEq, Eq)]
pub enum CheckForm {
    /// As text.
    Text,
    /// As JSON, an object a line.
    Json,
    /// As a report in HTML, in which the routes and the options of `judge` stand, too.
    Html,
}

/// How `check` is asked for.
#[derive(Clone, Copy, Debug, PartialEq, Eq)]
pub struct Checking {
    /// The port of the connections, which isn't 0.
    pub port: u16,
    /// How many seconds after it came a received message is handled at the latest.
    pub within: u16,
    /// Whether the routes of each possible end are printed.
    pub routes: bool,
    /// Whether the options of `judge` that say the same of an end are printed.
    pub settings: bool,
    /// Whether the ends that are well or not judged are left out.
    pub quiet: bool,
    /// In which form all is printed.
    pub form: CheckForm,
}

/// The words after `check`.
static WORDS: [Word<'static>; 8] = [
    READ,
    PORT,
    WITHIN,
    Word::Flag("routes", "Prints the routes of each possible end"),
    Word::Flag(
        "settings",
        "Prints the options with which judge says the same of an end, after yes too",
    ),
    Word::Letter(
        "quiet",
        'q',
        "Prints only what is a no, unfinished or refused",
    ),
    Word::Flag("json", "Prints each line as a JSON object"),
    Word::Flag(
        "html",
        "Prints a report in HTML, with --routes and --settings",
    ),
];

/// What the words of `check` may be.
pub(crate) fn check_words<'a>(alloc: Global) -> Result<clap::Command<'a>, AllocError>
    ensures words { IfOk result (λ check. app_of check ≡ check_words) }
    ensures local { IfOk result (λ check. (fields_of check).has_globals ≡ false) }
{
    let check = new_command(
        alloc,
        "check",
        "Says whether the ends of each session in a file kept to the standard",
        CHECKED,
    )
    .display_order(0);
    with_words(alloc, check, &WORDS)
}

/// The command that the values of `check` are.
pub(crate) fn check_of<'a>(check: &ArgMatches<'a>) -> Result<Command<'a>, Misfit<'a>>
    ensures ok { IfOk result (NamesBy (codes "check") (rows_of (found_of check.now))) }
    ensures err { IsErr result →
        (checking : TheChecking) (file : List ℕ) →
        IsChecking checking file (rows_of (found_of check.now)) → ⊥ }
{
    let port = port_of(check, "port")?;
    let within = seconds_of(check, "within")?;
    let form = check_form_of(check)?;
    let checking = Checking {
        port,
        within,
        routes: has_flag(check, "routes"),
        settings: has_flag(check, "settings"),
        quiet: has_flag(check, "quiet"),
        form,
    };
    let file = value_of(check, "FILE")?;
    Ok(Command::Check { checking, file })
}

/// The form of what is printed: one of both is JSON, the other HTML.
fn check_form_of<'a>(check: &ArgMatches<'a>) -> Result<CheckForm, Misfit<'a>>
    ensures { (form : Form) → IsOkAnd result (λ it. it ≡ form)
        ↔ IsCheckForm form (rows_of (found_of check.now)) }
{
    let json = has_flag(check, "json");
    if has_flag(check, "html") {
        if json {
            return Err(Misfit::TWO_CHECK_FORMS);
        }
        return Ok(CheckForm::Html);
    }
    if json {
        return Ok(CheckForm::Json);
    }
    Ok(CheckForm::Text)
}
