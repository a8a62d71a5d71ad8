//! Recordings of packets, captures and command lines whose answers are known from elsewhere: most
//! from a program that was written apart from this one, some worked out by hand (docs/TESTING.md).
//!
//! First tables are gone through. `cases.txt` has recordings made at random and by hand, with the
//! capture that is made of each or why it is refused, and lists; `judged.txt` has some that are
//! judged, and decoded. `explained.txt` and `explained-by-hand.txt` have captures whose verdict is
//! explained. `checked.txt` and `captures.txt` have recordings and captures that are checked, whose
//! settings aren't known: by hand, at random with planted oddities, and of real sessions; and where
//! a verdict is told with the options of `bgp judge`, that is asked by them for the same.
//! `forms.txt` has files that are neither, made by other programs, and what is said of them.
//! `offers.txt` has captures and recordings whose OPENs offer several paths for a prefix or IPv6
//! next hops of IPv4 routes, judged, explained and checked: rows worked out by hand, and random
//! ones.
//! `slow.txt` has nine recordings, each of which is imported, judged, decoded and checked: of
//! routers that answer an OPEN late, and of messages in the packet that ends the connection.
//! `orders.txt` has recordings that are judged over all orders that their packets allow; of `check`
//! it has the lines that aren't indented.
//! `names.txt` has captures and recordings that are decoded in words, and `json.txt` some that are
//! decoded to JSON: rows worked out by hand, real sessions and random ones, which another program
//! answered. `reports.txt` has rows of the other tables as reports in HTML, which a script made of
//! their lines.
//! `options.txt` was worked out by hand from the RFCs and docs/bgp.1.md: for options of each
//! command a file whose answer is another one by that option. All these are answered by the
//! function that answers the program's commands (`answer_to` of bgp_commands), over octets in
//! memory and with a heap of its own. Each file is read at once and octet by octet. `words.txt` has
//! command lines, and the command that each spells, or the status and the message. `announced.txt`
//! has prefixes that `bgp speak` is to announce, and the answer for each.
//!
//! So are the examples of `bgp judge` in `judge`, from the words of the command line on.
//!
//! Then recordings of real sessions between five daemons, in `sessions`, are listed, judged from
//! both ends, and explained as the captures that are made of them, but for the packets. Last some
//! command lines are run over real files, some of them once more with too little memory, and
//! `bgp speak` and `bgp pair` over loopback.
//!
//! Of the other program's 300 explained captures five are in the table by hand, with what differs:
//! four in which large communities are an attribute without a name, and one that tells from when on
//! HoldTimer expires where that is after the last second of 32 bits, so that no record is of it.
#![tactic(auto)]

mod announced;
mod answer;
mod case;
mod examples;
mod explained;
mod file;
mod lacking;
mod objects;
mod repeated;
mod runs;
mod session;
mod speaking;
mod spelled;
mod table;
mod told;
mod words;

use examples::compare_examples;
use lacking::run_lacking;
use runs::run_all;
use session::compare_sessions;
use speaking::speak_all;
use std::io;
use std::net::Net;
use std::process::ExitCode;
use std::rt::{Clock, Files};
use table::compare_tables;

fn main(rt: HostRuntime) -> ExitCode {
    match go_through_all(&rt, &rt.stderr()) {
        Ok(true) => ExitCode::SUCCESS,
        Ok(false) => ExitCode::FAILURE,
        Err(error) => {
            let _ = eprintln!(rt; "{error}");
            ExitCode::FAILURE
        }
    }
}

/// Prints what is not so, how much was compared, and what the command lines print that are run.
/// Answers whether all that is compared is so.
fn go_through_all<R: Files + Net + Clock + Input + Print + Eprint + AllocGlobal, E: Print>(
    rt: &R,
    errors: &E,
) -> io::Result<bool> {
    let tables = compare_tables(rt)?;
    let examples = compare_examples(rt)?;
    let sessions = compare_sessions(rt)?;
    run_all(rt, errors)?;
    run_lacking(rt)?;
    speak_all(rt, errors)?;
    Ok(tables && examples && sessions)
}
