//! Commands that run over real files with too little memory: the exit status is 4 then.

use crate::answer::answer_in;
use crate::case::malformed;
use crate::file::File;
use crate::words::{command_of, words_of};
use linked_list_allocator::LocalHeap;
use std::alloc::Global;
use std::rt::Files;
use std::{fs, io};

/// Command lines, without the program's name and the file's.
static LINES: [&str; 6] = [
    "list",
    "check",
    "judge --local-as 65001 --peer-as 65002 --local-id 192.0.2.1 --local 192.0.2.1 \
     --peer 192.0.2.2 --families both",
    "decode --mrt --peer 192.0.2.2 --local 192.0.2.1",
    "decode --json --mrt --peer 192.0.2.2 --local 192.0.2.1",
    "import --local 192.0.2.1 --peer 192.0.2.2",
];

/// How many octets of memory a command has: too few for a list of one connection, and enough.
const SIZES: [usize; 2] = [64, 1 << 20];

/// Prints for each command line over `session.pcap` which exit status it has with so little memory,
/// and with enough.
pub(crate) fn run_lacking<R: Files + Print + AllocGlobal>(rt: &R) -> io::Result<()> {
    let octets = fs::read(rt, "session.pcap")?;
    for line in &LINES {
        println!(rt; "> bgp {line} session.pcap")?;
        for size in SIZES {
            let status = status_with(rt.alloc(), line, octets.as_slice(), size)?;
            println!(rt; "{size} octets of memory: status {status}")?;
        }
    }
    Ok(())
}

/// The exit status of a command line over these octets, if it may take so much memory.
fn status_with(alloc: Global, line: &str, octets: &[u8], size: usize) -> io::Result<u8> {
    let words = words_of(alloc, line)?;
    let Ok(command) = command_of(alloc, words.as_slice()) else {
        return Err(malformed());
    };
    let heap = LocalHeap::new(alloc, size)?;
    let (answer, _) = answer_in(alloc, &heap, &command, &File::read_at_once(octets))?;
    Ok(answer.status())
}
