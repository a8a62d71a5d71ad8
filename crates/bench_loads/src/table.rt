//! The table of routes that a capture makes.

ghost use Rattle.std.specs.Prelude.{◌<◌};

use crate::broken;
use crate::parties::{SESSION, local_link};
use bgp_open::Link;
use bgp_rib::RibIn;
use bgp_update::read_update;
use bgp_wire::MessageType;
use mrt::{FromRead, Reader, Record, Source};
use std::alloc::Global;
use std::io::BufReader;
use std::rt::Files;
use std::{fs, io};

/// Applies a message that was received, if it is an UPDATE that may be applied.
fn apply(alloc: Global, link: &Link, message: &[u8], routes: &mut RibIn) -> io::Result<()> {
    if message.get(18) != Some(&MessageType::Update.code()) {
        return Ok(());
    }
    if let Some(changes) = read_update(alloc, link, message)?.changes {
        routes.apply(&changes)?;
    }
    Ok(())
}

/// Applies the UPDATEs that were received. A change to Idle leaves no routes.
fn apply_all<S: Source>(
    alloc: Global,
    link: &Link,
    source: &mut S,
    routes: &mut RibIn,
) -> io::Result<()>
    requires { S.failures source.old < u64.MAX }
{
    let mut records = Reader::new(alloc);
    for _ in 0..u64::MAX {
        match records.next_record(source, &SESSION) {
            Ok(Some(Record::In(_, message))) => apply(alloc, link, message, routes)?,
            Ok(Some(Record::Change(_, _, 1))) => routes.clear(),
            Ok(Some(_)) => {}
            Ok(None) => break,
            Err(_) => return Err(broken()),
        }
    }
    Ok(())
}

/// The routes that a capture leaves.
fn table_of<S: Source>(alloc: Global, source: &mut S) -> io::Result<RibIn>
    requires { S.failures source.old < u64.MAX }
{
    let link = local_link()?;
    let mut routes = RibIn::new(alloc);
    apply_all(alloc, &link, source, &mut routes)?;
    Ok(routes)
}

/// Prints how many routes a capture's table has at the end.
pub(crate) fn print_table<R: Files + Print + AllocGlobal>(rt: &R, file: &str) -> io::Result<()> {
    let mut source = FromRead::new(BufReader::new(rt.alloc(), fs::open(rt, file)?)?);
    let routes = table_of(rt.alloc(), &mut source)?;
    println!(rt; "{} routes", routes.len())
}
