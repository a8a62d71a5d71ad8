//! The outcomes of a stream's UPDATEs, counted.

use crate::parties::local_link;
use bgp_open::Link;
use bgp_update::{Put, read_update};
use bgp_wire::{Frames, Limit, MessageType, Next};
use bumpalo::Bump;
use std::alloc::Allocator;
use std::io::Read;
use std::rt::Files;
use std::{fs, io};

/// How many UPDATEs there were, by what may become of them.
#[derive(Clone, Copy, Default)]
struct Totals {
    applied: u64,
    reset: u64,
    removed: u64,
    put: u64,
}

impl Totals {
    /// One UPDATE more.
    fn add<A: Allocator + Copy>(&mut self, alloc: A, link: &Link, octets: &[u8]) -> io::Result<()> {
        let Some(changes) = read_update(alloc, link, octets)?.changes else {
            self.reset = self.reset.saturating_add(1);
            return Ok(());
        };
        self.applied = self.applied.saturating_add(1);
        self.removed = self.removed.saturating_add(changes.remove.len() as u64);
        self.put = self.put.saturating_add(count(&changes.nlri));
        self.put = self.put.saturating_add(count(&changes.mp_reach_nlri));
        Ok(())
    }
}

/// How many routes a group has.
fn count<A: Allocator>(group: &Option<Put<A>>) -> u64 {
    match group {
        Some(group) => group.destinations.len() as u64,
        None => 0,
    }
}

/// Reads the stream that a file has in blocks, and prints what became of its UPDATEs. The outcomes
/// of a block take their memory from an arena, and give it back together.
pub(crate) fn print_outcomes<R: Files + Print + AllocGlobal>(rt: &R, name: &str) -> io::Result<()> {
    let link = local_link()?;
    let mut file = fs::open(rt, name)?;
    let mut frames = Frames::new(rt.alloc(), Limit::Plain);
    let mut totals = Totals::default();
    let mut arena = Bump::new(rt.alloc());
    let mut block = [0; 8192];
    for _ in 0..u64::MAX {
        let count = file.read(&mut block)?;
        if count == 0 {
            break;
        }
        frames.feed(&block[..count])?;
        add_frames(&arena, &link, &mut frames, &mut totals)?;
        let _ = arena.reset(); // No outcome is kept.
    }
    println!(rt;
        "applied {}, reset {}, removed {}, put {}",
        totals.applied, totals.reset, totals.removed, totals.put
    )
}

/// Adds the UPDATEs among the frames that are whole.
fn add_frames<A: Allocator + Copy>(
    alloc: A,
    link: &Link,
    frames: &mut Frames,
    totals: &mut Totals,
) -> io::Result<()> {
    for _ in 0..frames.len() {
        let Next::Frame(kind, frame) = frames.next() else {
            break;
        };
        if kind == MessageType::Update {
            totals.add(alloc, link, frame)?;
        }
    }
    Ok(())
}
