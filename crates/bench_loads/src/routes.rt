//! Routes that are put into a table, in changes of the size of an UPDATE; a tenth of them is taken
//! away and put again, and all are listed.

mod feed;

use crate::parties::local_link;
use crate::{broken, number_of};
use bgp_open::Link;
use bgp_path::Path;
use bgp_rib::RibIn;
use bgp_update::{Changes, Destination, read_update};
use feed::Feed;
use std::alloc::Global;
use std::rt::{Clock, Files};
use std::time::{Duration, Instant};
use std::{fs, io};

/// The sizes that are asked for, and whether any is; and whether all routes are to share a path.
#[derive(Clone, Copy)]
struct Wish {
    feed: Feed,
    is_measured: bool,
    is_shared: bool,
}

/// What the words wish: numbers of prefixes of each family and of paths, and then `sorted` for
/// prefixes that ascend, and any other word for one path.
fn wished(words: &[String]) -> io::Result<Wish> {
    let mut numbers = [1000, 200, 200];
    let (mut is_sorted, mut is_shared, mut is_measured) = (false, false, false);
    for (place, word) in words.iter().enumerate() {
        match numbers.get_mut(place) {
            Some(number) => {
                *number = number_of(word)?;
                is_measured = true;
            }
            None if word.as_str() == "sorted" => is_sorted = true,
            None => is_shared = true,
        }
    }
    let [v4, v6, paths] = numbers;
    Ok(Wish {
        feed: Feed::new(v4, v6, paths, is_sorted),
        is_measured,
        is_shared,
    })
}

/// Puts the routes that the words wish, 1,200 if there are none, and tells how long it took if
/// there are any. Answers whether the listing had each route, in order.
pub(crate) fn fill_routes<R: Files + Clock + Print + AllocGlobal>(
    rt: &R,
    words: &[String],
) -> io::Result<bool> {
    let wish = wished(words)?;
    let mut table = Timed {
        routes: RibIn::new(rt.alloc()),
        link: local_link()?,
        reading: Duration::ZERO,
        time: Duration::ZERO,
    };
    fill_and_list(rt, &wish, &mut table)
}

/// Puts the routes that are wished, and lists them.
fn fill_and_list<R: Files + Clock + Print + AllocGlobal>(
    rt: &R,
    wish: &Wish,
    table: &mut Timed,
) -> io::Result<bool> {
    if wish.is_shared {
        fill(rt, &wish.feed, Some(&feed::path(rt.alloc(), 0)?), table)?;
    } else {
        fill(rt, &wish.feed, None, table)?;
    }
    let began = Instant::now(rt)?;
    let is_listed = is_in_order(&table.routes, &wish.feed);
    let listed = began.elapsed(rt)?;
    println!(rt; "{} routes in order: {is_listed}", table.routes.len())?;
    if wish.is_measured {
        print_times(rt, table, listed)?;
    }
    Ok(is_listed)
}

/// Prints how long it took, and the line of the system that tells the greatest memory so far.
fn print_times<R: Files + Print + AllocGlobal>(
    rt: &R,
    table: &Timed,
    listed: Duration,
) -> io::Result<()> {
    let status = fs::read_to_string(rt, "/proc/self/status")?;
    let peak = status.lines().find(|line| line.starts_with("VmHWM:"));
    println!(rt;
        "read {} us, apply {} us, list {} us, {}",
        table.reading.as_micros(),
        table.time.as_micros(),
        listed.as_micros(),
        peak.unwrap_or("VmHWM:")
    )
}

/// Routes, and the time that changing them took.
#[derive(Drop)]
struct Timed {
    routes: RibIn,
    link: Link,
    /// How long it took to read UPDATEs.
    reading: Duration,
    time: Duration,
}

/// What an UPDATE changes.
fn changes_of(alloc: Global, link: &Link, octets: &[u8]) -> io::Result<Changes> {
    match read_update(alloc, link, octets)?.changes {
        Some(changes) => Ok(changes),
        None => Err(broken()),
    }
}

impl Timed {
    /// Puts the routes of a group, by a path that all share or by its own.
    fn announce<R: Clock + AllocGlobal>(
        &mut self,
        rt: &R,
        feed: &Feed,
        shared: Option<&Path>,
        group: u32,
    ) -> io::Result<()> {
        match shared {
            Some(path) => self.apply(rt, &feed.announcement(rt.alloc(), group, path)?),
            None => self.hear(rt, &feed.announcing(rt.alloc(), group)?),
        }
    }

    /// Takes the routes of a group away.
    fn withdraw<R: Clock + AllocGlobal>(
        &mut self,
        rt: &R,
        feed: &Feed,
        group: u32,
    ) -> io::Result<()> {
        self.hear(rt, &feed.withdrawing(rt.alloc(), group)?)
    }

    /// Reads an UPDATE, and applies what it changes.
    fn hear<R: Clock + AllocGlobal>(&mut self, rt: &R, octets: &[u8]) -> io::Result<()> {
        let began = Instant::now(rt)?;
        let changes = changes_of(rt.alloc(), &self.link, octets)?;
        self.apply_read(rt, began, &changes)
    }

    /// Applies what was read since then.
    fn apply_read<R: Clock>(
        &mut self,
        rt: &R,
        began: Instant,
        changes: &Changes,
    ) -> io::Result<()> {
        self.reading = self.reading.saturating_add(began.elapsed(rt)?);
        self.apply(rt, changes)
    }

    /// Applies the changes.
    fn apply<R: Clock>(&mut self, rt: &R, changes: &Changes) -> io::Result<()> {
        let began = Instant::now(rt)?;
        self.routes.apply(changes)?;
        self.time = self.time.saturating_add(began.elapsed(rt)?);
        Ok(())
    }
}

/// Puts all routes; and then takes each tenth group away and puts it again.
fn fill<R: Clock + AllocGlobal>(
    rt: &R,
    feed: &Feed,
    shared: Option<&Path>,
    table: &mut Timed,
) -> io::Result<()> {
    for group in 0..feed.groups() {
        table.announce(rt, feed, shared, group)?;
    }
    for group in 0..feed.groups() {
        if group % 10 == 0 {
            table.withdraw(rt, feed, group)?;
            table.announce(rt, feed, shared, group)?;
        }
    }
    Ok(())
}

/// Whether as many routes as there are prefixes are listed, each above the one before it.
fn is_in_order(routes: &RibIn, feed: &Feed) -> bool {
    let mut last: Option<Destination> = None;
    let mut count = 0u32;
    for (destination, _) in routes.routes() {
        if last.is_some_and(|last| last.prefix >= destination.prefix) {
            return false;
        }
        last = Some(destination);
        count = count.saturating_add(1);
    }
    count == feed.prefixes()
}
