//! A thousand drives of a speaker's core by chance, the same in each run. A core that is told one
//! thing after another shows as many records and comes to the same state as `drive`; and what each
//! drive shows is judged alike by the plain tracker and by the compact one: yes, with the core's
//! state and routes among the ends.

mod moves;
mod walk;

use crate::judging::{capture_of, end_text, is_judged};
use bgp_judge::End;
use bgp_machine::Fsm;
use bgp_open::{Config, ConfigParts, Families};
use bgp_speaker::{Core, Run, drive};
use bgp_vectors::SPEAKER_A;
use rand_pcg::Pcg32;
use std::alloc::Global;
use std::io;
use walk::walk;

/// How many drives there are.
const DRIVES: u32 = 1000;

/// Router A's IPv4 next hop, 192.0.2.1.
const HOP_4: u32 = 0xc000_0201;

/// Its IPv6 next hop, 2001:db8::1.
const HOP_6: u128 = 0x2001_0db8_0000_0000_0000_0000_0000_0001;

/// How many drives ended so.
#[derive(Clone, Copy)]
struct Counts {
    records: usize,
    established: u32,
    routes: u32,
}

/// The settings of a drive: each number has others.
fn config_of(number: u32) -> io::Result<Config> {
    let config = Config::new(ConfigParts {
        hold: if number % 5 == 0 { 9 } else { 90 },
        families: Families {
            v4: true,
            v6: number % 7 != 0,
        },
        as4: number % 3 != 0,
        delay_open: number % 4 != 0,
        large_hold: if number % 11 == 0 { 20 } else { 240 },
        ..SPEAKER_A
    });
    match config {
        Some(config) => Ok(config),
        None => Err(io::Error::from(io::ErrorKind::InvalidData)),
    }
}

/// Counts what a drive came to.
fn tally(counts: &mut Counts, run: &Run) {
    counts.records = counts.records.saturating_add(run.records.len());
    if run.fsm == Fsm::Established {
        counts.established = counts.established.saturating_add(1);
    }
    if run.rib.len() > 0 {
        counts.routes = counts.routes.saturating_add(1);
    }
}

/// Whether what a drive shows is judged yes, with its end.
fn is_yes(alloc: Global, config: &Config, run: Run) -> io::Result<bool> {
    let Run {
        records,
        fsm,
        rib,
        ..
    } = run;
    let capture = capture_of(alloc, config, records.as_slice())?;
    let text = end_text(alloc, &End { fsm, rib })?;
    is_judged(alloc, config, capture.as_slice(), text.as_str())
}

/// The next drive, if a core that is told one thing after another comes to the same.
fn next_run(alloc: Global, config: &Config, random: &mut Pcg32) -> io::Result<Option<Run>> {
    let mut inputs = Vec::new(alloc);
    let mut core = Core::new(alloc, config, HOP_4, HOP_6);
    let records = walk(random, &mut core, &mut inputs)?;
    let fsm = core.fsm();
    let run = drive(alloc, config, HOP_4, HOP_6, inputs.as_slice())?;
    Ok((run.fsm == fsm && run.records.len() == records).then_some(run))
}

/// Whether the next drive is so.
fn is_next_so(
    alloc: Global,
    number: u32,
    random: &mut Pcg32,
    counts: &mut Counts,
) -> io::Result<bool> {
    let config = config_of(number)?;
    match next_run(alloc, &config, random)? {
        Some(run) => {
            tally(counts, &run);
            is_yes(alloc, &config, run)
        }
        None => Ok(false),
    }
}

/// Prints each drive that is not so, and then what they showed. Answers whether all are so.
pub(crate) fn drive_by_chance<R: Print + AllocGlobal>(rt: &R) -> io::Result<bool> {
    let mut random = Pcg32::new(42, 54);
    let mut counts = Counts {
        records: 0,
        established: 0,
        routes: 0,
    };
    let mut all = true;
    for number in 0..DRIVES {
        if !is_next_so(rt.alloc(), number, &mut random, &mut counts)? {
            println!(rt; "drive {number} is not so")?;
            all = false;
        }
    }
    let Counts {
        records,
        established,
        routes,
    } = counts;
    println!(rt; "{DRIVES} drives by chance: {records} records")?;
    println!(rt; "{established} end in Established, {routes} with routes")?;
    Ok(all)
}
