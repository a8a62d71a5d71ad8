//! A drive of a speaker's core and what comes of it, told by a block of lines: `input`, a second
//! and an input, with its octets or its prefix; `sent` and the octets of the sent messages; `state`
//! and its number.

use crate::case::{
    are_routes, config_of, hops_of, is_line, line_of, malformed, pieces_of, words_in,
};
use crate::judging::{capture_of, end_text, is_judged};
use bgp_judge::End;
use bgp_open::Config;
use bgp_prefix::{Prefix, Seconds, read_prefix};
use bgp_speaker::{Core, Input, Run, Shown, drive};
use mrt::Record;
use std::alloc::{AllocError, Global};
use std::io;

/// What a core is told: how many octets, or which prefix.
#[derive(Clone, Copy)]
enum Told {
    Start,
    Passive,
    Stop,
    Connected,
    Failed,
    Bytes(usize),
    Tick,
    Announce(Prefix),
    Withdraw(Prefix),
}

/// What a core is told by a name and a value.
fn told_by(name: &str, value: &str) -> Option<Told> {
    match name {
        "Start" => Some(Told::Start),
        "Passive" => Some(Told::Passive),
        "Stop" => Some(Told::Stop),
        "Connected" => Some(Told::Connected),
        "Failed" => Some(Told::Failed),
        "Bytes" => Some(Told::Bytes(value.len() / 2)),
        "Tick" => Some(Told::Tick),
        "Announce" => Some(Told::Announce(read_prefix(value)?)),
        "Withdraw" => Some(Told::Withdraw(read_prefix(value)?)),
        _ => None,
    }
}

/// What a core is told in a line, and when.
fn told_in(line: &str) -> Option<(Seconds, Told)> {
    let (second, name, value) = words_in(line)?;
    Some((second.parse::<u32>().ok()?, told_by(name, value)?))
}

/// The input, whose octets are the piece.
fn input_of<'a>(told: &Told, piece: &'a [u8]) -> Input<'a> {
    match told {
        Told::Start => Input::Start,
        Told::Passive => Input::Passive,
        Told::Stop => Input::Stop,
        Told::Connected => Input::Connected,
        Told::Failed => Input::Failed,
        Told::Bytes(_) => Input::Bytes(piece),
        Told::Tick => Input::Tick,
        Told::Announce(prefix) => Input::Announce(*prefix),
        Told::Withdraw(prefix) => Input::Withdraw(*prefix),
    }
}

/// Appends a piece cut into single octets.
fn put_cut<'a>(
    inputs: &mut Vec<(Seconds, Input<'a>)>,
    second: Seconds,
    piece: &'a [u8],
) -> Result<(), AllocError> {
    for octet in piece.chunks(1) {
        inputs.extend_from_slice(&[(second, Input::Bytes(octet))])?;
    }
    Ok(())
}

/// Appends the input of a line, or one for each octet of a piece that is to be cut. Its octets
/// stand at the beginning of `octets`; answers what stands after them.
fn put_input<'a>(
    inputs: &mut Vec<(Seconds, Input<'a>)>,
    line: &str,
    octets: &'a [u8],
    is_cut: bool,
) -> io::Result<&'a [u8]> {
    let Some((second, told)) = told_in(line) else {
        return Err(malformed());
    };
    let count = match told {
        Told::Bytes(count) => count,
        _ => 0,
    };
    let Some((piece, rest)) = octets.split_at_checked(count) else {
        return Err(malformed());
    };
    if is_cut && !piece.is_empty() {
        put_cut(inputs, second, piece)?;
    } else {
        inputs.extend_from_slice(&[(second, input_of(&told, piece))])?;
    }
    Ok(rest)
}

/// The inputs, whose pieces are those of `octets`, whole or cut into single ones.
fn inputs_of<'a>(
    alloc: Global,
    block: &str,
    octets: &'a [u8],
    is_cut: bool,
) -> io::Result<Vec<(Seconds, Input<'a>)>> {
    let mut inputs = Vec::new(alloc);
    let mut rest = octets;
    for line in block.split('\n') {
        if line.starts_with("input ") {
            rest = put_input(&mut inputs, line, rest, is_cut)?;
        }
    }
    Ok(inputs)
}

/// What a drive comes to, whose pieces may be cut.
fn run_of(alloc: Global, config: &Config, block: &str, is_cut: bool) -> io::Result<Run> {
    let (next_hop4, next_hop6) = hops_of(block)?;
    let pieces = pieces_of(alloc, block)?;
    let inputs = inputs_of(alloc, block, pieces.as_slice(), is_cut)?;
    Ok(drive(alloc, config, next_hop4, next_hop6, inputs.as_slice())?)
}

/// Whether that is what a drive comes to.
fn is_run(alloc: Global, config: &Config, run: Run, block: &str) -> io::Result<bool> {
    let capture = capture_of(alloc, config, run.records.as_slice())?;
    let capture = capture.as_slice();
    let is_shown = is_shown(alloc, &run, capture, block)?;
    let Run { fsm, rib, .. } = run;
    Ok(is_shown && is_end(alloc, config, capture, &End { fsm, rib }, block)?)
}

/// Whether that is what a drive sends and shows, and the state that it comes to.
fn is_shown(alloc: Global, run: &Run, capture: &[u8], block: &str) -> io::Result<bool> {
    let state = line_of(block, "state").and_then(|word| word.parse::<u16>().ok());
    Ok(
        is_line(alloc, block, "sent", run.sent.as_slice())?
            && is_line(alloc, block, "capture", capture)?
            && state == Some(run.fsm.number()),
    )
}

/// Whether a drive ends with these routes, and its capture is judged so.
fn is_end(
    alloc: Global,
    config: &Config,
    capture: &[u8],
    end: &End,
    block: &str,
) -> io::Result<bool> {
    let text = end_text(alloc, end)?;
    Ok(
        are_routes(alloc, text.as_str(), block)?
            && is_judged(alloc, config, capture, text.as_str())?,
    )
}

/// Whether a drive is so.
pub(crate) fn is_drive(alloc: Global, block: &str) -> io::Result<bool> {
    let config = config_of(alloc, block)?;
    let run = run_of(alloc, &config, block, false)?;
    is_run(alloc, &config, run, block)
}

/// Whether octets are those of the messages that are shown as sent.
fn are_sent(octets: &[u8], shown: &[Shown]) -> bool {
    let mut rest = octets;
    for shown in shown {
        if let Record::Out(_, message) = shown.record() {
            match rest.strip_prefix(message) {
                Some(others) => rest = others,
                None => return false,
            }
        }
    }
    rest.is_empty()
}

/// The same input.
fn again<'a>(input: &Input<'a>) -> Input<'a> {
    match input {
        Input::Start => Input::Start,
        Input::Passive => Input::Passive,
        Input::Stop => Input::Stop,
        Input::Connected => Input::Connected,
        Input::Failed => Input::Failed,
        Input::Bytes(octets) => Input::Bytes(octets),
        Input::Tick => Input::Tick,
        Input::Announce(prefix) => Input::Announce(*prefix),
        Input::Withdraw(prefix) => Input::Withdraw(*prefix),
    }
}

/// Tells a core one thing, and appends what it sends and shows. Answers whether it sends just the
/// messages that it shows as sent.
fn tell(
    core: &mut Core,
    (second, input): &(Seconds, Input<'_>),
    sent: &mut Vec<u8>,
    records: &mut Vec<Shown>,
) -> Result<bool, AllocError> {
    let mut output = core.step(again(input), *second)?;
    let is_right = are_sent(output.octets.as_slice(), output.records.as_slice());
    sent.append(&mut output.octets)?;
    records.append(&mut output.records)?;
    Ok(is_right)
}

/// What a core comes to that is told one thing after another, if each time it sends just the
/// messages that it shows as sent.
fn stepped(
    alloc: Global,
    core: Core,
    inputs: &[(Seconds, Input<'_>)],
) -> Result<Option<Run>, AllocError> {
    let mut core = core;
    let mut sent = Vec::new(alloc);
    let mut records = Vec::new(alloc);
    for told in inputs {
        if !tell(&mut core, told, &mut sent, &mut records)? {
            return Ok(None);
        }
    }
    Ok(Some(Run {
        sent,
        records,
        fsm: core.fsm(),
        rib: core.into_rib(),
    }))
}

/// Whether a core that is told one thing after another comes to that.
fn is_stepped(alloc: Global, config: &Config, block: &str) -> io::Result<bool> {
    let (next_hop4, next_hop6) = hops_of(block)?;
    let pieces = pieces_of(alloc, block)?;
    let inputs = inputs_of(alloc, block, pieces.as_slice(), false)?;
    let core = Core::new(alloc, config, next_hop4, next_hop6);
    match stepped(alloc, core, inputs.as_slice())? {
        Some(run) => is_run(alloc, config, run, block),
        None => Ok(false),
    }
}

/// Whether a drive is so whose pieces are cut into single octets, at the same seconds.
fn is_cut_drive(alloc: Global, config: &Config, block: &str) -> io::Result<bool> {
    let run = run_of(alloc, config, block, true)?;
    is_run(alloc, config, run, block)
}

/// Whether a drive is so, whole, with its pieces cut and one input after another.
pub(crate) fn is_drive_each_way(alloc: Global, block: &str) -> io::Result<bool> {
    let config = config_of(alloc, block)?;
    Ok(
        is_drive(alloc, block)?
            && is_cut_drive(alloc, &config, block)?
            && is_stepped(alloc, &config, block)?,
    )
}
