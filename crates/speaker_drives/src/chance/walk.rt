//! Drives by chance: what a core is told next depends on its state. Messages may come in two
//! pieces, of which the second may be lost, and seconds go back at times.

use super::moves::{Told, moves_of};
use bgp_machine::Fsm;
use bgp_prefix::{Address, Prefix, Seconds};
use bgp_speaker::{Core, Input};
use rand_core::utils::NextWord;
use rand_pcg::Pcg32;
use std::alloc::{AllocError, Global};

/// What a core is told, and when.
pub(crate) type Inputs = Vec<(Seconds, Input<'static>)>;

/// A number below this one, which isn't 0.
fn below(random: &mut Pcg32, count: usize) -> usize {
    let word = random.next_word() as usize;
    word.checked_rem(count).unwrap_or(0)
}

/// What a state is told, which one time in twelve isn't of the usual.
fn told_in(random: &mut Pcg32, fsm: Fsm) -> Option<Told> {
    let (usual, others) = moves_of(fsm);
    let told = match below(random, 12) {
        0 => others,
        _ => usual,
    };
    told.get(below(random, told.len())).copied()
}

/// One of a few prefixes of both families.
fn some_prefix(random: &mut Pcg32) -> Option<Prefix> {
    let number = random.next_word() % 4;
    if below(random, 3) == 0 {
        let network = 0x2001_0db8_u128 << 96;
        Prefix::new(Address::V6(network | (u128::from(number) << 80)), 48)
    } else {
        Prefix::new(Address::V4(0x0a00_0000 | (number << 16)), 16)
    }
}

/// A message in two pieces, of which the second has no octets three times of four; else no octets.
fn pieces_of(random: &mut Pcg32, told: &Told) -> (&'static [u8], &'static [u8]) {
    let Told::Bytes(message) = *told else {
        return (&[], &[]);
    };
    if below(random, 4) != 0 {
        return (message, &[]);
    }
    message
        .split_at_checked(below(random, message.len()))
        .unwrap_or((message, &[]))
}

/// The input, with this piece or this prefix.
fn input_of(told: &Told, piece: &'static [u8], prefix: Prefix) -> Input<'static> {
    match told {
        Told::Start => Input::Start,
        Told::Passive => Input::Passive,
        Told::Stop => Input::Stop,
        Told::Connected => Input::Connected,
        Told::Failed => Input::Failed,
        Told::Bytes(_) => Input::Bytes(piece),
        Told::Tick => Input::Tick,
        Told::Announce => Input::Announce(prefix),
        Told::Withdraw => Input::Withdraw(prefix),
    }
}

/// A later second; one time in sixteen it is an earlier one.
fn next_second(random: &mut Pcg32, second: Seconds) -> Seconds {
    match below(random, 16) {
        0 => second.saturating_sub(10),
        1 => second.saturating_add(100),
        2 | 3 => second.saturating_add(30),
        _ => second.saturating_add(random.next_word() % 4),
    }
}

/// Tells a core something, and notes it. Answers how many records it showed.
fn tell(
    core: &mut Core,
    inputs: &mut Inputs,
    second: Seconds,
    told: &Told,
    piece: &'static [u8],
    prefix: Prefix,
) -> Result<usize, AllocError> {
    inputs.extend_from_slice(&[(second, input_of(told, piece, prefix))])?;
    let output = core.step(input_of(told, piece, prefix), second)?;
    Ok(output.records.len())
}

/// Tells a core something by chance, and notes it. Answers how many records it showed.
fn tell_some(
    random: &mut Pcg32,
    core: &mut Core,
    inputs: &mut Inputs,
    second: Seconds,
) -> Result<usize, AllocError> {
    let (Some(told), Some(prefix)) = (told_in(random, core.fsm()), some_prefix(random)) else {
        return Ok(0);
    };
    let (piece, rest) = pieces_of(random, &told);
    let shown = tell(core, inputs, second, &told, piece, prefix)?;
    if rest.is_empty() || below(random, 8) == 0 {
        return Ok(shown);
    }
    let more = tell(core, inputs, second, &told, rest, prefix)?;
    Ok(shown.saturating_add(more))
}

/// Tells a core up to forty things by chance, and notes them. Answers how many records it showed.
pub(crate) fn walk(
    random: &mut Pcg32,
    core: &mut Core,
    inputs: &mut Inputs,
) -> Result<usize, AllocError> {
    let mut second: Seconds = 100;
    let mut records = 0usize;
    for _ in 0..below(random, 40) {
        second = next_second(random, second);
        records = records.saturating_add(tell_some(random, core, inputs, second)?);
    }
    Ok(records)
}
