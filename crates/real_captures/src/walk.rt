//! Sessions by chance: one move after another, and sometimes a record is then lost or late.

use crate::altered::below;
use crate::moves::{Move, moves_of};
use bgp_machine::Fsm;
use bgp_prefix::Seconds;
use mrt::Record;
use rand_core::utils::NextWord;
use rand_pcg::Pcg32;
use std::alloc::{AllocError, Global};

/// A move from a state, which one time in sixteen isn't of the usual ones.
fn move_from(random: &mut Pcg32, fsm: Fsm) -> Option<Move> {
    let (usual, others) = moves_of(fsm);
    let moves = match below(random, 16) {
        0 => others,
        _ => usual,
    };
    moves.get(below(random, moves.len())).copied()
}

/// The record at this second.
fn at(record: Record<'static>, second: Seconds) -> Record<'static> {
    match record {
        Record::In(_, octets) => Record::In(second, octets),
        Record::Out(_, octets) => Record::Out(second, octets),
        Record::Change(_, old, new) => Record::Change(second, old, new),
    }
}

/// Appends records of this second.
fn push_all(
    records: &mut Vec<Record<'static>>,
    shown: &[Record<'static>],
    second: Seconds,
) -> Result<(), AllocError> {
    for record in shown {
        records.push(at(*record, second))?;
    }
    Ok(())
}

/// The records of some moves, from Idle on.
fn walk(alloc: Global, random: &mut Pcg32) -> Result<Vec<Record<'static>>, AllocError> {
    let mut records = Vec::new(alloc);
    let mut fsm = Fsm::Idle;
    let mut second: Seconds = 100;
    for _ in 0..below(random, 40) {
        if let Some((wait, shown, next)) = move_from(random, fsm) {
            second = second
                .saturating_add(wait)
                .saturating_add(random.next_word() % 3);
            push_all(&mut records, shown, second)?;
            fsm = next;
        }
    }
    Ok(records)
}

/// A session by chance. Half of them are cut, lack a record, or have two exchanged.
pub(crate) fn random_session(
    alloc: Global,
    random: &mut Pcg32,
) -> Result<Vec<Record<'static>>, AllocError> {
    let mut records = walk(alloc, random)?;
    let place = below(random, records.len());
    let next = place.saturating_add(1);
    match below(random, 8) {
        0 | 1 => records.truncate(place),
        2 if place < records.len() => {
            let _ = records.remove(place);
        }
        3 if next < records.len() => records.swap(place, next),
        _ => {}
    }
    Ok(records)
}
