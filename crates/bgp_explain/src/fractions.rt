//! The fractions of the seconds of those records of a capture that a reason names: they are kept
//! beside what the records tell.

ghost use Rattle.std.specs.Prelude.{◌≡◌, ◌+◌, ◌++◌, ◌∷◌, [], ℕ, List, Option, length};
ghost use Rattle.bgp_explain.specs.declared.fractions.Names.{Names as TheNames};
ghost use Rattle.bgp_explain.specs.Fractions.{AreKept, AreNamesAfter, kept_with, micro_in};
ghost use Rattle.bgp_explain.specs.Fractions.{no_names, number_in, progress_names, stop_number};

use crate::moments::SentNotification;
use crate::so_far::{Progress, Stop};
use std::alloc::Allocator;

/// A record of a capture's session.
#[derive(Clone, Copy, Debug, PartialEq, Eq)]
pub struct NumberedRecord {
    /// Its number in the session, from 1.
    pub number: u64,
    /// The fraction of its second, in microseconds, if it has one.
    pub micro: Option<u32>,
}

/// The numbers of the records that a reason names, as far as it names some.
#[derive(Clone, Copy)]
pub(crate) struct Names {
    /// Of the record that told the state.
    pub(crate) told_by: Option<u64>,
    /// Of the record of the message received last.
    pub(crate) last_received: Option<u64>,
    /// Of the record of the NOTIFICATION that was sent last.
    pub(crate) notification: Option<u64>,
    /// Of the first impossible record.
    pub(crate) impossible: Option<u64>,
}

/// The records that a reason names, with the fractions of their seconds. Until one is named, its
/// number is 0.
#[derive(Clone, Copy, Debug, PartialEq, Eq)]
pub struct Fractions {
    told_by: NumberedRecord,
    last_received: NumberedRecord,
    notification: NumberedRecord,
    impossible: NumberedRecord,
}

/// Returns the number of a NOTIFICATION that was sent, if one was.
fn number_in(sent: Option<SentNotification>) -> Option<u64>
    ensures { result ≡ number_in sent }
{
    match sent {
        Some(sent) => Some(sent.number),
        None => None,
    }
}

/// Returns the number of the first impossible record, if there is one, and was memory for it.
fn stop_number<A: Allocator>(stop: &Option<Stop<A>>) -> Option<u64>
    ensures { result ≡ stop_number stop.now }
{
    match stop {
        None => None,
        Some(stop) => match &stop.found {
            None => None,
            Some(found) => Some(found.impossible.number),
        },
    }
}

/// Returns the numbers of the records that are named by what is kept of a session's records.
pub(crate) fn names_of<A: Allocator>(progress: &Progress<A>) -> Names
    ensures { result ≡ progress_names progress.now }
{
    Names {
        told_by: progress.told.told_by,
        last_received: progress.told.last_received,
        notification: number_in(progress.moments.notification),
        impossible: stop_number(&progress.stop),
    }
}

/// Returns the record that is kept after the one with this number and this fraction: this one, if it
/// is named then.
fn kept_after(
    kept: NumberedRecord,
    named: Option<u64>,
    number: u64,
    micro: Option<u32>,
) -> NumberedRecord
    ensures { result ≡ kept_with kept named number micro }
{
    match named {
        None => kept,
        Some(name) => {
            if name == number {
                NumberedRecord { number, micro }
            } else {
                kept
            }
        }
    }
}

impl Fractions {
    /// Returns those before the first record.
    pub(crate) fn none() -> Fractions
        ensures { AreKept [] no_names result }
    {
        let none = NumberedRecord {
            number: 0,
            micro: None,
        };
        Fractions {
            told_by: none,
            last_received: none,
            notification: none,
            impossible: none,
        }
    }

    /// Returns those with one record more, the one with this number and this fraction, after which
    /// these are named.
    pub(crate) fn with(self, number: u64, names: Names, micro: Option<u32>) -> Fractions
        ensures { (micros : List (Option ℕ)) (before : TheNames)
            → number ≡ length micros + 1
            → AreNamesAfter number before names
            → AreKept micros before self
            → AreKept (micros ++ micro ∷ []) names result }
    {
        Fractions {
            told_by: kept_after(self.told_by, names.told_by, number, micro),
            last_received: kept_after(self.last_received, names.last_received, number, micro),
            notification: kept_after(self.notification, names.notification, number, micro),
            impossible: kept_after(self.impossible, names.impossible, number, micro),
        }
    }

    /// Returns the fraction of the record with this number, if it is one of them and has one.
    pub(crate) fn micro_of(&self, number: u64) -> Option<u32>
        ensures { result ≡ micro_in self.now number }
    {
        if self.told_by.number == number {
            return self.told_by.micro;
        }
        if self.last_received.number == number {
            return self.last_received.micro;
        }
        if self.notification.number == number {
            return self.notification.micro;
        }
        if self.impossible.number == number {
            return self.impossible.micro;
        }
        None
    }
}
