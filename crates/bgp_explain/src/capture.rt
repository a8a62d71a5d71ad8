//! The verdict on one session of a capture (RFC 6396) with its reason, read in one pass.

ghost use Rattle.std.specs.Prelude.{◌↔◌, ◌≡◌, ◌<◌, ◌+◌, ◌++◌, ◌∷◌, [], List, IsTrue};
ghost use Rattle.bgp_prefix.specs.Shown.{ShownRecord};
ghost use Rattle.bgp_parts.specs.Confederations.{SomeShowConfederations};
ghost use Rattle.mrt.specs.declared.fault.FaultKind.TheVariants.{Memory};
ghost use Rattle.mrt.specs.Progress.{failures_of};
ghost use Rattle.mrt.specs.Reader.{fresh_reader, shown_of};
ghost use Rattle.bgp_judge.specs.Judging.{Judges, ReadsWith, fault_in};
ghost use Rattle.bgp_explain.specs.Explaining.{Explains, Follows};
ghost use Rattle.bgp_explain.specs.Fractions.{AreKept, no_names, progress_names};
ghost use Rattle.bgp_explain.specs.Progress.{IsAt};

use crate::explained::{Explained, Totals};
use crate::fractions::{Fractions, names_of};
use crate::left_out::LeftOut;
use crate::skipped::Skipped;
use crate::so_far::Progress;
use crate::tally::Tally;
use bgp_judge::Tracker;
use bgp_open::Config;
use bgp_parts::shows_confederation;
use bgp_tool::Seen;
use mrt::{CaptureFault, FaultKind, Reader, Record, Source};
use std::alloc::Allocator;

/// No memory at this octet.
pub(crate) fn out_of_memory(offset: u64) -> CaptureFault
    ensures { result ≡ record { kind = Memory; offset = offset } }
{
    CaptureFault {
        kind: FaultKind::Memory,
        offset,
    }
}

/// Nothing to explain but a fault.
pub(crate) fn refused<A: Allocator>(fault: CaptureFault) -> Explained<A>
    ensures answer { result.answer ≡ Err fault }
    ensures reason { result.reason ≡ None }
{
    Explained {
        answer: Err(fault),
        reason: None,
        totals: Totals {
            octets: 0,
            tally: Tally::nothing(),
            seen: Seen::nothing(),
            confederation: false,
            left_out: LeftOut::nothing(),
            skipped: Skipped::nothing(),
            fractions: Fractions::none(),
        },
    }
}

/// Checks whether an UPDATE of a confederation is shown by records, with one record more.
fn with_confederation(so_far: bool, shown: &Record<'_>) -> bool
    ensures { (records : List ShownRecord) → (IsTrue so_far ↔ SomeShowConfederations records)
        → (IsTrue result ↔ SomeShowConfederations (records ++ shown_of shown.now ∷ [])) }
{
    so_far || shows_confederation(shown)
}

/// What is told of all records of a session that were followed.
#[derive(Clone, Copy)]
pub(crate) struct Followed {
    /// Whether they show an UPDATE of a confederation.
    pub(crate) confederation: bool,
    /// The fractions of the seconds of those that are named.
    pub(crate) fractions: Fractions,
}

/// Reads the records of the session, to the end of the capture or to its first fault, and lets the
/// tracker take them, to the first impossible one. What they tell is kept.
fn follow<A: Allocator + Copy, T: Tracker<A>, S: Source>(
    progress: &mut Progress<A>,
    alloc: A,
    tracker: &mut T,
    reader: &mut Reader<A>,
    config: &Config,
    source: &mut S,
) -> Result<Followed, CaptureFault>
    requires at { IsAt (T.stands_for tracker.old) config.now [] progress.old }
    requires count { progress.old.count ≡ 0 }
    requires names { progress_names progress.old ≡ no_names }
    requires fresh { reader.old ≡ fresh_reader }
    requires failures { S.failures source.old < u64.MAX }
    ensures follows { ReadsWith S.gives config.now.parts.session source.old source.new reader.new
        (fault_in result)
        (λ gives. Follows gives S.has_ended config.now source.old source.new
        T.may_lack
        (λ followed records micros. IsAt (T.stands_for tracker.new) config.now records progress.new
        × (IsTrue followed.confederation ↔ SomeShowConfederations records)
        × AreKept micros (progress_names progress.new) followed.fractions)
        reader.new result) }
    ensures failures { S.failures source.new ≡ S.failures source.old + failures_of result }
{
    let mut confederation = false;
    let mut fractions = Fractions::none();
    let mut number = 0;
    loop {
        let advanced = match reader.next_record(source, &config.parts.session) {
            Ok(Some(shown)) => {
                confederation = with_confederation(confederation, &shown);
                progress.advance(alloc, tracker, config, &shown)
            }
            Ok(None) => {
                return Ok(Followed {
                    confederation,
                    fractions,
                });
            }
            Err(fault) => return Err(fault),
        };
        match advanced {
            Ok(()) => {
                number += 1;
                fractions = fractions.with(number, names_of(progress), reader.micro());
            }
            Err(_) => return Err(out_of_memory(reader.place())),
        }
    }
}

/// The verdict, or the fault, that [`judge_with`](bgp_judge::judge_with) answers, and why the
/// verdict is a no or unfinished, by a reader that has read nothing. It tells afterwards whether it
/// found a record of the session, and the addresses of the first record of another one.
///
/// It reads in one pass, and holds one record at a time, and beside it the message that was
/// received last and the first impossible record. Where memory is refused for these, or for what
/// could have stood in the place of that record, there is no reason; the verdict is the same.
pub fn explain_with<A: Allocator + Copy, T: Tracker<A>, S: Source>(
    reader: &mut Reader<A>,
    alloc: A,
    config: &Config,
    source: &mut S,
) -> Explained<A>
    requires fresh { reader.old ≡ fresh_reader }
    requires failures { S.failures source.old < u64.MAX }
    ensures judged { ReadsWith S.gives config.now.parts.session source.old source.new reader.new
        (fault_in result.answer)
        (λ gives. Judges gives S.has_ended config.now source.old source.new
        T.may_lack result.answer) }
    ensures explained { ReadsWith S.gives config.now.parts.session source.old source.new reader.new
        (fault_in result.answer)
        (λ gives. Explains gives S.has_ended config.now source.old source.new
        T.may_lack result) }
    ensures failures { S.failures source.new
        ≡ S.failures source.old + failures_of result.answer }
{
    let started: Result<T, _> = T::start(alloc, config);
    let Ok(mut tracker) = started else {
        return refused(out_of_memory(0));
    };
    let mut progress = Progress::new(alloc);
    let followed = follow(&mut progress, alloc, &mut tracker, reader, config, source);
    let found = match followed {
        Ok(found) => found,
        Err(fault) => return refused(fault),
    };
    let totals = Totals {
        octets: reader.place(),
        tally: progress.tally,
        seen: progress.seen,
        confederation: found.confederation,
        left_out: progress.sending.offers.left_out(config),
        skipped: Skipped::by(reader),
        fractions: found.fractions,
    };
    match progress.conclude(alloc, &tracker, config) {
        Ok((verdict, reason)) => Explained {
            answer: Ok(verdict),
            reason,
            totals,
        },
        Err(_) => refused(out_of_memory(totals.octets)),
    }
}
