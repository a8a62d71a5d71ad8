//! What becomes of the members whose last step shows the record next.

ghost use Rattle.std.specs.Prelude.{◌≡◌, ◌↔◌, ◌⊎◌, if◌then◌else◌, ℕ, List, MatchOption, None, Some};
ghost use Rattle.bgp_prefix.specs.Shown.{Received};
ghost use Rattle.bgp_open.specs.declared.config.Config.{Config as TheConfig};
ghost use Rattle.bgp_compact.specs.declared.falls.Fall.{Fall as TheFall};
ghost use Rattle.bgp_judge.specs.Member.{Member};
ghost use Rattle.bgp_machine.specs.Going.{shown_after};
ghost use Rattle.bgp_machine.specs.Step.{changed};
ghost use Rattle.bgp_machine.specs.State.{fsm_of};
ghost use Rattle.bgp_machine.specs.Want.{wants_of};
ghost use Rattle.bgp_machine.specs.declared.fsm.Fsm.TheVariants as fsms;
ghost use Rattle.mrt.specs.Reader.{shown_of};
ghost use Rattle.bgp_compact.specs.Members.{HasFall};
ghost use Rattle.bgp_compact.specs.Parts.{
  AreFallsOf,
  AreFine,
  FallPaid,
  FrontLeaves,
  FallsTo,
  IsPaid,
  LeavesFall,
  LeavesSends,
  NoFallPaid,
  NoFrontPaid,
  PaidTo,
  PaysNone,
  faulted_by,
  shown_by,
};

use crate::changing::{change_from, told_by};
use crate::disabled::DisabledSets;
use crate::falls::{Fall, Falls};
use crate::words::Words;
use bgp_judge::{Unshown, pay};
use bgp_machine::{FaultSet, Fsm, Wants};
use bgp_open::Config;
use mrt::Record;

/// The state that was shown last, after the record.
fn shown_after(old: Fsm, told: Option<Fsm>) -> Fsm
    ensures { result ≡ shown_after old told }
{
    match told {
        Some(new) => new,
        None => old,
    }
}

/// What the members that go on have left to send, if the record is what they show next.
fn pay_front(config: &Config, words: Words, shown: &Record<'_>) -> Option<Wants>
    ensures { MatchOption result
        (PaysNone config.now None (shown_of shown.now) (wants_of words.wants)
        (changed words.shown (fsm_of words.head)))
        (λ left. LeavesSends config.now None (shown_of shown.now) (wants_of words.wants)
        (changed words.shown (fsm_of words.head)) (wants_of left)) }
{
    let unshown = Unshown {
        wants: words.wants,
        change: change_from(words.shown, words.head.fsm()),
    };
    let left = pay(config, None, unshown, shown)?;
    Some(left.wants)
}

/// What the members that fall so have left to send, if the record is what they show next.
fn pay_fall(config: &Config, words: Words, fall: Fall, shown: &Record<'_>) -> Option<Fall>
    ensures { MatchOption result (NoFallPaid config.now words (shown_of shown.now) fall)
        (LeavesFall config.now words (shown_of shown.now) fall) }
{
    let unshown = Unshown {
        wants: fall.sends(words.left()),
        change: change_from(words.shown, Fsm::Idle),
    };
    let left = pay(config, words.link_before(), unshown, shown)?;
    Some(Fall::of(left.wants))
}

/// Adds what the record leaves of the members that fall so, if there are any.
#[inline(always)]
fn add_paid(
    config: &Config,
    words: Words,
    fall: Option<Fall>,
    shown: &Record<'_>,
    falls: Falls,
) -> Falls
    requires some { (f : TheFall) → fall ≡ Some f → HasFall words.falls f }
    requires falls { AreFallsOf words.falls falls }
    ensures falls { AreFallsOf words.falls result }
    ensures members { (m : Member) → FallsTo (shown_by words (shown_of shown.now)) result m
        ↔ (FallsTo (shown_by words (shown_of shown.now)) falls m
        ⊎ IsPaid config.now words (shown_of shown.now) fall m) }
{
    let Some(fall) = fall else {
        return falls;
    };
    match pay_fall(config, words, fall, shown) {
        Some(left) => falls.with(left),
        None => falls,
    }
}

/// The fall, if there is one.
fn if_so(is_there: bool, fall: Fall) -> Option<Fall>
    ensures { result ≡ if is_there then Some fall else None }
{
    if is_there { Some(fall) } else { None }
}

/// That of members that send faults.
fn faulted(faults: Option<FaultSet>) -> Option<Fall>
    ensures { result ≡ faulted_by faults }
{
    match faults {
        Some(set) => Some(Fall::Faulted(set)),
        None => None,
    }
}

/// What the record leaves of all members that fall.
fn paid_falls(config: &Config, words: Words, shown: &Record<'_>) -> Falls
    ensures falls { AreFallsOf words.falls result }
    ensures members { (m : Member) → FallsTo (shown_by words (shown_of shown.now)) result m
        ↔ FallPaid config.now words (shown_of shown.now) m }
{
    let silent = if_so(words.falls.silent, Fall::Silent);
    let ceased = if_so(words.falls.ceased, Fall::Ceased);
    let expired = if_so(words.falls.expired, Fall::Expired);
    let send_expired = if_so(words.falls.send_expired, Fall::SendExpired);
    let erred = if_so(words.falls.erred, Fall::Erred);
    let faulted = faulted(words.falls.faulted);
    let falls = add_paid(config, words, silent, shown, Falls::none());
    let falls = add_paid(config, words, ceased, shown, falls);
    let falls = add_paid(config, words, expired, shown, falls);
    let falls = add_paid(config, words, send_expired, shown, falls);
    let falls = add_paid(config, words, erred, shown, falls);
    add_paid(config, words, faulted, shown, falls)
}

/// What the members that go on have left to send, if there are any and the record is what they
/// show next. Once Idle is shown none goes on.
fn paid_front(config: &Config, words: Words, shown: &Record<'_>) -> Option<Wants>
    ensures { MatchOption result (NoFrontPaid config.now words (shown_of shown.now))
        (λ left. FrontLeaves config.now words (shown_of shown.now) (wants_of left)) }
{
    match words.shown {
        Fsm::Idle => None,
        _ => pay_front(config, words, shown),
    }
}

/// The members whose last step shows a record of the local system's own next, behind it.
fn paid_own(config: &Config, words: Words, shown: &Record<'_>) -> Words
    requires { AreFine words }
    ensures { PaidTo config.now words (shown_of shown.now) result }
{
    let next = Words {
        shown: shown_after(words.shown, told_by(shown)),
        left: words.left(),
        falls: paid_falls(config, words, shown),
        ..words
    };
    match paid_front(config, words, shown) {
        Some(wants) => Words { wants, ..next },
        None => Words {
            sets: DisabledSets::empty(),
            ..next
        },
    }
}

/// Behind a message that was received: no member shows it next, so none of these is left.
#[tactic(auto, using(crate::proofs::AllPaid::none_left))]
fn unpaid(words: Words) -> Words
    ensures { (config : TheConfig) (t : ℕ) (octets : List ℕ)
        → PaidTo config words (Received t octets) result }
{
    Words {
        left: words.left(),
        sets: DisabledSets::empty(),
        falls: Falls::none(),
        ..words
    }
}

/// The members whose last step shows the record next, behind it.
pub(crate) fn paid(config: &Config, words: Words, shown: &Record<'_>) -> Words
    requires { AreFine words }
    ensures { PaidTo config.now words (shown_of shown.now) result }
{
    match *shown {
        Record::In(_, _) => unpaid(words),
        Record::Out(_, _) => paid_own(config, words, shown),
        Record::Change(_, _, _) => paid_own(config, words, shown),
    }
}
