//! Laws of UPDATEs and their outcomes: what follows from the definitions, with nothing to run.

ghost use Rattle.bgp_update.specs.Laws.{
  HasOneSplit,
  HasAnOutcome,
  HasOneChange,
  CleanHasOneOutcome,
  HasCleanUpdate,
  NextHopsAreByForm,
  DestinationsAreByForm,
  DependsOnForm,
  PeersReadAlike,
};
ghost use Rattle.bgp_update.specs.MpValue.{ReadsMpValues};
ghost use Rattle.bgp_update.specs.Destinations.{ReadsDestinations};

use crate::fields::split_update;
use crate::survey::survey_of;
use bgp_attr::FirstAttrs;
use bgp_open::Link;

/// A law, with nothing to run: an UPDATE has its three fields in one way.
pub fn one_split()
    ensures unique { HasOneSplit }
{}

/// A law, with nothing to run: lists of destinations and the values of MP attributes, which
/// definitions read by functions, are what the standards lay out.
pub fn fields_are_read()
    ensures destinations { ReadsDestinations }
    ensures mp_values { ReadsMpValues }
{}

/// Proves a law: whatever the octets are, some outcome is allowed. What is run decides which one
/// is, and returns nothing of it.
pub fn some_outcome(link: &Link, octets: &[u8])
    ensures some { HasAnOutcome link.now octets.now }
{
    let Some(fields) = split_update(octets) else {
        return;
    };
    let found = survey_of(link, link.received, &fields, &mut FirstAttrs::none());
    if !found.reset_subcodes().is_empty() {
        return;
    }
    let _is_faulty = found.has_withdraw_fault();
    let _disabled = found.certain_families();
}

/// A law, with nothing to run: every Apply of an UPDATE changes the same.
pub fn one_change()
    ensures same { HasOneChange }
{}

/// A law, with nothing to run: an UPDATE that is clean when it is sent has one outcome where it is
/// received. It is applied, and nothing is disabled.
pub fn clean_is_applied()
    ensures outcome { CleanHasOneOutcome }
{}

/// A law, with nothing to run: an IPv4 route that an UPDATE puts has an IPv6 next hop only if the
/// form in which it was received has them (RFC 8950, 4). In the plain form each route has a next
/// hop of its own family.
pub fn next_hops_are_by_form()
    ensures next_hops { NextHopsAreByForm }
{}

/// A law, with nothing to run: each destination that an UPDATE removes or puts has a path
/// identifier exactly if its family is identified in the form in which it was received (RFC 7911,
/// 3). In the plain form none has.
pub fn destinations_are_by_form()
    ensures destinations { DestinationsAreByForm }
{}

/// A law, with nothing to run: the outcomes of an UPDATE depend on the link only by the width of AS
/// numbers, by whether the peer is internal, by the families in use, and by the received form:
/// which families are identified, and whether IPv4 routes have IPv6 next hops. Whether an UPDATE is
/// clean depends on the same with the sent form, and on how long it may be.
pub fn outcomes_depend_on_form()
    ensures form { DependsOnForm }
{}

/// A law, with nothing to run: of two systems that are configured for one another, and whose OPENs
/// offer about routes what is configured, each reads what the other sends in the form in which that
/// spells it, with the same families and width of AS numbers. So
/// [`clean_is_applied`] holds between them, both ways.
pub fn peers_read_alike()
    ensures alike { PeersReadAlike }
{}

/// A law, with nothing to run: an UPDATE whose fields are all empty is clean on every link, and a
/// whole frame of every limit.
pub fn empty_is_clean()
    ensures empty { HasCleanUpdate }
{}
