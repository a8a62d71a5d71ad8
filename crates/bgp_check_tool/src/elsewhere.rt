//! Where the no of the made order stands, if what is told stands elsewhere, and what is said of
//! that.

ghost use Rattle.std.specs.Prelude.{◌≡◌, IfOk, Some, map};
ghost use Rattle.mrt.specs.Reader.{shown_of};
ghost use Rattle.bgp_judge.specs.Verdict.{verdict_value};
ghost use Rattle.bgp_check.specs.Answered.{answer_value};
ghost use Rattle.bgp_recording.specs.Captured.{records_of};
ghost use Rattle.bgp_check_tool.specs.About.{judged_value};
ghost use Rattle.bgp_check_tool.specs.Elsewhere.{IsFoundDeed, IsOther, count_in, in_made, in_none};
ghost use Rattle.bgp_check_tool.specs.Elsewhere.{no_count, no_place, octets_if, place_unless};
ghost use Rattle.bgp_check_tool.specs.Told.{peer_end};

use crate::ending::{Viewed, peer_end};
use crate::making::Made;
use crate::orders::NoOrder;
use crate::place::place_at;
use bgp_check::{Answer, Judged};
use bgp_check_lines::{sent_deed, sent_form};
use bgp_instead::is_message_at;
use bgp_judge::Verdict;
use bgp_recording::Entry;
use bgp_why::Place;
use std::alloc::{AllocError, Allocator};

/// Returns after how many records a no stands.
pub(crate) fn count_in<A: Allocator>(verdict: &Verdict<A>) -> Option<u64>
    ensures { result ≡ count_in (verdict_value verdict.now) }
{
    match verdict {
        Verdict::No(count) => Some(*count),
        Verdict::Yes(_) | Verdict::Unfinished => None,
    }
}

/// Returns the same, where an end may not be judged.
pub(crate) fn no_count<A: Allocator>(answer: &Answer<A>) -> Option<u64>
    ensures { result ≡ no_count (answer_value answer.now) }
{
    match answer {
        Answer::NotJudged(_) => None,
        Answer::Judged(judged) => count_in(&judged.verdict),
    }
}

/// Returns where a no stands.
pub(crate) fn no_place<A: Allocator>(entries: &[Entry<'_>], answer: &Answer<A>) -> Option<Place>
    ensures { result ≡ no_place entries.now (answer_value answer.now) }
{
    match no_count(answer) {
        Some(count) => Some(place_at(entries, count as usize)),
        None => None,
    }
}

/// Returns where the record after so many stands, unless it is that of this message.
fn place_unless(entries: &[Entry<'_>], found: &NoOrder<'_>, count: usize) -> Option<Place>
    ensures { result ≡ place_unless entries.now found.now count }
{
    if is_message_at(entries, count, found.unexplained.before) {
        return None;
    }
    Some(place_at(entries, count))
}

/// Returns where a no of the made order stands, if no order explains another message than its
/// record's.
pub(crate) fn in_made<A: Allocator>(
    entries: &[Entry<'_>],
    found: &NoOrder<'_>,
    about: &Judged<A>,
) -> Option<Place>
    ensures { result ≡ in_made entries.now (Some found.now) (judged_value about.now) }
{
    match count_in(&about.verdict) {
        Some(count) => place_unless(entries, found, count as usize),
        None => None,
    }
}

/// Returns what was done, with that no order allows it; nothing if it isn't said.
fn in_none<A: Allocator>(mut deed: Vec<u8, A>) -> Result<Vec<u8, A>, AllocError>
    ensures { IfOk result (λ text. text.items ≡ in_none deed.items) }
{
    if deed.is_empty() {
        return Ok(deed);
    }
    deed.extend_from_slice(b", as in no order that these packets allow")?;
    Ok(deed)
}

/// Returns what a sent message that no order explains shows was done, with that.
fn found_deed<A: Allocator + Copy>(
    alloc: A,
    viewed: &Viewed<'_>,
    made: &Made<'_, A>,
    found: &NoOrder<'_>,
) -> Result<Vec<u8, A>, AllocError>
    requires records { map shown_of made.now.recording.records.items
        ≡ records_of made.now.recording.entries.items }
    ensures { IfOk result (λ text. IsFoundDeed viewed.now.session made.now.framings.sent.limit
        (peer_end viewed.now.session viewed.now.connection)
        (records_of made.now.recording.entries.items) found.now text.items) }
{
    let message = found.message;
    let peer = peer_end(&viewed.session, &viewed.connection);
    let form = sent_form(&made.recording.records);
    let deed = sent_deed(
        alloc,
        &viewed.session,
        made.framings.sent.limit,
        &peer,
        form,
        message.second,
        message.octets,
    )?;
    in_none(deed)
}

/// Returns what such a message shows was done, if the no of the made order stands elsewhere.
pub(crate) fn other_deed<A: Allocator + Copy>(
    alloc: A,
    viewed: &Viewed<'_>,
    made: &Made<'_, A>,
    found: &NoOrder<'_>,
    in_made: Option<Place>,
) -> Result<Option<Vec<u8, A>>, AllocError>
    requires records { map shown_of made.now.recording.records.items
        ≡ records_of made.now.recording.entries.items }
    ensures { IfOk result (λ other. IsOther viewed.now.session made.now.framings.sent.limit
        (peer_end viewed.now.session viewed.now.connection)
        (records_of made.now.recording.entries.items) (Some found.now) in_made
        (octets_if other)) }
{
    match in_made {
        Some(_) => Ok(Some(found_deed(alloc, viewed, made, found)?)),
        None => Ok(None),
    }
}
