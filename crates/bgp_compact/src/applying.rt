//! An UPDATE that members in Established can only apply: most records of who receives routes are
//! one. What it leaves is written where the words stand, so that none are copied.

ghost use Rattle.std.specs.Prelude.{◌≡◌, IfOk, IfSome, IsErr};
ghost use Rattle.mrt.specs.Reader.{shown_of};
ghost use Rattle.bgp_compact.specs.Applied.{AreFree, IsApplied, OnlyApplies, words_applied};
ghost use Rattle.bgp_compact.specs.Memory.{BaseTakesMemory};
ghost use Rattle.bgp_compact.specs.Parts.{AreFine};

use crate::falls::Falls;
use crate::words::Words;
use bgp_machine::{Fsm, Head, Heard, HoldTimer, Wants, hear};
use bgp_open::{Config, Link};
use bgp_update::{Changes, Outcomes, read_update};
use mrt::Record;
use std::alloc::{AllocError, Allocator, Global};

/// What is left by an UPDATE that is applied.
#[derive(Drop)]
pub(crate) struct AppliedUpdate<A: Allocator = Global> {
    /// The head of its members.
    pub head: Head,
    /// The changes that the table is to take.
    pub changes: Changes<A>,
}

/// The changes of these outcomes, where they are made with no family disabled and nothing else may
/// become of the UPDATE.
fn only_changes<A: Allocator>(outcomes: Outcomes<A>) -> Option<Changes<A>>
    ensures { IfSome result (λ changes. OnlyApplies outcomes changes) }
{
    let (certain, optional) = (outcomes.certain, outcomes.optional);
    if certain.v4 || certain.v6 || optional.v4 || optional.v6 {
        return None;
    }
    if !outcomes.reset.is_empty() {
        return None;
    }
    outcomes.changes
}

/// The link and the HoldTimer of members in Established that have nothing left to show, where there
/// are some.
fn free_link(words: &Words) -> Option<(Link, HoldTimer)>
    requires { AreFine words.now }
    ensures { IfSome result (λ r. AreFree words.now r.0 r.1) }
{
    if words.sets.is_empty() {
        return None;
    }
    match (words.shown, words.head, words.wants) {
        (Fsm::Established, Head::Established(link, timer), Wants::Nothing) => Some((link, timer)),
        _ => None,
    }
}

/// What is left of such members by an UPDATE that can only be applied. `None` says nothing of the
/// record: it wasn't seen at once that it can only be applied.
pub(crate) fn applied<A: Allocator + Copy>(
    alloc: A,
    config: &Config,
    words: &Words,
    shown: &Record<'_>,
) -> Result<Option<AppliedUpdate<A>>, AllocError>
    requires { AreFine words.now }
    ensures some { IfOk result (λ found. IfSome found (λ applied.
        IsApplied config.now words.now (shown_of shown.now) applied.head applied.changes)) }
    ensures memory { IsErr result → BaseTakesMemory words.now (shown_of shown.now) }
{
    let Record::In(t, octets) = *shown else {
        return Ok(None);
    };
    let Some((link, timer)) = free_link(words) else {
        return Ok(None);
    };
    let Heard::Update = hear(config, octets) else {
        return Ok(None);
    };
    let outcomes = read_update(alloc, &link, octets)?;
    let Some(changes) = only_changes(outcomes) else {
        return Ok(None);
    };
    let head = Head::Established(link, HoldTimer { since: t, ..timer });
    Ok(Some(AppliedUpdate { head, changes }))
}

impl Words {
    /// Makes of the words what they are behind it.
    pub(crate) fn apply(&mut self, head: Head)
        ensures { self.new ≡ words_applied self.old head }
    {
        self.left = self.left();
        self.head = head;
        self.falls = Falls::none();
    }
}
