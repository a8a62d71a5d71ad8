//! What takes memory of what a reason says: what the impossible record lacks of what it resembles,
//! and what an UPDATE asks for.

ghost use Rattle.std.specs.Prelude.{◌≡◌, ◌↔◌, IfOk, IfSome, IfNone, IsTrue};
ghost use Rattle.bgp_open.specs.declared.link.Link.{Link as TheLink};
ghost use Rattle.bgp_machine.specs.Heard.{Announces};
ghost use Rattle.bgp_explain.specs.Details.{AreDetails, AreDetailsOf, AreLacksOf, IsAskedBy};
ghost use Rattle.bgp_explain.specs.Details.{IsUpdateOn, asking_in, next_in};
ghost use Rattle.bgp_explain.specs.Lacked.{lacked_of};

use crate::explained::{Impossible, Reason};
use bgp_machine::{Fsm, Heard, hear};
use bgp_open::{Config, Link};
use bgp_why::{AskedUpdate, Lacks};
use std::alloc::{AllocError, Allocator, Global};

/// What a reason says besides, as far as it takes memory.
#[derive(Drop)]
pub struct Details<'a, A: Allocator = Global> {
    /// What the impossible record lacks of what it resembles.
    pub lacks: Lacks<'a, A>,
    /// What the message asks for that was received last, where it is an UPDATE in Established.
    pub update: Option<AskedUpdate<'a, A>>,
}

/// What the impossible record lacks, where there is one.
fn lacks_of<'a, A: Allocator + Copy>(
    alloc: A,
    config: &Config,
    reason: &'a Reason<A>,
) -> Result<Lacks<'a, A>, AllocError>
    ensures { IfOk result (λ lacks. AreLacksOf config.now reason.entry.now.link
        reason.entry.now.possible (next_in reason.entry.now.impossible) (lacked_of lacks)) }
{
    match &reason.impossible {
        None => Ok(Lacks::Nothing),
        Some(Impossible { record, .. }) => {
            let shown = record.as_record();
            Lacks::of(alloc, config, reason.link, &reason.possible, &shown)
        }
    }
}

/// Whether octets are an UPDATE.
fn is_update(config: &Config, octets: &[u8]) -> bool
    ensures { IsTrue result ↔ Announces config.now 2 octets.now }
{
    matches!(hear(config, octets), Heard::Update)
}

/// The link on which the message was received last, where it is an UPDATE in Established.
fn update_link<A: Allocator>(config: &Config, reason: &Reason<A>) -> Option<Link>
    ensures some { IfSome result (IsUpdateOn config.now reason.now.told reason.now.link
        reason.now.last_message.items) }
    ensures none { IfNone result ((on : TheLink) → ¬ IsUpdateOn config.now reason.now.told
        reason.now.link reason.now.last_message.items on) }
{
    if reason.told.state == Fsm::Established
        && reason.told.last_received.is_some()
        && is_update(config, reason.last_message.as_slice())
    {
        reason.link
    } else {
        None
    }
}

/// What the message asks for that was received last, where it is an UPDATE in Established.
fn update_of<'a, A: Allocator + Copy>(
    alloc: A,
    config: &Config,
    reason: &'a Reason<A>,
) -> Result<Option<AskedUpdate<'a, A>>, AllocError>
    ensures { IfOk result (λ asked. IsAskedBy config.now reason.entry.now.told
        reason.entry.now.link reason.entry.now.last_message.items (asking_in asked)) }
{
    match update_link(config, reason) {
        None => Ok(None),
        Some(link) => Ok(Some(AskedUpdate::of(alloc, &link, reason.last_message.as_slice())?)),
    }
}

impl<'a, A: Allocator + Copy> Details<'a, A> {
    /// What a reason says besides.
    pub fn of(
        alloc: A,
        config: &Config,
        reason: &'a Reason<A>,
    ) -> Result<Details<'a, A>, AllocError>
        ensures { IfOk result (AreDetails config.now reason.entry.now) }
    {
        Ok(Details {
            lacks: lacks_of(alloc, config, reason)?,
            update: update_of(alloc, config, reason)?,
        })
    }
}

/// What a reason says besides, where there is one, and memory for it.
pub(crate) fn details_of<'a, A: Allocator + Copy>(
    alloc: A,
    config: &Config,
    reason: &'a Option<Reason<A>>,
) -> Option<Details<'a, A>>
    ensures { AreDetailsOf config.now reason.entry.now result }
{
    match reason {
        None => None,
        Some(reason) => match Details::of(alloc, config, reason) {
            Ok(details) => Some(details),
            Err(_) => None,
        },
    }
}
