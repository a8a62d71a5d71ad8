//! What is told of one connection: its two ends, or why it is refused.

ghost use Rattle.std.specs.Prelude.{◌≡◌, ◌⊎◌, ◌↔◌, IfOk, IsTrue, List, MatchResult};
ghost use Rattle.streams.specs.Choice.{IsAnswered};
ghost use Rattle.streams.specs.Clock.{AreInOrder};
ghost use Rattle.streams.specs.Connections.{numbered};
ghost use Rattle.streams.specs.Held.{HoldsConnections};
ghost use Rattle.streams.specs.Passed.{Segment};
ghost use Rattle.bgp_recording.specs.Gathered.{IsClocked, IsCovered};
ghost use Rattle.bgp_import.specs.ListText.{other_side};
ghost use Rattle.bgp_check_lines.specs.Asked.{asked_of};
ghost use Rattle.bgp_ended.specs.Values.{outline_value};
ghost use Rattle.bgp_import.specs.declared.refusal.Refusal.TheVariants.{Memory as OfMemory};
ghost use Rattle.bgp_check_tool.specs.Blocks.{AreOne, IsBlock, block_of};
ghost use Rattle.bgp_import.specs.Octets.{octets_from};
ghost use Rattle.bgp_import.specs.Talks.{AreHeld};
ghost use Rattle.bgp_check_tool.specs.Told.{IsEndTold, told_value};

use crate::ending::{Told, Viewed, told_by};
use crate::making::made_of;
use crate::options::CheckOptions;
use crate::seen::{seen_from, session_from};
use bgp_check_lines::{Asked, asked_of};
use bgp_ended::{Outline, outline_of};
use bgp_import::{Refusal, end_of, octets_from, other_side};
use bgp_judge::Tracker;
use bgp_prefix::Session;
use std::alloc::{AllocError, Allocator};
use streams::{Connection, Connections, Opening, Side};

/// Both ends of a connection, first that of whoever opened it; what is known of it, and how many
/// octets each sent.
#[derive(Drop)]
pub(crate) struct BothTold<'a, A: Allocator> {
    pub(crate) outline: Outline<'a>,
    pub(crate) opener: Told<'a, A>,
    pub(crate) other: Told<'a, A>,
    pub(crate) opener_octets: usize,
    pub(crate) other_octets: usize,
}

/// What is told of a connection that isn't refused.
#[derive(Drop)]
pub(crate) enum EndsTold<'a, A: Allocator> {
    /// What is known of it, and how many octets either end sent, whoever opened it first, where both
    /// ends are one.
    One(Outline<'a>, usize, usize),
    /// Both ends.
    Both(BothTold<'a, A>),
}

/// Between which addresses a connection goes, and how it is checked.
#[derive(Clone, Copy)]
pub(crate) struct Between {
    pub(crate) session: Session,
    pub(crate) options: CheckOptions,
    /// The number of the recording's last packet.
    pub(crate) last_packet: u64,
}

/// What is told of this end of a connection, for which `bgp judge` is asked so.
fn check_side<'a, A: Allocator + Copy, T: Tracker<A>>(
    alloc: A,
    between: &Between,
    opening: Opening,
    connection: &Connection<'a>,
    side: Side,
    asked: Asked,
) -> Result<Told<'a, A>, AllocError>
    requires received { IsCovered connection.now.received }
    requires sent { IsCovered connection.now.sent }
    ensures { IfOk result (λ told. IsClocked connection.now → IsEndTold between.now.options asked
        between.now.session opening connection.now side (told_value told)) }
{
    let viewed = Viewed {
        end: end_of(side, &between.session, opening),
        session: session_from(&between.session, side),
        connection: seen_from(connection, side),
        asked,
        options: between.options,
    };
    let made = made_of(alloc, &viewed.connection, between.options.within)?;
    let told = told_by::<A, T>(alloc, &viewed, &made)?;
    Ok(told)
}

/// What is told of both ends of a connection of which this is known, first of that which opened it;
/// and how `bgp judge` is asked for them.
fn check_both<'a, A: Allocator + Copy, T: Tracker<A>>(
    alloc: A,
    between: &Between,
    opening: Opening,
    connection: &Connection<'a>,
    outline: Outline<'a>,
    asked: (Asked, Asked),
) -> Result<BothTold<'a, A>, AllocError>
    requires received { IsCovered connection.now.received }
    requires sent { IsCovered connection.now.sent }
    ensures opener { IfOk result (λ both. IsClocked connection.now → IsEndTold
        between.now.options asked.0 between.now.session opening connection.now opening.opened_by
        (told_value both.opener)) }
    ensures other { IfOk result (λ both. IsClocked connection.now → IsEndTold
        between.now.options asked.1 between.now.session opening connection.now
        (other_side opening.opened_by) (told_value both.other)) }
    ensures outline { IfOk result (λ both. outline_value both.outline
        ≡ outline_value outline.entry) }
    ensures opener_octets { IfOk result (λ both.
        both.opener_octets ≡ octets_from opening.opened_by connection.now) }
    ensures other_octets { IfOk result (λ both.
        both.other_octets ≡ octets_from (other_side opening.opened_by) connection.now) }
{
    let from = opening.opened_by;
    let to = other_side(from);
    let opener = check_side::<A, T>(alloc, between, opening, connection, from, asked.0)?;
    let other = check_side::<A, T>(alloc, between, opening, connection, to, asked.1)?;
    Ok(BothTold {
        outline,
        opener,
        other,
        opener_octets: octets_from(from, connection),
        other_octets: octets_from(to, connection),
    })
}

/// Whether both ends of a connection are one, so that its packets don't say who sent what.
fn are_one(session: &Session, opening: Opening) -> bool
    ensures { IsTrue result ↔ AreOne session.now opening }
{
    end_of(Side::Local, session, opening) == end_of(Side::Peer, session, opening)
}

/// How `bgp judge` is asked for this end of the connection of these that was opened so.
fn asked_from<A: Allocator + Copy>(
    between: &Between,
    connections: &Connections<A>,
    opening: Opening,
    side: Side,
) -> Asked
    ensures { (segments : List Segment) → HoldsConnections segments connections.now
        → result ≡ asked_of between.now.options.port between.now.options.within
        between.now.session (numbered segments) opening side }
{
    let options = between.options;
    asked_of(
        options.port,
        options.within,
        &between.session,
        connections,
        opening,
        side,
    )
}

/// How it is asked for both, first that which opened the connection.
fn asked_both<A: Allocator + Copy>(
    between: &Between,
    connections: &Connections<A>,
    opening: Opening,
) -> (Asked, Asked)
    ensures opener { (segments : List Segment) → HoldsConnections segments connections.now
        → result.0 ≡ asked_of between.now.options.port between.now.options.within
        between.now.session (numbered segments) opening opening.opened_by }
    ensures other { (segments : List Segment) → HoldsConnections segments connections.now
        → result.1 ≡ asked_of between.now.options.port between.now.options.within
        between.now.session (numbered segments) opening (other_side opening.opened_by) }
{
    let opener = asked_from(between, connections, opening, opening.opened_by);
    let side = other_side(opening.opened_by);
    let other = asked_from(between, connections, opening, side);
    (opener, other)
}

/// What is told of the connection of these that was opened so, or why it is refused.
pub(crate) fn check_connection<'a, A: Allocator + Copy, T: Tracker<A>>(
    alloc: A,
    between: &Between,
    connections: &'a Connections<A>,
    opening: Opening,
) -> Result<EndsTold<'a, A>, Refusal>
    requires { AreHeld connections.now }
    ensures { (segments : List Segment) → HoldsConnections segments connections.now
        → AreInOrder segments
        → IsBlock between.now.options between.now.last_packet segments between.now.session opening
        (block_of between.now.session opening result) }
{
    let connection = match connections.choose(Some(opening.number), between.last_packet) {
        Ok(connection) => connection,
        Err(fault) => return Err(Refusal::Connection(fault)),
    };
    let Ok(outline) = outline_of(alloc, &connection) else {
        return Err(Refusal::Memory {
            packet: between.last_packet,
        });
    };
    if are_one(&between.session, opening) {
        let from = opening.opened_by;
        return Ok(EndsTold::One(
            outline,
            octets_from(from, &connection),
            octets_from(other_side(from), &connection),
        ));
    }
    let asked = asked_both(between, connections, opening);
    match check_both::<A, T>(alloc, between, opening, &connection, outline, asked) {
        Ok(both) => Ok(EndsTold::Both(both)),
        Err(AllocError) => Err(Refusal::Memory {
            packet: between.last_packet,
        }),
    }
}
