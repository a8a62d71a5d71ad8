//! What a reason says of other orders.

ghost use Rattle.std.specs.Prelude.{◌≡◌};
ghost use Rattle.bgp_recording.specs.Gathered.{IsClocked, IsCovered};
ghost use Rattle.bgp_instead.specs.OtherOrders.{AreOtherOrders, possible_at};

use crate::connection::sendable_over_orders;
use crate::message_at::{is_message_at, second_at};
use crate::sendable::Sendable;
use bgp_machine::Fsm;
use bgp_open::Config;
use bgp_prefix::Seconds;
use bgp_reason::{Possible, States};
use bgp_recording::{Entry, Framings};
use bgp_why::OtherOrders;
use std::alloc::Allocator;
use streams::Connection;

/// Returns what could have been sent in place of a message with this second, and nothing else.
fn possible_at(second: Seconds, sendable: &Sendable) -> Possible
    ensures { result ≡ possible_at second sendable.now }
{
    Possible {
        state: Fsm::Idle,
        message: false,
        own_open: sendable.own_open,
        keepalive: sendable.keepalive,
        update: sendable.update,
        header_errors: sendable.header_errors,
        open_errors: sendable.open_errors,
        update_errors: sendable.update_errors,
        hold_timer_expired: sendable.hold_timer_expired.then_some(second),
        send_hold_timer_expired: sendable.send_hold_timer_expired,
        fsm_errors: sendable.fsm_errors,
        cease: sendable.cease,
        changes: States {
            idle: false,
            connect: false,
            active: false,
            open_sent: false,
            open_confirm: false,
            established: false,
        },
    }
}

/// Returns what a reason says of other orders, if the made order of the connection's messages, of
/// which these are the entries, is a no after so many of them, and no order explains the sent
/// message behind so many: if the no is at that message, what could have been sent in its place in
/// some order; else nothing.
///
/// Takes the time and memory of [`sendable_over_orders`]. If that is too much, it says so.
pub fn other_orders<A: Allocator + Copy>(
    alloc: A,
    config: &Config,
    connection: &Connection<'_>,
    framings: Framings,
    within: u16,
    before: usize,
    entries: &[Entry<'_>],
    count: usize,
) -> OtherOrders
    requires received { IsCovered connection.now.received }
    requires sent { IsCovered connection.now.sent }
    ensures { IsClocked connection.now → AreOtherOrders config.now within framings connection.now
        before entries.now count result }
{
    if !is_message_at(entries, count, before) {
        return OtherOrders::Unasked;
    }
    let second = second_at(entries, count);
    match sendable_over_orders(alloc, config, connection, framings, within, before) {
        Ok(Some(sendable)) => OtherOrders::Known(possible_at(second, &sendable)),
        Ok(None) | Err(_) => OtherOrders::Unknown,
    }
}
