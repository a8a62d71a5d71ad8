//! The same by a few orders of each exchange, which suffice: what only leads on is heard at once,
//! but one received message and those behind it wait until the first NOTIFICATION is next.

use crate::all_ways::{
    ACTIVE, CONNECT, ENDINGS, LATER, OPEN_SENT, Passed, Told, WITHIN, explained_by, passed_behind,
};
use crate::explained::router_a;
use bgp_open::Config;
use bgp_orders::{Explained, explained_count};
use bgp_recording::Message;
use bgp_wire::MessageType;
use mrt::Record;
use std::alloc::Global;
use streams::Side;

/// Which order is made.
#[derive(Clone, Copy)]
struct Choice {
    start: u16,
    /// Whether the own OPEN is sent for the peer's, which is heard right before it.
    delays: bool,
    /// How many received messages are heard as soon as they lead on.
    at_once: usize,
    /// Whether the next one is heard right before the first NOTIFICATION.
    hears_one: bool,
    /// Whether what is left is heard before the end, and not behind it.
    hears_rest: bool,
}

/// An order while it is made: how many messages of each direction are in it, and whether the end
/// is.
#[derive(Drop)]
struct Course {
    received: usize,
    sent: usize,
    has_ended: bool,
    told: Told,
}

impl Course {
    fn next_received<'p>(&self, passed: &'p Passed) -> Option<&'p Message<'static>> {
        passed.received.get(self.received)
    }

    fn next_sent<'p>(&self, passed: &'p Passed) -> Option<&'p Message<'static>> {
        passed.sent.get(self.sent)
    }

    /// Whether the next received message may stand next.
    fn may_hear(&self, passed: &Passed) -> bool {
        let Some(came) = self.next_received(passed) else {
            return false;
        };
        let is_before_own = match self.next_sent(passed) {
            Some(own) => came.packet < own.packet,
            None => true,
        };
        let is_before_end = match passed.end {
            Some(end) if !self.has_ended && end.side == Side::Local => came.packet <= end.packet,
            _ => true,
        };
        is_before_own && is_before_end
    }

    /// The second of what the local system shows next, if it shows anything.
    fn own_second(&self, passed: &Passed) -> Option<u32> {
        match (self.next_sent(passed), passed.end) {
            (Some(own), _) => Some(own.second),
            (None, Some(end)) if !self.has_ended => Some(end.second),
            _ => None,
        }
    }

    /// Whether what the local system shows next may stand next: the next received message isn't
    /// overdue.
    fn may_go_on(&self, passed: &Passed) -> bool {
        match (self.own_second(passed), self.next_received(passed)) {
            (None, _) => false,
            (Some(_), None) => true,
            (Some(own), Some(came)) => {
                u64::from(own) <= u64::from(came.second) + u64::from(WITHIN)
            }
        }
    }

    /// Whether the next received message is heard before what the local system shows next, where
    /// both may stand next.
    fn hears(&self, passed: &Passed, choice: &Choice, first: Option<usize>) -> bool {
        let Some(own) = self.next_sent(passed) else {
            return choice.hears_rest;
        };
        if first.is_some_and(|notification| self.sent > notification) {
            return choice.hears_rest;
        }
        if self.received >= choice.at_once {
            let is_it = self.received == choice.at_once && first == Some(self.sent);
            return is_it && choice.hears_one;
        }
        self.leads_on(passed, own, choice)
    }

    /// Whether the next received message only leads on: the peer's OPEN if its answer is next, and
    /// from OpenConfirm on all.
    fn leads_on(&self, passed: &Passed, own: &Message<'_>, choice: &Choice) -> bool {
        let standing = self.told.standing;
        let is_open = self
            .next_received(passed)
            .is_some_and(|came| came.kind == Some(MessageType::Open));
        let is_first = is_open && standing.opens == 0;
        if standing.state == CONNECT || standing.state == ACTIVE {
            return choice.delays && is_first && own.kind == Some(MessageType::Open);
        }
        if standing.state == OPEN_SENT {
            return is_first && own.kind == Some(MessageType::Keepalive);
        }
        true
    }

    /// Takes the next received message.
    fn hear(&mut self, passed: &Passed) -> Option<()> {
        let came = *self.next_received(passed)?;
        let own = self.next_sent(passed);
        self.told.receive(came, own).ok()?;
        self.received = self.received.checked_add(1)?;
        Some(())
    }

    /// Takes what the local system shows next.
    fn go_on(&mut self, passed: &Passed) -> Option<()> {
        if let Some(own) = self.next_sent(passed) {
            self.told.send(*own).ok()?;
            self.sent = self.sent.checked_add(1)?;
            return Some(());
        }
        let are_left = self.next_received(passed).is_some();
        self.told.end(passed.end?, are_left).ok()?;
        self.has_ended = true;
        Some(())
    }
}

/// Which of the sent messages is the first NOTIFICATION.
fn first_notification(passed: &Passed) -> Option<usize> {
    for (at, own) in passed.sent.iter().enumerate() {
        if own.kind == Some(MessageType::Notification) {
            return Some(at);
        }
    }
    None
}

/// The records of the order that is chosen, if there is such a one.
fn records_by(alloc: Global, passed: &Passed, choice: &Choice) -> Option<Vec<Record<'static>>> {
    let mut course = Course {
        received: 0,
        sent: 0,
        has_ended: passed.end.is_none(),
        told: Told::begun(alloc, choice.start)?,
    };
    let first = first_notification(passed);
    let items = passed.received.len().checked_add(passed.sent.len())?;
    for _ in 0..=items {
        let may_hear = course.may_hear(passed);
        let may_go_on = course.may_go_on(passed);
        if may_hear && (!may_go_on || course.hears(passed, choice, first)) {
            course.hear(passed)?;
        } else if may_go_on {
            course.go_on(passed)?;
        }
    }
    let Course {
        received,
        sent,
        has_ended,
        told,
    } = course;
    let is_done = received == passed.received.len() && sent == passed.sent.len();
    (is_done && has_ended).then_some(told.records)
}

/// What the few orders of an exchange say together.
fn explained_by_few(alloc: Global, config: &Config, passed: &Passed) -> Option<Explained> {
    let mut most = 0;
    let mut is_whole = false;
    for start in [CONNECT, ACTIVE] {
        for at_once in 0..=passed.received.len() {
            for choices in 0..8u8 {
                let choice = Choice {
                    start,
                    delays: choices % 2 == 1,
                    at_once,
                    hears_one: choices / 2 % 2 == 1,
                    hears_rest: choices / 4 == 1,
                };
                let Some(records) = records_by(alloc, passed, &choice) else {
                    continue;
                };
                let (count, whole) = explained_by(alloc, config, &records)?;
                most = usize::max(most, count);
                is_whole = is_whole || whole;
            }
        }
    }
    Some(if most < passed.sent.len() {
        Explained::Only(most)
    } else {
        Explained::All { is_whole }
    })
}

/// Whether the search says of an exchange what the few orders do.
fn is_said_by_few(alloc: Global, config: &Config, passed: &Passed) -> Option<bool> {
    let by_few = explained_by_few(alloc, config, passed)?;
    let from_peer = explained_count(alloc, config, &passed.exchange(Side::Peer), WITHIN).ok()?;
    Some(from_peer == by_few)
}

/// Whether it is so of each exchange with this front of the opening and three messages behind it,
/// which have more orders than can be gone through.
fn agree_behind(alloc: Global, delays: bool, opening: usize) -> Option<bool> {
    let config = router_a(delays)?;
    for first in &LATER {
        for second in &LATER {
            for third in &LATER {
                for (gap, ended_by) in &ENDINGS {
                    let later = [*first, *second, *third];
                    let passed = passed_behind(alloc, opening, &later, *gap, *ended_by)?;
                    if !is_said_by_few(alloc, &config, &passed)? {
                        return Some(false);
                    }
                }
            }
        }
    }
    Some(true)
}

#[test]
fn the_search_says_what_few_orders_say(rt: HostRuntime) {
    assert!(rt; agree_behind(rt.alloc(), false, 4) == Some(true));
    // The own OPEN may be delayed if it isn't in the front.
    assert!(rt; agree_behind(rt.alloc(), true, 1) == Some(true));
}
