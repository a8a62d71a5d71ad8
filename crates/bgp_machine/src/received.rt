//! What a state does about a message (RFC 4271, 8.2.2 and 6.1 to 6.8), an UPDATE in Established
//! apart. Each arm names its event (RFC 4271, 8.1.5).

ghost use Rattle.std.specs.Prelude.{◌≡◌, ◌≢◌, ◌≤◌, ◌<◌, ◌+◌, ◌++◌, List, [], ◌∷◌, length, ℕ, ◌⊎◌};
ghost use Rattle.std.specs.Prelude.{MatchOption, IsTrue, false};
ghost use Rattle.arrayvec.specs.ArrayVec.{array_vec_len};
ghost use Rattle.bgp_open.specs.declared.link.Link.{Link as TheLink};
ghost use Rattle.bgp_machine.specs.Listed.{IsStep};
ghost use Rattle.bgp_machine.specs.Rows.{HeardShown, ListsRows, MakesHeard};
ghost use Rattle.bgp_machine.specs.Listed.{no_changes};
ghost use Rattle.bgp_machine.specs.Rows.{NeedsOutcomes, heard_rows};
ghost use Rattle.bgp_machine.specs.State.{fsm_of, enters, settled as settled_with};
ghost use Rattle.bgp_machine.specs.Step.{changed};
ghost use Rattle.bgp_machine.specs.declared.fsm.Fsm.TheVariants as fsms;
ghost use Rattle.bgp_machine.specs.declared.hearing.Heard.{Heard as TheHeard};
ghost use Rattle.bgp_machine.specs.declared.hearing.Heard.TheVariants as hearings;
ghost use Rattle.bgp_machine.specs.declared.rows.ReceivedRow.{ReceivedRow as TheRow};
ghost use Rattle.bgp_machine.specs.declared.state.Head.TheVariants as heads;
ghost use Rattle.bgp_machine.specs.declared.want.Want.TheVariants as wants;

use crate::effects::{entering, falling, naming, renewed, reporting, settled};
use crate::hearing::Heard;
use crate::listing::{MOST_STEPS, add};
use crate::rows::ReceivedRow;
use crate::state::{Head, HoldTimer};
use crate::step::Step;
use crate::want::{FaultSet, Unexpected, Want, Wants};
use arrayvec::ArrayVec;
use bgp_open::{Link, OpenSubcodes, Seconds};
use bgp_wire::HeaderFaults;

/// What Idle does about a message.
fn idle_on(row: ReceivedRow) -> Option<Step>
    ensures { (t : ℕ) (octets : List ℕ) (message : TheHeard)
        → MakesHeard heads.Idle t octets message row result }
{
    match row {
        // Any event of 8.1.5.
        ReceivedRow::Ignores => Some(entering(Head::Idle, Wants::Nothing, Head::Idle)),
        _ => None,
    }
}

/// The OPEN is accepted in Connect or Active, where the own one is delayed.
fn accepting(head: Head, delay: bool, link: Link, t: Seconds) -> Option<Step>
    ensures { MatchOption result (delay ≡ false) (λ x. IsTrue delay
        × IsStep no_changes x (wants.OwnOpen ∷ wants.KeepAlive ∷ [])
        (changed (fsm_of head) fsms.OpenConfirm)
        (enters (heads.OpenConfirm link (settled_with link t)))) }
{
    if !delay {
        return None;
    }
    Some(entering(
        head,
        Wants::Two(Want::OwnOpen, Want::KeepAlive),
        Head::OpenConfirm(link, settled(link, t)),
    ))
}

/// What Connect and Active do about a message.
fn unopened_on(
    head: Head,
    delay: bool,
    t: Seconds,
    message: Heard,
    row: ReceivedRow,
) -> Option<Step>
    requires { (head ≡ heads.Connect delay) ⊎ (head ≡ heads.Active delay) }
    ensures { (octets : List ℕ) → MakesHeard head t octets message row result }
{
    match message {
        // Event 19, BGPOpen; event 20, the same with the DelayOpenTimer running, is accepted.
        Heard::ValidOpen(link, subcodes) => match row {
            ReceivedRow::Accepts => accepting(head, delay, link, t),
            ReceivedRow::Drops => Some(falling(head, Wants::Nothing)),
            ReceivedRow::NamesFault => Some(naming(head, FaultSet::Open(subcodes))),
            _ => None,
        },
        // Event 21, BGPHeaderErr.
        Heard::FaultyHeader(faults) => match row {
            ReceivedRow::Drops => Some(falling(head, Wants::Nothing)),
            ReceivedRow::NamesFault => Some(naming(head, FaultSet::Header(faults))),
            _ => None,
        },
        // Event 22, BGPOpenMsgErr.
        Heard::InvalidOpen(subcodes) => match row {
            ReceivedRow::Drops => Some(falling(head, Wants::Nothing)),
            ReceivedRow::NamesFault => Some(naming(head, FaultSet::Open(subcodes))),
            _ => None,
        },
        // Events 24 to 28: NotifMsgVerErr, NotifMsg, KeepAliveMsg, UpdateMsg, UpdateMsgErr.
        Heard::BadVersion | Heard::Notification | Heard::Keepalive | Heard::Update => match row {
            ReceivedRow::Drops => Some(falling(head, Wants::Nothing)),
            _ => None,
        },
        Heard::TooShort => None,
    }
}

/// What OpenSent does about a valid OPEN.
fn open_sent_on_open(
    timer: HoldTimer,
    t: Seconds,
    link: Link,
    subcodes: OpenSubcodes,
    row: ReceivedRow,
) -> Option<Step>
    ensures { (octets : List ℕ)
        → MakesHeard (heads.OpenSent timer) t octets
        (hearings.ValidOpen link subcodes) row result }
{
    let head = Head::OpenSent(timer);
    let accepted = Head::OpenConfirm(link, settled(link, t));
    match row {
        // Event 19, BGPOpen.
        ReceivedRow::Accepts => Some(entering(head, Wants::One(Want::KeepAlive), accepted)),
        // Event 23, OpenCollisionDump.
        ReceivedRow::Collides => Some(falling(head, Wants::One(Want::Cease))),
        // Event 22, BGPOpenMsgErr.
        ReceivedRow::NamesFault => Some(naming(head, FaultSet::Open(subcodes))),
        _ => None,
    }
}

/// What OpenSent does about a NOTIFICATION other than 2/1. The standard has a Finite State Machine
/// Error alone (profile).
fn open_sent_on_notification(timer: HoldTimer, row: ReceivedRow) -> Option<Step>
    ensures { (octets : List ℕ) (t : ℕ)
        → MakesHeard (heads.OpenSent timer) t octets hearings.Notification row result }
{
    let head = Head::OpenSent(timer);
    match row {
        ReceivedRow::Drops => Some(falling(head, Wants::Nothing)),
        ReceivedRow::ReportsError => Some(reporting(head, Unexpected::InOpenSent)),
        _ => None,
    }
}

/// What OpenSent does about a message.
fn open_sent_on(timer: HoldTimer, t: Seconds, message: Heard, row: ReceivedRow) -> Option<Step>
    ensures { (octets : List ℕ)
        → MakesHeard (heads.OpenSent timer) t octets message row result }
{
    let head = Head::OpenSent(timer);
    let unexpected = reporting(head, Unexpected::InOpenSent);
    match message {
        Heard::ValidOpen(link, subcodes) => open_sent_on_open(timer, t, link, subcodes, row),
        // Event 21, BGPHeaderErr.
        Heard::FaultyHeader(faults) => match row {
            ReceivedRow::NamesFault => Some(naming(head, FaultSet::Header(faults))),
            _ => None,
        },
        // Event 22, BGPOpenMsgErr.
        Heard::InvalidOpen(subcodes) => match row {
            ReceivedRow::NamesFault => Some(naming(head, FaultSet::Open(subcodes))),
            _ => None,
        },
        // Event 24, NotifMsgVerErr.
        Heard::BadVersion => match row {
            ReceivedRow::Drops => Some(falling(head, Wants::Nothing)),
            _ => None,
        },
        // Event 25, NotifMsg.
        Heard::Notification => open_sent_on_notification(timer, row),
        // Events 26 to 28: KeepAliveMsg, UpdateMsg, UpdateMsgErr.
        Heard::Keepalive | Heard::Update => match row {
            ReceivedRow::ReportsError => Some(unexpected),
            _ => None,
        },
        Heard::TooShort => None,
    }
}

/// What OpenConfirm does about a second valid OPEN.
fn open_confirm_on_open(
    own: Link,
    timer: HoldTimer,
    subcodes: OpenSubcodes,
    row: ReceivedRow,
) -> Option<Step>
    ensures { (octets : List ℕ) (t : ℕ) (link : TheLink)
        → MakesHeard (heads.OpenConfirm own timer) t octets
        (hearings.ValidOpen link subcodes) row result }
{
    let head = Head::OpenConfirm(own, timer);
    match row {
        // Event 19, BGPOpen.
        ReceivedRow::Overlooks => Some(entering(head, Wants::Nothing, head)),
        // Event 23, OpenCollisionDump.
        ReceivedRow::Collides => Some(falling(head, Wants::One(Want::Cease))),
        // Event 22, BGPOpenMsgErr.
        ReceivedRow::NamesFault => Some(naming(head, FaultSet::Open(subcodes))),
        // Event 19, BGPOpen, as a message that isn't expected.
        ReceivedRow::ReportsError => Some(reporting(head, Unexpected::InOpenConfirm)),
        _ => None,
    }
}

/// What OpenConfirm does about a header with faults.
fn open_confirm_on_header(
    own: Link,
    timer: HoldTimer,
    faults: HeaderFaults,
    row: ReceivedRow,
) -> Option<Step>
    ensures { (octets : List ℕ) (t : ℕ)
        → MakesHeard (heads.OpenConfirm own timer) t octets
        (hearings.FaultyHeader faults) row result }
{
    let head = Head::OpenConfirm(own, timer);
    match row {
        ReceivedRow::NamesFault => Some(naming(head, FaultSet::Header(faults))),
        _ => None,
    }
}

/// What OpenConfirm does about a message.
fn open_confirm_on(
    own: Link,
    timer: HoldTimer,
    t: Seconds,
    message: Heard,
    row: ReceivedRow,
) -> Option<Step>
    ensures { (octets : List ℕ)
        → MakesHeard (heads.OpenConfirm own timer) t octets message row result }
{
    let head = Head::OpenConfirm(own, timer);
    let confirmed = Head::Established(own, renewed(timer, t));
    match message {
        Heard::ValidOpen(_, subcodes) => open_confirm_on_open(own, timer, subcodes, row),
        // Event 21, BGPHeaderErr.
        Heard::FaultyHeader(faults) => { open_confirm_on_header(own, timer, faults, row) }
        // Event 22, BGPOpenMsgErr.
        Heard::InvalidOpen(subcodes) => match row {
            ReceivedRow::NamesFault => Some(naming(head, FaultSet::Open(subcodes))),
            _ => None,
        },
        // Events 24 and 25, NotifMsgVerErr and NotifMsg.
        Heard::BadVersion | Heard::Notification => match row {
            ReceivedRow::Drops => Some(falling(head, Wants::Nothing)),
            _ => None,
        },
        // Event 26, KeepAliveMsg.
        Heard::Keepalive => match row {
            ReceivedRow::Establishes => Some(entering(head, Wants::Nothing, confirmed)),
            _ => None,
        },
        // Events 27 and 28, UpdateMsg and UpdateMsgErr.
        Heard::Update => match row {
            ReceivedRow::ReportsError => Some(reporting(head, Unexpected::InOpenConfirm)),
            _ => None,
        },
        Heard::TooShort => None,
    }
}

/// What Established does about a second valid OPEN.
fn established_on_open(
    own: Link,
    timer: HoldTimer,
    subcodes: OpenSubcodes,
    row: ReceivedRow,
) -> Option<Step>
    ensures { (octets : List ℕ) (t : ℕ) (link : TheLink)
        → MakesHeard (heads.Established own timer) t octets
        (hearings.ValidOpen link subcodes) row result }
{
    let head = Head::Established(own, timer);
    match row {
        // Event 19, BGPOpen.
        ReceivedRow::Overlooks => Some(entering(head, Wants::Nothing, head)),
        // Event 23, OpenCollisionDump.
        ReceivedRow::Collides => Some(falling(head, Wants::One(Want::Cease))),
        // Event 22, BGPOpenMsgErr.
        ReceivedRow::NamesFault => Some(naming(head, FaultSet::Open(subcodes))),
        // Event 19, BGPOpen, as a message that isn't expected.
        ReceivedRow::ReportsError => Some(reporting(head, Unexpected::InEstablished)),
        _ => None,
    }
}

/// What Established does about a header with faults.
fn established_on_header(
    own: Link,
    timer: HoldTimer,
    faults: HeaderFaults,
    row: ReceivedRow,
) -> Option<Step>
    ensures { (octets : List ℕ) (t : ℕ)
        → MakesHeard (heads.Established own timer) t octets
        (hearings.FaultyHeader faults) row result }
{
    let head = Head::Established(own, timer);
    match row {
        ReceivedRow::NamesFault => Some(naming(head, FaultSet::Header(faults))),
        ReceivedRow::ReportsError => Some(reporting(head, Unexpected::InEstablished)),
        _ => None,
    }
}

/// What Established does about a message other than an UPDATE.
fn established_on(
    own: Link,
    timer: HoldTimer,
    t: Seconds,
    message: Heard,
    row: ReceivedRow,
) -> Option<Step>
    requires { message ≢ hearings.Update }
    ensures { (octets : List ℕ)
        → MakesHeard (heads.Established own timer) t octets message row result }
{
    let head = Head::Established(own, timer);
    let alive = Head::Established(own, renewed(timer, t));
    match message {
        Heard::ValidOpen(_, subcodes) => established_on_open(own, timer, subcodes, row),
        // Event 21, BGPHeaderErr.
        Heard::FaultyHeader(faults) => { established_on_header(own, timer, faults, row) }
        // Event 22, BGPOpenMsgErr.
        Heard::InvalidOpen(subcodes) => match row {
            ReceivedRow::NamesFault => Some(naming(head, FaultSet::Open(subcodes))),
            ReceivedRow::ReportsError => Some(reporting(head, Unexpected::InEstablished)),
            _ => None,
        },
        // Events 24 and 25, NotifMsgVerErr and NotifMsg.
        Heard::BadVersion | Heard::Notification => match row {
            ReceivedRow::Drops => Some(falling(head, Wants::Nothing)),
            _ => None,
        },
        // Event 26, KeepAliveMsg.
        Heard::Keepalive => match row {
            ReceivedRow::Renews => Some(entering(head, Wants::Nothing, alive)),
            _ => None,
        },
        _ => None,
    }
}

/// Returns the step that one row of the table makes about a message that is heard so ([`hear`]) at
/// a second (RFC 4271, 8.2.2 and 6.1 to 6.8): none if the row isn't the state's for that message.
///
/// It needs that the message isn't an UPDATE in Established, whose rows are [`update_step`]'s.
///
/// [`hear`]: crate::hear
/// [`update_step`]: crate::update_step
pub fn heard_step(head: Head, t: Seconds, message: Heard, row: ReceivedRow) -> Option<Step>
    requires { ¬ NeedsOutcomes head message }
    ensures { (octets : List ℕ) → MakesHeard head t octets message row result }
{
    match head {
        Head::Idle => idle_on(row),
        Head::Connect(delay) => unopened_on(head, delay, t, message, row),
        Head::Active(delay) => unopened_on(head, delay, t, message, row),
        Head::OpenSent(timer) => open_sent_on(timer, t, message, row),
        Head::OpenConfirm(own, timer) => open_confirm_on(own, timer, t, message, row),
        Head::Established(own, timer) => established_on(own, timer, t, message, row),
    }
}

/// Adds what a row makes.
fn add_heard(
    head: Head,
    t: Seconds,
    message: Heard,
    row: ReceivedRow,
    steps: &mut ArrayVec<Step, MOST_STEPS>,
)
    requires told { ¬ NeedsOutcomes head message }
    requires room { array_vec_len steps.old < 8 }
    ensures listed { (octets : List ℕ) (rows : List TheRow)
        → ListsRows (HeardShown head t octets message) no_changes rows steps.old.items
        → ListsRows (HeardShown head t octets message) no_changes (rows ++ row ∷ [])
        steps.new.items }
    ensures count { array_vec_len steps.new ≤ array_vec_len steps.old + 1 }
{
    let Some(step) = heard_step(head, t, message, row) else {
        return;
    };
    add(steps, step);
}

/// The rows of a state about messages, in the order of messages.
fn rows_on(head: Head) -> &'static [ReceivedRow]
    ensures rows { result.now ≡ heard_rows head }
    ensures few { length result.now ≤ 8 }
{
    match head {
        Head::Idle => &[ReceivedRow::Ignores],
        Head::Connect(_) | Head::Active(_) => &[
            ReceivedRow::Accepts,
            ReceivedRow::Drops,
            ReceivedRow::NamesFault,
        ],
        Head::OpenSent(_) => &[
            ReceivedRow::Accepts,
            ReceivedRow::Collides,
            ReceivedRow::Drops,
            ReceivedRow::NamesFault,
            ReceivedRow::ReportsError,
        ],
        Head::OpenConfirm(_, _) => &[
            ReceivedRow::Overlooks,
            ReceivedRow::Collides,
            ReceivedRow::Drops,
            ReceivedRow::NamesFault,
            ReceivedRow::ReportsError,
            ReceivedRow::Establishes,
        ],
        Head::Established(_, _) => &[
            ReceivedRow::Overlooks,
            ReceivedRow::Collides,
            ReceivedRow::Drops,
            ReceivedRow::NamesFault,
            ReceivedRow::ReportsError,
            ReceivedRow::Renews,
        ],
    }
}

/// Lists the steps that a state takes about a message.
pub(crate) fn heard_steps(
    head: Head,
    t: Seconds,
    message: Heard,
    steps: &mut ArrayVec<Step, MOST_STEPS>,
)
    requires plain { ¬ NeedsOutcomes head message }
    requires none { steps.old.items ≡ [] }
    ensures { (octets : List ℕ)
        → ListsRows (HeardShown head t octets message) no_changes (heard_rows head)
        steps.new.items }
{
    let rows = rows_on(head);
    for row in rows {
        add_heard(head, t, message, *row, steps);
    }
}
