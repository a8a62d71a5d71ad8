//! What a state does by itself (RFC 4271, 8.2.2; RFC 9687, 4). Each arm names its event (RFC 4271,
//! 8.1.2 to 8.1.4).

ghost use Rattle.std.specs.Prelude.{◌≡◌, ◌≤◌, ◌<◌, ◌+◌, ◌++◌, ℕ, List, [], ◌∷◌, length};
ghost use Rattle.arrayvec.specs.ArrayVec.{array_vec_len};
ghost use Rattle.bgp_open.specs.declared.config.Config.{Config as TheConfig};
ghost use Rattle.bgp_machine.specs.Listed.{ListsHidden};
ghost use Rattle.bgp_machine.specs.Rows.{HiddenShown, ListsRows, MakesHidden};
ghost use Rattle.bgp_machine.specs.Listed.{no_changes};
ghost use Rattle.bgp_machine.specs.Rows.{shown_rows};
ghost use Rattle.bgp_machine.specs.declared.rows.HiddenRow.{HiddenRow as TheRow};
ghost use Rattle.bgp_machine.specs.declared.state.Head.{Head as TheHead};
ghost use Rattle.bgp_machine.specs.declared.state.Head.TheVariants as heads;
ghost use Rattle.bgp_machine.specs.declared.step.Step.{Step as TheStep};

use crate::effects::{entering, failing, falling, noting, only_if, waiting};
use crate::listing::{MOST_STEPS, add};
use crate::rows::HiddenRow;
use crate::state::{Head, HoldTimer};
use crate::step::Step;
use crate::want::{Want, Wants};
use arrayvec::ArrayVec;
use bgp_open::{Config, Link, Seconds};

/// What the rows of Idle make.
fn idle_step(row: HiddenRow) -> Option<Step>
    ensures { (config : TheConfig) (t : ℕ) → MakesHidden config heads.Idle t row result }
{
    let head = Head::Idle;
    match row {
        // Events 1 and 3, ManualStart and AutomaticStart.
        HiddenRow::Starts => Some(entering(head, Wants::Nothing, Head::Connect(false))),
        // Events 4 and 5, the same with PassiveTcpEstablishment.
        HiddenRow::Listens => Some(entering(head, Wants::Nothing, Head::Active(false))),
        // No event.
        HiddenRow::Notes => Some(noting(head)),
        _ => None,
    }
}

/// What the rows of Connect make. That the OPEN is delayed from now on shows no record, and neither
/// does another try.
fn connect_step(config: &Config, delay: bool, t: Seconds, row: HiddenRow) -> Option<Step>
    ensures { MakesHidden config.now (heads.Connect delay) t row result }
{
    let head = Head::Connect(delay);
    let opened = entering(head, Wants::One(Want::OwnOpen), waiting(config, t));
    match row {
        // Events 2 and 8, ManualStop and AutomaticStop.
        HiddenRow::Stops => Some(falling(head, Wants::Nothing)),
        // Event 12, DelayOpenTimer_Expires.
        HiddenRow::DelayExpires => only_if(delay, opened),
        // Events 16 and 17, Tcp_CR_Acked and TcpConnectionConfirmed.
        HiddenRow::ConnectionOpens => Some(opened),
        // Event 18, TcpConnectionFails.
        HiddenRow::ConnectionFails => Some(failing(delay)),
        // No event.
        HiddenRow::Notes => Some(noting(head)),
        _ => None,
    }
}

/// What the rows of Active make. That the OPEN is delayed from now on shows no record.
fn active_step(config: &Config, delay: bool, t: Seconds, row: HiddenRow) -> Option<Step>
    ensures { MakesHidden config.now (heads.Active delay) t row result }
{
    let head = Head::Active(delay);
    let opened = entering(head, Wants::One(Want::OwnOpen), waiting(config, t));
    match row {
        // Events 2 and 8, ManualStop and AutomaticStop.
        HiddenRow::Stops => Some(falling(head, Wants::Nothing)),
        // Events 2 and 8, ManualStop and AutomaticStop, while the OPEN is delayed.
        HiddenRow::Ceases => only_if(delay, falling(head, Wants::One(Want::Cease))),
        // Event 9, ConnectRetryTimer_Expires.
        HiddenRow::RetryExpires => Some(entering(head, Wants::Nothing, Head::Connect(false))),
        // Event 12, DelayOpenTimer_Expires.
        HiddenRow::DelayExpires => only_if(delay, opened),
        // Events 16 and 17, Tcp_CR_Acked and TcpConnectionConfirmed.
        HiddenRow::ConnectionOpens => Some(opened),
        // Event 18, TcpConnectionFails.
        HiddenRow::ConnectionFails => Some(falling(head, Wants::Nothing)),
        // No event.
        HiddenRow::Notes => Some(noting(head)),
        _ => None,
    }
}

/// What the rows of OpenSent make.
fn open_sent_step(timer: HoldTimer, t: Seconds, row: HiddenRow) -> Option<Step>
    ensures { (config : TheConfig) → MakesHidden config (heads.OpenSent timer) t row result }
{
    let head = Head::OpenSent(timer);
    let expired = falling(head, Wants::One(Want::HoldExpired));
    match row {
        // Events 2 and 8, ManualStop and AutomaticStop; event 23, OpenCollisionDump.
        HiddenRow::Ceases => Some(falling(head, Wants::One(Want::Cease))),
        // Event 10, HoldTimer_Expires.
        HiddenRow::HoldExpires => only_if(timer.is_expired(t), expired),
        // Event 18, TcpConnectionFails.
        HiddenRow::ConnectionFails => Some(entering(head, Wants::Nothing, Head::Active(false))),
        // No event.
        HiddenRow::Notes => Some(noting(head)),
        _ => None,
    }
}

/// What the rows of OpenConfirm make.
fn open_confirm_step(link: Link, timer: HoldTimer, t: Seconds, row: HiddenRow) -> Option<Step>
    ensures { (config : TheConfig)
        → MakesHidden config (heads.OpenConfirm link timer) t row result }
{
    let head = Head::OpenConfirm(link, timer);
    let expired = falling(head, Wants::One(Want::HoldExpired));
    let alive = entering(head, Wants::One(Want::KeepAlive), head);
    match row {
        // Events 2 and 8, ManualStop and AutomaticStop; event 23, OpenCollisionDump.
        HiddenRow::Ceases => Some(falling(head, Wants::One(Want::Cease))),
        // Event 10, HoldTimer_Expires.
        HiddenRow::HoldExpires => only_if(timer.is_expired(t), expired),
        // Event 11, KeepaliveTimer_Expires.
        HiddenRow::KeepaliveExpires => only_if(timer.is_running(), alive),
        // Event 18, TcpConnectionFails.
        HiddenRow::ConnectionFails => Some(falling(head, Wants::Nothing)),
        // No event.
        HiddenRow::Notes => Some(noting(head)),
        _ => None,
    }
}

/// What the rows of Established make.
fn established_step(link: Link, timer: HoldTimer, t: Seconds, row: HiddenRow) -> Option<Step>
    ensures { (config : TheConfig)
        → MakesHidden config (heads.Established link timer) t row result }
{
    let head = Head::Established(link, timer);
    let expired = falling(head, Wants::One(Want::HoldExpired));
    let send_expired = falling(head, Wants::One(Want::SendHoldExpired));
    let alive = entering(head, Wants::One(Want::KeepAlive), head);
    match row {
        // Events 2 and 8, ManualStop and AutomaticStop; event 23, OpenCollisionDump.
        HiddenRow::Ceases => Some(falling(head, Wants::One(Want::Cease))),
        // Event 10, HoldTimer_Expires.
        HiddenRow::HoldExpires => only_if(timer.is_expired(t), expired),
        // Event 29, SendHoldTimer_Expires.
        HiddenRow::SendHoldExpires => only_if(timer.is_running(), send_expired),
        // Event 11, KeepaliveTimer_Expires.
        HiddenRow::KeepaliveExpires => only_if(timer.is_running(), alive),
        // Event 18, TcpConnectionFails.
        HiddenRow::ConnectionFails => Some(falling(head, Wants::Nothing)),
        // No event: routes are sent (RFC 4271, 9.2).
        HiddenRow::Announces => Some(entering(head, Wants::One(Want::CleanUpdate), head)),
        // No event.
        HiddenRow::Notes => Some(noting(head)),
        _ => None,
    }
}

/// Returns the step that one row of the table makes at a second: none if the row isn't the state's,
/// or doesn't hold then.
pub fn hidden_step(config: &Config, head: Head, t: Seconds, row: HiddenRow) -> Option<Step>
    ensures { MakesHidden config.now head t row result }
{
    match head {
        Head::Idle => idle_step(row),
        Head::Connect(delay) => connect_step(config, delay, t, row),
        Head::Active(delay) => active_step(config, delay, t, row),
        Head::OpenSent(timer) => open_sent_step(timer, t, row),
        Head::OpenConfirm(link, timer) => open_confirm_step(link, timer, t, row),
        Head::Established(link, timer) => established_step(link, timer, t, row),
    }
}

/// Adds what a row makes.
fn add_row(
    config: &Config,
    head: Head,
    t: Seconds,
    row: HiddenRow,
    steps: &mut ArrayVec<Step, MOST_STEPS>,
)
    requires { array_vec_len steps.old < 8 }
    ensures listed { (rows : List TheRow)
        → ListsRows (HiddenShown config.now head t) no_changes rows steps.old.items
        → ListsRows (HiddenShown config.now head t) no_changes (rows ++ row ∷ [])
        steps.new.items }
    ensures count { array_vec_len steps.new ≤ array_vec_len steps.old + 1 }
{
    let Some(step) = hidden_step(config, head, t, row) else {
        return;
    };
    add(steps, step);
}

/// The steps of these rows.
fn steps_of(
    config: &Config,
    head: Head,
    t: Seconds,
    rows: &[HiddenRow],
) -> ArrayVec<Step, MOST_STEPS>
    requires { length rows.now ≤ 8 }
    ensures { ListsRows (HiddenShown config.now head t) no_changes rows.now result.items }
{
    let mut steps = ArrayVec::new();
    for row in rows {
        add_row(config, head, t, *row, &mut steps);
    }
    steps
}

// The rows by which each state shows a record, in the order of the standard's events.

const IDLE: [HiddenRow; 3] = [HiddenRow::Starts, HiddenRow::Listens, HiddenRow::Notes];

const CONNECT: [HiddenRow; 5] = [
    HiddenRow::Stops,
    HiddenRow::DelayExpires,
    HiddenRow::ConnectionOpens,
    HiddenRow::ConnectionFails,
    HiddenRow::Notes,
];

const ACTIVE: [HiddenRow; 7] = [
    HiddenRow::Stops,
    HiddenRow::Ceases,
    HiddenRow::RetryExpires,
    HiddenRow::DelayExpires,
    HiddenRow::ConnectionOpens,
    HiddenRow::ConnectionFails,
    HiddenRow::Notes,
];

const OPEN_SENT: [HiddenRow; 4] = [
    HiddenRow::Ceases,
    HiddenRow::HoldExpires,
    HiddenRow::ConnectionFails,
    HiddenRow::Notes,
];

const OPEN_CONFIRM: [HiddenRow; 5] = [
    HiddenRow::Ceases,
    HiddenRow::HoldExpires,
    HiddenRow::KeepaliveExpires,
    HiddenRow::ConnectionFails,
    HiddenRow::Notes,
];

const ESTABLISHED: [HiddenRow; 7] = [
    HiddenRow::Ceases,
    HiddenRow::HoldExpires,
    HiddenRow::SendHoldExpires,
    HiddenRow::KeepaliveExpires,
    HiddenRow::ConnectionFails,
    HiddenRow::Announces,
    HiddenRow::Notes,
];

/// The rows by which a state shows a record.
fn rows_at(head: Head) -> &'static [HiddenRow]
    ensures rows { result.now ≡ shown_rows head }
    ensures few { length result.now ≤ 8 }
{
    match head {
        Head::Idle => &IDLE,
        Head::Connect(_) => &CONNECT,
        Head::Active(_) => &ACTIVE,
        Head::OpenSent(_) => &OPEN_SENT,
        Head::OpenConfirm(_, _) => &OPEN_CONFIRM,
        Head::Established(_, _) => &ESTABLISHED,
    }
}

/// The steps of a state's rows are all that it takes by itself and that show a record.
fn shown_rows_are_all()
    ensures { (config : TheConfig) (head : TheHead) (t : ℕ) (rows : List TheRow)
        (steps : List TheStep) → ListsRows (HiddenShown config head t) no_changes rows steps
        → rows ≡ shown_rows head → ListsHidden config head t steps }
{}

/// Lists the steps that a session may take by itself at a second and that show a record: exactly
/// those that the table's rows allow, each once. It takes no memory.
pub fn hidden_steps(config: &Config, head: Head, t: Seconds) -> ArrayVec<Step, MOST_STEPS>
    ensures { ListsHidden config.now head t result.items }
{
    shown_rows_are_all();
    steps_of(config, head, t, rows_at(head))
}
