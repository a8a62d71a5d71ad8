//! The lines of a reason.

use crate::at::At;
use bgp_machine::Fsm;
use bgp_prefix::Address;
use bgp_why::{NotWhole, Place};
use mrt::Endpoints;

/// A line of a reason. The texts are those of the line that is printed without `--json`.
#[derive(Clone, Copy)]
pub enum ReasonLine<'a> {
    /// The impossible record: where it stands, whose it is, what was done and what is wrong with
    /// it.
    Record(Place, Address, &'a [u8]),
    /// Its message in words.
    Message(&'a [u8]),
    /// What the data of its NOTIFICATION say.
    Data(&'a [u8]),
    /// Why it is no whole message.
    NotWhole(NotWhole),
    /// The lines below are about any other AS number of the peer than this.
    AnotherAs(u32),
    /// The state, and the record that shows the change to it, if there is one.
    State(Fsm, Option<At>),
    /// The message received last: where it stands, its name, and what it asks for, with a colon and
    /// a blank in front.
    LastReceived(At, &'a [u8], &'a [u8]),
    /// What may come: whether something is owed, whether it comes after all records, whether it is
    /// the first item; the item; and what the record lacks of it, with a semicolon and a blank in
    /// front.
    Possible(bool, bool, bool, &'a [u8], &'a [u8]),
    /// What could have been sent in another order of a recording's messages.
    InAnotherOrder(&'a [u8]),
    /// It isn't known what could have been sent in other orders.
    OtherOrdersUnknown,
    /// A NOTIFICATION that was sent already: its code, its subcode, and where it stands.
    SentAlready(u8, u8, At),
    /// A note.
    Note(&'a [u8]),
    /// How many records there are: received, sent, and changes of state.
    Records(u64, u64, u64),
    /// How many were received in Idle, and ignored.
    Ignored(u64),
    /// How many records of other sessions there are, and the addresses of the first of them.
    OtherSessions(u64, Option<Endpoints>),
    /// How many records of other kinds there are.
    OtherKinds(u64),
}
