//! How a session ended, in JSON.

ghost use Rattle.std.specs.Prelude.{◌≡◌, option_map};
ghost use Rattle.bgp_ended.specs.Values.{ended_value, how_value};
ghost use Rattle.bgp_json_values.specs.Adding.{Adds};
ghost use Rattle.bgp_json_values.specs.Objects.{members_tokens};
ghost use Rattle.bgp_list.specs.EndedJson.{closing_word, end_members, ended_members, how_members};

use crate::connection::endpoint_of;
use crate::members::put_end_members;
use bgp_ended::{Ended, Endpoint, How};
use bgp_json::{put_states, put_text};
use bgp_json_values::{Writer, put_error, put_number, put_time, put_truth};
use bgp_open::Notification;
use bgp_prefix::Session;
use std::alloc::{AllocError, Allocator};
use streams::{Closing, Opening};

/// The number of Idle (RFC 6396, 4.4.1).
const IDLE: u16 = 1;

/// By which of both TCP closed a connection.
fn closing_word(closing: Closing) -> &'static str
    ensures { result.now ≡ closing_word closing }
{
    match closing {
        Closing::Fin => "FIN",
        Closing::Reset => "RST",
    }
}

/// A NOTIFICATION.
fn put_notified<A: Allocator + Copy>(
    writer: &mut Writer<A>,
    alloc: A,
    error: Notification<'_>,
) -> Result<(), AllocError>
    ensures { Adds result writer.old writer.new
        (members_tokens (how_members (how_value (How.Notified error.entry)))) }
{
    put_text(writer, "how", "NOTIFICATION")?;
    put_error(writer, alloc, error)
}

/// A change from this state to Idle.
fn put_fallen<A: Allocator + Copy>(
    writer: &mut Writer<A>,
    alloc: A,
    state: u16,
) -> Result<(), AllocError>
    ensures { Adds result writer.old writer.new
        (members_tokens (how_members (how_value (How.Fallen state)))) }
{
    put_text(writer, "how", "change")?;
    put_states(writer, alloc, state, IDLE)
}

/// Puts how a session ended.
pub fn put_how_members<A: Allocator + Copy>(
    writer: &mut Writer<A>,
    alloc: A,
    how: How<'_>,
) -> Result<(), AllocError>
    ensures { Adds result writer.old writer.new
        (members_tokens (how_members (how_value how.entry))) }
{
    match how {
        How::Notified(error) => put_notified(writer, alloc, error),
        How::Closed(closing) => put_text(writer, "how", closing_word(closing)),
        How::Fallen(state) => put_fallen(writer, alloc, state),
    }
}

/// The end of a connection, by this end of it.
fn put_ended_members<A: Allocator + Copy>(
    writer: &mut Writer<A>,
    alloc: A,
    by: &Endpoint,
    ended: Ended<'_>,
) -> Result<(), AllocError>
    ensures { Adds result writer.old writer.new
        (members_tokens (ended_members by.now (ended_value ended.entry))) }
{
    put_number(writer, "packet", ended.moment.packet)?;
    put_time(writer, ended.moment.second, ended.moment.micro)?;
    put_end_members(writer, alloc, "by", "by_port", by)?;
    put_how_members(writer, alloc, ended.how)
}

/// The end of a connection, or that it is open at the end of the file.
pub(crate) fn put_end_member<A: Allocator + Copy>(
    writer: &mut Writer<A>,
    alloc: A,
    session: &Session,
    opening: Opening,
    ended: Option<Ended<'_>>,
) -> Result<(), AllocError>
    ensures { Adds result writer.old writer.new (members_tokens
        (end_members session.now opening (option_map ended_value ended.entry))) }
{
    match ended {
        None => put_truth(writer, "open", true),
        Some(ended) => {
            writer.key("ended")?;
            writer.begin_object()?;
            let by = endpoint_of(ended.by, session, opening);
            put_ended_members(writer, alloc, &by, ended)?;
            writer.end_object()
        }
    }
}
