//! The objects of a reason.

ghost use Rattle.std.specs.Prelude.{◌≡◌, ◌+◌, ◌∷◌, [], IfSome, Some};
ghost use Rattle.bgp_json_values.specs.Adding.{Adds};
ghost use Rattle.bgp_json_values.specs.Objects.{members_tokens};
ghost use Rattle.bgp_json_verdicts.specs.Lines.{LastReceived, Records, SentAlready, TheRecord};
ghost use Rattle.bgp_json_verdicts.specs.Lines.{reason_value};
ghost use Rattle.bgp_json_verdicts.specs.Objects.{first_members, flag_members, item_members};
ghost use Rattle.bgp_json_verdicts.specs.Objects.{reason_members, reason_type, skipped_members};
ghost use Rattle.bgp_json_verdicts.specs.Objects.{state_member, text_behind, text_json};

use crate::at::{At, put_at, put_place, put_since};
use crate::reason_line::ReasonLine;
use bgp_json_values::{Writer, put_address, put_error_name, put_name, put_number, put_truth};
use bgp_machine::Fsm;
use bgp_names::name_of_state;
use bgp_prefix::Address;
use bgp_tool::put_text;
use bgp_why::{Place, unfit_text};
use mrt::Endpoints;
use std::alloc::{AllocError, Allocator};

/// Puts a text.
pub fn put_octets_text<A: Allocator + Copy>(
    writer: &mut Writer<A>,
    alloc: A,
    key: &str,
    text: &[u8],
) -> Result<(), AllocError>
    ensures { Adds result writer.old writer.new
        (members_tokens ((key.now, text_json text.now) ∷ [])) }
{
    let text = String::from_utf8_lossy(alloc, text)?;
    put_text(writer, key, text.as_str())
}

/// Puts what stands behind so many octets of a text, if something does.
fn put_behind<A: Allocator + Copy>(
    writer: &mut Writer<A>,
    alloc: A,
    count: usize,
    key: &str,
    text: &[u8],
) -> Result<(), AllocError>
    ensures { Adds result writer.old writer.new
        (members_tokens (text_behind count key.now text.now)) }
{
    if count < text.len() {
        put_octets_text(writer, alloc, key, text.split_at(count).1)
    } else {
        Ok(())
    }
}

/// Puts a state.
pub fn put_state<A: Allocator + Copy>(
    writer: &mut Writer<A>,
    alloc: A,
    state: Fsm,
) -> Result<(), AllocError>
    ensures { Adds result writer.old writer.new (members_tokens (state_member state ∷ [])) }
{
    let number = state.number();
    writer.key("state")?;
    put_name(
        writer,
        alloc,
        "state ",
        u64::from(number),
        name_of_state(number),
    )
}

/// Puts the impossible record.
fn put_record<A: Allocator + Copy>(
    writer: &mut Writer<A>,
    alloc: A,
    place: &Place,
    local: Address,
    deed: &[u8],
) -> Result<(), AllocError>
    ensures { Adds result writer.old writer.new
        (members_tokens (reason_members (TheRecord place.now local deed.now))) }
{
    put_place(writer, place)?;
    writer.key("address")?;
    put_address(writer, alloc, local)?;
    put_octets_text(writer, alloc, "deed", deed)
}

/// Puts the message that was received last.
fn put_received<A: Allocator + Copy>(
    writer: &mut Writer<A>,
    alloc: A,
    at: &At,
    name: &[u8],
    asked: &[u8],
) -> Result<(), AllocError>
    ensures { Adds result writer.old writer.new
        (members_tokens (reason_members (LastReceived at.now name.now asked.now))) }
{
    put_at(writer, at)?;
    put_octets_text(writer, alloc, "message", name)?;
    put_behind(writer, alloc, 2, "asked", asked)
}

/// Puts whether something is owed, whether it comes after all records, and whether an item is the
/// first.
fn put_item_flags<A: Allocator>(
    writer: &mut Writer<A>,
    is_owed: bool,
    is_next: bool,
    is_first: bool,
) -> Result<(), AllocError>
    ensures { Adds result writer.old writer.new
        (members_tokens (flag_members is_owed is_next is_first)) }
{
    put_truth(writer, "owed", is_owed)?;
    put_truth(writer, "next", is_next)?;
    put_truth(writer, "first", is_first)
}

/// Puts an item, and what the record lacks of it.
fn put_item_texts<A: Allocator + Copy>(
    writer: &mut Writer<A>,
    alloc: A,
    item: &[u8],
    but: &[u8],
) -> Result<(), AllocError>
    ensures { Adds result writer.old writer.new
        (members_tokens (item_members item.now but.now)) }
{
    put_octets_text(writer, alloc, "item", item)?;
    put_behind(writer, alloc, 2, "but", but)
}

/// Puts a NOTIFICATION that was sent already.
fn put_sent<A: Allocator + Copy>(
    writer: &mut Writer<A>,
    alloc: A,
    code: u8,
    subcode: u8,
    at: &At,
) -> Result<(), AllocError>
    ensures { Adds result writer.old writer.new
        (members_tokens (reason_members (SentAlready code subcode at.now))) }
{
    put_at(writer, at)?;
    put_number(writer, "code", u64::from(code))?;
    put_number(writer, "subcode", u64::from(subcode))?;
    writer.key("name")?;
    put_error_name(writer, alloc, code, subcode)
}

/// Returns how many records there are, if a number of 64 bits can say it.
fn sum_of(received: u64, sent: u64, changes: u64) -> Option<u64>
    ensures { IfSome result (λ sum. sum ≡ received + sent + changes) }
{
    received.checked_add(sent)?.checked_add(changes)
}

/// Puts how many records there are.
fn put_records<A: Allocator>(
    writer: &mut Writer<A>,
    received: u64,
    sent: u64,
    changes: u64,
) -> Result<(), AllocError>
    ensures { Adds result writer.old writer.new
        (members_tokens (reason_members (Records received sent changes))) }
{
    let Some(sum) = sum_of(received, sent, changes) else {
        return Err(AllocError);
    };
    put_number(writer, "records", sum)?;
    put_number(writer, "received", received)?;
    put_number(writer, "sent", sent)?;
    put_number(writer, "changes", changes)
}

/// Puts how many records were skipped, and what they are of.
fn put_skipped<A: Allocator>(writer: &mut Writer<A>, of: &str, count: u64) -> Result<(), AllocError>
    ensures { Adds result writer.old writer.new (members_tokens (skipped_members of.now count)) }
{
    put_number(writer, "count", count)?;
    put_text(writer, "of", of)
}

/// Puts the addresses of the first record of another session, if there is one.
fn put_first<A: Allocator + Copy>(
    writer: &mut Writer<A>,
    alloc: A,
    first: Option<Endpoints>,
) -> Result<(), AllocError>
    ensures { Adds result writer.old writer.new (members_tokens (first_members first)) }
{
    match first {
        None => Ok(()),
        Some(Endpoints { peer, local }) => put_ends(writer, alloc, peer, local),
    }
}

/// Puts both addresses of a session.
fn put_ends<A: Allocator + Copy>(
    writer: &mut Writer<A>,
    alloc: A,
    peer: Address,
    local: Address,
) -> Result<(), AllocError>
    ensures { Adds result writer.old writer.new
        (members_tokens (first_members (Some (record { peer = peer; local = local })))) }
{
    writer.key("first")?;
    writer.begin_object()?;
    writer.key("peer")?;
    put_address(writer, alloc, peer)?;
    writer.key("local")?;
    put_address(writer, alloc, local)?;
    writer.end_object()
}

/// Returns the type of a line's object.
pub fn reason_type(reason: &ReasonLine<'_>) -> &'static str
    ensures { result.now ≡ reason_type (reason_value reason.now) }
{
    match reason {
        ReasonLine::Record(..) => "record",
        ReasonLine::Message(_) => "message",
        ReasonLine::Data(_) => "data",
        ReasonLine::NotWhole(_) => "not_whole",
        ReasonLine::AnotherAs(_) => "configured",
        ReasonLine::State(..) => "state",
        ReasonLine::LastReceived(..) => "last_received",
        ReasonLine::Possible(..) => "possible",
        ReasonLine::InAnotherOrder(_) => "possible_in_another_order",
        ReasonLine::OtherOrdersUnknown => "other_orders_unknown",
        ReasonLine::SentAlready(..) => "sent_already",
        ReasonLine::Note(_) => "note",
        ReasonLine::Records(..) => "records",
        ReasonLine::Ignored(_) => "ignored",
        ReasonLine::OtherSessions(..) => "skipped",
        ReasonLine::OtherKinds(_) => "skipped",
    }
}

/// Puts the members of a line's object.
pub fn put_reason<A: Allocator + Copy>(
    writer: &mut Writer<A>,
    alloc: A,
    reason: &ReasonLine<'_>,
) -> Result<(), AllocError>
    ensures { Adds result writer.old writer.new
        (members_tokens (reason_members (reason_value reason.now))) }
{
    match reason {
        ReasonLine::Record(place, local, deed) => put_record(writer, alloc, place, *local, deed),
        ReasonLine::Message(text) => put_octets_text(writer, alloc, "line", text),
        ReasonLine::Data(text) => put_octets_text(writer, alloc, "line", text),
        ReasonLine::NotWhole(why) => put_text(writer, "text", unfit_text(*why)),
        ReasonLine::AnotherAs(number) => put_number(writer, "peer_as_not", u64::from(*number)),
        ReasonLine::State(state, since) => {
            put_state(writer, alloc, *state)?;
            put_since(writer, since)
        }
        ReasonLine::LastReceived(at, name, asked) => put_received(writer, alloc, at, name, asked),
        ReasonLine::Possible(is_owed, is_next, is_first, item, but) => {
            put_item_flags(writer, *is_owed, *is_next, *is_first)?;
            put_item_texts(writer, alloc, item, but)
        }
        ReasonLine::InAnotherOrder(item) => put_octets_text(writer, alloc, "item", item),
        ReasonLine::OtherOrdersUnknown => Ok(()),
        ReasonLine::SentAlready(code, subcode, at) => put_sent(writer, alloc, *code, *subcode, at),
        ReasonLine::Note(text) => put_octets_text(writer, alloc, "text", text),
        ReasonLine::Records(received, sent, changes) => {
            put_records(writer, *received, *sent, *changes)
        }
        ReasonLine::Ignored(count) => put_number(writer, "count", *count),
        ReasonLine::OtherSessions(count, first) => {
            put_skipped(writer, "sessions", *count)?;
            put_first(writer, alloc, *first)
        }
        ReasonLine::OtherKinds(count) => put_skipped(writer, "kinds", *count),
    }
}
