//! The members of objects.

ghost use Rattle.std.specs.Prelude.{◌≡◌, map};
ghost use Rattle.bgp_json_values.specs.Adding.{Adds};
ghost use Rattle.bgp_json_values.specs.Objects.{members_tokens, number_of, values_tokens};
ghost use Rattle.bgp_json_check.specs.Members.{all_members, before_members, deed_members};
ghost use Rattle.bgp_json_check.specs.Members.{direction_word, disabled_members, end_members};
ghost use Rattle.bgp_json_check.specs.Members.{flag_members, known_members, member_of};
ghost use Rattle.bgp_json_check.specs.Members.{part_members};
ghost use Rattle.bgp_json_check.specs.Members.{peer_members, reached_members, record_members};
ghost use Rattle.bgp_json_check.specs.Members.{some_before_members};

use bgp_json::put_text;
use bgp_json_values::{Writer, put_name, put_number, put_time, put_truth};
use bgp_json_verdicts::{put_families, put_number_if, put_octets_text, put_state};
use bgp_list::{PeerAs, put_as_number, put_end_members, put_pair};
use bgp_machine::Fsm;
use bgp_names::name_of_state;
use bgp_open::Families;
use bgp_values::Direction;
use bgp_why::{Endpoint, Place};
use std::alloc::{AllocError, Allocator};

/// An end of a connection, or of a session of a capture.
#[derive(Clone, Copy)]
pub struct JudgedEnd {
    /// Its address, and its port, if it is known.
    pub end: Endpoint,
    /// The AS number in its OPEN, if it sent one.
    pub as_number: Option<u32>,
    /// The numbers of the first and of the last of its records, if its session has several parts.
    pub part: Option<(u64, u64)>,
}

/// A member of an object, or several.
#[derive(Clone, Copy)]
pub(crate) enum Member<'a> {
    /// A number under this key.
    Number(&'static str, u64),
    /// A word of the program under this key.
    Word(&'static str, &'static str),
    /// A text under this key. What isn't UTF-8 in it is U+FFFD.
    Text(&'static str, &'a [u8]),
    /// `true` under this key, if it is so.
    Flag(&'static str, bool),
    /// A record: its number, if that isn't 0, the packet that shows it, and its time.
    Place(Place),
    /// An end: its address, and its port, its AS number and which records these are, as far as they
    /// are told.
    End(JudgedEnd),
    /// Which AS number its peer has, or hasn't.
    Peer(PeerAs),
    /// What was done, if that can be said.
    Deed(&'a [u8]),
    /// Which way octets went, seen from the end.
    Direction(Direction),
    /// A state.
    State(Fsm),
    /// The number of the highest state that records tell (RFC 6396, 4.4.1).
    Reached(u16),
    /// The families that are disabled.
    Disabled(Families),
    /// How many routes the ends before had, if there were some.
    Before(&'a [usize]),
}

/// Puts the number of a record, if it has one.
fn put_record<A: Allocator>(writer: &mut Writer<A>, number: u64) -> Result<(), AllocError>
    ensures { Adds result writer.old writer.new (members_tokens (record_members number)) }
{
    if 0 < number {
        put_number(writer, "record", number)
    } else {
        Ok(())
    }
}

/// Puts a record: its number, if it has one, the packet that shows it, and its time.
fn put_known<A: Allocator>(writer: &mut Writer<A>, place: &Place) -> Result<(), AllocError>
    ensures { Adds result writer.old writer.new (members_tokens (known_members place.now)) }
{
    put_record(writer, place.number)?;
    put_number_if(writer, "packet", place.packet)?;
    put_time(writer, place.second, place.micro)
}

/// Puts that something is so, if it is.
pub(crate) fn put_flag<A: Allocator>(
    writer: &mut Writer<A>,
    key: &str,
    is_so: bool,
) -> Result<(), AllocError>
    ensures { Adds result writer.old writer.new (members_tokens (flag_members key.now is_so)) }
{
    if is_so {
        put_truth(writer, key, is_so)
    } else {
        Ok(())
    }
}

/// Puts which records these are, if that is said.
fn put_part<A: Allocator>(
    writer: &mut Writer<A>,
    part: Option<(u64, u64)>,
) -> Result<(), AllocError>
    ensures { Adds result writer.old writer.new (members_tokens (part_members part)) }
{
    match part {
        None => Ok(()),
        Some((first, last)) => put_pair(writer, "records", first, last),
    }
}

/// Puts an end.
fn put_end<A: Allocator + Copy>(
    writer: &mut Writer<A>,
    alloc: A,
    name: &JudgedEnd,
) -> Result<(), AllocError>
    ensures { Adds result writer.old writer.new (members_tokens (end_members name.now)) }
{
    put_end_members(writer, alloc, "address", "port", &name.end)?;
    put_as_number(writer, "as", name.as_number)?;
    put_part(writer, name.part)
}

/// Puts the AS number that the peer of an end has, or hasn't.
fn put_peer<A: Allocator>(writer: &mut Writer<A>, peer: PeerAs) -> Result<(), AllocError>
    ensures { Adds result writer.old writer.new (members_tokens (peer_members peer)) }
{
    match peer {
        PeerAs::Any => Ok(()),
        PeerAs::Is(number) => put_number(writer, "peer_as", u64::from(number)),
        PeerAs::OtherThan(number) => put_number(writer, "peer_as_not", u64::from(number)),
    }
}

/// Puts what was done, if that can be said.
fn put_deed<A: Allocator + Copy>(
    writer: &mut Writer<A>,
    alloc: A,
    deed: &[u8],
) -> Result<(), AllocError>
    ensures { Adds result writer.old writer.new (members_tokens (deed_members deed.now)) }
{
    if deed.is_empty() {
        Ok(())
    } else {
        put_octets_text(writer, alloc, "deed", deed)
    }
}

/// Returns the word of a direction.
fn direction_word(direction: Direction) -> &'static str
    ensures { result.now ≡ direction_word direction }
{
    match direction {
        Direction::Received => "received",
        Direction::Sent => "sent",
    }
}

/// Puts the families that are disabled.
fn put_disabled<A: Allocator>(writer: &mut Writer<A>, families: Families) -> Result<(), AllocError>
    ensures { Adds result writer.old writer.new (members_tokens (disabled_members families)) }
{
    writer.key("disabled")?;
    writer.begin_array()?;
    put_families(writer, families)?;
    writer.end_array()
}

/// Puts numbers of routes.
fn put_counts<A: Allocator>(writer: &mut Writer<A>, counts: &[usize]) -> Result<(), AllocError>
    ensures { Adds result writer.old writer.new (values_tokens (map number_of counts.now)) }
{
    for count in counts {
        writer.u64(*count as u64)?;
    }
    Ok(())
}

/// Puts how many routes the ends before had.
fn put_some_counts<A: Allocator>(writer: &mut Writer<A>, counts: &[usize]) -> Result<(), AllocError>
    ensures { Adds result writer.old writer.new
        (members_tokens (some_before_members counts.now)) }
{
    writer.key("before")?;
    writer.begin_array()?;
    put_counts(writer, counts)?;
    writer.end_array()
}

/// Puts how many routes the ends before had, if there were some.
fn put_before<A: Allocator>(writer: &mut Writer<A>, counts: &[usize]) -> Result<(), AllocError>
    ensures { Adds result writer.old writer.new (members_tokens (before_members counts.now)) }
{
    if counts.is_empty() {
        Ok(())
    } else {
        put_some_counts(writer, counts)
    }
}

/// Puts the highest state that records tell, by its number.
fn put_reached<A: Allocator + Copy>(
    writer: &mut Writer<A>,
    alloc: A,
    number: u16,
) -> Result<(), AllocError>
    ensures { Adds result writer.old writer.new (members_tokens (reached_members number)) }
{
    writer.key("reached")?;
    put_name(
        writer,
        alloc,
        "state ",
        u64::from(number),
        name_of_state(number),
    )
}

/// Puts a member.
fn put_member<A: Allocator + Copy>(
    writer: &mut Writer<A>,
    alloc: A,
    member: &Member<'_>,
) -> Result<(), AllocError>
    ensures { Adds result writer.old writer.new (members_tokens (member_of member.now)) }
{
    match member {
        Member::Number(key, number) => put_number(writer, key, *number),
        Member::Word(key, word) => put_text(writer, key, word),
        Member::Text(key, text) => put_octets_text(writer, alloc, key, text),
        Member::Flag(key, is_so) => put_flag(writer, key, *is_so),
        Member::Place(place) => put_known(writer, place),
        Member::End(name) => put_end(writer, alloc, name),
        Member::Peer(peer) => put_peer(writer, *peer),
        Member::Deed(deed) => put_deed(writer, alloc, deed),
        Member::Direction(direction) => {
            put_text(writer, "direction", direction_word(*direction))
        }
        Member::State(state) => put_state(writer, alloc, *state),
        Member::Reached(number) => put_reached(writer, alloc, *number),
        Member::Disabled(families) => put_disabled(writer, *families),
        Member::Before(counts) => put_before(writer, counts),
    }
}

/// Puts members, in their order.
pub(crate) fn put_members<A: Allocator + Copy>(
    writer: &mut Writer<A>,
    alloc: A,
    members: &[Member<'_>],
) -> Result<(), AllocError>
    ensures { Adds result writer.old writer.new (members_tokens (all_members members.now)) }
{
    for member in members {
        put_member(writer, alloc, member)?;
    }
    Ok(())
}
