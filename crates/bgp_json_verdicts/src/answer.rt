//! What a verdict answers.

ghost use Rattle.bgp_json_values.specs.Adding.{Adds};
ghost use Rattle.bgp_json_values.specs.Objects.{members_tokens};
ghost use Rattle.bgp_json_verdicts.specs.Objects.{answer_members};

use bgp_json_values::{Writer, put_number};
use bgp_tool::put_text;
use std::alloc::{AllocError, Allocator};

/// What a verdict answers.
#[derive(Clone, Copy)]
pub enum Answer {
    /// Yes: its ends follow.
    Yes,
    /// No, at the record with this number.
    NoAt(u64),
    /// No, at a message that is sent and that this packet shows.
    NoAtPacket(u64),
    /// Unfinished.
    Unfinished,
}

/// Puts the members of an answer.
pub(crate) fn put_answer<A: Allocator>(
    writer: &mut Writer<A>,
    answer: Answer,
) -> Result<(), AllocError>
    ensures { Adds result writer.old writer.new (members_tokens (answer_members answer)) }
{
    match answer {
        Answer::Yes => put_text(writer, "answer", "yes"),
        Answer::NoAt(number) => {
            put_text(writer, "answer", "no")?;
            put_number(writer, "record", number)
        }
        Answer::NoAtPacket(packet) => {
            put_text(writer, "answer", "no")?;
            put_number(writer, "packet", packet)
        }
        Answer::Unfinished => put_text(writer, "answer", "unfinished"),
    }
}
