//! Laws of the reason of a verdict on a recording, and of the lines of its records, each on a
//! function that does nothing.

ghost use Rattle.bgp_recording_tool.specs.Decoding.{PlainLines};
ghost use Rattle.bgp_recording_tool.specs.Laws.{MadeCouldHaveStood, OthersCouldHaveBeen};
ghost use Rattle.bgp_recording_tool.specs.Laws.{RecordingsAreExplainedAsJudged};
ghost use Rattle.bgp_recording_tool.specs.Laws.{RecordingsAreExplainedInOneWay};

use bgp_explain::{each_reason_has_one_text, what_could_have_stood_is_told};
use bgp_import::recordings_are_made_once;
use bgp_instead::each_message_is_of_a_kind;
use bgp_judge::records_have_just_one_verdict;
use bgp_recording::made_records_are_read;

/// Of a connection that is explained as a no it is told which records could have stood in the place
/// of the first impossible of its made records: each of those that are told, and no other.
pub fn made_records_could_have_stood()
    ensures { MadeCouldHaveStood }
{
    what_could_have_stood_is_told();
}

/// If the reason of a no over all orders says what could have been sent in other orders, the record
/// that it is about is the sent message that no order explains. Each kind that is said could have
/// been sent in its place in some order that the packets allow, and each message that could have
/// been is of one of these kinds. The lines `in another order` are those of these kinds that the
/// lines on the made order don't have ([`other_orders_tell_the_rest`]).
///
/// [`other_orders_tell_the_rest`]: bgp_why::other_orders_tell_the_rest
pub fn others_could_have_been_sent()
    ensures { OthersCouldHaveBeen }
{
    each_message_is_of_a_kind();
}

/// The verdict that is explained of a connection's made order is the one that
/// [`judge_recording`](crate::judge_recording) has of it without a reason.
pub fn recordings_are_explained_as_judged()
    ensures { RecordingsAreExplainedAsJudged }
{
    recordings_are_made_once();
    records_have_just_one_verdict();
}

/// What explains the verdict on a connection is one text, and so each line of it is determined by
/// the configuration and the packets. It says so of a reason that memory was not refused for, and
/// of what is found over all orders, if both find the same. If that is the yes of another order, it
/// says so of one order.
pub fn each_recording_is_explained_in_one_way()
    ensures { RecordingsAreExplainedInOneWay }
{
    each_reason_has_one_text();
    made_records_are_read();
    recordings_are_made_once();
    records_have_just_one_verdict();
}

/// In the plain form the lines that [`decode_recording`](crate::decode_recording) writes are those
/// of the records, each by itself, whatever packets show them.
pub fn each_record_has_one_plain_line()
    ensures { PlainLines }
{}
