//! Laws of what is explained, each on a function that answers nothing.

ghost use Rattle.std.specs.Prelude.{◌≤◌, length};
ghost use Rattle.bgp_explain.specs.Capture.{HasOneText};
ghost use Rattle.bgp_explain.specs.LastReceived.{LastReceivedIsTold};
ghost use Rattle.bgp_explain.specs.Laws.{CouldHaveStood, HasOneReason, NamesWhatLacks};
ghost use Rattle.bgp_explain.specs.Laws.{TellsWhatIsOwed};

use bgp_judge::records_have_just_one_verdict;
use bgp_open::{Config, Link};
use bgp_parts::{clean_lacks_nothing, own_open_lacks_nothing, possible_lacks_nothing};
use bgp_reason::{each_message_can_be_heard, each_no_has_a_reason, records_tell_one_by_one};
use bgp_tool::each_capture_has_one_verdict;
use bgp_update::subcodes_are_sets;
use mrt::each_record_is_allowed;
use std::alloc::Allocator;

/// Of a no it is told which records could have stood in the place of the first impossible one: each
/// of those that are told, and no other. The impossible one is none of them, and there is one.
pub fn what_could_have_stood_is_told()
    ensures { CouldHaveStood }
{
    each_no_has_a_reason();
}

/// Where the first impossible record is a message that was received, from a header's length on, it
/// isn't told that one could have been received there, and so what is owed is told. `link` is the
/// one on which a message is sent that follows the records before it. What is run decides what the
/// message is, and nothing of it is answered; it says the same where memory is refused.
pub fn a_no_at_a_message_tells_what_is_owed<A: Allocator + Copy>(
    alloc: A,
    config: &Config,
    link: Option<Link>,
    octets: &[u8],
)
    ensures { 19 ≤ length octets.now → TellsWhatIsOwed config.now link octets.now }
{
    each_message_can_be_heard(alloc, config, link, octets);
}

/// Where a no tells an item that the impossible record resembles, it names a part at least that
/// this lacks of it, if it is a whole message.
pub fn a_no_names_what_lacks()
    ensures { NamesWhatLacks }
{
    own_open_lacks_nothing();
    possible_lacks_nothing();
    clean_lacks_nothing();
}

/// The record that is told as the message received last is the last one that was received since
/// Idle was told, and its octets are those of which it is told what they ask for. Where none is
/// told as such, none was received since then.
pub fn the_last_message_is_told()
    ensures { LastReceivedIsTold }
{
    records_tell_one_by_one();
}

/// What explains the verdict on a capture is one text, with one exit status. So it is the same with
/// every tracker, and each line of it is determined by the configuration and the records.
pub fn each_verdict_is_explained_in_one_way()
    ensures { HasOneText }
{
    each_capture_has_one_verdict();
    each_record_is_allowed();
    records_have_just_one_verdict();
    subcodes_are_sets();
}

/// What explains a verdict on records is one text, wherever they stand and in whichever style. So
/// each line of it is determined by the configuration, the records and their places.
pub fn each_reason_has_one_text()
    ensures { HasOneReason }
{
    each_record_is_allowed();
    subcodes_are_sets();
}
