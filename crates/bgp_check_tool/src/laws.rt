//! Laws of what is told of an end, each on a function that does nothing.

ghost use Rattle.bgp_check_tool.specs.Alone.{EachConnectionIsTold, EachRefusalIsTold};
ghost use Rattle.bgp_check_tool.specs.Headline.{NoConfigurationHasARun, NoOrderHasARun};
ghost use Rattle.bgp_check_tool.specs.Headline.{NoneIsWhole, NothingIsVacuous, OneOrderHasACause};
ghost use Rattle.bgp_check_tool.specs.Headline.{ToldNoHasNoRun, VerdictIsOverAll};
ghost use Rattle.bgp_check_tool.specs.Headings.{HeadingsAreTheList, ListIsWithoutEnds};
ghost use Rattle.bgp_check_tool.specs.Orders.{UnexplainedByAll, UnfinishedByAll};
ghost use Rattle.bgp_check_tool.specs.Quiet.{QuietKeepsTrouble};
ghost use Rattle.bgp_check_tool.specs.Repeated.{LineGivesTheVerdict};

use bgp_check::{
    a_verdict_holds_under_its_configuration, no_configuration_explains_a_no, own_faults_are_all,
    widest_configurations_are_enough, widest_configurations_without_open_are_enough,
    widest_settings_are_widest,
};

/// A no of [`check_recording`](crate::check_recording) says that no configuration under which the
/// router's OPEN is its own has a run that shows these records: none shows even those before the
/// one that it names, and that one. So it is of each no in a block that is told of a recording.
pub fn no_configuration_has_a_run()
    ensures end { NoConfigurationHasARun }
    ensures told { ToldNoHasNoRun }
{
    no_configuration_explains_a_no();
}

/// States what a no over all orders says: under no configuration under which the OPEN that the end
/// sent is its own, and in no order that the packets allow, a run of the session machine explains a
/// sent message that this packet is the first to show, and all before it. If the OPEN is any
/// configuration's own, under one of them a run explains those before it, in some such order. If it
/// isn't, the message is that OPEN at the latest.
pub fn no_order_has_a_run()
    ensures found { UnexplainedByAll }
    ensures end { NoOrderHasARun }
{
    own_faults_are_all();
    widest_configurations_are_enough();
    widest_configurations_without_open_are_enough();
    widest_settings_are_widest();
}

/// States what is unfinished over all orders: under no configuration under which the OPEN that the
/// end sent is its own, and in no order that the packets allow, a run of the session machine shows
/// just the end's records. Under one of these configurations, in some such order, a run explains
/// all that the end sent.
pub fn no_order_is_whole()
    ensures found { UnfinishedByAll }
    ensures end { NoneIsWhole }
{
    own_faults_are_all();
    widest_configurations_are_enough();
    widest_configurations_without_open_are_enough();
    widest_settings_are_widest();
}

/// The verdict that is told of an end is the one over all configurations under which the OPEN that
/// it sent is its own, where that has no own fault; or unfinished over all orders, too.
pub fn a_verdict_is_over_all_configurations()
    ensures { VerdictIsOverAll }
{
    no_order_is_whole();
}

/// States why a no or an unfinished is about one order, if it isn't known to hold over all: under
/// one of the end's widest configurations the search over all orders reaches more nodes than it
/// looks at, and under the other, if there is one, it does so too or no order is whole; or memory is
/// refused for that search, which the end's [mark](crate::EndMark) says.
pub fn one_order_is_told_for_a_cause()
    ensures { OneOrderHasACause }
{}

/// A verdict is told only of an end that sent a message, and of records that begin where it leaves
/// Idle: no yes is vacuous.
pub fn no_verdict_is_vacuous()
    ensures { NothingIsVacuous }
{}

/// [`check_recording`](crate::check_recording), which tells what stands at each packet at which
/// there is something to tell, tells each connection in a recording, and each two addresses of
/// whose connections none can be told; and that their packets rise says that it tells each once.
pub fn each_of_them_is_told()
    ensures told { EachConnectionIsTold }
    ensures refused { EachRefusalIsTold }
{}

/// States that without the lines of its ends, what [`check_recording`](crate::check_recording)
/// prints of the connections is the list of the recording: each connection, and each pair of
/// addresses whose packets can't be read, has just the line that `bgp list` has of it, in the same
/// order, and there are no others. So it is if nothing is left out (`quiet`), and memory isn't
/// refused for anything. What `check_recording` prints after the connections (that the file is cut
/// short, how many ends there are) is no part of this.
pub fn without_its_ends_it_is_the_list()
    ensures lines { ListIsWithoutEnds }
    ensures all { HeadingsAreTheList }
{}

/// Where only what isn't well is told (`quiet`), what is printed of each connection is what is
/// printed of it otherwise, without some pieces. All lines of an end that is a no or unfinished are
/// kept, and of a refusal.
pub fn quiet_keeps_what_is_not_well()
    ensures { QuietKeepsTrouble }
{}

/// The line with the options of `bgp judge` gives the verdict that is told before it: framed as
/// `judge` frames it by these options, the connection has just the records that were judged, and
/// under their configuration these have that verdict. If no order explains a sent message, they
/// have a no under it, and over all orders that the packets allow the no under it is at that
/// message.
/// `judge` refuses none for a ROUTE-REFRESH, and is asked for the connection as it has to be.
pub fn a_judge_line_gives_the_verdict()
    ensures { LineGivesTheVerdict }
{
    a_verdict_holds_under_its_configuration();
}
