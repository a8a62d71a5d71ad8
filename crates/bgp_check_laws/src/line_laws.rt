//! Laws of the lines that `check` puts: the objects of each determine its text, and its texts are
//! visible (`IsPutLine`). What a line is made of has the types that it has where it is put.

ghost use Rattle.std.specs.Prelude.{◌+◌, map};
ghost use Rattle.mrt_sessions.specs.Located.{located};
ghost use Rattle.bgp_judge.specs.Ends.{end_value};
ghost use Rattle.bgp_ended.specs.Stretch.{ended_stretch_value};
ghost use Rattle.bgp_ended.specs.Values.{outline_value};
ghost use Rattle.bgp_list.specs.Lines.{AllRefused, Octets, Refused};
ghost use Rattle.bgp_check_text.specs.Reached.{reached_value};
ghost use Rattle.bgp_check_lines.specs.Values.{AllOrders, AnotherOrder, Counts, HasSession};
ghost use Rattle.bgp_check_lines.specs.Values.{InMadeOrder, IsCutShort, IsEnded, IsIncomplete};
ghost use Rattle.bgp_check_lines.specs.Values.{IsLate, IsNo, IsNotRead, IsOpen, IsUnfinished};
ghost use Rattle.bgp_check_lines.specs.Values.{IsUnjudged, IsUnnamed, IsYes, Lists, NoRecord};
ghost use Rattle.bgp_check_lines.specs.Values.{NothingAt, OneOrder, PassesOver, RefusesCapture};
ghost use Rattle.bgp_check_lines.specs.Values.{RefusesFile, Repeats};
ghost use Rattle.bgp_verdict_laws.specs.Numbers.{Fits};
ghost use Rattle.bgp_visible_laws.specs.Visible.{IsVisible};
ghost use Rattle.bgp_check_laws.specs.Deeds.{DeedsAreVisible, SentDeedsAreVisible};
ghost use Rattle.bgp_check_laws.specs.Reasons.{ReasonsAreLines};
ghost use Rattle.bgp_check_laws.specs.Visible.{IsPutLine};

use crate::fits::{
    endings_are, how_is, name_is, opening_is, outline_is, peer_fits, place_fits, port_fits,
    reached_is, records_are, refusal_is,
};
use bgp_check::{NotJudged, PeerAs};
use bgp_check_text::{EndName, JudgeOptions, Reached, Tally};
use bgp_ended::{EndedStretch, Outline};
use bgp_import::Refusal;
use bgp_judge::End;
use bgp_prefix::{Seconds, Session};
use bgp_values::Direction;
use bgp_why::{Endpoint, Place};
use mrt::CaptureFault;
use mrt_sessions::{Addresses, NamedRecord};
use segments::Addresses as Pair;
use std::alloc::Allocator;
use streams::Opening;

/// States that a yes is a line whose objects determine its text, with its possible ends, and with
/// their routes if they are asked for.
pub fn each_yes_is_lines<A: Allocator>(
    routes: bool,
    name: EndName,
    peer: PeerAs,
    reached: &Reached<A>,
    ends: &[End<A>],
)
    ensures { IsPutLine
        (IsYes routes name peer (reached_value reached.now) (map end_value ends.now)) }
{
    name_is(name);
    peer_fits(peer);
    reached_is(reached);
    endings_are(ends);
}

/// States that a no is a line whose object determines its text, if what was done is visible; and so
/// is what is unfinished.
pub fn each_verdict_is_a_line(place: Place, name: EndName, deed: &[u8])
    ensures no { IsVisible deed.now → IsPutLine (IsNo place name deed.now) }
    ensures unfinished { IsPutLine (IsUnfinished place name) }
{
    place_fits(place);
    name_is(name);
}

/// States that what a no says was done is visible: of the impossible record, where messages are
/// octets, and of a message that no order explains.
pub fn each_deed_is_visible()
    ensures records { DeedsAreVisible }
    ensures messages { SentDeedsAreVisible }
{}

/// States that an end that isn't judged is a line whose object determines its text; and so is one
/// without an AS number, if the words on why are visible.
pub fn each_unjudged_is_a_line(
    name: EndName,
    why: NotJudged,
    end: Endpoint,
    part: Option<(u64, u64)>,
    words: &str,
)
    ensures named { IsPutLine (IsUnjudged name why) }
    ensures unnamed { IsVisible words.now → IsPutLine (IsUnnamed end part words.now) }
{
    name_is(name);
    port_fits(end);
}

/// States that the objects of a reason's lines determine their text, if the lines are such as
/// `judge` puts, with numbers of 64 bits.
pub fn each_reason_is_lines()
    ensures { ReasonsAreLines }
{}

/// States that what the impossible record of the made order shows was done is a line whose object
/// determines its text, if it is visible.
pub fn each_made_order_is_a_line(first: Seconds, deed: &[u8], place: Place)
    ensures { IsVisible deed.now → IsPutLine (InMadeOrder first deed.now place) }
{
    place_fits(place);
}

/// States that each note on what isn't judged and on orders is a line whose object determines its
/// text; and so is the command that reproduces a verdict.
pub fn each_note_is_a_line(
    direction: Direction,
    count: usize,
    at: usize,
    is_refresh: bool,
    within: u16,
    is_yes: bool,
    options: JudgeOptions,
)
    ensures passed_over { IsPutLine (PassesOver direction count) }
    ensures incomplete { IsPutLine (IsIncomplete direction count) }
    ensures not_read { IsPutLine (IsNotRead direction at count is_refresh) }
    ensures one_order { IsPutLine (OneOrder count) }
    ensures another_order { IsPutLine AnotherOrder }
    ensures all_orders { IsPutLine AllOrders }
    ensures late { IsPutLine (IsLate within is_yes) }
    ensures repeats { IsPutLine (Repeats options) }
{}

/// States that how the session of a capture ended is a line whose object determines its text; and
/// so is that it is open.
pub fn each_ending_is_a_line(
    first: Seconds,
    number: u64,
    micro: Option<u32>,
    by: Endpoint,
    ended: EndedStretch<'_>,
)
    ensures ended { IsPutLine (IsEnded first number micro by (ended_stretch_value ended.entry)) }
    ensures open { IsPutLine IsOpen }
{
    port_fits(by);
    how_is(ended.how);
}

/// States that a connection is a line whose object determines its text; and so is one that is
/// refused, two addresses of whose connections none can be told, and why a recording can't be read
/// on.
pub fn each_connection_is_a_line(
    session: Session,
    opening: Opening,
    outline: Outline<'_>,
    first: usize,
    second: usize,
    addresses: Pair,
    refusal: Refusal,
)
    ensures outlined { IsPutLine
        (Lists (Octets session opening (outline_value outline.entry) first second)) }
    ensures refused { IsPutLine (Lists (Refused session opening refusal)) }
    ensures between { IsPutLine (Lists (AllRefused addresses refusal)) }
    ensures file { IsPutLine (RefusesFile refusal) }
{
    opening_is(opening);
    outline_is(outline);
    refusal_is(refusal);
}

/// States that a capture's session is a line whose object determines its text; and so is why a
/// capture can't be read on.
pub fn each_session_is_a_line(
    addresses: Addresses,
    records: &[NamedRecord<'_>],
    fault: CaptureFault,
)
    ensures session { IsPutLine (HasSession addresses (map located records.now)) }
    ensures fault { IsPutLine (RefusesCapture fault) }
{
    records_are(records);
}

/// States that what is said of a whole file is a line whose object determines its text: the counts
/// of verdicts, if their sum has 64 bits.
pub fn each_total_is_a_line(packet: u64, port: u16, tally: Tally)
    ensures cut_short { IsPutLine (IsCutShort packet) }
    ensures nothing { IsPutLine (NothingAt port) }
    ensures no_record { IsPutLine NoRecord }
    ensures counts { Fits (tally.yes + tally.no + tally.unfinished + tally.not_judged)
        → IsPutLine (Counts tally) }
{}
