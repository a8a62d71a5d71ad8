//! What the reason of a no of the made order says of other orders.

ghost use Rattle.bgp_judge.specs.Verdict.{verdict_value};
ghost use Rattle.bgp_recording.specs.Gathered.{IsClocked, IsCovered};
ghost use Rattle.bgp_check_tool.specs.Instead.{AreInsteadFor};

use crate::ending::Viewed;
use crate::making::Made;
use crate::orders::NoOrder;
use bgp_check::Judged;
use bgp_instead::other_orders;
use bgp_judge::Verdict;
use bgp_why::OtherOrders;
use std::alloc::Allocator;

/// Returns what the reason of this verdict on the made order says of other orders, where no order
/// explains this sent message.
pub(crate) fn instead_of<A: Allocator + Copy>(
    alloc: A,
    viewed: &Viewed<'_>,
    made: &Made<'_, A>,
    about: &Judged<A>,
    found: &NoOrder<'_>,
) -> OtherOrders
    requires received { IsCovered viewed.now.connection.received }
    requires sent { IsCovered viewed.now.connection.sent }
    ensures { IsClocked viewed.now.connection → AreInsteadFor viewed.now.options.within
        made.now.framings viewed.now.connection made.now.recording.entries.items about.now.under
        (verdict_value about.now.verdict) found.now.unexplained.before result }
{
    let Verdict::No(count) = &about.verdict else {
        return OtherOrders::Unasked;
    };
    let (config, within, before) = (
        &about.under,
        viewed.options.within,
        found.unexplained.before,
    );
    let (entries, count) = (made.recording.entries.as_slice(), *count as usize);
    other_orders(
        alloc,
        config,
        &viewed.connection,
        made.framings,
        within,
        before,
        entries,
        count,
    )
}
