//! Records appended to those that are made already.

ghost use Rattle.std.specs.Prelude.{◌≡◌, ◌++◌, ◌∷◌, OnOk, map};
ghost use Rattle.bgp_recording.specs.Moments.{entry_moment};
ghost use Rattle.bgp_recording.specs.Tells.{change, numbered_of};

use crate::entry::Entry;
use crate::pending::Moment;
use crate::state::State;
use bgp_prefix::Seconds;
use mrt::Record;
use std::alloc::{AllocError, Allocator};

/// When a change of state is shown: the packet of what led to it, and the second at which the order
/// handles that.
#[derive(Clone, Copy)]
pub(crate) struct Shown {
    pub(crate) moment: Moment,
    pub(crate) second: Seconds,
}

/// Appends the change to the state that is led to, if one is.
pub(crate) fn put_change<A: Allocator>(
    entries: &mut Vec<Entry<'_>, A>,
    shown: Shown,
    state: State,
    led: Option<State>,
) -> Result<(), AllocError>
    ensures { OnOk result (map numbered_of entries.new.items
        ≡ map numbered_of entries.old.items ++ change shown.moment shown.second state led) }
{
    if let Some(led) = led {
        let record = Record::Change(shown.second, state.number(), led.number());
        entries.push(Entry::new(shown.moment, record))?;
    }
    Ok(())
}

/// Appends a message's record at this second, and right after it the change to the state that is
/// led to, if one is.
pub(crate) fn put_message<'a, A: Allocator>(
    entries: &mut Vec<Entry<'a>, A>,
    entry: Entry<'a>,
    second: Seconds,
    state: State,
    led: Option<State>,
) -> Result<(), AllocError>
    ensures { OnOk result (map numbered_of entries.new.items
        ≡ map numbered_of entries.old.items
        ++ numbered_of entry.entry ∷ change (entry_moment entry.entry) second state led) }
{
    let shown = Shown {
        moment: entry.moment(),
        second,
    };
    entries.push(entry)?;
    put_change(entries, shown, state, led)?;
    Ok(())
}
