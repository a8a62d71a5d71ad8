//! The entries of a way, made item by item.

ghost use Rattle.std.specs.Prelude.{◌≡◌, ◌++◌, ◌∷◌, [], IfOk, IfSome, IsSomeAnd, IsTrue, OnOk};
ghost use Rattle.std.specs.Prelude.{map};
ghost use Rattle.mrt.specs.Reader.{shown_of};
ghost use Rattle.bgp_recording.specs.Captured.{records_of};
ghost use Rattle.bgp_recording.specs.Changes.{led_by_end, led_by_left, state_then};
ghost use Rattle.bgp_recording.specs.Tells.{change, numbered_of, numbered_with};
ghost use Rattle.bgp_recording.specs.Told.{IsTold};
ghost use Rattle.bgp_orders.specs.Entries.{AreOfAWay, StaysUnderWay, numbered_of_way};
ghost use Rattle.bgp_orders.specs.Explained.{ShowARun};
ghost use Rattle.bgp_orders.specs.Tracks.{GoesOnBy, LeadsToLast};
ghost use Rattle.bgp_orders.specs.Turns.{first_spot};

use crate::counting::may_start;
use crate::leading::{led_by_end, led_by_left};
use crate::node::{Spot, first_spot};
use crate::search::{Ending, Search, Turn, state_then};
use bgp_machine::each_owed_want_can_be_met;
use bgp_prefix::Seconds;
use bgp_recording::{Entry, Exchange, Moment, State};
use mrt::Record;
use std::alloc::{AllocError, Allocator};

/// A step of a walk.
#[derive(Clone, Copy, Debug, PartialEq, Eq)]
pub(crate) enum Step {
    /// The next received message.
    Receive,
    /// The next sent message, or the end if no message is left to be sent.
    Pass,
}

/// The entries up to a spot.
#[derive(Drop)]
pub(crate) struct Course<'a, A: Allocator> {
    spot: Spot,
    entries: Vec<Entry<'a>, A>,
}

/// Appends the change to the state that is led to, if one is.
fn put_change<A: Allocator>(
    entries: &mut Vec<Entry<'_>, A>,
    moment: Moment,
    second: Seconds,
    state: State,
    led: Option<State>,
) -> Result<(), AllocError>
    ensures { OnOk result (map numbered_of entries.new.items
        ≡ map numbered_of entries.old.items ++ change moment second state led) }
{
    if let Some(led) = led {
        let record = Record::Change(second, state.number(), led.number());
        entries.push(Entry::new(moment, record))?;
    }
    Ok(())
}

/// Begins with the change from Idle to this state.
fn begun<'a, A: Allocator>(
    alloc: A,
    exchange: &Exchange<'_, 'a>,
    start: State,
) -> Result<Course<'a, A>, AllocError>
    ensures entries { IfOk result (λ course. map numbered_of course.entries.items
        ≡ numbered_of_way exchange.now start []) }
    ensures spot { IfOk result (λ course. course.spot ≡ first_spot exchange.now start) }
{
    let mut entries = Vec::new(alloc);
    let second = exchange.second;
    put_change(
        &mut entries,
        exchange.first_packet(),
        second,
        State::Idle,
        Some(start),
    )?;
    Ok(Course {
        spot: first_spot(exchange, start),
        entries,
    })
}

impl<'a, A: Allocator> Course<'a, A> {
    /// Appends a message's record, and right behind it the change to which it leads, if to one.
    fn put_message(&mut self, turn: Turn<'a>) -> Result<(), AllocError>
        ensures entries { OnOk result (map numbered_of self.new.entries.items
            ≡ map numbered_of self.old.entries.items
            ++ numbered_with turn.entry.moment (shown_of turn.entry.record)
            ∷ change turn.entry.moment turn.entry.spot.last self.old.spot.state turn.entry.led) }
        ensures spot { OnOk result (self.new.spot ≡ turn.entry.spot) }
    {
        let state = self.spot.state;
        self.entries.push(Entry::new(turn.moment, turn.record))?;
        put_change(
            &mut self.entries,
            turn.moment,
            turn.spot.last,
            state,
            turn.led,
        )?;
        self.spot = turn.spot;
        Ok(())
    }

    /// Appends the changes to which the end leads.
    fn put_end(&mut self, ending: Ending) -> Result<(), AllocError>
        ensures entries { OnOk result (map numbered_of self.new.entries.items
            ≡ map numbered_of self.old.entries.items
            ++ (change ending.moment ending.spot.last self.old.spot.state
            (led_by_end self.old.spot.state)
            ++ change ending.moment ending.spot.last
            (state_then self.old.spot.state (led_by_end self.old.spot.state))
            (led_by_left self.old.spot.state ending.are_left))) }
        ensures spot { OnOk result (self.new.spot ≡ ending.spot) }
    {
        let state = self.spot.state;
        let second = ending.spot.last;
        let led = led_by_end(state);
        let ended = state_then(state, led);
        let left = led_by_left(state, ending.are_left);
        put_change(&mut self.entries, ending.moment, second, state, led)?;
        put_change(&mut self.entries, ending.moment, second, ended, left)?;
        self.spot = ending.spot;
        Ok(())
    }

    /// Appends what the next received message shows. Returns whether it may stand next.
    fn hear(&mut self, search: &Search<'_, 'a>) -> Result<bool, AllocError>
        ensures way { IfOk result (λ may. IsTrue may
            → StaysUnderWay search.now.within search.now.exchange self.old self.new) }
        ensures along { IfOk result (λ may. GoesOnBy search.now.config search.now.within
            search.now.exchange Step.Receive may self.old self.new) }
    {
        let Some(turn) = search.hearing(self.spot) else {
            return Ok(false);
        };
        self.put_message(turn)?;
        Ok(true)
    }

    /// Appends what the next sent message shows, or the end if no message is left to be sent.
    /// Returns whether it may stand next.
    fn pass(&mut self, search: &Search<'_, 'a>) -> Result<bool, AllocError>
        ensures way { IfOk result (λ may. IsTrue may
            → StaysUnderWay search.now.within search.now.exchange self.old self.new) }
        ensures along { IfOk result (λ may. GoesOnBy search.now.config search.now.within
            search.now.exchange Step.Pass may self.old self.new) }
    {
        if let Some(turn) = search.saying(self.spot) {
            self.put_message(turn)?;
            return Ok(true);
        }
        let Some(ending) = search.ending(self.spot) else {
            return Ok(false);
        };
        self.put_end(ending)?;
        Ok(true)
    }

    /// Appends what a step shows. Returns whether the step may come next.
    fn take(&mut self, search: &Search<'_, 'a>, step: Step) -> Result<bool, AllocError>
        ensures way { IfOk result (λ may. IsTrue may
            → StaysUnderWay search.now.within search.now.exchange self.old self.new) }
        ensures along { IfOk result (λ may. GoesOnBy search.now.config search.now.within
            search.now.exchange step may self.old self.new) }
    {
        match step {
            Step::Receive => self.hear(search),
            Step::Pass => self.pass(search),
        }
    }
}

/// Returns the entries of the way that begins in this state and takes these steps. Returns `None`
/// if no way does: a session may not begin so, a step may not come next, or something is left. If
/// they lead to a node where nothing is left and a member has shown all, they are those of a run.
pub(crate) fn entries_along<'a, A: Allocator>(
    alloc: A,
    search: &Search<'_, 'a>,
    start: State,
    steps: &[Step],
) -> Result<Option<Vec<Entry<'a>, A>>, AllocError>
    ensures way { IfOk result (λ found. IfSome found (λ entries. IsTold search.now.exchange
        → AreOfAWay search.now.within search.now.exchange entries.items)) }
    ensures run { LeadsToLast search.now.config search.now.within search.now.exchange start
        steps.now → IfOk result (λ found. IsSomeAnd found (λ entries.
        ShowARun search.now.config (records_of entries.items))) }
{
    each_owed_want_can_be_met();
    if !may_start(&search.exchange, start) {
        return Ok(None);
    }
    let mut course = begun(alloc, &search.exchange, start)?;
    for step in steps {
        if !course.take(search, *step)? {
            return Ok(None);
        }
    }
    if !search.is_done(course.spot) {
        return Ok(None);
    }
    Ok(Some(course.entries))
}
