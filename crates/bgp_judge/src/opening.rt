//! The steps that a record opens.

ghost use Rattle.std.specs.Prelude.{◌≡◌, ◌↔◌, ◌<◌, ◌≤◌, ◌+◌, IfOk, IsErr, IsSome, MatchOption};
ghost use Rattle.std.specs.Prelude.{IsTrue, None, OnErr, [], length};
ghost use Rattle.arrayvec.specs.ArrayVec.{array_vec_len};
ghost use Rattle.bgp_prefix.specs.Shown.{second_of};
ghost use Rattle.bgp_machine.specs.Listed.{ListsHidden, MakesChanges, changes_of, no_changes};
ghost use Rattle.bgp_machine.specs.Lists.{Has};
ghost use Rattle.bgp_machine.specs.State.{link_at};
ghost use Rattle.mrt.specs.Reader.{shown_of};
ghost use Rattle.bgp_judge.specs.Openings.{IsAnnouncement, IsOpened, IsOwn, Keeps, ListTakesMemory};
ghost use Rattle.bgp_judge.specs.Openings.{ListsOpenings, unshown_of};
ghost use Rattle.bgp_judge.specs.Unshown.{PaysNothing};

use crate::unshown::{Unshown, pay};
use arrayvec::ArrayVec;
use bgp_machine::{
    Changes, Head, HiddenRow, MOST_STEPS, Step, hidden_step, hidden_steps, list_message_steps,
};
use bgp_open::Config;
use bgp_prefix::Seconds;
use mrt::Record;
use std::alloc::{AllocError, Allocator, Global};

/// The steps that a record opens: those that show it first.
#[derive(Drop)]
pub struct OpenedSteps<A: Allocator = Global> {
    /// The steps, with what each has left to show after the record.
    pub steps: ArrayVec<Step, MOST_STEPS>,
    /// The changes of the record's UPDATE, for the steps whose routes are
    /// [given](bgp_machine::Routes::Given); `None` if there is no such step.
    pub changes: Option<Changes<A>>,
}

/// Returns the step with what is left to show after the record, if the record opens it.
fn opened(config: &Config, head: Head, step: Step, shown: &Record<'_>) -> Option<Step>
    ensures { MatchOption result
        (PaysNothing config.now (link_at head) (shown_of shown.now) (unshown_of step))
        (λ left. IsOpened config.now head (shown_of shown.now) step left) }
{
    let unshown = Unshown {
        wants: step.wants,
        change: step.change,
    };
    let left = pay(config, head.link(), unshown, shown)?;
    Some(Step {
        wants: left.wants,
        change: left.change,
        after: step.after,
    })
}

/// Adds the step as the record leaves it, if the record opens it.
fn add_opened(
    config: &Config,
    head: Head,
    step: Step,
    shown: &Record<'_>,
    steps: &mut ArrayVec<Step, MOST_STEPS>,
)
    requires { array_vec_len steps.old < 8 }
    ensures kept { Keeps config.now head (shown_of shown.now) step steps.old.items steps.new.items }
    ensures count { array_vec_len steps.new ≤ array_vec_len steps.old + 1 }
{
    if let Some(left) = opened(config, head, step, shown) {
        steps.push(left);
    }
}

/// Lists those of a state's own steps that the record opens.
fn own_openings(
    config: &Config,
    head: Head,
    t: Seconds,
    steps: &[Step],
    shown: &Record<'_>,
    openings: &mut ArrayVec<Step, MOST_STEPS>,
)
    requires few { length steps.now ≤ 8 }
    requires hidden { ListsHidden config.now head t steps.now }
    requires own { IsOwn (shown_of shown.now) }
    requires second { second_of (shown_of shown.now) ≡ t }
    requires none { openings.old.items ≡ [] }
    ensures { ListsOpenings config.now head (shown_of shown.now) no_changes openings.new.items }
{
    for step in steps {
        add_opened(config, head, *step, shown, openings);
    }
}

/// Checks whether the record is a message sent in Established whose header says that it is an
/// UPDATE.
#[tactic(auto, using(crate::proofs::Announced::type_at))]
fn is_announcement(head: Head, shown: &Record<'_>) -> bool
    ensures { IsTrue result ↔ IsAnnouncement head (shown_of shown.now) }
{
    match (head, *shown) {
        (Head::Established(_, _), Record::Out(_, octets)) => octets.len() > 18 && octets[18] == 2,
        _ => false,
    }
}

/// Lists the step that such a record opens: the one that sends routes, if the UPDATE is clean. No
/// other step of a state's own sends an UPDATE.
fn announced(
    config: &Config,
    head: Head,
    t: Seconds,
    shown: &Record<'_>,
    openings: &mut ArrayVec<Step, MOST_STEPS>,
)
    requires announcement { IsAnnouncement head (shown_of shown.now) }
    requires second { second_of (shown_of shown.now) ≡ t }
    requires none { openings.old.items ≡ [] }
    ensures { ListsOpenings config.now head (shown_of shown.now) no_changes openings.new.items }
{
    if let Some(step) = hidden_step(config, head, t, HiddenRow::Announces) {
        add_opened(config, head, step, shown, openings);
    }
}

/// Lists the steps that the record opens and that aren't about a message. Returns that no changes
/// stand beside them.
fn hidden_openings<A: Allocator>(
    config: &Config,
    head: Head,
    t: Seconds,
    shown: &Record<'_>,
    openings: &mut ArrayVec<Step, MOST_STEPS>,
) -> Option<Changes<A>>
    requires own { IsOwn (shown_of shown.now) }
    requires second { second_of (shown_of shown.now) ≡ t }
    requires none { openings.old.items ≡ [] }
    ensures exact { ListsOpenings config.now head (shown_of shown.now) (changes_of result)
        openings.new.items }
    ensures none { result ≡ None }
    ensures kept { Has MakesChanges openings.new.items → ⊥ }
{
    if is_announcement(head, shown) {
        announced(config, head, t, shown, openings);
        return None;
    }
    let steps = hidden_steps(config, head, t);
    own_openings(config, head, t, steps.as_slice(), shown, openings);
    None
}

/// Lists what [`openings`] lists, in a list that is empty, and returns the changes beside the
/// steps. A list has many octets, which this doesn't move. If memory is refused, the list stays
/// empty.
pub fn list_openings<A: Allocator + Copy>(
    alloc: A,
    config: &Config,
    head: Head,
    shown: &Record<'_>,
    steps: &mut ArrayVec<Step, MOST_STEPS>,
) -> Result<Option<Changes<A>>, AllocError>
    requires { steps.old.items ≡ [] }
    ensures exact { IfOk result (λ changes. ListsOpenings config.now head (shown_of shown.now)
        (changes_of changes) steps.new.items) }
    ensures given { IfOk result (λ changes. IsSome changes ↔ Has MakesChanges steps.new.items) }
    ensures memory { IsErr result → ListTakesMemory head (shown_of shown.now) }
    ensures err { OnErr result (steps.new ≡ steps.old) }
{
    match *shown {
        Record::In(t, octets) => list_message_steps(alloc, config, head, t, octets, steps),
        Record::Out(t, _) => Ok(hidden_openings(config, head, t, shown, steps)),
        Record::Change(t, _, _) => Ok(hidden_openings(config, head, t, shown, steps)),
    }
}

/// Returns the steps that a record opens from this head, just those that show it first, with what
/// each has left to show after it. Takes memory only for an UPDATE received in Established that may
/// be applied.
pub fn openings<A: Allocator + Copy>(
    alloc: A,
    config: &Config,
    head: Head,
    shown: &Record<'_>,
) -> Result<OpenedSteps<A>, AllocError>
    ensures exact { IfOk result (λ o. ListsOpenings config.now head (shown_of shown.now)
        (changes_of o.changes) o.steps.items) }
    ensures given { IfOk result (λ o. IsSome o.changes ↔ Has MakesChanges o.steps.items) }
    ensures memory { IsErr result → ListTakesMemory head (shown_of shown.now) }
{
    let mut steps = ArrayVec::new();
    let changes = list_openings(alloc, config, head, shown, &mut steps)?;
    Ok(OpenedSteps { steps, changes })
}
