//! Lists of whole members, and what becomes of them by one record more.

ghost use Rattle.std.specs.Prelude.{◌≡◌, ◌≢◌, ◌↔◌, [], OnOk, IfOk, IsTrue, option_copied};
ghost use Rattle.bgp_machine.specs.Changes.{RouteChanges};
ghost use Rattle.bgp_machine.specs.Listed.{changes_of};
ghost use Rattle.bgp_machine.specs.State.{state_value};
ghost use Rattle.mrt.specs.Reader.{shown_of};
ghost use Rattle.bgp_judge.specs.Member.{Member, IsFree};
ghost use Rattle.bgp_judge.specs.Next.{Continues, Next};
ghost use Rattle.bgp_judge.specs.Plain.{
  Among,
  AreApart,
  Gains,
  StartsAt,
  StartsFrom,
  member_value,
  opened_member,
};

use crate::member::{PlainMember, copy_of, link_for};
use crate::opening::openings;
use crate::unshown::{Unshown, pay};
use bgp_machine::{Changes, Head, State, Step, silent_steps};
use bgp_open::Config;
use mrt::Record;
use std::alloc::{AllocError, Allocator};

/// Checks whether the member is in the list.
fn has<A: Allocator>(members: &[PlainMember<A>], member: &PlainMember<A>) -> bool
    ensures { IsTrue result ↔ Among members.now (member_value member.now) }
{
    for x in members {
        if x.is_same(member) {
            return true;
        }
    }
    false
}

/// Checks whether there is a member.
pub(crate) fn has_some<A: Allocator>(members: &[PlainMember<A>]) -> bool
    ensures { IsTrue result ↔ (members.now ≢ []) }
{
    !members.is_empty()
}

/// Adds a member, if it isn't in the list yet.
fn add<A: Allocator + Copy>(
    members: &mut Vec<PlainMember<A>, A>,
    member: PlainMember<A>,
) -> Result<(), AllocError>
    ensures { OnOk result (Gains members.old.items members.new.items
        (λ m. m ≡ member_value member)) }
{
    if has(members.as_slice(), &member) {
        return Ok(());
    }
    members.push(member)?;
    Ok(())
}

/// Adds what a step from a head makes of a state.
fn add_step<A: Allocator + Copy>(
    state: &State<A>,
    head: Head,
    step: Step,
    changes: Option<&Changes<A>>,
    members: &mut Vec<PlainMember<A>, A>,
) -> Result<(), AllocError>
    ensures { OnOk result (Gains members.old.items members.new.items
        (λ m. m ≡ opened_member (state_value state.now) head
        (changes_of (option_copied changes.entry)) step)) }
{
    let mut after = copy_of(state)?;
    after.take(step.after, changes)?;
    let member = PlainMember {
        state: after,
        link: link_for(step.wants, head.link()),
        unshown: Unshown {
            wants: step.wants,
            change: step.change,
        },
    };
    add(members, member)
}

/// Adds what the steps that the record opens from a head make of a state.
fn add_openings<A: Allocator + Copy>(
    alloc: A,
    config: &Config,
    state: &State<A>,
    head: Head,
    shown: &Record<'_>,
    members: &mut Vec<PlainMember<A>, A>,
) -> Result<(), AllocError>
    ensures { OnOk result (Gains members.old.items members.new.items
        (StartsAt config.now (shown_of shown.now) (state_value state.now) head)) }
{
    let opened = openings(alloc, config, head, shown)?;
    let changes = opened.changes.as_ref();
    for step in opened.steps.as_slice() {
        add_step(state, head, *step, changes, members)?;
    }
    Ok(())
}

/// Adds what the steps that the record opens make of a state, with steps that show nothing first.
fn add_starts<A: Allocator + Copy>(
    alloc: A,
    config: &Config,
    state: &State<A>,
    shown: &Record<'_>,
    members: &mut Vec<PlainMember<A>, A>,
) -> Result<(), AllocError>
    ensures { OnOk result (Gains members.old.items members.new.items
        (StartsFrom config.now (shown_of shown.now) (state_value state.now))) }
{
    let heads = silent_steps(config, state.head);
    for head in heads.as_slice() {
        add_openings(alloc, config, state, *head, shown, members)?;
    }
    Ok(())
}

/// Adds the member as the record leaves it, if its last step shows the record next.
fn add_continued<A: Allocator + Copy>(
    config: &Config,
    member: &PlainMember<A>,
    shown: &Record<'_>,
    members: &mut Vec<PlainMember<A>, A>,
) -> Result<(), AllocError>
    ensures { OnOk result (Gains members.old.items members.new.items
        (Continues config.now (shown_of shown.now) (member_value member.now))) }
{
    let Some(left) = pay(config, member.link, member.unshown, shown) else {
        return Ok(());
    };
    let continued = PlainMember {
        state: copy_of(&member.state)?,
        link: link_for(left.wants, member.link),
        unshown: left,
    };
    add(members, continued)
}

/// Adds what the record makes of a member.
fn add_next<A: Allocator + Copy>(
    alloc: A,
    config: &Config,
    member: &PlainMember<A>,
    shown: &Record<'_>,
    members: &mut Vec<PlainMember<A>, A>,
) -> Result<(), AllocError>
    ensures { OnOk result (Gains members.old.items members.new.items
        (Next config.now (shown_of shown.now) (member_value member.now))) }
{
    if member.is_free() {
        add_starts(alloc, config, &member.state, shown, members)
    } else {
        add_continued(config, member, shown, members)
    }
}

/// Returns what one more record makes of all members, each once: a step of the judge. With the
/// members that some records lead to, these are the ones that they lead to with this record
/// ([law](crate::a_member_is_reached)).
pub fn next_members<A: Allocator + Copy>(
    alloc: A,
    config: &Config,
    members: &[PlainMember<A>],
    shown: &Record<'_>,
) -> Result<Vec<PlainMember<A>, A>, AllocError>
    ensures next { IfOk result (λ next. (m2 : Member) → Among next.items m2
        ↔ ((m : Member) × Among members.now m × Next config.now (shown_of shown.now) m m2)) }
    ensures apart { IfOk result (λ next. AreApart next.items) }
{
    let mut next = Vec::new(alloc);
    for member in members {
        add_next(alloc, config, member, shown, &mut next)?;
    }
    Ok(next)
}
