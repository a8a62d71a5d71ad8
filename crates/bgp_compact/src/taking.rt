//! What becomes of the members by one record more.

ghost use Rattle.std.specs.Prelude.{◌≡◌, ◌∷◌, [], false, IfOk, IsErr, IsOk, IsSome, IsTrue};
ghost use Rattle.std.specs.Prelude.{MatchOption, OnErr, OnOk};
ghost use Rattle.bgp_machine.specs.declared.fsm.Fsm.TheVariants as fsms;
ghost use Rattle.bgp_machine.specs.Going.{shown_after, told, undelayed};
ghost use Rattle.bgp_machine.specs.Listed.{changes_of};
ghost use Rattle.bgp_machine.specs.Rows.{silent_heads};
ghost use Rattle.bgp_machine.specs.Run.{is_delayed};
ghost use Rattle.bgp_machine.specs.State.{fsm_of};
ghost use Rattle.bgp_rib.specs.Routes.{Routes, AreRoutes, routes_after};
ghost use Rattle.mrt.specs.Reader.{shown_of};
ghost use Rattle.bgp_judge.specs.Image.{IsImage};
ghost use Rattle.bgp_judge.specs.Openings.{ListTakesMemory};
ghost use Rattle.bgp_compact.specs.Members.{IsMember};
ghost use Rattle.bgp_compact.specs.Memory.{BaseTakesMemory};
ghost use Rattle.bgp_compact.specs.Parts.{AreFine};
ghost use Rattle.bgp_compact.specs.Standing.{IsTableOf};
ghost use Rattle.bgp_compact.specs.Steps.{AreBehind, AreFresh, FromHead, FromLate, Gains, HasSome};
ghost use Rattle.bgp_compact.specs.Steps.{AreMade, AreMadeAt, IsAnnounced, table_behind};

use crate::base::{Base, free_base};
use crate::beginning::with_steps;
use crate::paying::paid;
use crate::words::Words;
use arrayvec::ArrayVec;
use bgp_judge::list_openings;
use bgp_machine::{Fsm, Head, Want, meets};
use bgp_open::Config;
use bgp_rib::RibIn;
use bgp_update::Changes;
use mrt::Record;
use std::alloc::{AllocError, Allocator, Global};

/// What a record leaves: the words, and the changes that the table is to take.
#[derive(Drop)]
pub(crate) struct Left<A: Allocator = Global> {
    /// The words.
    pub words: Words,
    /// The changes.
    pub changes: Option<Changes<A>>,
}

/// The head with its OPEN delayed, where that may have begun unseen.
fn delayed(config: &Config, head: Head) -> Option<Head>
    requires { is_delayed head ≡ false }
    ensures { MatchOption result (silent_heads config.now head ≡ head ∷ [])
        (λ late. silent_heads config.now head ≡ head ∷ late ∷ []) }
{
    if !config.parts.delay_open {
        return None;
    }
    match head {
        Head::Connect(_) => Some(Head::Connect(true)),
        Head::Active(_) => Some(Head::Active(true)),
        _ => None,
    }
}

/// Adds what the record makes of the members of the base.
fn add_base<A: Allocator + Copy>(
    alloc: A,
    config: &Config,
    base: Base,
    shown: &Record<'_>,
    words: Words,
) -> Result<Left<A>, AllocError>
    requires some { HasSome base }
    requires behind { AreBehind config.now (undelayed base.head) (shown_of shown.now) words }
    ensures behind { IfOk result (λ left.
        AreBehind config.now (undelayed base.head) (shown_of shown.now) left.words) }
    ensures gains { IfOk result (λ left. (table : Routes) → AreRoutes table → AreFresh base table
        → Gains words left.words (routes_after (changes_of left.changes) table)
        (FromHead config.now base (shown_of shown.now) table)) }
    ensures given { IfOk result (λ left. IsSome left.changes
        → fsm_of base.head ≡ fsms.Established) }
    ensures made { IfOk result (λ left.
        AreMadeAt config.now base.head (shown_of shown.now) left.changes) }
    ensures memory { IsErr result → ListTakesMemory base.head (shown_of shown.now) }
{
    let mut steps = ArrayVec::new();
    let changes = list_openings(alloc, config, base.head, shown, &mut steps)?;
    Ok(Left {
        words: with_steps(base, steps.as_slice(), words),
        changes,
    })
}

/// Adds what it makes of them where their OPEN was delayed unseen.
fn add_delayed<A: Allocator + Copy>(
    alloc: A,
    config: &Config,
    base: Base,
    shown: &Record<'_>,
    left: Left<A>,
) -> Result<Left<A>, AllocError>
    requires some { HasSome base }
    requires at_once { is_delayed base.head ≡ false }
    requires behind { AreBehind config.now (undelayed base.head) (shown_of shown.now) left.words }
    requires given { IsSome left.changes → fsm_of base.head ≡ fsms.Established }
    ensures behind { IfOk result (λ next.
        AreBehind config.now (undelayed base.head) (shown_of shown.now) next.words) }
    ensures gains { IfOk result (λ next. (table : Routes) → AreRoutes table
        → Gains left.words next.words (routes_after (changes_of next.changes) table)
        (FromLate config.now base (shown_of shown.now) table)) }
    ensures changes { IfOk result (λ next. next.changes ≡ left.changes) }
    ensures memory { IsOk result }
{
    let Some(head) = delayed(config, base.head) else {
        return Ok(left);
    };
    let late = Base {
        head,
        sets: base.sets,
    };
    let next = add_base(alloc, config, late, shown, left.words)?;
    Ok(Left {
        words: next.words,
        changes: left.changes,
    })
}

/// Whether the record is an UPDATE that is sent in Established and may be, and no member falls: then
/// all stay as they are, and so nothing has to be made of them. Most records of who sends routes are.
fn is_announced(config: &Config, words: Words, base: Base, shown: &Record<'_>) -> bool
    ensures { IsTrue result → IsAnnounced config.now words base (shown_of shown.now) }
{
    match (base.head, *shown) {
        (Head::Established(link, _), Record::Out(_, octets)) => {
            words.falls.is_empty() && meets(config, Some(link), Want::CleanUpdate, octets)
        }
        _ => false,
    }
}

/// What the record makes of all members.
pub(crate) fn after_record<A: Allocator + Copy>(
    alloc: A,
    config: &Config,
    words: Words,
    shown: &Record<'_>,
) -> Result<Left<A>, AllocError>
    requires { AreFine words }
    ensures fine { IfOk result (λ left. AreFine left.words) }
    ensures shown { IfOk result (λ left.
        left.words.shown ≡ shown_after words.shown (told (shown_of shown.now))) }
    ensures made { IfOk result (λ left.
        AreMade config.now words (shown_of shown.now) left.changes) }
    ensures image { IfOk result (λ left. (table : Routes) → IsTableOf words table
        → IsImage config.now (shown_of shown.now) (IsMember words table)
        (IsMember left.words (routes_after (changes_of left.changes) table))) }
    ensures memory { IsErr result → BaseTakesMemory words (shown_of shown.now) }
{
    let Some(base) = free_base(words) else {
        return Ok(Left {
            words: paid(config, words, shown),
            changes: None,
        });
    };
    if is_announced(config, words, base, shown) {
        return Ok(Left {
            words,
            changes: None,
        });
    }
    let next = paid(config, words, shown);
    let left = add_base(alloc, config, base, shown, next)?;
    add_delayed(alloc, config, base, shown, left)
}

/// Makes of the table what it is behind the record: a session that ends leaves no route.
pub(crate) fn follow<A: Allocator + Copy>(
    table: &mut RibIn<A>,
    left: &Left<A>,
) -> Result<(), AllocError>
    ensures ok { OnOk result (table.new
        ≡ table_behind left.now.words.shown (changes_of left.now.changes) table.old) }
    ensures err { OnErr result (table.new ≡ table.old) }
    ensures memory { IsErr result → IsSome left.now.changes }
{
    if left.words.shown == Fsm::Idle {
        table.clear();
        return Ok(());
    }
    match &left.changes {
        Some(changes) => table.apply(changes),
        None => Ok(()),
    }
}
