//! The compact tracker.

ghost use Rattle.std.specs.Prelude.{◌≡◌, ◌≢◌, ◌↔◌, ◌++◌, ◌∷◌, [], List, IsTrue, IsOk, IfOk};
ghost use Rattle.std.specs.Prelude.{OnErr, map};
ghost use Rattle.bgp_prefix.specs.Shown.{ShownRecord};
ghost use Rattle.bgp_open.specs.declared.config.Config.{Config as TheConfig};
ghost use Rattle.bgp_machine.specs.Run.{Begins};
ghost use Rattle.mrt.specs.Reader.{shown_of};
ghost use Rattle.bgp_judge.specs.Ends.{ListsEnds, end_value};
ghost use Rattle.bgp_judge.specs.Member.{Member};
ghost use Rattle.bgp_machine.specs.declared.fsm.Fsm.TheVariants as fsms;
ghost use Rattle.bgp_judge.specs.Told.{told};
ghost use Rattle.bgp_rib.specs.Routes.{Routes, no_routes};
ghost use Rattle.bgp_compact.specs.Members.{IsMember};
ghost use Rattle.bgp_compact.specs.Memory.{TakesMemory};
ghost use Rattle.bgp_compact.specs.Parts.{AreFine};
ghost use Rattle.bgp_compact.specs.Standing.{fresh_words};
ghost use Rattle.bgp_compact.specs.Table.{IsTableMade};

use crate::applying::applied;
use crate::base::free_base;
use crate::disabled::DisabledSets;
use crate::ending::ends_of;
use crate::falls::{Fall, Falls};
use crate::taking::{after_record, follow};
use crate::words::Words;
use bgp_judge::{End, Tracker};
use bgp_machine::{Fsm, Head, Wants, each_owed_want_can_be_met};
use bgp_open::Config;
use bgp_rib::{RibIn, changes_leave_routes};
use mrt::Record;
use std::alloc::{AllocError, Allocator, Global};

/// A tracker that holds a fixed number of words and one table of routes, however many records it
/// took.
#[derive(Drop)]
pub struct CompactTracker<A: Allocator = Global> {
    alloc: A,
    config: Config,
    words: Words,
    table: RibIn<A>,
    ghost fine: { AreFine words },
}

/// The words of the fresh state alone.
fn fresh_words() -> Words
    ensures { result ≡ fresh_words }
{
    Words {
        shown: Fsm::Idle,
        left: Fsm::Idle,
        head: Head::Idle,
        wants: Wants::Nothing,
        sets: DisabledSets::empty(),
        falls: Falls::none().with(Fall::Silent),
    }
}

/// Whether there is a member.
fn is_alive(words: Words) -> bool
    ensures yes { IsTrue result → (table : Routes) → (m : Member) × IsMember words table m }
    ensures no { ¬ IsTrue result → (table : Routes) (m : Member) → ¬ IsMember words table m }
{
    if !words.falls.is_empty() {
        return true;
    }
    match words.shown {
        Fsm::Idle => false,
        _ => !words.sets.is_empty(),
    }
}

impl<A: Allocator + Copy> CompactTracker<A> {
    ghost use Rattle.bgp_compact.specs.Standing.{Stands};

    /// The one table of routes that it holds. Where it stands for records, that is the table which
    /// these make (`specs/Table`), however many they are; it is empty unless they end in
    /// Established.
    pub fn table(&self) -> &RibIn<A>
        ensures made { (config : TheConfig) (records : List ShownRecord)
            → Stands config self.now.words self.now.table records
            → IsTableMade config records result.now }
        ensures empty { (config : TheConfig) (records : List ShownRecord)
            → Stands config self.now.words self.now.table records
            → (told records).fsm ≢ fsms.Established → result.now ≡ no_routes }
    {
        &self.table
    }
}

impl<A: Allocator + Copy> Tracker<A> for CompactTracker<A> {
    ghost use Rattle.bgp_compact.specs.Standing.{TrackerStands};

    ghost stands_for = { λ tracker config records.
        TrackerStands tracker.config tracker.words tracker.table config records };

    ghost may_lack_at_start = { λ config. ⊥ };

    ghost may_lack = { λ config records shown. TakesMemory config records shown };

    /// A tracker that stands for no record. It takes no memory.
    fn start(alloc: A, config: &Config) -> Result<CompactTracker<A>, AllocError>
        ensures start { IfOk result (λ tracker.
            TrackerStands tracker.config tracker.words tracker.table config.now []) }
        ensures memory { IsOk result }
    {
        changes_leave_routes();
        Ok(CompactTracker {
            alloc,
            config: *config,
            words: fresh_words(),
            table: RibIn::new(alloc),
        })
    }

    /// Takes one record more, as every tracker. Only an UPDATE takes memory that is received in
    /// Established, while nothing is owed, and that may be applied.
    fn take(&mut self, shown: &Record<'_>) -> Result<bool, AllocError>
        ensures alive { (config : TheConfig) (records : List ShownRecord)
            → TrackerStands self.old.config self.old.words self.old.table config records
            → IfOk result (λ alive. IsTrue alive
            ↔ Begins config (records ++ shown_of shown.now ∷ [])) }
        ensures next { (config : TheConfig) (records : List ShownRecord)
            → TrackerStands self.old.config self.old.words self.old.table config records
            → IfOk result (λ alive. IsTrue alive
            → TrackerStands self.new.config self.new.words self.new.table config
            (records ++ shown_of shown.now ∷ [])) }
        ensures kept { (config : TheConfig) (records : List ShownRecord)
            → TrackerStands self.old.config self.old.words self.old.table config records
            → IfOk result (λ alive. ¬ IsTrue alive
            → TrackerStands self.new.config self.new.words self.new.table config records) }
        ensures err { (config : TheConfig) (records : List ShownRecord)
            → TrackerStands self.old.config self.old.words self.old.table config records
            → OnErr result
            (TrackerStands self.new.config self.new.words self.new.table config records) }
        ensures memory { (config : TheConfig) (records : List ShownRecord)
            → TrackerStands self.old.config self.old.words self.old.table config records
            → OnErr result (TakesMemory config records (shown_of shown.now)) }
    {
        each_owed_want_can_be_met();
        if let Some(update) = applied(self.alloc, &self.config, &self.words, shown)? {
            self.table.apply(&update.changes)?;
            self.words.apply(update.head);
            return Ok(true);
        }
        let left = after_record(self.alloc, &self.config, self.words, shown)?;
        if !is_alive(left.words) {
            return Ok(false);
        }
        follow(&mut self.table, &left)?;
        self.words = left.words;
        Ok(true)
    }

    /// Whether it may take the record, as every tracker. It takes memory where `take` does, alone.
    fn may_take(&self, shown: &Record<'_>) -> Result<bool, AllocError>
        ensures may { (config : TheConfig) (records : List ShownRecord)
            → TrackerStands self.now.config self.now.words self.now.table config records
            → IfOk result (λ may. IsTrue may
            ↔ Begins config (records ++ shown_of shown.now ∷ [])) }
        ensures memory { (config : TheConfig) (records : List ShownRecord)
            → TrackerStands self.now.config self.now.words self.now.table config records
            → OnErr result (TakesMemory config records (shown_of shown.now)) }
    {
        each_owed_want_can_be_met();
        let after = after_record(self.alloc, &self.config, self.words, shown)?;
        Ok(is_alive(after.words))
    }

    fn ends(&self) -> Result<Vec<End<A>, A>, AllocError> {
        match free_base(self.words) {
            Some(base) => ends_of(self.alloc, base, &self.table),
            None => Ok(Vec::new(self.alloc)),
        }
    }
}
