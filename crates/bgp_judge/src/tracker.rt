//! A keeper of the explanations of a session's records, one record after another.

ghost use Rattle.std.specs.Prelude.{◌↔◌, ◌++◌, ◌∷◌, [], List, IsTrue, IfOk, OnErr, map};
ghost use Rattle.bgp_prefix.specs.Shown.{ShownRecord};
ghost use Rattle.bgp_open.specs.declared.config.Config.{Config as TheConfig};
ghost use Rattle.bgp_machine.specs.Run.{Begins};
ghost use Rattle.mrt.specs.Reader.{shown_of};
ghost use Rattle.bgp_judge.specs.Ends.{ListsEnds, end_value};

use crate::end::End;
use bgp_open::Config;
use mrt::Record;
use std::alloc::{AllocError, Allocator};

/// A keeper of the explanations of a session's records, one record after another.
pub trait Tracker<A: Allocator + Copy>: Drop {
    /// Says for which configuration and which records the tracker stands, by what it holds now.
    ghost stands_for: { Self → TheConfig → List ShownRecord → Type 0 };

    /// Says under which configuration the tracker may lack memory before it took any record.
    ghost may_lack_at_start: { TheConfig → Type 0 };

    /// Says after which records, under a configuration, the tracker may lack memory for one more.
    ghost may_lack: { TheConfig → List ShownRecord → ShownRecord → Type 0 };

    /// Returns a tracker that stands for no record. Memory is refused only where the tracker may
    /// lack it at the start.
    fn start(alloc: A, config: &Config) -> Result<Self, AllocError>
        ensures start { IfOk result (λ tracker. stands_for tracker config.now []) }
        ensures memory { OnErr result (may_lack_at_start config.now) };

    /// Takes one more record, and returns whether the records begin a run of the session machine.
    /// If they don't, or if memory is refused, the tracker stands for what it stood for. Memory is
    /// refused only where the tracker may lack it.
    fn take(&mut self, shown: &Record<'_>) -> Result<bool, AllocError>
        ensures alive { (config : TheConfig) (records : List ShownRecord)
            → stands_for self.old config records
            → IfOk result (λ alive. IsTrue alive
            ↔ Begins config (records ++ shown_of shown.now ∷ [])) }
        ensures next { (config : TheConfig) (records : List ShownRecord)
            → stands_for self.old config records
            → IfOk result (λ alive. IsTrue alive
            → stands_for self.new config (records ++ shown_of shown.now ∷ [])) }
        ensures kept { (config : TheConfig) (records : List ShownRecord)
            → stands_for self.old config records
            → IfOk result (λ alive. ¬ IsTrue alive → stands_for self.new config records) }
        ensures err { (config : TheConfig) (records : List ShownRecord)
            → stands_for self.old config records
            → OnErr result (stands_for self.new config records) }
        ensures memory { (config : TheConfig) (records : List ShownRecord)
            → stands_for self.old config records
            → OnErr result (may_lack config records (shown_of shown.now)) };

    /// Checks whether the records with this one after them begin a run: what `take` would return.
    /// The tracker stays as it is.
    fn may_take(&self, shown: &Record<'_>) -> Result<bool, AllocError>
        ensures may { (config : TheConfig) (records : List ShownRecord)
            → stands_for self.now config records
            → IfOk result (λ may. IsTrue may
            ↔ Begins config (records ++ shown_of shown.now ∷ [])) }
        ensures memory { (config : TheConfig) (records : List ShownRecord)
            → stands_for self.now config records
            → OnErr result (may_lack config records (shown_of shown.now)) };

    /// Lists all ends of the runs that show just the records, each once, in the order of their
    /// disabled families: none, IPv4, IPv6, both.
    fn ends(&self) -> Result<Vec<End<A>, A>, AllocError>
        ensures { (config : TheConfig) (records : List ShownRecord)
            → stands_for self.now config records
            → IfOk result (λ ends. ListsEnds config records (map end_value ends.items)) };
}
