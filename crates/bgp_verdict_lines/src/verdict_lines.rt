//! Lines of verdicts on their way to a sink.

ghost use Rattle.std.specs.Prelude.{◌≡◌, ◌<◌, ◌⊎◌, [], IsFalse, IsTrue, OnErr, OnOk};
ghost use Rattle.bgp_text.specs.Lines.{Writes};
ghost use Rattle.bgp_json_verdicts.specs.Status.{code_of};
ghost use Rattle.bgp_verdict_lines.specs.Teller.{Starts, StartsBehind, teller_status};

use crate::form::VerdictForm;
use crate::teller::VerdictTeller;
use bgp_json_verdicts::{Status, hand_over};
use bgp_text::Lines;
use mrt::{Failed, Sink};
use std::alloc::Allocator;

/// Lines of verdicts on their way to a sink, in one form.
#[derive(Drop)]
pub struct VerdictLines<'a, A: Allocator, W: Sink> {
    pub(crate) lines: Lines<'a, W>,
    pub(crate) teller: VerdictTeller,
    /// For the objects, and the texts in them.
    pub(crate) alloc: A,
}

impl<'a, A: Allocator + Copy, W: Sink> VerdictLines<'a, A, W> {
    /// Starts before the first verdict.
    pub fn new(form: VerdictForm, alloc: A, sink: &'a mut W) -> VerdictLines<'a, A, W>
        requires { W.failures sink.old < u64.MAX }
        ensures same { result.lines.outlet.sink.ghost_name ≡ sink.entry.ghost_name }
        ensures now { result.lines.outlet.sink.now ≡ sink.old }
        ensures fresh { IsFalse result.lines.outlet.has_failed }
        ensures empty { result.lines.held.items ≡ [] }
        ensures starts { Starts form result.teller }
    {
        VerdictLines {
            lines: Lines::new(sink),
            teller: VerdictTeller::new(form),
            alloc,
        }
    }

    /// Starts in JSON behind so many verdicts, the last of which has no ends yet.
    pub fn behind(judged: u64, alloc: A, sink: &'a mut W) -> VerdictLines<'a, A, W>
        requires { W.failures sink.old < u64.MAX }
        ensures same { result.lines.outlet.sink.ghost_name ≡ sink.entry.ghost_name }
        ensures now { result.lines.outlet.sink.now ≡ sink.old }
        ensures fresh { IsFalse result.lines.outlet.has_failed }
        ensures empty { result.lines.held.items ≡ [] }
        ensures starts { StartsBehind judged result.teller }
    {
        VerdictLines {
            lines: Lines::new(sink),
            teller: VerdictTeller::behind(judged),
            alloc,
        }
    }

    /// Returns the sink, as the last call left it: what is still held is lost.
    pub fn into_sink(self) -> &'a mut W
        ensures { result ≡ self.entry.lines.outlet.sink }
    {
        self.lines.into_sink()
    }

    /// Hands over the lines, and tells whether the sink has taken all of them.
    pub fn hand_over(&mut self) -> Result<(), Failed>
        ensures teller { self.new.teller ≡ self.old.teller }
        ensures writes { Writes self.old.lines self.new.lines [] }
        ensures none { self.new.lines.held.items ≡ [] }
        ensures ok { OnOk result (IsFalse self.new.lines.outlet.has_failed) }
        ensures err { OnErr result (IsTrue self.new.lines.outlet.has_failed) }
    {
        self.lines.hand_over()
    }

    /// Hands over the lines, and returns the exit status of what has this one, or that of memory if
    /// it was refused for an object, or that of a device if the sink failed.
    pub fn finish(&mut self, status: Status) -> Status
        ensures writes { Writes self.old.lines self.new.lines [] }
        ensures none { self.new.lines.held.items ≡ [] }
        ensures told { (IsFalse self.new.lines.outlet.has_failed
            × (code_of result ≡ teller_status self.old.teller (code_of status)))
            ⊎ (IsTrue self.new.lines.outlet.has_failed × (code_of result ≡ 5)) }
    {
        let status = self.teller.status(status);
        hand_over(&mut self.lines, status)
    }
}
