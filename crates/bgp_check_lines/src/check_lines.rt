//! Lines of `check` on their way to a sink.

ghost use Rattle.std.specs.Prelude.{◌≡◌, ◌<◌, ◌⊎◌, [], IsFalse, IsTrue, OnErr, OnOk};
ghost use Rattle.bgp_text.specs.Lines.{Writes};
ghost use Rattle.bgp_tool.specs.Status.{code_of};
ghost use Rattle.bgp_check_lines.specs.Teller.{Starts, teller_status};

use crate::teller::LineTeller;
use bgp_check_text::VerdictForm;
use bgp_text::Lines;
use bgp_tool::{Status, hand_over};
use mrt::{Failed, Sink};
use std::alloc::Allocator;

/// Lines of `check` on their way to a sink, in one form.
#[derive(Drop)]
pub struct CheckLines<'a, A: Allocator, W: Sink> {
    pub(crate) lines: Lines<'a, W>,
    pub(crate) teller: LineTeller,
    /// For the objects, and the texts in them.
    pub(crate) alloc: A,
}

impl<'a, A: Allocator + Copy, W: Sink> CheckLines<'a, A, W> {
    /// Starts before the first line.
    pub fn new(form: VerdictForm, alloc: A, sink: &'a mut W) -> CheckLines<'a, A, W>
        requires { W.failures sink.old < u64.MAX }
        ensures same { result.lines.outlet.sink.ghost_name ≡ sink.entry.ghost_name }
        ensures now { result.lines.outlet.sink.now ≡ sink.old }
        ensures fresh { IsFalse result.lines.outlet.has_failed }
        ensures empty { result.lines.held.items ≡ [] }
        ensures starts { Starts form result.teller }
    {
        CheckLines {
            lines: Lines::new(sink),
            teller: LineTeller::new(form),
            alloc,
        }
    }

    /// Returns the sink, as the last call left it: what is still held is lost.
    pub fn into_sink(self) -> &'a mut W
        ensures { result ≡ self.entry.lines.outlet.sink }
    {
        self.lines.into_sink()
    }

    /// Hands over the lines, and tells whether the sink has taken all of them.
    pub fn hand_over(&mut self) -> Result<(), Failed>
        ensures teller { self.new.teller ≡ self.old.teller }
        ensures writes { Writes self.old.lines self.new.lines [] }
        ensures none { self.new.lines.held.items ≡ [] }
        ensures ok { OnOk result (IsFalse self.new.lines.outlet.has_failed) }
        ensures err { OnErr result (IsTrue self.new.lines.outlet.has_failed) }
    {
        self.lines.hand_over()
    }

    /// Hands over the lines, and returns the exit status of what has this one, or that of memory if
    /// it was refused for an object, or that of a device if the sink failed.
    pub fn finish(&mut self, status: Status) -> Status
        ensures writes { Writes self.old.lines self.new.lines [] }
        ensures none { self.new.lines.held.items ≡ [] }
        ensures told { (IsFalse self.new.lines.outlet.has_failed
            × (code_of result ≡ teller_status self.old.teller (code_of status)))
            ⊎ (IsTrue self.new.lines.outlet.has_failed × (code_of result ≡ 5)) }
    {
        let status = self.teller.status(status);
        hand_over(&mut self.lines, status)
    }
}
