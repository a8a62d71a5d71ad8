//! How what is told of a capture is counted.

ghost use Rattle.std.specs.Prelude.{◌≡◌, []};
ghost use Rattle.bgp_check_lines.specs.Tally.{no_tally};
ghost use Rattle.bgp_check_capture_tool.specs.Counted.{with_fault};
ghost use Rattle.bgp_check_capture_tool.specs.Firsts.{AreApart, with_first};

use crate::firsts::{NUMBERS, add_first};
use arrayvec::ArrayVec;
use bgp_check_lines::{Tally, fault_status};
use mrt::CaptureFault;

/// The tally with a refusal more, if there is one.
fn with_fault(tally: Tally, fault: Option<CaptureFault>) -> Tally
    ensures { result ≡ with_fault tally fault }
{
    match fault {
        Some(fault) => tally.with_refusal(fault_status(fault.kind)),
        None => tally,
    }
}

/// What is counted of a capture.
#[derive(Drop)]
pub(crate) struct Counted {
    /// Its ends and its refusals.
    pub(crate) tally: Tally,
    /// The refusals, of each number the first, in their order. None of them is `None`.
    pub(crate) refusals: ArrayVec<Option<CaptureFault>, NUMBERS>,
}

impl Counted {
    /// Nothing so far.
    pub(crate) fn new() -> Counted
        ensures tally { result.tally ≡ no_tally }
        ensures refusals { result.refusals.items ≡ [] }
    {
        Counted {
            tally: Tally::new(),
            refusals: ArrayVec::new(),
        }
    }

    /// Counts a refusal more, if there is one.
    pub(crate) fn add_fault(&mut self, fault: Option<CaptureFault>)
        requires { AreApart self.old.refusals.items }
        ensures tallied { self.new.tally ≡ with_fault self.old.tally fault }
        ensures added { self.new.refusals.items ≡ with_first self.old.refusals.items fault }
        ensures apart { AreApart self.new.refusals.items }
    {
        self.tally = with_fault(self.tally, fault);
        add_first(&mut self.refusals, fault);
    }
}
